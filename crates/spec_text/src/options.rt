//! The options of a rule.

ghost use Rattle.std.specs.Prelude.{◌≡◌};
ghost use Rattle.std.specs.Option.{option_map};
ghost use Rattle.spec_text.specs.OptionSteps.{plain_options, IsNextOption};
ghost use Rattle.base_model.specs.ConfigSpecs.Lines.{no_options, option_named, with_time, with_nocheckout, with_mkbranch, options_from};

use base_model::config_specs::Named;
use cc_names::cuts::Words;

/// The options of a rule as they stand, with the words after them.
#[derive(Clone, Copy)]
pub(crate) struct Options<'a> {
    pub time: Option<&'a [u8]>,
    pub nocheckout: bool,
    pub mkbranch: Option<&'a [u8]>,
}

fn option_named(word: &[u8]) -> Named
    ensures { result ≡ option_named word.now }
{
    if word == b"-time".as_slice() {
        Named::Time
    } else if word == b"-nocheckout".as_slice() {
        Named::NoCheckout
    } else if word == b"-mkbranch".as_slice() {
        Named::MkBranch
    } else {
        Named::Unknown
    }
}

fn with_time<'a>(options: Options<'a>, word: &'a [u8]) -> Option<Options<'a>>
    ensures { option_map plain_options result ≡ with_time word.now (plain_options options.entry) }
{
    match options.time {
        Some(_) => None,
        None => Some(Options {
            time: Some(word),
            ..options
        }),
    }
}

fn with_nocheckout<'a>(options: Options<'a>) -> Option<Options<'a>>
    ensures { option_map plain_options result ≡ with_nocheckout (plain_options options.entry) }
{
    if options.nocheckout {
        return None;
    }
    Some(Options {
        nocheckout: true,
        ..options
    })
}

fn with_mkbranch<'a>(options: Options<'a>, word: &'a [u8]) -> Option<Options<'a>>
    ensures { option_map plain_options result
        ≡ with_mkbranch word.now (plain_options options.entry) }
{
    match options.mkbranch {
        Some(_) => None,
        None => Some(Options {
            mkbranch: Some(word),
            ..options
        }),
    }
}

/// The option that a word names with the word after it that it takes, beside others.
fn next_option<'a>(options: Options<'a>, word: &[u8], words: &mut Words<'a>) -> Option<Options<'a>>
    ensures { IsNextOption word.now words.old (plain_options options.entry) words.new
        (option_map plain_options result) }
{
    match option_named(word) {
        Named::NoCheckout => with_nocheckout(options),
        Named::Time => with_time(options, words.next()?),
        Named::MkBranch => with_mkbranch(options, words.next()?),
        Named::Unknown => None,
    }
}

/// The options that the words that are left spell, or nothing where one of them spells none.
pub(crate) fn read_options<'a>(mut words: Words<'a>) -> Option<Options<'a>>
    ensures { option_map plain_options result ≡ options_from words.entry no_options }
{
    let mut options = Options {
        time: None,
        nocheckout: false,
        mkbranch: None,
    };
    while let Some(word) = words.next() {
        options = next_option(options, word, &mut words)?;
    }
    Some(options)
}
