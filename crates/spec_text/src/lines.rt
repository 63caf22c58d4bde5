//! What one line of a config spec says.

ghost use Rattle.std.specs.Prelude.{◌≡◌, ◌<◌, ◌^◌, IfOk};
ghost use Rattle.std.specs.Option.{option_copied};
ghost use Rattle.cc_names.specs.Answers.{Gives};
ghost use Rattle.spec_text.specs.OptionSteps.{plain_options};
ghost use Rattle.base_model.specs.ConfigSpecs.Lines.{moment_of_word, before_of, rule_of, with_options, no_options, options_from, object_line, element_line, time_line, end_line, is_comment, line_of_words, line_of};

use crate::options::{Options, read_options};
use crate::patterns::read_pattern;
use crate::selectors::{read_branch_type, read_selector};
use base_model::config_specs::Line;
use cc_names::cuts::Words;
use cc_names::memory::Or;
use cc_names::refusals::SpecCause;
use cc_names::selection::Rule;
use std::alloc::Global;

fn moment(word: &[u8]) -> Result<u64, Or<SpecCause>>
    ensures { Gives result (moment_of_word word.now) }
{
    match date_text::read(word) {
        Ok(moment) => Ok(moment),
        Err(_) => Err(Or::Is(SpecCause::BadDate)),
    }
}

fn before(word: Option<&[u8]>, block: Option<u64>) -> Result<Option<u64>, Or<SpecCause>>
    ensures { Gives result (before_of (option_copied word.entry) block) }
{
    match word {
        None => Ok(block),
        Some(word) => Ok(Some(moment(word)?)),
    }
}

/// Where a line stands: its number, and the time of the innermost block around it.
#[derive(Clone, Copy)]
pub(crate) struct LineContext {
    pub line: u32,
    pub block: Option<u64>,
}

fn rule(
    alloc: Global,
    context: LineContext,
    pattern: &[u8],
    behind_config: bool,
    selector: &[u8],
    options: Options,
) -> Result<Line, Or<SpecCause>>
    ensures { Gives result
        (rule_of context.line context.block pattern.now behind_config selector.now
        (plain_options options.entry)) }
{
    let pattern = read_pattern(alloc, pattern)?;
    let selector = read_selector(alloc, behind_config, selector)?;
    let before = before(options.time, context.block)?;
    let mkbranch = read_branch_type(alloc, options.mkbranch)?;
    Ok(Line::Gives(Rule {
        line: context.line,
        pattern,
        selector,
        before,
        nocheckout: options.nocheckout,
        mkbranch,
    }))
}

fn rule_with_options(
    alloc: Global,
    context: LineContext,
    pattern: &[u8],
    behind_config: bool,
    selector: &[u8],
    words: Words<'_>,
) -> Result<Line, Or<SpecCause>>
    ensures { Gives result
        (with_options context.line context.block pattern.now behind_config selector.now
        (options_from words.entry no_options)) }
{
    match read_options(words) {
        None => Err(Or::Is(SpecCause::BadRule)),
        Some(options) => rule(alloc, context, pattern, behind_config, selector, options),
    }
}

fn object_line(
    alloc: Global,
    context: LineContext,
    pattern: &[u8],
    mut words: Words<'_>,
) -> Result<Line, Or<SpecCause>>
    ensures { Gives result (object_line context.line context.block pattern.now words.entry) }
{
    match words.next() {
        None => Err(Or::Is(SpecCause::BadRule)),
        Some(object) => rule_with_options(alloc, context, pattern, true, object, words),
    }
}

fn element_line(
    alloc: Global,
    context: LineContext,
    mut words: Words<'_>,
) -> Result<Line, Or<SpecCause>>
    ensures { Gives result (element_line context.line context.block words.entry) }
{
    let Some(pattern) = words.next() else {
        return Err(Or::Is(SpecCause::BadRule));
    };
    let Some(selector) = words.next() else {
        return Err(Or::Is(SpecCause::BadRule));
    };
    if selector == b"-config".as_slice() {
        return object_line(alloc, context, pattern, words);
    }
    rule_with_options(alloc, context, pattern, false, selector, words)
}

fn time_line(mut words: Words<'_>) -> Result<Line, Or<SpecCause>>
    ensures { Gives result (time_line words.entry) }
{
    let Some(date) = words.next() else {
        return Err(Or::Is(SpecCause::BadRule));
    };
    match words.next() {
        Some(_) => Err(Or::Is(SpecCause::BadRule)),
        None => Ok(Line::BeginsBlock(moment(date)?)),
    }
}

fn end_line(mut words: Words<'_>) -> Result<Line, Or<SpecCause>>
    ensures { Gives result (end_line words.entry) }
{
    let Some(word) = words.next() else {
        return Err(Or::Is(SpecCause::BadRule));
    };
    match words.next() {
        None if word == b"time".as_slice() => Ok(Line::EndsBlock),
        _ => Err(Or::Is(SpecCause::BadRule)),
    }
}

fn is_comment(word: &[u8]) -> bool
    ensures { result ≡ is_comment word.now }
{
    matches!(word, [b'#', ..])
}

/// What a line says, or why it is none, in time linear in its bytes.
pub(crate) fn read_spec_line(
    alloc: Global,
    context: LineContext,
    bytes: &[u8],
) -> Result<Line, Or<SpecCause>>
    ensures { Gives result (line_of context.line context.block bytes.now) }
{
    let mut words = Words::of(bytes);
    let Some(word) = words.next() else {
        return Ok(Line::Skipped);
    };
    if is_comment(word) {
        Ok(Line::Skipped)
    } else if word == b"element".as_slice() {
        element_line(alloc, context, words)
    } else if word == b"time".as_slice() {
        time_line(words)
    } else if word == b"end".as_slice() {
        end_line(words)
    } else {
        Err(Or::Is(SpecCause::BadRule))
    }
}
