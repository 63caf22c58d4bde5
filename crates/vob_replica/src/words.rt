//! What single words of a text of sites say.

ghost use Rattle.std.specs.Prelude.{◌≡◌, ◌<◌, length, IfSome};
ghost use Rattle.std.specs.List.{list_all, position};
ghost use Rattle.cc_names.specs.Answers.{Gives};
ghost use Rattle.vob_replica.specs.Words.{replica_name_word, identity_word, number_word, text_word, is_word_byte, is_colon};

use crate::events::{Identity, SiteCause};
use cc_names::memory::Or;
use cc_names::names::{Name, type_name};
use cc_names::numbers::number;
use cc_names::texts::Text;
use std::alloc::Global;

/// A word as the name of a site, a packet or a branch.
pub(crate) fn replica_name_word(alloc: Global, word: &[u8]) -> Result<Name, Or<SiteCause>>
    ensures { Gives result (replica_name_word word.now) }
{
    match type_name(alloc, word)? {
        Some(name) => Ok(name),
        None => Err(Or::Is(SiteCause::BadWord)),
    }
}

fn first_colon(word: &[u8]) -> Option<usize>
    ensures place { result ≡ position is_colon word.now }
    ensures within { IfSome result (λ place. place < length word.now) }
{
    word.iter().position(|byte| *byte == b':')
}

/// A word as the number of a version or an operation.
pub(crate) fn number_word(word: &[u8]) -> Result<u64, Or<SiteCause>>
    ensures { Gives result (number_word word.now) }
{
    match number(word) {
        Some(number) => Ok(number),
        None => Err(Or::Is(SiteCause::BadWord)),
    }
}

/// A word as an identity, `SITE:NUMBER`.
pub(crate) fn identity_word(alloc: Global, word: &[u8]) -> Result<Identity, Or<SiteCause>>
    ensures { Gives result (identity_word word.now) }
{
    let Some(place) = first_colon(word) else {
        return Err(Or::Is(SiteCause::BadWord));
    };
    let site = replica_name_word(alloc, &word[..place])?;
    let number = number_word(&word[place + 1..])?;
    Ok(Identity { site, number })
}

fn is_word_byte(byte: u8) -> bool
    ensures { result ≡ is_word_byte byte }
{
    matches!(byte, 33..=126)
}

fn is_word(word: &[u8]) -> bool
    ensures { result ≡ list_all is_word_byte word.now }
{
    word.iter().all(|byte| is_word_byte(*byte))
}

/// A word as a text.
pub(crate) fn text_word(alloc: Global, word: &[u8]) -> Result<Text, Or<SiteCause>>
    ensures { Gives result (text_word word.now) }
{
    if !is_word(word) {
        return Err(Or::Is(SiteCause::BadWord));
    }
    Ok(Text::from_bytes(alloc, word)?)
}
