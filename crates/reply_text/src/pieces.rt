//! The pieces of a line, written one after the other.

ghost use Rattle.std.specs.Prelude.{◌≡◌, ◌++◌, ◌∷◌, [], OnOk};
ghost use Rattle.std.specs.Fmt.{decimal};
ghost use Rattle.reply_text.specs.Words.{spaced_word, spaced_words, marked_text};

use cc_names::cuts::Lines;
use cc_names::memory::NoMemory;
use cc_names::numbers::push_number;
use std::alloc::Global;

/// Writes bytes as they are.
pub(crate) fn push_bytes(text: &mut Vec<u8>, bytes: &[u8]) -> Result<(), NoMemory>
    ensures { OnOk result (text.new.items ≡ text.old.items ++ bytes.now) }
{
    text.extend_from_slice(bytes)?;
    Ok(())
}

/// Writes a newline.
pub(crate) fn push_newline(text: &mut Vec<u8>) -> Result<(), NoMemory>
    ensures { OnOk result (text.new.items ≡ text.old.items ++ 10 ∷ []) }
{
    text.push(b'\n')?;
    Ok(())
}

/// Writes a space and a word.
pub(crate) fn push_word(text: &mut Vec<u8>, word: &[u8]) -> Result<(), NoMemory>
    ensures { OnOk result (text.new.items ≡ text.old.items ++ spaced_word word.now) }
{
    text.push(b' ')?;
    text.extend_from_slice(word)?;
    Ok(())
}

/// Writes a space and a number.
pub(crate) fn push_number_word(
    alloc: Global,
    text: &mut Vec<u8>,
    number: u64,
) -> Result<(), NoMemory>
    ensures { OnOk result (text.new.items ≡ text.old.items ++ spaced_word (decimal number)) }
{
    text.push(b' ')?;
    push_number(alloc, text, number)
}

/// Writes a text that is shown: each of its lines with `|` before it and a newline after it.
pub(crate) fn push_shown(text: &mut Vec<u8>, shown_text: &[u8]) -> Result<(), NoMemory>
    ensures { OnOk result (text.new.items ≡ text.old.items ++ marked_text shown_text.now) }
{
    let mut lines = Lines::of(shown_text);
    while let Some(line) = lines.next() {
        text.push(b'|')?;
        text.extend_from_slice(line)?;
        text.push(b'\n')?;
    }
    Ok(())
}
