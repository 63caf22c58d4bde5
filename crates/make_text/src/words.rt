//! The words of a line, and what a line is by its first bytes.

ghost use Rattle.std.specs.Prelude.{◌≡◌, IfOk, map};
ghost use Rattle.cc_names.specs.Cuts.{is_blank, words_of};
ghost use Rattle.make_grammar.specs.Lines.{is_script_line, is_blank_line};

use cc_names::cuts::{Words, is_blank};
use std::alloc::{AllocError, Global};

/// The words of some bytes. Takes time linear in the bytes.
pub(crate) fn words<'a>(alloc: Global, bytes: &'a [u8]) -> Result<Vec<&'a [u8]>, AllocError>
    ensures { IfOk result (λ found. map (λ word. word.now) found.items ≡ words_of bytes.now) }
{
    let mut found = Vec::new(alloc);
    let mut left = Words::of(bytes);
    while let Some(word) = left.next() {
        found.push(word)?;
    }
    Ok(found)
}

pub(crate) fn is_script_line(line: &[u8]) -> bool
    ensures { result ≡ is_script_line line.now }
{
    matches!(line.first(), Some(b'\t'))
}

pub(crate) fn is_blank_line(line: &[u8]) -> bool
    ensures { result ≡ is_blank_line line.now }
{
    line.iter().all(|byte| is_blank(*byte))
}
