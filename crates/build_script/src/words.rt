//! The words of a line.

ghost use Rattle.std.specs.Prelude.{◌≡◌, ◌+◌, ◌++◌, IfOk, OnOk, map};
ghost use Rattle.script_grammar.specs.Words.{is_arrow_byte, is_alike, arrows, words_of_run, words, without_at};

use cc_names::cuts::is_blank;
use std::alloc::{AllocError, Global};

fn is_arrow_byte(byte: u8) -> bool
    ensures { result ≡ is_arrow_byte byte }
{
    byte == b'>'
}

fn is_alike(one: u8, other: u8) -> bool
    ensures { result ≡ is_alike one other }
{
    is_blank(one) == is_blank(other) && is_arrow_byte(one) == is_arrow_byte(other)
}

/// A line past its first blanks, without the `@` that may stand there.
pub(crate) fn without_at(line: &[u8]) -> &[u8]
    ensures { result.now ≡ without_at line.now }
{
    let mut rest = line;
    while let Some((byte, behind)) = rest.split_first() {
        if !is_blank(*byte) {
            return if *byte == b'@' { behind } else { rest };
        }
        rest = behind;
    }
    rest
}

/// Arrows two by two from the left, and a last one by itself.
fn push_arrows<'a>(found: &mut Vec<&'a [u8]>, run: &'a [u8]) -> Result<(), AllocError>
    ensures { OnOk result
        (map (λ word. word.now) found.new.items
        ≡ map (λ word. word.now) found.old.items ++ arrows run.now) }
{
    for pair in run.chunks(2) {
        found.push(pair)?;
    }
    Ok(())
}

fn push_words<'a>(found: &mut Vec<&'a [u8]>, run: &'a [u8]) -> Result<(), AllocError>
    ensures { OnOk result
        (map (λ word. word.now) found.new.items
        ≡ map (λ word. word.now) found.old.items ++ words_of_run run.now) }
{
    match run.first() {
        Some(byte) if is_arrow_byte(*byte) => push_arrows(found, run),
        Some(byte) if !is_blank(*byte) => {
            found.push(run)?;
            Ok(())
        }
        _ => Ok(()),
    }
}

/// The words of a line: what blanks part, with `>>` and `>` as words of their own wherever they stand.
pub(crate) fn words<'a>(alloc: Global, line: &'a [u8]) -> Result<Vec<&'a [u8]>, AllocError>
    ensures { IfOk result (λ found. map (λ word. word.now) found.items ≡ words line.now) }
{
    let mut found = Vec::new(alloc);
    for run in line.chunk_by(|one, other| is_alike(*one, *other)) {
        push_words(&mut found, run)?;
    }
    Ok(found)
}
