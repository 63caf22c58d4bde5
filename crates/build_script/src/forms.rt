//! What commands make of a text.

ghost use Rattle.std.specs.Prelude.{◌≡◌, ◌+◌, ◌<◌, ◌++◌, ◌∷◌, [], IfOk, MatchOption, length, take};
ghost use Rattle.script_grammar.specs.Forms.{lines_in, first_lines, digest_line, linked_text};

use cc_names::cuts::first_newline;
use cc_names::memory::NoMemory;
use cc_names::numbers::push_number;
use cc_names::paths::Path;
use sha2::{Digest, Sha256};
use std::alloc::Global;

/// The form in which a command takes a text.
#[derive(Clone, Copy)]
pub(crate) enum Form<'a> {
    Whole,
    FirstLines(u64),
    Replaced { from: &'a [u8], to: &'a [u8] },
    DigestLine,
    Listed,
}

/// The first line of a text with its newline, which it may lack, and what is after it.
pub(crate) fn split_first_line(text: &[u8]) -> Option<(&[u8], &[u8])>
    ensures lines { MatchOption result (text.now ≡ [])
        (λ parts. lines_in text.now ≡ parts.0.now ∷ lines_in parts.1.now) }
    ensures whole { MatchOption result (text.now ≡ [])
        (λ parts. text.now ≡ parts.0.now ++ parts.1.now) }
    ensures filled { MatchOption result (text.now ≡ []) (λ parts. 0 < length parts.0.now) }
{
    match first_newline(text) {
        Some(place) => Some((&text[..place + 1], &text[place + 1..])),
        None if text.is_empty() => None,
        None => Some((text, &[])),
    }
}

/// The first lines of a text. Takes time linear in them.
pub(crate) fn first_lines(text: &[u8], number: u64) -> &[u8]
    ensures { result.now ≡ first_lines number text.now }
{
    let mut rest = text;
    for _ in 0..number {
        let Some((_, behind)) = split_first_line(rest) else {
            break;
        };
        rest = behind;
    }
    &text[..text.len() - rest.len()]
}

/// The SHA-256 of a text in hexadecimal digits, and a newline.
pub(crate) fn digest_line(alloc: Global, text: &[u8]) -> Result<Vec<u8>, NoMemory>
    ensures { IfOk result (λ line. line.items ≡ digest_line text.now) }
{
    let digits = hex::encode(alloc, Sha256::digest(text).as_slice())?;
    let mut line = Vec::from_slice(alloc, digits.as_bytes())?;
    line.push(b'\n')?;
    Ok(line)
}

/// A text after the line that says its path and length.
pub(crate) fn linked_text(alloc: Global, path: &Path, text: &[u8]) -> Result<Vec<u8>, NoMemory>
    ensures { IfOk result (λ bytes. bytes.items ≡ linked_text path.now text.now) }
{
    let mut bytes = Vec::from_slice(alloc, path.as_bytes())?;
    bytes.push(b' ')?;
    push_number(alloc, &mut bytes, text.len() as u64)?;
    bytes.push(b'\n')?;
    bytes.extend_from_slice(text)?;
    Ok(bytes)
}
