//! The lines of a makefile as make reads them.

ghost use Rattle.std.specs.Prelude.{◌≡◌, ◌<◌, ◌∷◌, [], IfOk, MatchOption, Some, true, false, length};
ghost use Rattle.std.specs.List.{slice_split};
ghost use Rattle.cc_names.specs.Cuts.{is_newline};
ghost use Rattle.make_grammar.specs.LogicalLines.{next_number, past_blanks, lines_from, logical_lines};
ghost use Rattle.make_text.specs.JoinedLines.{CutsLine, CutsBackslash, JoinsLine};

use cc_names::cuts::{first_newline, is_blank};
use cc_names::memory::NoMemory;
use cc_names::texts::Text;
use make_grammar::logical_lines::LogicalLine;
use std::alloc::Global;
use std::marker::Model;

/// The logical lines that are left of a text. Contracts see them as their list.
pub(crate) struct LogicalLines<'a> {
    rest: &'a [u8],
    number: u32,
}

impl<'a> Model for LogicalLines<'a> {
    ghost use Rattle.std.specs.Prelude.{List, false};
    ghost use Rattle.std.specs.List.{slice_split};
    ghost use Rattle.cc_names.specs.Cuts.{is_newline};
    ghost use Rattle.make_grammar.specs.LogicalLines.{lines_from};
    ghost use Rattle.make_grammar.specs.declared.logical_lines.LogicalLine.{LogicalLine};

    ghost Value = { List LogicalLine };

    ghost view = { λ s. lines_from false s.number (slice_split is_newline s.rest.now) };
}

impl Drop for LogicalLines<'_> {
    fn drop(self) {
        let LogicalLines { rest: _, number: _ } = self;
    }
}

impl<'a> LogicalLines<'a> {
    /// The logical lines of a text.
    pub(crate) fn of(text: &'a [u8]) -> LogicalLines<'a>
        ensures { result ≡ logical_lines text.now }
    {
        LogicalLines {
            rest: text,
            number: 1,
        }
    }

    /// The next line. Takes time linear in it.
    pub(crate) fn next(&mut self, alloc: Global) -> Result<Option<LogicalLine>, NoMemory>
        ensures { IfOk result
            (λ line.
            MatchOption line ((self.old ≡ []) × (self.new ≡ []))
            (λ line. self.old ≡ line ∷ self.new)) }
    {
        if self.rest.is_empty() {
            return Ok(None);
        }
        let number = self.number;
        let (bytes, rest, after) = first_line(alloc, self.rest, number)?;
        self.rest = rest;
        self.number = after;
        Ok(Some(LogicalLine { number, bytes }))
    }
}

/// The bytes of the first logical line of a text, which has this number, what is left of the text after it, and the
/// number of the line there.
fn first_line<'a>(
    alloc: Global,
    text: &'a [u8],
    number: u32,
) -> Result<(Text, &'a [u8], u32), NoMemory>
    requires { 0 < length text.now }
    ensures { IfOk result
        (λ cut.
        lines_from false number (slice_split is_newline text.now)
        ≡ record { number = number; bytes = cut.0 }
        ∷ lines_from false cut.2 (slice_split is_newline cut.1.now)) }
{
    let (line, behind) = cut_line(text);
    let Some(rest) = behind else {
        return Ok((Text::from_bytes(alloc, line)?, &[], number));
    };
    let Some(prefix) = cut_backslash(line) else {
        let bytes = Text::from_bytes(alloc, line)?;
        return Ok((bytes, rest, next_number(number)));
    };
    let mut bytes = Vec::from_slice(alloc, prefix)?;
    bytes.push(b' ')?;
    let (rest, after) = join_lines(&mut bytes, rest, next_number(number))?;
    Ok((Text::of(bytes), rest, after))
}

fn next_number(number: u32) -> u32
    ensures { result ≡ next_number number }
{
    number.saturating_add(1)
}

/// The first line of a text, and what follows its newline if it has one.
fn cut_line(text: &[u8]) -> (&[u8], Option<&[u8]>)
    ensures { CutsLine text.now result.0.now result.1 }
{
    match first_newline(text) {
        Some(end) => (&text[..end], Some(&text[end + 1..])),
        None => (text, None),
    }
}

/// A line before the backslash at its end, if it has one.
fn cut_backslash(line: &[u8]) -> Option<&[u8]>
    ensures { CutsBackslash line.now result }
{
    match line.split_last() {
        Some((b'\\', prefix)) => Some(prefix),
        _ => None,
    }
}

/// Bytes without the blanks at their start.
pub(crate) fn past_blanks(bytes: &[u8]) -> &[u8]
    ensures { result.now ≡ past_blanks bytes.now }
{
    let mut rest = bytes;
    while let Some((byte, behind)) = rest.split_first() {
        if !is_blank(*byte) {
            break;
        }
        rest = behind;
    }
    rest
}

/// Joins to some bytes the lines that follow, up to one that ends without a backslash. What is left of the text then, and
/// the number of its first line.
fn join_lines<'a>(
    bytes: &mut Vec<u8>,
    text: &'a [u8],
    first: u32,
) -> Result<(&'a [u8], u32), NoMemory>
    ensures { IfOk result
        (λ left.
        JoinsLine bytes.old.items (lines_from true first (slice_split is_newline text.now))
        bytes.new.items (lines_from false left.1 (slice_split is_newline left.0.now))) }
{
    let mut rest = text;
    let mut number = first;
    'lines: loop {
        let (line, behind) = cut_line(rest);
        let part = past_blanks(line);
        let Some(more) = behind else {
            bytes.extend_from_slice(part)?;
            return Ok((&[], number));
        };
        rest = more;
        number = next_number(number);
        let Some(prefix) = cut_backslash(part) else {
            bytes.extend_from_slice(part)?;
            return Ok((rest, number));
        };
        bytes.extend_from_slice(prefix)?;
        bytes.push(b' ')?;
    }
}
