//! What a line of a makefile is, where it is no line of a script.

ghost use Rattle.std.specs.Prelude.{◌≡◌, ◌<◌, ◌+◌, [], option_copied, IfSome, length, take, drop, slice_index};
ghost use Rattle.std.specs.List.{position};
ghost use Rattle.make_grammar.specs.LineKinds.{is_hash, without_comment, trimmed_bytes, behind_include, behind_byte, is_in_reference, is_deciding_byte, kind_by_byte, kind_from, line_kind};
ghost use Rattle.make_grammar.specs.declared.line_kinds.Position.TheVariants.{Outside};
ghost use Rattle.make_text.specs.SeenKinds.{kind_of_lent, onto, past_end_blanks};

use crate::logical_lines::past_blanks;
use crate::words::is_blank_line;
use cc_names::cuts::is_blank;
use make_grammar::line_kinds::Position;

/// What a line is. A line of a kind has both sides of the byte that decides it.
#[derive(Drop)]
pub(crate) enum Kind<'a> {
    /// Nothing, or blanks.
    Blank,
    /// `include`, and what follows it.
    Include(&'a [u8]),
    /// What stands before a `=` and after it.
    Assignment(&'a [u8], &'a [u8]),
    /// What stands before a `:` and after it.
    Rule(&'a [u8], &'a [u8]),
    /// None of these, and a `$(` or `${` is never closed.
    Unclosed,
    /// None of these.
    Neither,
}

fn first_hash(line: &[u8]) -> Option<usize>
    ensures place { result ≡ position is_hash line.now }
    ensures within { IfSome result (λ index. index < length line.now) }
{
    line.iter().position(|byte| *byte == b'#')
}

/// A line without its comment.
pub(crate) fn without_comment(line: &[u8]) -> &[u8]
    ensures { result.now ≡ without_comment line.now }
{
    match first_hash(line) {
        Some(index) => &line[..index],
        None => line,
    }
}

/// Bytes without the blanks at their end.
fn past_end_blanks(bytes: &[u8]) -> &[u8]
    ensures { result.now ≡ past_end_blanks bytes.now }
{
    let mut rest = bytes;
    while let Some((byte, prefix)) = rest.split_last() {
        if !is_blank(*byte) {
            break;
        }
        rest = prefix;
    }
    rest
}

/// Bytes without the blanks at both ends.
pub(crate) fn trimmed_bytes(bytes: &[u8]) -> &[u8]
    ensures { result.now ≡ trimmed_bytes bytes.now }
{
    past_end_blanks(past_blanks(bytes))
}

/// What follows the word `include`, where bytes begin with it and a blank follows.
fn behind_include(bytes: &[u8]) -> Option<&[u8]>
    ensures { option_copied result ≡ behind_include bytes.now }
{
    if bytes.len() < 8 {
        return None;
    }
    let word = &bytes[..7];
    if word == b"include".as_slice() && is_blank(bytes[7]) {
        return Some(&bytes[7..]);
    }
    None
}

/// The position after a byte.
fn behind_byte(position: Position, byte: u8) -> Position
    ensures { result ≡ behind_byte position byte }
{
    match position {
        Position::Outside if byte == b'$' => Position::Dollar,
        Position::Outside => Position::Outside,
        Position::Dollar if byte == b'(' => Position::Within(b')'),
        Position::Dollar if byte == b'{' => Position::Within(b'}'),
        Position::Dollar => Position::Outside,
        Position::Within(close) if byte == close => Position::Outside,
        Position::Within(close) => Position::Within(close),
    }
}

fn is_in_reference(position: Position) -> bool
    ensures { result ≡ is_in_reference position }
{
    matches!(position, Position::Within(_))
}

/// Whether a byte decides what the line is.
fn is_deciding_byte(position: Position, byte: u8) -> bool
    ensures { result ≡ is_deciding_byte position byte }
{
    !is_in_reference(position) && (byte == b'=' || byte == b':')
}

/// The kind of a line that no byte decides, by the position after its last byte.
fn kind_at_end(position: Position) -> Kind<'static>
    ensures { kind_of_lent result ≡ kind_from position [] }
{
    if is_in_reference(position) {
        Kind::Unclosed
    } else {
        Kind::Neither
    }
}

/// The kind that the byte at a place decides.
fn kind_by_byte(line: &[u8], index: usize) -> Kind<'_>
    requires { index < length line.now }
    ensures { kind_of_lent result
        ≡ onto (take index line.now)
        (kind_by_byte (slice_index line.now index) (drop (index + 1) line.now)) }
{
    let (before, behind) = (&line[..index], &line[index + 1..]);
    if line[index] == b'=' {
        Kind::Assignment(before, behind)
    } else {
        Kind::Rule(before, behind)
    }
}

/// The kind by the first `=` or `:` outside a macro reference. Takes time linear in the line.
fn kind_by_marks(line: &[u8]) -> Kind<'_>
    ensures { kind_of_lent result ≡ kind_from Outside line.now }
{
    let mut position = Position::Outside;
    for (index, byte) in line.iter().enumerate() {
        if is_deciding_byte(position, *byte) {
            return kind_by_byte(line, index);
        }
        position = behind_byte(position, *byte);
    }
    kind_at_end(position)
}

/// The kind of a line without its comment. Takes time linear in the line.
pub(crate) fn line_kind(line: &[u8]) -> Kind<'_>
    ensures { kind_of_lent result ≡ line_kind line.now }
{
    if is_blank_line(line) {
        return Kind::Blank;
    }
    match behind_include(past_blanks(line)) {
        Some(behind) => Kind::Include(behind),
        None => kind_by_marks(line),
    }
}
