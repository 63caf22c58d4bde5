//! The kinds of lines, and the lines that are left of a text.

ghost use Rattle.std.specs.Prelude.{◌≡◌, ◌<◌, ◌^◌, ◌∷◌, length, MatchOption};
ghost use Rattle.cc_names.specs.Cuts.{lines_of, words_of};
ghost use Rattle.session_text.specs.Kinds.{session_line_kind, kind_of_words};
ghost use Rattle.session_text.specs.Reading.{IsTextEnd, IsNextLine, HasNoLine};

use cc_names::cuts::{Words, first_newline};
use std::marker::Model;

/// Bytes of a text. Contracts see them as a list.
pub struct Bytes<'a> {
    bytes: &'a [u8],
}

impl<'a> Model for Bytes<'a> {
    ghost use Rattle.std.specs.Prelude.{List, ℕ};

    ghost Value = { List ℕ };

    ghost view = { λ s. s.bytes.now };
}

impl Drop for Bytes<'_> {
    fn drop(self) {
        let Bytes { bytes: _ } = self;
    }
}

impl<'a> Bytes<'a> {
    /// These bytes.
    pub(crate) fn of(bytes: &'a [u8]) -> Bytes<'a>
        ensures { result ≡ bytes.now }
    {
        Bytes { bytes }
    }

    /// The bytes.
    pub(crate) fn as_slice(&self) -> &'a [u8]
        ensures { result.now ≡ self.now }
    {
        self.bytes
    }
}

/// A kind of line.
#[derive(Drop)]
pub enum Kind<'a> {
    /// An empty line, or one that begins with `#`.
    Skipped,
    /// A line that begins with `|`, with its bytes after that.
    Body(Bytes<'a>),
    /// A line `phase`, with the words after that.
    Phase(Words<'a>),
    /// A line `lane`, with the words after that.
    Lane(Words<'a>),
    /// Any other line: its first word, and the words after it.
    Command(Bytes<'a>, Words<'a>),
}

fn kind_of_words(line: &[u8]) -> Kind<'_>
    ensures { result ≡ kind_of_words (words_of line.now) }
{
    let mut words = Words::of(line);
    match words.next() {
        None => Kind::Command(Bytes::of(&[]), words),
        Some(b"phase") => Kind::Phase(words),
        Some(b"lane") => Kind::Lane(words),
        Some(word) => Kind::Command(Bytes::of(word), words),
    }
}

fn session_line_kind(line: &[u8]) -> Kind<'_>
    ensures { result ≡ session_line_kind line.now }
{
    match line.split_first() {
        None | Some((b'#', _)) => Kind::Skipped,
        Some((b'|', bytes)) => Kind::Body(Bytes::of(bytes)),
        Some(_) => kind_of_words(line),
    }
}

/// The lines that are left of a text of less than 2^32 bytes, and how many stood before them. Contracts see the bytes that are
/// left.
pub(crate) struct Rest<'a> {
    number: u32,
    bytes: &'a [u8],
}

impl<'a> Model for Rest<'a> {
    ghost use Rattle.std.specs.Prelude.{◌+◌, ◌<◌, ◌^◌, length};
    ghost use Rattle.session_text.specs.Kinds.{Rest};

    ghost Value = { Rest };

    ghost view = { λ s. record { number = s.number; bytes = s.bytes.now } };

    ghost invariant = { λ s. s.number + length s.bytes.now < 2 ^ 32 };
}

impl Drop for Rest<'_> {
    fn drop(self) {
        let Rest {
            number: _,
            bytes: _,
        } = self;
    }
}

/// The first line, and what follows its newline.
fn cut_session_line(bytes: &[u8]) -> (&[u8], &[u8])
    requires { 0 < length bytes.now }
    ensures lines { lines_of bytes.now ≡ result.0.now ∷ lines_of result.1.now }
    ensures fewer { length result.1.now < length bytes.now }
    ensures end { IsTextEnd result.1.now bytes.now }
{
    match first_newline(bytes) {
        Some(end) => (&bytes[..end], &bytes[end + 1..]),
        None => (bytes, &[]),
    }
}

impl<'a> Rest<'a> {
    /// All lines of a text.
    pub(crate) fn of(text: &'a [u8]) -> Rest<'a>
        requires { length text.now < 2 ^ 32 }
        ensures { result ≡ record { number = 0; bytes = text.now } }
    {
        Rest {
            number: 0,
            bytes: text,
        }
    }

    /// The same lines again.
    pub(crate) fn again(&self) -> Rest<'a>
        ensures { result ≡ self.now }
    {
        Rest {
            number: self.number,
            bytes: self.bytes,
        }
    }

    /// The number of the last line that was given, counted from 1.
    pub(crate) fn number(&self) -> u32
        ensures { result ≡ self.now.number }
    {
        self.number
    }

    /// How many bytes are left.
    pub(crate) fn bytes_left(&self) -> usize
        ensures { result ≡ length self.now.bytes }
    {
        self.bytes.len()
    }

    /// The next line. Takes time linear in it.
    pub(crate) fn next(&mut self) -> Option<Kind<'a>>
        ensures { MatchOption result (HasNoLine self.old self.new)
            (λ kind. IsNextLine self.old kind self.new) }
    {
        if self.bytes.is_empty() {
            return None;
        }
        let (line, behind) = cut_session_line(self.bytes);
        self.bytes = behind;
        self.number += 1;
        Some(session_line_kind(line))
    }
}
