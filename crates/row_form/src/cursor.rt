//! The bytes of a row that are still to be read.

ghost use Rattle.std.specs.Prelude.{◌≡◌, List, ℕ, length};
ghost use Rattle.row_form.specs.Answers.{Answers, AnswersSlice};
ghost use Rattle.row_form.specs.Readers.{read_byte, read_word, read_long, read_text};

use cc_names::memory::Or;
use std::fmt;

/// The bytes spell no row. The number is the offset, counted from 0, of the first field that cannot be read, or of the first
/// excess byte. A list whose members can all be read and that breaks its rule fails where its count
/// begins, and a code that the first byte does not have at the code.
#[derive(Clone, Copy, Debug, PartialEq, Eq)]
pub struct NotARow(pub u64);

impl fmt::Display for NotARow {
    fn fmt<W: fmt::Write>(&self, f: &mut fmt::Formatter<W>) -> fmt::Result {
        write!(f, "no row at byte {}", self.0)
    }
}

impl std::error::Error for NotARow {}

/// That a field cannot be read, and how many bytes are left from its beginning on.
#[derive(Clone, Copy)]
pub(crate) struct Unread {
    pub(crate) left: usize,
}

/// The bytes that are left.
#[derive(Drop)]
pub(crate) struct Cursor<'a> {
    pub(crate) rest: &'a [u8],
}

impl<'a> Cursor<'a> {
    pub(crate) fn over(bytes: &'a [u8]) -> Cursor<'a>
        ensures { result.rest.now ≡ bytes.now }
    {
        Cursor { rest: bytes }
    }

    /// That the field here cannot be read.
    pub(crate) fn unread(&self) -> Unread
        ensures { result.left ≡ length self.now.rest.now }
    {
        Unread {
            left: self.rest.len(),
        }
    }

    pub(crate) fn byte(&mut self) -> Result<u8, Or<Unread>>
        ensures { Answers result (read_byte self.old.rest.now) self.new.rest.now }
    {
        let [byte, rest @ ..] = self.rest else {
            return Err(Or::Is(self.unread()));
        };
        self.rest = rest;
        Ok(*byte)
    }

    pub(crate) fn word(&mut self) -> Result<u32, Or<Unread>>
        ensures { Answers result (read_word self.old.rest.now) self.new.rest.now }
    {
        let Some((number, rest)) = self.rest.split_first_chunk::<4>() else {
            return Err(Or::Is(self.unread()));
        };
        self.rest = rest;
        Ok(u32::from_le_bytes(*number))
    }

    pub(crate) fn long(&mut self) -> Result<u64, Or<Unread>>
        ensures { Answers result (read_long self.old.rest.now) self.new.rest.now }
    {
        let Some((number, rest)) = self.rest.split_first_chunk::<8>() else {
            return Err(Or::Is(self.unread()));
        };
        self.rest = rest;
        Ok(u64::from_le_bytes(*number))
    }

    /// The bytes of a text.
    pub(crate) fn text(&mut self) -> Result<&'a [u8], Or<Unread>>
        ensures { AnswersSlice result (read_text self.old.rest.now) self.new.rest.now }
    {
        let here = self.unread();
        let size = self.word()? as usize;
        if self.rest.len() < size {
            return Err(Or::Is(here));
        }
        let (bytes, rest) = self.rest.split_at(size);
        self.rest = rest;
        Ok(bytes)
    }
}
