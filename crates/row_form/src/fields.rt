//! What a row is made of, field by field.

ghost use Rattle.std.specs.Prelude.{◌≡◌, ◌<◌, ◌^◌, List, ℕ, Result};
ghost use Rattle.cc_names.specs.Formed.{begins_with_letter};
ghost use Rattle.row_form.specs.Answers.{Answers};
ghost use Rattle.row_form.specs.Readers.{both, read_byte, read_word, read_long, read_text};
ghost use Rattle.row_form.specs.FieldReaders.{read_name, read_type_name, read_any_path, read_path, read_flag, read_kind, read_type_kind, read_out, read_entry, read_placed, read_place, read_extent, read_stored, extent_of};
ghost use Rattle.row_form.specs.RowReader.{read_tag};

use crate::cursor::{Cursor, Unread};
use cc_names::memory::Or;
use cc_names::names::Name;
use cc_names::paths::Path;
use cc_names::rows::{Extent, Kind, Out, Placed, ReadOf, Stored, Tag, TypeKind};
use cc_names::texts::Text;
use std::alloc::Global;
use std::marker::Model;

/// What can be read where bytes begin.
pub(crate) trait Field: Drop + Sized {
    ghost reader: { List ℕ → Result (Self × List ℕ) (List ℕ) };

    fn read(alloc: Global, cursor: &mut Cursor<'_>) -> Result<Self, Or<Unread>>
        ensures { Answers result (reader cursor.old.rest.now) cursor.new.rest.now };
}

/// One field and then another: what holds of two fields in order is proved here once.
impl<A: Field, B: Field> Field for (A, B) {
    ghost reader = { both A.reader B.reader };

    fn read(alloc: Global, cursor: &mut Cursor<'_>) -> Result<(A, B), Or<Unread>> {
        let first = A::read(alloc, cursor)?;
        let second = B::read(alloc, cursor)?;
        Ok((first, second))
    }
}

impl Field for u32 {
    ghost reader = { read_word };

    fn read(_alloc: Global, cursor: &mut Cursor<'_>) -> Result<u32, Or<Unread>> {
        cursor.word()
    }
}

impl Field for u64 {
    ghost reader = { read_long };

    fn read(_alloc: Global, cursor: &mut Cursor<'_>) -> Result<u64, Or<Unread>> {
        cursor.long()
    }
}

impl Field for Text {
    ghost reader = { read_text };

    fn read(alloc: Global, cursor: &mut Cursor<'_>) -> Result<Text, Or<Unread>> {
        let bytes = cursor.text()?;
        match Text::from_bytes(alloc, bytes) {
            Ok(text) => Ok(text),
            Err(_) => Err(Or::NoMemory),
        }
    }
}

impl Field for Name {
    ghost reader = { read_name };

    fn read(alloc: Global, cursor: &mut Cursor<'_>) -> Result<Name, Or<Unread>> {
        let here = cursor.unread();
        let bytes = cursor.text()?;
        match Name::read(alloc, bytes) {
            Ok(name) => Ok(name),
            Err(Or::NoMemory) => Err(Or::NoMemory),
            Err(Or::Is(_)) => Err(Or::Is(here)),
        }
    }
}

/// The name of a label type or a branch type.
#[derive(Drop)]
pub(crate) struct TypeName(Name);

impl Model for TypeName {
    ghost use Rattle.std.specs.Prelude.{List, ℕ};

    ghost Value = { List ℕ };

    ghost view = { λ name. name.0 };
}

impl TypeName {
    pub(crate) fn into_name(self) -> Name
        ensures { result ≡ self }
    {
        let TypeName(name) = self;
        name
    }
}

impl Field for TypeName {
    ghost reader = { read_type_name };

    fn read(alloc: Global, cursor: &mut Cursor<'_>) -> Result<TypeName, Or<Unread>> {
        let here = cursor.unread();
        let name: Name = Field::read(alloc, cursor)?;
        if begins_with_letter(name.as_bytes()) {
            return Ok(TypeName(name));
        }
        Err(Or::Is(here))
    }
}

fn begins_with_letter(bytes: &[u8]) -> bool
    ensures { result ≡ begins_with_letter bytes.now }
{
    match bytes.first() {
        Some(byte) => byte.is_ascii_alphabetic(),
        None => false,
    }
}

fn read_any_path(alloc: Global, cursor: &mut Cursor<'_>) -> Result<Path, Or<Unread>>
    ensures { Answers result (read_any_path cursor.old.rest.now) cursor.new.rest.now }
{
    let here = cursor.unread();
    let bytes = cursor.text()?;
    match Path::read(alloc, bytes) {
        Ok(path) => Ok(path),
        Err(Or::NoMemory) => Err(Or::NoMemory),
        Err(Or::Is(_)) => Err(Or::Is(here)),
    }
}

/// A path that is not the root.
impl Field for Path {
    ghost reader = { read_path };

    fn read(alloc: Global, cursor: &mut Cursor<'_>) -> Result<Path, Or<Unread>> {
        let here = cursor.unread();
        let path = read_any_path(alloc, cursor)?;
        if path.is_root() {
            return Err(Or::Is(here));
        }
        Ok(path)
    }
}

impl Field for bool {
    ghost reader = { read_flag };

    fn read(_alloc: Global, cursor: &mut Cursor<'_>) -> Result<bool, Or<Unread>> {
        let here = cursor.unread();
        match cursor.byte()? {
            0 => Ok(false),
            1 => Ok(true),
            _ => Err(Or::Is(here)),
        }
    }
}

impl Field for Kind {
    ghost reader = { read_kind };

    fn read(_alloc: Global, cursor: &mut Cursor<'_>) -> Result<Kind, Or<Unread>> {
        let here = cursor.unread();
        match cursor.byte()? {
            1 => Ok(Kind::File),
            2 => Ok(Kind::Directory),
            _ => Err(Or::Is(here)),
        }
    }
}

impl Field for TypeKind {
    ghost reader = { read_type_kind };

    fn read(_alloc: Global, cursor: &mut Cursor<'_>) -> Result<TypeKind, Or<Unread>> {
        let here = cursor.unread();
        match cursor.byte()? {
            1 => Ok(TypeKind::Label),
            2 => Ok(TypeKind::Branch),
            _ => Err(Or::Is(here)),
        }
    }
}

impl Field for Out {
    ghost reader = { read_out };

    fn read(_alloc: Global, cursor: &mut Cursor<'_>) -> Result<Out, Or<Unread>> {
        let here = cursor.unread();
        match cursor.byte()? {
            0 => Ok(Out::No),
            1 => Ok(Out::Reserved),
            2 => Ok(Out::Unreserved),
            _ => Err(Or::Is(here)),
        }
    }
}

impl Field for Tag {
    ghost reader = { read_tag };

    fn read(alloc: Global, cursor: &mut Cursor<'_>) -> Result<Tag, Or<Unread>> {
        let numbers: (u32, (u32, u32)) = Field::read(alloc, cursor)?;
        let (phase, (lane, command)) = numbers;
        Ok(Tag {
            phase,
            lane,
            command,
        })
    }
}

impl Field for ReadOf {
    ghost reader = { read_entry };

    fn read(alloc: Global, cursor: &mut Cursor<'_>) -> Result<ReadOf, Or<Unread>> {
        let pair: (Path, u64) = Field::read(alloc, cursor)?;
        let (path, row) = pair;
        Ok(ReadOf { path, row })
    }
}

impl Field for Placed {
    ghost reader = { read_placed };

    fn read(alloc: Global, cursor: &mut Cursor<'_>) -> Result<Placed, Or<Unread>> {
        let pair: (u64, u64) = Field::read(alloc, cursor)?;
        let (element, version) = pair;
        Ok(Placed { element, version })
    }
}

/// The offset of an extent.
fn read_place(cursor: &mut Cursor<'_>) -> Result<u64, Or<Unread>>
    ensures { Answers result (read_place cursor.old.rest.now) cursor.new.rest.now }
{
    let here = cursor.unread();
    let place = cursor.long()?;
    if place < (1 << 63) - 1 {
        return Ok(place);
    }
    Err(Or::Is(here))
}

/// The extent of this offset and length, if there may be one.
fn extent_of(place: u64, length: u64) -> Option<Extent>
    requires { place < 2 ^ 63 }
    ensures { result ≡ extent_of place length }
{
    if 0 < length && length <= 1_048_576 && place + length < 1 << 63 {
        return Some(Extent { place, length });
    }
    None
}

impl Field for Extent {
    ghost reader = { read_extent };

    fn read(_alloc: Global, cursor: &mut Cursor<'_>) -> Result<Extent, Or<Unread>> {
        let place = read_place(cursor)?;
        let here = cursor.unread();
        let length = cursor.long()?;
        extent_of(place, length).ok_or(Or::Is(here))
    }
}

impl Field for Stored {
    ghost reader = { read_stored };

    fn read(alloc: Global, cursor: &mut Cursor<'_>) -> Result<Stored, Or<Unread>> {
        let here = cursor.unread();
        match cursor.byte()? {
            0 => Ok(Stored::Here(Field::read(alloc, cursor)?)),
            1 => Ok(Stored::There(Field::read(alloc, cursor)?)),
            _ => Err(Or::Is(here)),
        }
    }
}
