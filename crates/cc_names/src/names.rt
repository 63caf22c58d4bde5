//! The rule of names, and a name that meets it.

ghost use Rattle.std.specs.Prelude.{◌≡◌, ◌+◌, ◌<◌, ◌^◌, IfOk, IfSome, not, slice_get, length};
ghost use Rattle.std.specs.List.{list_all, position};
ghost use Rattle.cc_names.specs.Answers.{Gives};
ghost use Rattle.cc_names.specs.Formed.{begins_with_letter};
ghost use Rattle.cc_names.specs.TypeNames.{type_name_of};
ghost use Rattle.cc_names.specs.Names.{is_name_byte, is_dash, is_dot, begins_no_name, fault_of_bytes, fault_at, name_fault, name_of, IsName};

use crate::memory::{NoMemory, Or};
use std::alloc::Global;
use std::fmt;
use std::marker::Model;

/// Why bytes are no name or no path, in the order in which the faults are tested.
#[derive(Clone, Copy, Debug, PartialEq, Eq)]
pub enum NameFault {
    /// There are no bytes.
    Empty,
    /// The place, counted from 0, of a byte that no name has there.
    BadByte(u64),
    /// The length, above 255 for a name and above 1,024 for a path.
    TooLong(u64),
}

impl fmt::Display for NameFault {
    fn fmt<W: fmt::Write>(&self, f: &mut fmt::Formatter<W>) -> fmt::Result {
        match self {
            NameFault::Empty => write!(f, "empty"),
            NameFault::BadByte(place) => write!(f, "bad byte at {place}"),
            NameFault::TooLong(length) => write!(f, "too long: {length} bytes"),
        }
    }
}

/// A name: 1 to 255 bytes of `A-Z a-z 0-9 _ - . +`, not begun with `-` and not all dots. Contracts see it as its bytes.
#[derive(Debug, Drop)]
pub struct Name {
    bytes: Vec<u8>,
}

impl Model for Name {
    ghost use Rattle.std.specs.Prelude.{List, ℕ};
    ghost use Rattle.cc_names.specs.Names.{IsName};

    ghost Value = { List ℕ };

    ghost view = { λ name. name.bytes.items };

    ghost invariant = { λ name. IsName name.bytes.items };
}

impl Name {
    /// Reads bytes as a name, or answers their first fault. Takes time linear in the bytes.
    pub fn read(alloc: Global, bytes: &[u8]) -> Result<Name, Or<NameFault>>
        ensures { Gives result (name_of bytes.now) }
    {
        if let Some(fault) = fault_of_name(bytes) {
            return Err(Or::Is(fault));
        }
        Ok(Name::of(alloc, bytes)?)
    }

    /// The name of these bytes, which are those of a name.
    pub(crate) fn of(alloc: Global, bytes: &[u8]) -> Result<Name, NoMemory>
        requires { IsName bytes.now }
        ensures { IfOk result (λ name. name ≡ bytes.now) }
    {
        let bytes = Vec::from_slice(alloc, bytes)?;
        Ok(Name { bytes })
    }

    /// A copy.
    pub fn copy(&self, alloc: Global) -> Result<Name, NoMemory>
        ensures copy { IfOk result (λ name. name ≡ self.now) }
        ensures name { IsName self.now }
    {
        let bytes = Vec::from_slice(alloc, self.bytes.as_slice())?;
        Ok(Name { bytes })
    }

    /// The bytes, which are those of a name.
    pub fn as_bytes(&self) -> &[u8]
        ensures bytes { result.now ≡ self.now }
        ensures name { IsName self.now }
    {
        self.bytes.as_slice()
    }
}

/// Whether a byte may stand in a name.
pub fn is_name_byte(byte: u8) -> bool
    ensures { result ≡ is_name_byte byte }
{
    byte.is_ascii_alphanumeric() || matches!(byte, b'_' | b'-' | b'.' | b'+')
}

fn begins_with_dash(name: &[u8]) -> bool
    ensures { result ≡ is_dash (slice_get name.now 0) }
{
    match name.first() {
        Some(byte) => *byte == b'-',
        None => false,
    }
}

fn is_all_dots(name: &[u8]) -> bool
    ensures { result ≡ list_all is_dot name.now }
{
    name.iter().all(|byte| *byte == b'.')
}

fn first_bad_byte(name: &[u8]) -> Option<usize>
    ensures place { result ≡ position (λ b. not (is_name_byte b)) name.now }
    ensures within { IfSome result (λ index. index < length name.now) }
{
    name.iter().position(|byte| !is_name_byte(*byte))
}

fn begins_no_name(name: &[u8]) -> bool
    ensures { result ≡ begins_no_name name.now }
{
    begins_with_dash(name) || is_all_dots(name)
}

fn fault_of_bytes(bad: Option<usize>, place: u64, length: usize) -> Option<NameFault>
    requires { IfSome bad (λ index. place + index < 2 ^ 64) }
    ensures { result ≡ fault_of_bytes bad place length }
{
    match bad {
        Some(index) => Some(NameFault::BadByte(place + index as u64)),
        None if length > 255 => Some(NameFault::TooLong(length as u64)),
        None => None,
    }
}

/// The fault of the name that begins at this place of a text.
pub fn fault_at(place: u64, name: &[u8]) -> Option<NameFault>
    requires { place + length name.now < 2 ^ 64 }
    ensures { result ≡ fault_at place name.now }
{
    if begins_no_name(name) {
        return Some(NameFault::BadByte(place));
    }
    fault_of_bytes(first_bad_byte(name), place, name.len())
}

fn fault_of_name(bytes: &[u8]) -> Option<NameFault>
    ensures { result ≡ name_fault bytes.now }
{
    if bytes.is_empty() {
        return Some(NameFault::Empty);
    }
    fault_at(0, bytes)
}

fn begins_with_letter(bytes: &[u8]) -> bool
    ensures { result ≡ begins_with_letter bytes.now }
{
    match bytes {
        [] => false,
        [first, ..] => first.is_ascii_alphabetic(),
    }
}

/// Reads bytes as the name of a label type or a branch type: a name that begins with a letter. Takes time linear in the bytes.
pub fn type_name(alloc: Global, bytes: &[u8]) -> Result<Option<Name>, NoMemory>
    ensures { IfOk result (λ name. name ≡ type_name_of bytes.now) }
{
    if !begins_with_letter(bytes) {
        return Ok(None);
    }
    match Name::read(alloc, bytes) {
        Ok(name) => Ok(Some(name)),
        Err(Or::NoMemory) => Err(NoMemory),
        Err(Or::Is(_)) => Ok(None),
    }
}
