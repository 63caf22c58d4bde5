//! What a call answers when there is no memory for it.

ghost use Rattle.std.specs.Prelude.{◌≡◌};

use std::alloc::{AllocError, AllocFailed};
use std::fmt;

/// There was no memory for what the call had to make. Each call's contract says what it left.
#[derive(Clone, Copy, Debug, PartialEq, Eq)]
pub struct NoMemory;

impl fmt::Display for NoMemory {
    fn fmt<W: fmt::Write>(&self, f: &mut fmt::Formatter<W>) -> fmt::Result {
        write!(f, "no memory")
    }
}

impl std::error::Error for NoMemory {}

impl From<AllocError> for NoMemory {
    fn from(_error: AllocError) -> NoMemory {
        NoMemory
    }
}

impl<T: Drop> From<AllocFailed<T>> for NoMemory {
    fn from(_error: AllocFailed<T>) -> NoMemory {
        NoMemory
    }
}

/// Want of memory, or a fault of the call's own.
#[derive(Clone, Copy, Debug, PartialEq, Eq, Drop)]
pub enum Or<E> {
    /// There was no memory.
    NoMemory,
    /// The call's own fault.
    Is(E),
}

impl<E> From<NoMemory> for Or<E> {
    ghost use Rattle.cc_names.specs.declared.memory.Or.TheVariants as variants;

    ghost from_gives = { λ _ fault. fault ≡ variants.NoMemory };

    fn from(_error: NoMemory) -> Or<E> {
        Or::NoMemory
    }
}

impl<E> From<AllocError> for Or<E> {
    ghost use Rattle.cc_names.specs.declared.memory.Or.TheVariants as variants;

    ghost from_gives = { λ _ fault. fault ≡ variants.NoMemory };

    fn from(_error: AllocError) -> Or<E> {
        Or::NoMemory
    }
}

impl<T: Drop, E> From<AllocFailed<T>> for Or<E> {
    ghost use Rattle.cc_names.specs.declared.memory.Or.TheVariants as variants;

    ghost from_gives = { λ _ fault. fault ≡ variants.NoMemory };

    fn from(_error: AllocFailed<T>) -> Or<E> {
        Or::NoMemory
    }
}
