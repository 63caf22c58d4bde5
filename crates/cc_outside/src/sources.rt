//! Where bytes come from.

ghost use Rattle.std.specs.Prelude.{◌≡◌, ◌+◌, ◌≤◌, ◌<◌, ◌^◌, length, IfOk, IfSome, OnErr};
ghost use Rattle.std.specs.Io.KnownBytes.{ReadConsumes, IsAtEnd};
ghost use Rattle.cc_names.specs.Counts.{raised_count, Rose, RoseAtMost};
ghost use Rattle.cc_outside.specs.Reading.{OnFault, OnTooLong};
ghost use Rattle.cc_outside.specs.GhostStates.{SourceState, Gave, GaveAbove, Lost, RestsOnceEnded, ended_at, is_end};

use cc_names::memory::Or;
use cc_names::texts::Text;
use std::alloc::Global;
use std::fmt;

/// A source failed to give bytes.
#[derive(Clone, Copy, Debug, PartialEq, Eq)]
pub struct ReadFault;

impl fmt::Display for ReadFault {
    fn fmt<W: fmt::Write>(&self, f: &mut fmt::Formatter<W>) -> fmt::Result {
        write!(f, "read fault")
    }
}

impl std::error::Error for ReadFault {}

/// Where bytes come from.
pub trait Source {
    // The bytes that are still to come, where contracts know them; how many were given, how many calls were made and failed so
    // far, and at which it ended.
    ghost ghost_state: { Self → SourceState };

    /// Gives the next bytes, at most as many as there is room for, which is some, and answers how many. No bytes are the
    /// end. A source has ended at the first call that gives its end or fails.
    fn read(&mut self, into: &mut [u8]) -> Result<usize, ReadFault>
        requires { 0 < length into.old }
        ensures within { IfOk result (λ count. count ≤ length into.new) }
        ensures bytes { ReadConsumes (ghost_state self.old).left
            (ghost_state self.new).left result into.new }
        ensures counted { IfOk result
            (λ count. Gave (ghost_state self.old) (ghost_state self.new) count) }
        ensures uncounted { OnErr result
            ((ghost_state self.new).given ≡ (ghost_state self.old).given) }
        ensures kept { (ghost_state self.old).faults ≤ (ghost_state self.new).faults }
        ensures faultless { IfOk result
            (λ count. (ghost_state self.new).faults ≡ (ghost_state self.old).faults) }
        ensures fault { OnErr result
            (Rose (ghost_state self.old).faults (ghost_state self.new).faults) }
        ensures called { (ghost_state self.new).calls
            ≡ raised_count (ghost_state self.old).calls 1 }
        ensures ended { (ghost_state self.new).ended
            ≡ ended_at (ghost_state self.old).ended (ghost_state self.new).calls (is_end result) };
}

/// The call at which a source or a sink has ended, after this call.
pub(crate) fn ended_at(ended: Option<u64>, call: u64, ends: bool) -> Option<u64>
    ensures { result ≡ ended_at ended call ends }
{
    match ended {
        Some(first) => Some(first),
        None if ends => Some(call),
        None => None,
    }
}

/// Why a source was not read to its end.
#[derive(Clone, Copy, Debug, PartialEq, Eq, Drop)]
pub enum Unread {
    /// The source failed.
    Fault,
    /// The source gave more bytes than the limit.
    TooLong,
}

// The most bytes that are asked for at once.
const PIECE: usize = 65_536;

/// Reads a source to its end, or until it gave one byte more than the limit, and takes no byte past that one. Each call but the
/// last gives some bytes, and none is made after one at which it ends. Takes time linear in the bytes read.
pub fn read_whole<S: Source>(
    alloc: Global,
    source: &mut S,
    limit: usize,
) -> Result<Text, Or<Unread>>
    requires { limit < 2 ^ 62 }
    ensures bytes { IfOk result
        (λ text. Lost (S.ghost_state source.old) (S.ghost_state source.new) text) }
    ensures end { IfOk result (λ text. IsAtEnd (S.ghost_state source.new).left) }
    ensures short { IfOk result (λ text. length text ≤ limit) }
    ensures counted { IfOk result
        (λ text. Gave (S.ghost_state source.old) (S.ghost_state source.new) (length text)) }
    ensures kept { (S.ghost_state source.old).faults ≤ (S.ghost_state source.new).faults }
    ensures faultless { IfOk result
        (λ text. (S.ghost_state source.new).faults ≡ (S.ghost_state source.old).faults) }
    ensures fault { OnFault result
        (Rose (S.ghost_state source.old).faults (S.ghost_state source.new).faults) }
    ensures too_long { OnTooLong result
        (GaveAbove limit (S.ghost_state source.old) (S.ghost_state source.new)) }
    ensures faultless_above { OnTooLong result
        ((S.ghost_state source.new).faults ≡ (S.ghost_state source.old).faults) }
    ensures modeled { OnTooLong result
        (IfSome (S.ghost_state source.old).left (λ bytes. limit < length bytes)) }
    ensures taken { RoseAtMost (limit + 1) (S.ghost_state source.old).given
        (S.ghost_state source.new).given }
    ensures rests { RestsOnceEnded (S.ghost_state source.old).ended
        (S.ghost_state source.new).ended (S.ghost_state source.new).calls }
{
    let mut piece = vec![in alloc; 0u8; PIECE]?;
    let mut bytes = Vec::new(alloc);
    while bytes.len() <= limit {
        let room = PIECE.min(limit + 1 - bytes.len());
        let into = &mut piece[..room];
        let Ok(count) = source.read(into) else {
            return Err(Or::Is(Unread::Fault));
        };
        if count == 0 {
            return Ok(Text::of(bytes));
        }
        bytes.extend_from_slice(&into[..count])?;
    }
    Err(Or::Is(Unread::TooLong))
}
