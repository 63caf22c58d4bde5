//! The trait of disks.

ghost use Rattle.std.specs.Prelude.{◌≡◌, ◌≤◌, ◌+◌, ◌^◌, Bool, length, take, drop, is_some, IfOk, MatchResult};
ghost use Rattle.disk_model.specs.Devices.{bytes_now, Measures, Fetches, Writes, Syncs, Idles, Tears};
ghost use Rattle.disk_model.specs.DiskStates.{DiskState, IfModeled, Both, Counted, IsCounted};

use crate::Counts;
use std::fmt;

/// A device call failed.
#[derive(Clone, Copy, Debug, PartialEq, Eq)]
pub struct DiskFault;

impl fmt::Display for DiskFault {
    fn fmt<W: fmt::Write>(&self, f: &mut fmt::Formatter<W>) -> fmt::Result {
        write!(f, "disk fault")
    }
}

impl std::error::Error for DiskFault {}

/// Two files: file 0 is the journal of a base, file 1 its objects. Each call on a file raises the ticks by one, and the
/// faults by one exactly where it answers `DiskFault`. A disk whose ticks stand at 2^64 - 1 makes no call any more and
/// answers `DiskFault`.
///
/// A disk may model its device: both files as they were handed in and the list of all calls. What the files hold, and
/// what a stop at each call leaves of them, are functions of it. Contracts alone know what is told: no call answers it,
/// and code over any disk has one body for those that tell and those that do not, so what it writes is the same on both.
pub trait Disk {
    /// The device, where contracts know it, and the counts.
    ghost ghost_state: { Self → DiskState };

    /// Whether the disks of this type model their device: those in memory do, those over real files do not.
    ghost tells: { Bool };

    /// The file's length. A file longer than 2^62 bytes is a fault.
    fn length(&mut self, file: u8) -> Result<u64, DiskFault>
        requires { file ≤ 1 }
        ensures length { IfOk result
            (λ n. IfModeled (ghost_state self.old).modeled (λ d. n ≡ length (bytes_now file d))) }
        ensures most { IfOk result (λ n. n ≤ 2 ^ 62) }
        ensures modeled { MatchResult result
            (λ _. Both (Measures file) (ghost_state self.old).modeled
            (ghost_state self.new).modeled)
            (λ _. Both Idles (ghost_state self.old).modeled (ghost_state self.new).modeled) }
        ensures counts { Counted result (ghost_state self.old) (ghost_state self.new) };

    /// Fills `into` with the file's bytes from a place on. The range lies in the file.
    fn read_at(&mut self, file: u8, place: u64, into: &mut [u8]) -> Result<(), DiskFault>
        requires file { file ≤ 1 }
        requires within { IfModeled (ghost_state self.old).modeled
            (λ d. place + length into.old ≤ length (bytes_now file d)) }
        ensures bytes { IfOk result
            (λ _.
            IfModeled (ghost_state self.old).modeled
            (λ d. into.new ≡ take (length into.old) (drop place (bytes_now file d)))) }
        ensures modeled { MatchResult result
            (λ _.
            Both (Fetches file place (length into.old)) (ghost_state self.old).modeled
            (ghost_state self.new).modeled)
            (λ _. Both Idles (ghost_state self.old).modeled (ghost_state self.new).modeled) }
        ensures counts { Counted result (ghost_state self.old) (ghost_state self.new) };

    /// Writes a piece over the file from a place on, which is at most its length. A write that would pass 2^62 bytes is
    /// a fault. After a fault the range may hold any bytes.
    fn write_at(&mut self, file: u8, place: u64, piece: &[u8]) -> Result<(), DiskFault>
        requires file { file ≤ 1 }
        requires within { IfModeled (ghost_state self.old).modeled
            (λ d. place ≤ length (bytes_now file d)) }
        ensures most { IfOk result (λ _. place + length piece.now ≤ 2 ^ 62) }
        ensures modeled { MatchResult result
            (λ _. Both (Writes file place piece.now) (ghost_state self.old).modeled
            (ghost_state self.new).modeled)
            (λ _.
            Both (Tears file place (length piece.now)) (ghost_state self.old).modeled
            (ghost_state self.new).modeled) }
        ensures counts { Counted result (ghost_state self.old) (ghost_state self.new) };

    /// After Ok the file is on the disk as it reads.
    fn sync(&mut self, file: u8) -> Result<(), DiskFault>
        requires { file ≤ 1 }
        ensures modeled { MatchResult result
            (λ _. Both (Syncs file) (ghost_state self.old).modeled (ghost_state self.new).modeled)
            (λ _. Both Idles (ghost_state self.old).modeled (ghost_state self.new).modeled) }
        ensures counts { Counted result (ghost_state self.old) (ghost_state self.new) };

    /// The device calls and the faults so far. It is no device call.
    fn counts(&self) -> Counts
        ensures ticks { result.ticks ≡ (ghost_state self.now).ticks }
        ensures faults { result.faults ≡ (ghost_state self.now).faults };

    /// The counts fit, and there is a tick for each modeled call, and a fault for each of these that failed: no other, until
    /// ticks have come to their end.
    ghost counted: { (disk : Self) → IsCounted (ghost_state disk) };

    /// A disk models its device or not, as its type says, whatever was done to it.
    ghost as_typed: { (disk : Self) → is_some (ghost_state disk).modeled ≡ tells };
}
