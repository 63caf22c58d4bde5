//! The trait of files of objects.

ghost use Rattle.std.specs.Prelude.{◌≡◌, ◌≤◌, ◌+◌, ◌^◌, length, take, drop, IfOk, MatchResult};
ghost use Rattle.disk_model.specs.Devices.{bytes_now, Measures, Fetches, Writes, Syncs, Idles, Tears};
ghost use Rattle.disk_model.specs.DiskStates.{DiskState, IfModeled, Both, Counted};

use crate::Counts;
use crate::disk::DiskFault;

/// The file of objects of a disk, file 1, in the hands of whoever has the disk. Its calls are those of `Disk` on that file.
/// What else its holder knows of the disk, as where a journal ends on file 0, each call keeps.
pub trait Objects {
    /// The device, where contracts know it, and the counts.
    ghost ghost_state: { Self → DiskState };

    /// What each call keeps, from before it to after it.
    ghost keeps: { Self → Self → Type 0 };

    /// The file's length. A file longer than 2^62 bytes is a fault.
    fn length(&mut self) -> Result<u64, DiskFault>
        ensures length { IfOk result
            (λ n. IfModeled (ghost_state self.old).modeled (λ d. n ≡ length (bytes_now 1 d))) }
        ensures most { IfOk result (λ n. n ≤ 2 ^ 62) }
        ensures modeled { MatchResult result
            (λ _. Both (Measures 1) (ghost_state self.old).modeled (ghost_state self.new).modeled)
            (λ _. Both Idles (ghost_state self.old).modeled (ghost_state self.new).modeled) }
        ensures counts { Counted result (ghost_state self.old) (ghost_state self.new) }
        ensures keeps { keeps self.old self.new };

    /// Fills `into` with the file's bytes from a place on. The range lies in the file.
    fn read_at(&mut self, place: u64, into: &mut [u8]) -> Result<(), DiskFault>
        requires { IfModeled (ghost_state self.old).modeled
            (λ d. place + length into.old ≤ length (bytes_now 1 d)) }
        ensures bytes { IfOk result
            (λ _.
            IfModeled (ghost_state self.old).modeled
            (λ d. into.new ≡ take (length into.old) (drop place (bytes_now 1 d)))) }
        ensures modeled { MatchResult result
            (λ _.
            Both (Fetches 1 place (length into.old)) (ghost_state self.old).modeled
            (ghost_state self.new).modeled)
            (λ _. Both Idles (ghost_state self.old).modeled (ghost_state self.new).modeled) }
        ensures counts { Counted result (ghost_state self.old) (ghost_state self.new) }
        ensures keeps { keeps self.old self.new };

    /// Writes a piece over the file from a place on, which is at most its length. A write that would pass 2^62 bytes is
    /// a fault. After a fault the range may hold any bytes.
    fn write_at(&mut self, place: u64, piece: &[u8]) -> Result<(), DiskFault>
        requires { IfModeled (ghost_state self.old).modeled (λ d. place ≤ length (bytes_now 1 d)) }
        ensures most { IfOk result (λ _. place + length piece.now ≤ 2 ^ 62) }
        ensures modeled { MatchResult result
            (λ _. Both (Writes 1 place piece.now) (ghost_state self.old).modeled
            (ghost_state self.new).modeled)
            (λ _.
            Both (Tears 1 place (length piece.now)) (ghost_state self.old).modeled
            (ghost_state self.new).modeled) }
        ensures counts { Counted result (ghost_state self.old) (ghost_state self.new) }
        ensures keeps { keeps self.old self.new };

    /// After Ok the file is on the disk as it reads.
    fn sync(&mut self) -> Result<(), DiskFault>
        ensures modeled { MatchResult result
            (λ _. Both (Syncs 1) (ghost_state self.old).modeled (ghost_state self.new).modeled)
            (λ _. Both Idles (ghost_state self.old).modeled (ghost_state self.new).modeled) }
        ensures counts { Counted result (ghost_state self.old) (ghost_state self.new) }
        ensures keeps { keeps self.old self.new };

    /// The device calls and the faults so far, those on both files. It is no device call.
    fn counts(&self) -> Counts
        ensures ticks { result.ticks ≡ (ghost_state self.now).ticks }
        ensures faults { result.faults ≡ (ghost_state self.now).faults };

    ghost reflexive: { (objects : Self) → keeps objects objects };

    ghost transitive: { (one two three : Self)
        → keeps one two
        → keeps two three
        → keeps one three };
}
