//! The file of objects in the hands of a journal.

ghost use Rattle.vob_journal.specs.Storing.{KeepsJournal};

use super::Journal;
use disk_model::{Counts, Disk, DiskFault, Objects};

/// The calls are those of the journal's disk on file 1. They leave file 0 as it is, so the frames, the tail and what a fault
/// left after it stay, and so does what a stop leaves of them.
impl<D: Disk> Objects for Journal<D> {
    ghost use Rattle.vob_journal.specs.StoringLaws.{keeps_itself, keeps_on};

    ghost ghost_state = { λ journal. D.ghost_state journal.disk };

    ghost keeps = { λ old new. KeepsJournal D.ghost_state old new };

    ghost reflexive = { λ journal. keeps_itself D.ghost_state journal };

    ghost transitive = { λ one two three first then.
        keeps_on D.ghost_state one two three first then };

    fn length(&mut self) -> Result<u64, DiskFault> {
        self.disk.length(1)
    }

    fn read_at(&mut self, place: u64, into: &mut [u8]) -> Result<(), DiskFault> {
        self.disk.read_at(1, place, into)
    }

    fn write_at(&mut self, place: u64, piece: &[u8]) -> Result<(), DiskFault> {
        self.disk.write_at(1, place, piece)
    }

    fn sync(&mut self) -> Result<(), DiskFault> {
        self.disk.sync(1)
    }

    fn counts(&self) -> Counts {
        self.disk.counts()
    }
}
