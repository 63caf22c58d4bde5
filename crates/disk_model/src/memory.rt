//! A disk in memory, which tells all that was done to it.

ghost use Rattle.std.specs.Prelude.{◌≡◌, ◌⊎◌, ◌≤◌, ◌<◌, ◌+◌, ◌^◌, ◌-◌, List, Some, None, length, IfOk, OnOk, OnErr, MatchResult};
ghost use Rattle.disk_model.specs.Records.{device_of};
ghost use Rattle.disk_model.specs.Contents.{IsReplayed};
ghost use Rattle.disk_model.specs.Counting.{next_count};

use crate::Counts;
use crate::calls::{Call, TracedCall};
use crate::disk::{Disk, DiskFault};
use crate::images::{Keep, image_of, overwrite};
use cc_names::memory::NoMemory;
use cc_names::texts::Text;
use std::alloc::{AllocError, Global};

/// The length that no file of a disk passes, 2^62.
const MAX_LENGTH: u64 = 1 << 62;

/// A count raised by one, which ends at 2^64 - 1.
fn one_more(count: u64) -> u64
    ensures { result ≡ next_count count }
{
    count.saturating_add(1)
}

/// Both files.
#[derive(Drop)]
struct Contents {
    journal: Vec<u8>,
    objects: Vec<u8>,
}

impl Contents {
    ghost use Rattle.disk_model.specs.Overwriting.{AreUnchanged, AreOverwritten};

    fn of(alloc: Global, journal: &[u8], objects: &[u8]) -> Result<Contents, NoMemory>
        ensures { IfOk result
            (λ contents.
            (contents.journal.items ≡ journal.now) × (contents.objects.items ≡ objects.now)) }
    {
        Ok(Contents {
            journal: Vec::from_slice(alloc, journal)?,
            objects: Vec::from_slice(alloc, objects)?,
        })
    }

    /// Writes a piece over a file from a place on. An `Err` changes nothing.
    fn overwrite(&mut self, file: u8, place: u64, piece: &[u8]) -> Result<(), AllocError>
        requires { file ≤ 1 }
        ensures ok { OnOk result (AreOverwritten file place piece.now self.old self.new) }
        ensures err { OnErr result (AreUnchanged self.old self.new) }
    {
        if file == 0 {
            overwrite(&mut self.journal, place, piece)
        } else {
            overwrite(&mut self.objects, place, piece)
        }
    }
}

/// A disk in memory, which tells all that was done to it and keeps a trace of all its calls. It grows as it is written,
/// and so does its trace; each call for which there is no memory is a fault that changes nothing.
#[derive(Drop)]
pub struct MemoryDisk {
    alloc: Global,
    first: Contents,
    current: Contents,
    fail: Vec<u64>,
    trace: Vec<TracedCall>,
    /// How many calls failed and changed nothing since the last traced one.
    failed: u64,
    ticks: u64,
    faults: u64,
    ghost replayed: { IsReplayed
        (device_of first.journal.items first.objects.items trace.items failed)
        current.journal.items current.objects.items ticks faults },
}

impl MemoryDisk {
    ghost use Rattle.disk_model.specs.Files.{overwritten};
    ghost use Rattle.disk_model.specs.Devices.{bytes_now, Idles};
    ghost use Rattle.disk_model.specs.Records.{with_traced_call, ChangesNoBytes};
    ghost use Rattle.disk_model.specs.DiskStates.{Counted};
    ghost use Rattle.disk_model.specs.MemoryDisks.{modeled_device, ghost_state_of, handed_in, IsCrash};
    ghost use Rattle.disk_model.specs.declared.calls.Call.TheVariants as calls;

    /// A disk that holds these two files, stable, on which no call was made. A call fails where its number, counted from
    /// 1, is in `fail`: a write then leaves the first half of its piece, any other call changes nothing.
    pub fn new(
        alloc: Global,
        journal: &[u8],
        objects: &[u8],
        fail: &[u64],
    ) -> Result<MemoryDisk, NoMemory>
        ensures { IfOk result (λ disk. ghost_state_of disk ≡ handed_in journal.now objects.now) }
    {
        Ok(MemoryDisk {
            alloc,
            first: Contents::of(alloc, journal, objects)?,
            current: Contents::of(alloc, journal, objects)?,
            fail: Vec::from_slice(alloc, fail)?,
            trace: Vec::new(alloc),
            failed: 0,
            ticks: 0,
            faults: 0,
        })
    }

    /// What a stop at this call leaves, one past the last meaning after it: a disk that holds one image of each file,
    /// stable, on which no call was made and none is to fail. Pick 0 keeps no write since the last sync, 1 keeps all,
    /// another fills the ranges written since with its low byte. Takes time linear in all that was written.
    pub fn crash(&self, alloc: Global, call: u64, pick: u64) -> Result<MemoryDisk, NoMemory>
        requires from { 1 ≤ call }
        requires to { call ≤ (ghost_state_of self.now).ticks + 1 }
        ensures { IfOk result
            (λ disk. IsCrash (modeled_device self.now) call (ghost_state_of disk)) }
    {
        let keep = Keep::of(pick);
        let trace = self.trace.as_slice();
        let journal = image_of(alloc, self.first.journal.as_slice(), trace, 0, call, keep)?;
        let objects = image_of(alloc, self.first.objects.as_slice(), trace, 1, call, keep)?;
        MemoryDisk::new(alloc, journal.as_slice(), objects.as_slice(), &[])
    }

    /// The calls that were carried out, the oldest first.
    pub fn trace(&self) -> &[TracedCall]
        ensures { result.now ≡ self.now.trace.items }
    {
        self.trace.as_slice()
    }

    /// A file as it reads.
    pub fn bytes(&self, file: u8) -> &[u8]
        requires { file ≤ 1 }
        ensures { result.now ≡ bytes_now file (modeled_device self.now) }
    {
        if file == 0 {
            self.current.journal.as_slice()
        } else {
            self.current.objects.as_slice()
        }
    }

    /// Whether the next call is one that is to fail.
    fn is_planned(&self) -> bool {
        self.ticks < u64::MAX && self.fail.as_slice().contains(&(self.ticks + 1))
    }

    /// A call that fails and changes nothing.
    fn miss(&mut self) -> DiskFault
        ensures modeled { Idles (modeled_device self.old) (modeled_device self.new) }
        ensures ticks { self.new.ticks ≡ next_count self.old.ticks }
        ensures faults { self.new.faults ≡ next_count self.old.faults }
    {
        self.faults = one_more(self.faults);
        if self.ticks < u64::MAX {
            self.ticks += 1;
            self.failed += 1;
        }
        DiskFault
    }

    /// A call that changes no bytes.
    fn make(&mut self, call: Call) -> Result<(), DiskFault>
        requires { ChangesNoBytes call }
        ensures modeled { MatchResult result
            (λ _. modeled_device self.new ≡ with_traced_call call (modeled_device self.old))
            (λ _. Idles (modeled_device self.old) (modeled_device self.new)) }
        ensures counts { Counted result (ghost_state_of self.old) (ghost_state_of self.new) }
    {
        if self.ticks == u64::MAX || self.is_planned() {
            return Err(self.miss());
        }
        match self.trace.push(TracedCall {
            failed_before: self.failed,
            call,
        }) {
            Ok(()) => {
                self.failed = 0;
                self.ticks += 1;
                Ok(())
            }
            Err(_) => Err(self.miss()),
        }
    }

    /// A write of this piece.
    fn put(&mut self, file: u8, place: u64, piece: &[u8]) -> Result<(), DiskFault>
        requires { file ≤ 1 }
        ensures modeled { MatchResult result
            (λ _.
            modeled_device self.new
            ≡ with_traced_call (calls.Write file place piece.now) (modeled_device self.old))
            (λ _. Idles (modeled_device self.old) (modeled_device self.new)) }
        ensures counts { Counted result (ghost_state_of self.old) (ghost_state_of self.new) }
    {
        if self.ticks == u64::MAX {
            return Err(self.miss());
        }
        let Ok(text) = Text::from_bytes(self.alloc, piece) else {
            return Err(self.miss());
        };
        if self.trace.reserve(1).is_err() {
            return Err(self.miss());
        }
        if self.current.overwrite(file, place, piece).is_err() {
            return Err(self.miss());
        }
        let call = Call::Write {
            file,
            place,
            piece: text,
        };
        self.trace
            .push(TracedCall {
                failed_before: self.failed,
                call,
            })
            .unwrap();
        self.failed = 0;
        self.ticks += 1;
        Ok(())
    }

    /// A write that fails: these bytes land, and so many after them are lost.
    fn tear(&mut self, file: u8, place: u64, landed: &[u8], lost: u64) -> DiskFault
        requires { file ≤ 1 }
        ensures modeled { Idles (modeled_device self.old) (modeled_device self.new)
            ⊎ (modeled_device self.new
            ≡ with_traced_call (calls.Tear file place landed.now lost) (modeled_device self.old)) }
        ensures ticks { self.new.ticks ≡ next_count self.old.ticks }
        ensures faults { self.new.faults ≡ next_count self.old.faults }
    {
        if self.ticks == u64::MAX {
            return self.miss();
        }
        let Ok(text) = Text::from_bytes(self.alloc, landed) else {
            return self.miss();
        };
        if self.trace.reserve(1).is_err() {
            return self.miss();
        }
        if self.current.overwrite(file, place, landed).is_err() {
            return self.miss();
        }
        let call = Call::Tear {
            file,
            place,
            landed: text,
            lost,
        };
        self.trace
            .push(TracedCall {
                failed_before: self.failed,
                call,
            })
            .unwrap();
        self.failed = 0;
        self.ticks += 1;
        self.faults = one_more(self.faults);
        DiskFault
    }
}

impl Disk for MemoryDisk {
    ghost use Rattle.std.specs.Prelude.{true, refl};
    ghost use Rattle.disk_model.specs.MemoryDisks.{ghost_state_of};

    ghost ghost_state = { ghost_state_of };

    ghost tells = { true };

    ghost as_typed = { λ disk. refl };

    ghost counted = { λ disk.
        record {
          ticks = disk.replayed.ticks_fit;
          faults = disk.replayed.faults_fit;
          modeled = disk.replayed.a_tick_each;
          failed = disk.replayed.a_fault_each;
        } };

    fn length(&mut self, file: u8) -> Result<u64, DiskFault> {
        let length = self.bytes(file).len() as u64;
        if length > MAX_LENGTH {
            return Err(self.miss());
        }
        self.make(Call::Length { file })?;
        Ok(length)
    }

    fn read_at(&mut self, file: u8, place: u64, into: &mut [u8]) -> Result<(), DiskFault> {
        let size = into.len();
        let from = place as usize;
        into.copy_from_slice(&self.bytes(file)[from..from + size]);
        self.make(Call::Read {
            file,
            place,
            size: size as u64,
        })
    }

    fn write_at(&mut self, file: u8, place: u64, piece: &[u8]) -> Result<(), DiskFault> {
        let size = piece.len() as u64;
        if place > MAX_LENGTH || size > MAX_LENGTH - place {
            return Err(self.miss());
        }
        if !self.is_planned() {
            return self.put(file, place, piece);
        }
        let half = piece.len() - piece.len() / 2;
        Err(self.tear(file, place, &piece[..half], (piece.len() - half) as u64))
    }

    fn sync(&mut self, file: u8) -> Result<(), DiskFault> {
        self.make(Call::Sync { file })
    }

    fn counts(&self) -> Counts {
        Counts {
            ticks: self.ticks,
            faults: self.faults,
        }
    }
}
