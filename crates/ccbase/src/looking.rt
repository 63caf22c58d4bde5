//! A disk that looks into the journal before its first use.

ghost use Rattle.std.specs.Prelude.{◌≡◌, is_ok, length, IfOk, IfSome, MatchResult, OnErr};
ghost use Rattle.disk_model.specs.Counting.{next_count};
ghost use Rattle.disk_model.specs.Devices.{Idles, bytes_now, file_of};
ghost use Rattle.disk_model.specs.DiskStates.{Both, Counted, IfModeled};
ghost use Rattle.disk_model.specs.Files.{stable};
ghost use Rattle.vob_journal.specs.Added.{Adds};
ghost use Rattle.vob_journal.specs.Frames.{frames};
ghost use Rattle.vob_journal.specs.Reads.{SameFiles};
ghost use Rattle.ccbase.specs.Looks.{may_look};

use cc_names::memory::Or;
use disk_model::{Counts, Disk, DiskFault, FileDisk};
use std::alloc::Global;
use std::fs::File;
use std::io;
use std::rt::{Files, Stderr};
use vob_journal::{Journal, foreign_bytes};

/// A disk that can look for foreign bytes.
pub(crate) trait Look: Disk + Sized {
    /// What the look is made with: another disk over the same files, of which others know no call.
    type Another: Drop;

    /// Says on standard error what of FILE is foreign. It is no call on this disk; where it fails it counts as one call, which
    /// failed.
    fn look(
        &mut self,
        errors: Stderr,
        alloc: Global,
        file: &str,
        another: Self::Another,
    ) -> Result<(), DiskFault>
        ensures same { IfOk result (λ _. Self.ghost_state self.new ≡ Self.ghost_state self.old) }
        ensures idles { OnErr result
            (Both Idles (Self.ghost_state self.old).modeled (Self.ghost_state self.new).modeled) }
        ensures counts { OnErr result
            (Counted result (Self.ghost_state self.old) (Self.ghost_state self.new)) };
}

/// How many rows a journal has from here on, or nothing where memory runs out. It reads FILE alone, and writes nothing.
fn count_rest<D: Disk>(alloc: Global, journal: &mut Journal<D>) -> Result<Option<u64>, DiskFault>
    ensures rows { IfOk result
        (λ rows. IfSome rows
        (λ count. IfModeled (D.ghost_state journal.old.disk).modeled
        (λ _. count ≡ length journal.old.rest))) }
    ensures files { Both SameFiles (D.ghost_state journal.old.disk).modeled
        (D.ghost_state journal.new.disk).modeled }
    ensures adds { Both (Adds may_look) (D.ghost_state journal.old.disk).modeled
        (D.ghost_state journal.new.disk).modeled }
    ensures faults { MatchResult result
        (λ _. (D.ghost_state journal.new.disk).faults ≡ (D.ghost_state journal.old.disk).faults)
        (λ _. (D.ghost_state journal.new.disk).faults
        ≡ next_count (D.ghost_state journal.old.disk).faults) }
{
    'rows: for rows in 0..u64::MAX {
        match journal.next(alloc) {
            Ok(Some(_)) => {}
            Ok(None) => return Ok(Some(rows)),
            Err(Or::NoMemory) => return Ok(None),
            Err(Or::Is(fault)) => return Err(fault),
        }
    }
    Ok(None)
}

/// How many rows the journal of a disk has, or nothing where memory runs out; and the disk, which comes back in any case. It
/// reads FILE alone, and writes nothing.
fn count_rows<D: Disk>(alloc: Global, disk: D) -> (D, Result<Option<u64>, DiskFault>)
    requires { IfModeled (D.ghost_state disk).modeled
        (λ d. file_of 0 d ≡ stable (bytes_now 0 d)) }
    ensures rows { IfOk result.1
        (λ rows. IfSome rows
        (λ count. IfModeled (D.ghost_state disk).modeled
        (λ d. count ≡ length (frames (bytes_now 0 d))))) }
    ensures files { Both SameFiles (D.ghost_state disk).modeled (D.ghost_state result.0).modeled }
    ensures adds { Both (Adds may_look) (D.ghost_state disk).modeled
        (D.ghost_state result.0).modeled }
    ensures faults { MatchResult result.1
        (λ _. (D.ghost_state result.0).faults ≡ (D.ghost_state disk).faults)
        (λ _. (D.ghost_state result.0).faults ≡ next_count (D.ghost_state disk).faults) }
{
    match Journal::open(disk) {
        Ok(journal) => {
            let mut journal = journal;
            let rows = count_rest(alloc, &mut journal);
            (journal.into_disk(), rows)
        }
        Err(disk) => (disk, Err(DiskFault)),
    }
}

/// Says that so many bytes after the last row of FILE are not rows, and the number of that row, if it is known.
fn tell_foreign(errors: Stderr, file: &str, count: u64, rows: Option<u64>) -> io::Result<()> {
    match rows {
        Some(rows) => eprintln!(errors;
            "ccbase: {file}: the base ends at row {rows}; the {count} bytes after it are not rows, and the next commit overwrites them"
        ),
        None => eprintln!(errors;
            "ccbase: {file}: the {count} bytes after the last row are not rows, and the next commit overwrites them"
        ),
    }
}

/// Says that so many bytes after the last row of FILE are not rows, where the rows could be read.
fn tell_counted(
    errors: Stderr,
    file: &str,
    count: u64,
    rows: Result<Option<u64>, DiskFault>,
) -> Result<(), DiskFault>
    ensures { is_ok result ≡ is_ok rows }
{
    let rows = rows?;
    let _ = tell_foreign(errors, file, count, rows);
    Ok(())
}

/// Says that memory ran out before FILE was looked at.
fn tell_no_look(errors: Stderr, file: &str) -> io::Result<()> {
    eprintln!(errors;
        "ccbase: {file}: no memory to look for bytes that are not rows; the next commit overwrites any"
    )
}

/// Says how many bytes after the last row of FILE are not rows, if they cannot be a row that was cut short. The disk comes back in
/// any case, both its files are as they were, and its calls read FILE alone. It answers a fault exactly where a call failed.
fn looked_at<D: Disk>(
    errors: Stderr,
    alloc: Global,
    file: &str,
    disk: D,
) -> (D, Result<(), DiskFault>)
    requires { IfModeled (D.ghost_state disk).modeled
        (λ d. file_of 0 d ≡ stable (bytes_now 0 d)) }
    ensures files { Both SameFiles (D.ghost_state disk).modeled (D.ghost_state result.0).modeled }
    ensures adds { Both (Adds may_look) (D.ghost_state disk).modeled
        (D.ghost_state result.0).modeled }
    ensures faults { MatchResult result.1
        (λ _. (D.ghost_state result.0).faults ≡ (D.ghost_state disk).faults)
        (λ _. (D.ghost_state result.0).faults ≡ next_count (D.ghost_state disk).faults) }
{
    let mut disk = disk;
    match foreign_bytes(alloc, &mut disk) {
        Ok(0) => (disk, Ok(())),
        Ok(count) => {
            let (disk, rows) = count_rows(alloc, disk);
            let told = tell_counted(errors, file, count, rows);
            (disk, told)
        }
        Err(Or::NoMemory) => {
            let _ = tell_no_look(errors, file);
            (disk, Ok(()))
        }
        Err(Or::Is(fault)) => (disk, Err(fault)),
    }
}

/// A call that fails and touches no file: it would write past the length that a file may have.
fn failing_call<R: Files<File = File> + AllocGlobal>(disk: &mut FileDisk<R>) -> DiskFault
    ensures ticks { disk.new.ticks ≡ next_count disk.old.ticks }
    ensures faults { disk.new.faults ≡ next_count disk.old.faults }
{
    match disk.write_at(0, u64::MAX, b"") {
        Ok(()) => DiskFault,
        Err(fault) => fault,
    }
}

/// The look opens the files, and the run goes on with them as they are, also where a call on them failed: so all that is read and
/// written is one file under one lock, and a failure that the system tells once is the run's.
impl<R: Files<File = File> + AllocGlobal + Drop> Look for FileDisk<R> {
    type Another = FileDisk<R>;

    fn look(
        &mut self,
        errors: Stderr,
        alloc: Global,
        file: &str,
        another: FileDisk<R>,
    ) -> Result<(), DiskFault> {
        let (disk, looked) = looked_at(errors, alloc, file, another);
        self.take_over(disk);
        match looked {
            Ok(()) => Ok(()),
            Err(_) => Err(failing_call(self)),
        }
    }
}

/// The disk of a run. As its first length is asked, which is how a base is opened, it says what of FILE is foreign: not
/// earlier, since what is no session leaves the files alone, and the lock on FILE is not held while a session is read. Where
/// the look fails, so does that call. Every other call is the call of the disk below it.
///
/// It looks at bytes alone. What it cannot tell: whether a row says what was once written, since rows have no checksum; and
/// whether bytes that begin as a row does, and are fewer than that row would be, are a row that a crash cut short.
#[derive(Drop)]
pub(crate) struct LookingDisk<D: Look> {
    errors: Stderr,
    alloc: Global,
    file: String,
    pub(crate) disk: D,
    /// What the look is made with, until it was made.
    another: Option<D::Another>,
}

/// The disk over the files of a base: FILE and FILE.objects. It opens nothing yet.
fn base_files(rt: &HostRuntime, file: &str) -> io::Result<FileDisk<HostRuntime>>
    ensures { IfOk result (λ disk. disk.ticks ≡ 0) }
{
    let journal = String::from_str(rt.alloc(), file)?;
    let objects = format!(in rt.alloc(); "{file}.objects")?;
    Ok(FileDisk::new(rt.clone()?, journal, objects))
}

impl LookingDisk<FileDisk<HostRuntime>> {
    /// The disk of a run, and another for its look. No call was made on either.
    pub(crate) fn new(
        rt: &HostRuntime,
        file: &str,
    ) -> io::Result<LookingDisk<FileDisk<HostRuntime>>>
        ensures disk { IfOk result (λ looking. looking.disk.ticks ≡ 0) }
        ensures another { IfOk result
            (λ looking. IfSome looking.another (λ another. another.ticks ≡ 0)) }
    {
        let disk = base_files(rt, file)?;
        let another = Some(base_files(rt, file)?);
        let file = String::from_str(rt.alloc(), file)?;
        Ok(LookingDisk {
            errors: rt.stderr(),
            alloc: rt.alloc(),
            file,
            disk,
            another,
        })
    }
}

impl<D: Look> Disk for LookingDisk<D> {
    ghost ghost_state = { λ looking. D.ghost_state looking.disk };

    ghost tells = { D.tells };

    ghost as_typed = { λ looking. D.as_typed looking.disk };

    ghost counted = { λ looking. D.counted looking.disk };

    fn length(&mut self, file: u8) -> Result<u64, DiskFault> {
        if let Some(another) = self.another.take() {
            self.disk
                .look(self.errors, self.alloc, self.file.as_str(), another)?;
        }
        self.disk.length(file)
    }

    fn read_at(&mut self, file: u8, place: u64, into: &mut [u8]) -> Result<(), DiskFault> {
        self.disk.read_at(file, place, into)
    }

    fn write_at(&mut self, file: u8, place: u64, piece: &[u8]) -> Result<(), DiskFault> {
        self.disk.write_at(file, place, piece)
    }

    fn sync(&mut self, file: u8) -> Result<(), DiskFault> {
        self.disk.sync(file)
    }

    fn counts(&self) -> Counts {
        self.disk.counts()
    }
}
