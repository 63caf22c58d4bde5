//! A disk over two files of the system. What they hold is not told.

ghost use Rattle.std.specs.Prelude.{◌≡◌, ◌≤◌, ◌<◌, ◌+◌, ◌-◌, ◌^◌, ◌↔◌, None, IfOk, IsTrue};
ghost use Rattle.disk_model.specs.Counting.{next_count};
ghost use Rattle.disk_model.specs.DiskStates.{DiskState};

use crate::Counts;
use crate::disk::{Disk, DiskFault};
use crate::named::NamedFile;
use std::alloc::{AllocError, Global};
use std::fs::File;
use std::rt::Files;
use std::{fmt, io};

/// The length that no file of a disk passes, 2^62.
const MAX_LENGTH: u64 = 1 << 62;

/// What a call failed at, by the name of a file.
#[derive(Clone, Copy, Debug)]
pub enum Place<'a> {
    File(&'a str),
    FolderOf(&'a str),
}

impl fmt::Display for Place<'_> {
    fn fmt<W: fmt::Write>(&self, f: &mut fmt::Formatter<W>) -> fmt::Result {
        match self {
            Place::File(name) => write!(f, "{name}"),
            Place::FolderOf(name) => write!(f, "the folder of {name}"),
        }
    }
}

/// Why a call failed: at what, and the system's error.
#[derive(Clone, Copy, Debug)]
pub struct Trouble<'a> {
    pub place: Place<'a>,
    pub cause: io::Error,
}

impl Trouble<'_> {
    /// `PLACE: WORDS`, where the words are the system's.
    pub fn words(&self, alloc: Global) -> Result<String, AllocError> {
        let modeled = format!(in alloc; "{}", self.cause)?;
        let words = without_number(modeled.as_str());
        format!(in alloc; "{}: {words}", self.place)
    }
}

/// The system's words for a failure, from what std writes of it: after the words it writes a number.
fn without_number(modeled: &str) -> &str {
    match modeled.split_once(" (os error ") {
        Some((words, _)) => words,
        None => modeled,
    }
}

/// What of a base a call failed at.
#[derive(Clone, Copy)]
enum Part {
    Journal,
    Objects,
    Folder,
}

fn part_of(file: u8) -> Part {
    if file == 0 {
        Part::Journal
    } else {
        Part::Objects
    }
}

/// Whether the folder of the files is synced. Where that failed it is not tried again, for the reason that `NamedFile` has.
#[derive(Clone, Copy)]
enum Folder {
    NotYet,
    Synced,
    Failed(io::Error),
}

/// Both files, and the first failure.
#[derive(Drop)]
struct BaseFiles<R: Files<File = File> + AllocGlobal> {
    rt: R,
    journal: NamedFile,
    objects: NamedFile,
    folder: Folder,
    /// The first failure, and what it came at.
    failed: Option<(Part, io::Error)>,
}

impl<R: Files<File = File> + AllocGlobal> BaseFiles<R> {
    fn file(&self, file: u8) -> &NamedFile {
        if file == 0 {
            &self.journal
        } else {
            &self.objects
        }
    }

    /// Notes a failure, if it is the first.
    fn note(&mut self, part: Part, cause: io::Error) -> DiskFault {
        if self.failed.is_none() {
            self.failed = Some((part, cause));
        }
        DiskFault
    }

    fn open_journal(&mut self) -> Result<(), DiskFault> {
        match self.journal.open(&self.rt) {
            Ok(()) => Ok(()),
            Err(cause) => Err(self.note(Part::Journal, cause)),
        }
    }

    fn open_objects(&mut self) -> Result<(), DiskFault> {
        match self.objects.open(&self.rt) {
            Ok(()) => Ok(()),
            Err(cause) => Err(self.note(Part::Objects, cause)),
        }
    }

    /// Opens a file, and the journal before it.
    fn open(&mut self, file: u8) -> Result<(), DiskFault> {
        self.open_journal()?;
        if file == 0 {
            return Ok(());
        }
        self.open_objects()
    }

    /// Syncs the folder of the first file, once: without that a power cut may take a file that was made, whatever of it was
    /// synced.
    fn sync_folder(&mut self) -> io::Result<()> {
        match self.folder {
            Folder::Synced => return Ok(()),
            Folder::Failed(cause) => return Err(cause),
            Folder::NotYet => {}
        }
        let synced = self.journal.sync_folder(&self.rt);
        self.folder = match synced {
            Ok(()) => Folder::Synced,
            Err(cause) => Folder::Failed(cause),
        };
        synced
    }

    /// Opens both files, and syncs their folder.
    fn make(&mut self) -> Result<(), DiskFault> {
        self.open(1)?;
        match self.sync_folder() {
            Ok(()) => Ok(()),
            Err(cause) => Err(self.note(Part::Folder, cause)),
        }
    }

    fn measure(&mut self, file: u8) -> Result<u64, DiskFault>
        ensures { IfOk result (λ length. length ≤ 2 ^ 62) }
    {
        self.open(file)?;
        match self.file(file).measure() {
            Ok(length) if length <= MAX_LENGTH => Ok(length),
            Ok(_) => Err(self.note(part_of(file), io::ErrorKind::FileTooLarge.into())),
            Err(cause) => Err(self.note(part_of(file), cause)),
        }
    }

    fn read(&mut self, file: u8, place: u64, into: &mut [u8]) -> Result<(), DiskFault> {
        self.open(file)?;
        match self.file(file).read(place, into) {
            Ok(()) => Ok(()),
            Err(cause) => Err(self.note(part_of(file), cause)),
        }
    }

    fn write(&mut self, file: u8, place: u64, piece: &[u8]) -> Result<(), DiskFault> {
        self.make()?;
        match self.file(file).write(place, piece) {
            Ok(()) => Ok(()),
            Err(cause) => Err(self.note(part_of(file), cause)),
        }
    }

    fn sync(&mut self, file: u8) -> Result<(), DiskFault> {
        self.open(file)?;
        match self.file(file).sync() {
            Ok(()) => Ok(()),
            Err(cause) => Err(self.note(part_of(file), cause)),
        }
    }
}

/// A disk over two files. The first file is opened at the first call, and made where it is absent; the second at the first call
/// on it or the first write. With the first write the folder of the first file is synced, once, before anything is written. Each
/// file is opened once: the handle is kept as long as the disk lives, whatever fails, and all calls go through it alone. So where
/// a file is moved away the calls go on with that file, and another that gets its name is left alone.
///
/// As a file is opened its exclusive lock is taken, and held as long as the disk lives. Then it is synced. Where one of these
/// fails, as where another program has the lock, each call on the file is a fault from then on, and nothing is read or written;
/// so is each write where the folder could not be synced. What a sync that failed in an earlier run left may be read from the
/// system's memory without being on the disk: no call of this disk can tell. No handle is a standard descriptor, so nothing that
/// is printed gets into a file, also where standard output is closed.
#[derive(Drop)]
pub struct FileDisk<R: Files<File = File> + AllocGlobal> {
    files: BaseFiles<R>,
    ticks: u64,
    faults: u64,
    ghost ticks_fit: { ticks < 2 ^ 64 },
    ghost faults_fit: { faults < 2 ^ 64 },
}

impl<R: Files<File = File> + AllocGlobal> FileDisk<R> {
    /// The disk over the files of these names. It opens nothing yet.
    pub fn new(rt: R, journal: String, objects: String) -> FileDisk<R>
        ensures ticks { result.ticks ≡ 0 }
        ensures faults { result.faults ≡ 0 }
    {
        FileDisk {
            files: BaseFiles {
                rt,
                journal: NamedFile::new(journal),
                objects: NamedFile::new(objects),
                folder: Folder::NotYet,
                failed: None,
            },
            ticks: 0,
            faults: 0,
        }
    }

    /// Goes on with the open files of another disk, and with their locks. The calls of that disk do not count here.
    pub fn take_over(&mut self, other: FileDisk<R>)
    where
        R: Drop,
        ensures ticks { self.new.ticks ≡ self.old.ticks }
        ensures faults { self.new.faults ≡ self.old.faults }
    {
        self.files = other.files;
    }

    /// Why the first of the calls that failed did so, for a user to read; none where each call so far was made.
    pub fn trouble(&self) -> Option<Trouble<'_>> {
        let (part, cause) = self.files.failed?;
        let journal = self.files.journal.name();
        let place = match part {
            Part::Journal => Place::File(journal),
            Part::Objects => Place::File(self.files.objects.name()),
            Part::Folder => Place::FolderOf(journal),
        };
        Some(Trouble { place, cause })
    }

    /// Counts a call, if one may still be made.
    fn begins(&mut self) -> bool
        ensures may { IsTrue result ↔ (self.old.ticks < 2 ^ 64 - 1) }
        ensures ticks { self.new.ticks ≡ next_count self.old.ticks }
        ensures faults { self.new.faults ≡ self.old.faults }
    {
        if self.ticks == u64::MAX {
            return false;
        }
        self.ticks += 1;
        true
    }

    fn fault(&mut self) -> DiskFault
        ensures ticks { self.new.ticks ≡ self.old.ticks }
        ensures faults { self.new.faults ≡ next_count self.old.faults }
    {
        self.faults = self.faults.saturating_add(1);
        DiskFault
    }
}

impl<R: Files<File = File> + AllocGlobal> Disk for FileDisk<R> {
    ghost use Rattle.std.specs.Prelude.{None, false, refl};
    ghost use Rattle.disk_model.specs.DiskStates.{DiskState};

    ghost ghost_state = { λ disk. record { modeled = None; ticks = disk.ticks; faults = disk.faults } };

    ghost tells = { false };

    ghost as_typed = { λ disk. refl };

    ghost counted = { λ disk.
        record { ticks = disk.ticks_fit; faults = disk.faults_fit; modeled = tt; failed = tt } };

    fn length(&mut self, file: u8) -> Result<u64, DiskFault> {
        if self.begins()
            && let Ok(length) = self.files.measure(file)
        {
            return Ok(length);
        }
        Err(self.fault())
    }

    fn read_at(&mut self, file: u8, place: u64, into: &mut [u8]) -> Result<(), DiskFault> {
        if self.begins() && self.files.read(file, place, into).is_ok() {
            return Ok(());
        }
        Err(self.fault())
    }

    fn write_at(&mut self, file: u8, place: u64, piece: &[u8]) -> Result<(), DiskFault> {
        let fits = place <= MAX_LENGTH && piece.len() as u64 <= MAX_LENGTH - place;
        if self.begins() && fits && self.files.write(file, place, piece).is_ok() {
            return Ok(());
        }
        Err(self.fault())
    }

    fn sync(&mut self, file: u8) -> Result<(), DiskFault> {
        if self.begins() && self.files.sync(file).is_ok() {
            return Ok(());
        }
        Err(self.fault())
    }

    fn counts(&self) -> Counts {
        Counts {
            ticks: self.ticks,
            faults: self.faults,
        }
    }
}
