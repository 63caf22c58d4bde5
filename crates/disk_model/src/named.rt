//! A file of the system by its name, with its handle once it is open.

use std::fs::{self, File, OpenOptions, TryLockError};
use std::io;
use std::os::unix::fs::{FileExt, MetadataExt};
use std::path::Path;
use std::rt::Files;

/// Whether a file is open. An opening that failed is not tried again: the system reports a write that did not reach the disk to
/// one sync alone, so a second one that passes would hide the first.
#[derive(Drop)]
enum Handle {
    Closed,
    Open(File),
    Failed(io::Error),
}

/// A file by its name, and its handle once it is open. The handle is kept, whatever fails later, and the name is not looked up
/// again: so all that is read and written is one file, also where it is moved away and another takes its name.
#[derive(Drop)]
pub(crate) struct NamedFile {
    name: String,
    handle: Handle,
}

/// Opens a file, made where it is absent. The handle is a copy, which the system numbers above 2: where a standard
/// descriptor is closed the file would get its number, and what is printed would be written into the file.
fn open_file<R: Files<File = File>>(rt: &R, name: &str) -> io::Result<File> {
    let file = OpenOptions::new()
        .read(true)
        .write(true)
        .create(true)
        .open(rt, name)?;
    file.try_clone()
}

/// Takes the exclusive lock of a file, which goes with its handle.
fn lock(file: &File) -> io::Result<()> {
    match file.try_lock() {
        Ok(()) => Ok(()),
        Err(TryLockError::Error(cause)) => Err(cause),
        Err(TryLockError::WouldBlock) => Err(io::Error::new(
            io::ErrorKind::ResourceBusy,
            "in use by another program",
        )),
    }
}

/// Whether the name still leads to the file: it may have been replaced between its opening and its lock.
fn is_still_named<R: Files<File = File>>(rt: &R, name: &str, file: &File) -> io::Result<bool> {
    let named = fs::metadata(rt, name)?;
    let open = file.metadata()?;
    Ok(named.dev() == open.dev() && named.ino() == open.ino())
}

/// The open file of a name, with its exclusive lock, synced: what a program that was killed wrote there may not be on the disk
/// yet.
fn opened_alone<R: Files<File = File>>(rt: &R, name: &str) -> io::Result<File> {
    let file = open_file(rt, name)?;
    lock(&file)?;
    if !is_still_named(rt, name, &file)? {
        return Err(io::Error::new(io::ErrorKind::ResourceBusy, "replaced as it was opened"));
    }
    file.sync_data()?;
    Ok(file)
}

/// Whether a file system answers so that syncs no folders: nothing more can be asked of it.
fn syncs_no_folders(cause: &io::Error) -> bool {
    matches!(
        cause.kind(),
        io::ErrorKind::InvalidInput | io::ErrorKind::Unsupported
    )
}

/// Syncs the names in a folder.
fn sync_names<R: Files<File = File>>(rt: &R, folder: &str) -> io::Result<()> {
    let folder = if folder.is_empty() { "." } else { folder };
    match File::open(rt, folder)?.sync_all() {
        Err(cause) if syncs_no_folders(&cause) => Ok(()),
        synced => synced,
    }
}

/// The folder that a path names a file in, and nothing where that is the working folder.
fn folder_of(path: Path<'_>) -> &str {
    path.parent().map_or("", |folder| folder.as_str())
}

impl NamedFile {
    pub(crate) fn new(name: String) -> NamedFile {
        NamedFile {
            name,
            handle: Handle::Closed,
        }
    }

    pub(crate) fn name(&self) -> &str {
        self.name.as_str()
    }

    /// Opens the file, if that was not tried yet.
    pub(crate) fn open<R: Files<File = File>>(&mut self, rt: &R) -> io::Result<()> {
        match self.handle {
            Handle::Open(_) => return Ok(()),
            Handle::Failed(cause) => return Err(cause),
            Handle::Closed => {}
        }
        match opened_alone(rt, self.name.as_str()) {
            Ok(file) => {
                self.handle = Handle::Open(file);
                Ok(())
            }
            Err(cause) => {
                self.handle = Handle::Failed(cause);
                Err(cause)
            }
        }
    }

    /// Syncs the folder in which the file was made: where its name is a link, the folder of what that leads to.
    pub(crate) fn sync_folder<R: Files<File = File> + AllocGlobal>(
        &self,
        rt: &R,
    ) -> io::Result<()> {
        let name = self.name.as_str();
        match fs::symlink_metadata(rt, name) {
            Ok(found) if found.is_symlink() => {
                let path = fs::canonicalize(rt, name)?;
                sync_names(rt, folder_of(path.as_path()))
            }
            Ok(_) => sync_names(rt, folder_of(Path::new(name))),
            Err(cause) if cause.kind() == io::ErrorKind::NotFound => {
                sync_names(rt, folder_of(Path::new(name)))
            }
            Err(cause) => Err(cause),
        }
    }

    fn handle(&self) -> io::Result<&File> {
        match &self.handle {
            Handle::Open(file) => Ok(file),
            Handle::Failed(cause) => Err(*cause),
            Handle::Closed => Err(io::ErrorKind::NotConnected.into()),
        }
    }

    pub(crate) fn measure(&self) -> io::Result<u64> {
        Ok(self.handle()?.metadata()?.len())
    }

    pub(crate) fn read(&self, place: u64, into: &mut [u8]) -> io::Result<()> {
        self.handle()?.read_exact_at(into, place)
    }

    pub(crate) fn write(&self, place: u64, piece: &[u8]) -> io::Result<()> {
        self.handle()?.write_all_at(piece, place)
    }

    pub(crate) fn sync(&self) -> io::Result<()> {
        self.handle()?.sync_data()
    }
}
