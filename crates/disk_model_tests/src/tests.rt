//! What stops leave of a disk in memory, and what real files hold.

ghost use Rattle.std.specs.Prelude.{◌≡◌, ◌≤◌, IfOk, length};

use disk_model::{Disk, FileDisk, MemoryDisk, Trouble};
use std::alloc::Global;
use std::fs;
use std::process::Abort;
use std::test::Fail;

fn put(rt: &impl Abort, disk: &mut MemoryDisk, place: u64, piece: &[u8]) -> bool {
    assert!(rt; place <= disk.bytes(0).len() as u64);
    disk.write_at(0, place, piece).is_ok()
}

/// An `x` is written over the `b` of `abcd` and synced; `yz` is written from the `d` on and not synced; and a write of `??` over
/// the first two bytes fails, once half of it is written.
fn written_disk(rt: &impl Abort, alloc: Global) -> Result<MemoryDisk, Fail> {
    let mut disk = MemoryDisk::new(alloc, b"abcd", b"o", &[4])?;
    let first = put(rt, &mut disk, 1, b"x") && disk.sync(0).is_ok();
    let second = put(rt, &mut disk, 3, b"yz") && !put(rt, &mut disk, 0, b"??");
    assert!(rt; first && second);
    Ok(disk)
}

/// What a stop at a call leaves of the journal, by the pick.
fn tell_stop(
    rt: &impl Abort,
    alloc: Global,
    disk: &MemoryDisk,
    call: u64,
    pick: u64,
    found: &[u8],
) -> Result<(), Fail> {
    assert!(rt; 1 <= call && call - 1 <= disk.counts().ticks);
    let left = disk.crash(alloc, call, pick)?;
    assert_eq!(rt; left.bytes(0), found);
    Ok(())
}

#[test]
fn a_stop_keeps_what_the_pick_says(rt: HostRuntime) -> Result<(), Fail> {
    let disk = written_disk(&rt, rt.alloc())?;
    // the stop, the pick, and what is found; 5 is after the last call
    let table: [(u64, u64, &[u8]); 11] = [
        (1, 0, b"abcd"),
        (1, 1, b"axcd"),
        (1, 263, b"a\x07cd"),
        (2, 0, b"abcd"),
        (2, 1, b"axcd"),
        (3, 0, b"axcd"),
        (3, 1, b"axcyz"),
        (3, 7, b"axc\x07\x07"),
        (5, 0, b"axcd"),
        (5, 1, b"?xcyz"),
        (5, 7, b"\x07\x07c\x07\x07"),
    ];
    for (call, pick, found) in table {
        tell_stop(&rt, rt.alloc(), &disk, call, pick, found)?;
    }
    Ok(())
}

/// A disk over the files of a name.
fn files_of(rt: &HostRuntime, name: &str) -> Result<FileDisk<HostRuntime>, Fail> {
    let alloc = rt.alloc();
    let journal = String::from_str(alloc, name)?;
    let objects = format!(in alloc; "{name}.objects")?;
    Ok(FileDisk::new(rt.clone()?, journal, objects))
}

/// Writes seven bytes into each file, the last of them within the others or over their end, and syncs them.
fn write_both(rt: &impl Abort, disk: &mut FileDisk<HostRuntime>) {
    let journal = disk.write_at(0, 0, b"jo?rnal").is_ok() && disk.write_at(0, 2, b"u").is_ok();
    let objects = disk.write_at(1, 0, b"object").is_ok() && disk.write_at(1, 5, b"ts").is_ok();
    let synced = disk.sync(0).is_ok() && disk.sync(1).is_ok();
    assert!(rt; journal && objects && synced);
}

/// Whether a file of the disk holds these seven bytes, by its length and a read.
fn tell_file(rt: &impl Abort, disk: &mut FileDisk<HostRuntime>, file: u8, wanted: &[u8]) {
    assert!(rt; file <= 1);
    let mut found = [0u8; 7];
    let is_long = disk.length(file) == Ok(7);
    let is_read = disk.read_at(file, 0, found.as_mut_slice()).is_ok();
    assert!(rt;
        is_long && is_read && found.as_slice() == wanted,
        "file {file}"
    );
}

/// What one disk has written in both files and synced, another finds, which opens them after it.
#[test]
fn another_disk_finds_what_was_written(rt: HostRuntime) -> Result<(), Fail> {
    let mut disk = files_of(&rt, "disk_model_again")?;
    write_both(&rt, &mut disk);
    drop(disk);
    let mut disk = files_of(&rt, "disk_model_again")?;
    tell_file(&rt, &mut disk, 0, b"journal");
    tell_file(&rt, &mut disk, 1, b"objects");
    fs::remove_file(&rt, "disk_model_again")?;
    fs::remove_file(&rt, "disk_model_again.objects")?;
    Ok(())
}

/// Whether the first failure is told in these words.
fn tell_trouble(
    rt: &impl Abort,
    alloc: Global,
    trouble: Option<Trouble<'_>>,
    words: &str,
) -> Result<(), Fail> {
    let reported = trouble.ok_or("no trouble")?.words(alloc)?;
    assert_eq!(rt; reported.as_str(), words);
    Ok(())
}

/// A base that another disk holds is not touched, and a file that cannot be made is told.
#[test]
fn failures_are_reported(rt: HostRuntime) -> Result<(), Fail> {
    let mut holder = files_of(&rt, "disk_model_held")?;
    assert_eq!(rt; holder.length(0), Ok(0));
    for (name, words) in [
        (
            "disk_model_held",
            "disk_model_held: in use by another program",
        ),
        ("nope/x", "nope/x: No such file or directory"),
    ] {
        let mut disk = files_of(&rt, name)?;
        assert!(rt; disk.length(0).is_err());
        tell_trouble(&rt, rt.alloc(), disk.trouble(), words)?;
    }
    fs::remove_file(&rt, "disk_model_held")?;
    Ok(())
}

/// The second file is made with the first write, and where it cannot be made nothing is written.
#[test]
fn a_journal_that_is_read_has_no_second_file(rt: HostRuntime) -> Result<(), Fail> {
    let objects = "disk_model_read.objects";
    let mut disk = files_of(&rt, "disk_model_read")?;
    let is_read = disk.length(0) == Ok(0) && disk.sync(0).is_ok();
    assert!(rt; is_read && !fs::exists(&rt, objects)?);
    fs::create_dir(&rt, objects)?;
    let failed = disk.write_at(0, 0, b"a").is_err();
    assert!(rt; failed && disk.length(0) == Ok(0));
    let words = "disk_model_read.objects: Is a directory";
    tell_trouble(&rt, rt.alloc(), disk.trouble(), words)?;
    fs::remove_dir(&rt, objects)?;
    fs::remove_file(&rt, "disk_model_read")?;
    Ok(())
}

/// Whether a file holds this text.
fn tell_text(rt: &impl Abort, files: &HostRuntime, name: &str, text: &str) -> Result<(), Fail> {
    assert_eq!(rt; fs::read_to_string(files, name)?.as_str(), text);
    Ok(())
}

/// A disk whose file is moved away goes on with it, also after a call that failed, and leaves the next file of that name alone.
#[test]
fn a_file_that_is_moved_away_is_written_on(rt: HostRuntime) -> Result<(), Fail> {
    let name = "disk_model_moved";
    let mut disk = files_of(&rt, name)?;
    assert!(rt; disk.write_at(0, 0, b"old").is_ok());
    fs::rename(&rt, name, "disk_model_away")?;
    fs::write(&rt, name, "new")?;
    let failed = disk.read_at(0, 9, &mut [0u8; 1]).is_err();
    let is_written = disk.write_at(0, 3, b"er").is_ok() && disk.sync(0).is_ok();
    assert!(rt; failed && is_written && disk.length(0) == Ok(5));
    tell_text(&rt, &rt, "disk_model_away", "older")?;
    tell_text(&rt, &rt, name, "new")?;
    for file in [name, "disk_model_away", "disk_model_moved.objects"] {
        fs::remove_file(&rt, file)?;
    }
    Ok(())
}

/// A disk that took over: it goes on with the file of the other, which was moved away, and with its lock.
fn tell_taken(rt: &impl Abort, disk: &mut FileDisk<HostRuntime>) {
    assert_eq!(rt; disk.counts().ticks, 0);
    let mut found = [0u8; 4];
    let is_long = disk.length(0) == Ok(4);
    let is_read = disk.read_at(0, 0, found.as_mut_slice()).is_ok();
    assert!(rt; is_long && is_read && found.as_slice() == b"text".as_slice());
}

/// A disk that takes over goes on with the file of the other and under its lock, though the file was moved away, and counts its
/// own calls alone.
#[test]
fn a_disk_goes_on_with_the_files_of_another(rt: HostRuntime) -> Result<(), Fail> {
    let name = "disk_model_taken";
    let moved = "disk_model_taken_away";
    let mut other = files_of(&rt, name)?;
    assert!(rt; other.write_at(0, 0, b"text").is_ok());
    let mut disk = files_of(&rt, name)?;
    disk.take_over(other);
    fs::rename(&rt, name, moved)?;
    tell_taken(&rt, &mut disk);
    let is_held = files_of(&rt, moved)?.length(0).is_err();
    assert!(rt; is_held && !fs::exists(&rt, name)?);
    for file in [moved, "disk_model_taken.objects"] {
        fs::remove_file(&rt, file)?;
    }
    Ok(())
}
