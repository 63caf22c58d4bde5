//! The bytes of extents, written and read through a journal on a disk in memory.

use super::placed;
use cc_names::memory::Or;
use cc_names::texts::Text;
use container_store::{Extent, Store};
use disk_model::{Call, Disk, DiskFault, MemoryDisk, Objects};
use std::alloc::Global;
use std::test::Fail;
use vob_journal::Journal;

// A journal on a disk with these bytes of file 1, which fails at these calls. Call 1 is made.
fn journal_over(alloc: Global, objects: &[u8], fail: &[u64]) -> Result<Journal<MemoryDisk>, Fail> {
    let disk = MemoryDisk::new(alloc, b"", objects, fail)?;
    Ok(Journal::open(disk).ok().ok_or("opened")?)
}

// Writes the bytes of an extent, in two calls: of the length and of the write. Makes no second call where it is not taken, has
// another length, or begins after the end of the file.
fn put(
    store: &Store,
    journal: &mut Journal<MemoryDisk>,
    extent: Extent,
    bytes: &[u8],
) -> Result<bool, DiskFault> {
    let size = journal.length()?;
    let is_long = bytes.len() as u64 == extent.length;
    if !is_long || size < extent.place || !store.is_taken(extent) {
        return Ok(false);
    }
    store.put(journal, &extent, bytes)?;
    Ok(true)
}

// Reads the bytes of an extent, in two calls: of the length and of the read. Makes no second call where the file does not have
// it.
fn get(
    alloc: Global,
    store: &Store,
    journal: &mut Journal<MemoryDisk>,
    extent: Extent,
) -> Result<Option<Text>, Or<DiskFault>> {
    let size = match journal.length() {
        Ok(size) => size,
        Err(fault) => return Err(Or::Is(fault)),
    };
    if size < extent.length || size - extent.length < extent.place {
        return Ok(None);
    }
    Ok(Some(store.get(alloc, journal, &extent)?))
}

// The calls on both files, a line each.
fn calls_of(alloc: Global, disk: &MemoryDisk) -> Result<String, Fail> {
    let mut calls = String::new(alloc);
    for traced in disk.trace() {
        let line = match &traced.call {
            Call::Length { file } => format!(in alloc; "length of {file}\n")?,
            Call::Read { file, place, size } => format!(in alloc;
                "{size} from {place} of {file}\n"
            )?,
            Call::Write { file, place, piece } => {
                format!(in alloc; "{} to {place} of {file}\n", piece.as_bytes().len())?
            }
            Call::Tear { file, place, .. } => format!(in alloc; "torn at {place} of {file}\n")?,
            Call::Sync { file } => format!(in alloc; "sync of {file}\n")?,
        };
        calls.push_str(line.as_str())?;
    }
    Ok(calls)
}

const CALLED: &str = "\
length of 0
length of 1
3 to 4 of 1
length of 1
6 to 7 of 1
sync of 1
length of 1
4 from 0 of 1
length of 1
6 from 7 of 1
";

#[test]
fn bytes_of_extents_are_those_that_were_put(rt: HostRuntime) -> Result<(), Fail> {
    let mut journal = journal_over(rt.alloc(), b"0123456789", &[])?;
    let mut store = Store::open(rt.alloc(), 0, &[])?.ok_or("a store")?;
    let first = placed(&mut store, 4)?;
    let second = placed(&mut store, 3)?;
    let third = placed(&mut store, 6)?;
    assert!(rt; put(&store, &mut journal, second, b"abc")?);
    assert!(rt; put(&store, &mut journal, third, b"defghi")?);
    journal.sync()?;
    let read = get(rt.alloc(), &store, &mut journal, first)?.ok_or("the first")?;
    assert_eq!(rt; read.as_bytes(), b"0123".as_slice());
    let read = get(rt.alloc(), &store, &mut journal, third)?.ok_or("the third")?;
    assert_eq!(rt; read.as_bytes(), b"defghi".as_slice());
    let disk = journal.into_disk();
    assert_eq!(rt; disk.bytes(0), b"".as_slice());
    assert_eq!(rt; disk.bytes(1), b"0123abcdefghi".as_slice());
    assert_eq!(rt; calls_of(rt.alloc(), &disk)?.as_str(), CALLED);
    Ok(())
}

// Puts five bytes over the last six of ten and reads them, on a disk that fails at these calls: whether they were put, what was
// read, the counts, and the file.
fn put_and_got(
    alloc: Global,
    fail: &[u64],
    wanted: (bool, &[u8], u64, &[u8]),
) -> Result<bool, Fail> {
    let mut journal = journal_over(alloc, b"0123456789", fail)?;
    let mut store = Store::open(alloc, 0, &[])?.ok_or("a store")?;
    placed(&mut store, 4)?;
    let extent = placed(&mut store, 5)?;
    let was_put = put(&store, &mut journal, extent, b"abcde").is_ok();
    let read = match get(alloc, &store, &mut journal, extent) {
        Ok(Some(text)) => text,
        _ => Text::from_bytes(alloc, b"no")?,
    };
    let faults = Objects::counts(&journal).faults;
    let disk = journal.into_disk();
    let (put_so, read_so, counted, file) = wanted;
    Ok(
        was_put == put_so
            && read.as_bytes() == read_so
            && faults == counted
            && disk.bytes(1) == file,
    )
}

// Call 1 is that of the journal's length; 2 and 3 put, 4 and 5 get. A write that fails leaves the first half of its piece.
#[test]
fn a_fault_of_an_extent_is_answered(rt: HostRuntime) -> Result<(), Fail> {
    let table: [(&[u64], bool, &[u8], u64, &[u8]); 5] = [
        (&[], true, b"abcde", 0, b"0123abcde9"),
        (&[2], false, b"45678", 1, b"0123456789"),
        (&[3], false, b"abc78", 1, b"0123abc789"),
        (&[5], true, b"no", 1, b"0123abcde9"),
        (&[3, 4], false, b"no", 2, b"0123abc789"),
    ];
    for (fail, put_so, read_so, counted, file) in table {
        assert!(rt; put_and_got(rt.alloc(), fail, (put_so, read_so, counted, file))?);
    }
    Ok(())
}
