//! A journal on a disk in memory: what it finds in bytes, how it reads them, and what faults leave.

ghost use Rattle.std.specs.Prelude.{◌≡◌, true, OnOk};

use cc_names::memory::NoMemory;
use disk_model::{Call, DiskFault, MemoryDisk};
use std::alloc::Global;
use std::process::Abort;
use std::test::Fail;
use vob_journal::{Frame, Journal, Left, foreign_bytes};

/// Reads a journal to its end, and answers how many payloads there were.
fn read_all(alloc: Global, journal: &mut Journal<MemoryDisk>) -> Result<u64, Fail>
    ensures { OnOk result (journal.new.ended ≡ true) }
{
    for count in 0..u64::MAX {
        if journal.next(alloc)?.is_none() {
            return Ok(count);
        }
    }
    Err(Fail::new("no end"))
}

/// How many payloads a journal of these bytes has, and how many of the bytes are foreign.
fn assert_found(
    rt: &impl Abort,
    alloc: Global,
    bytes: &[u8],
    payloads: u64,
    foreign: u64,
) -> Result<(), Fail> {
    let mut disk = MemoryDisk::new(alloc, bytes, b"", &[])?;
    let strange = foreign_bytes(alloc, &mut disk)?;
    let disk = MemoryDisk::new(alloc, bytes, b"", &[])?;
    let mut journal = Journal::open(disk).ok().ok_or("opened")?;
    let found = read_all(alloc, &mut journal)?;
    assert_eq!(rt; (found, strange), (payloads, foreign));
    Ok(())
}

#[test]
fn whole_frames_are_found_and_what_can_be_none_is_foreign(rt: HostRuntime) -> Result<(), Fail> {
    let table: [(&[u8], u64, u64); 17] = [
        (b"", 0, 0),
        (b"\x00", 0, 0),
        // whole frames, and one with a shut gate after it
        (b"\x01\x00\x00\x00\x00", 1, 0),
        (b"\x01\x02\x00\x00\x00ab", 1, 0),
        (b"\x01\x02\x00\x00\x00ab\x00", 1, 0),
        (
            b"\x01\x01\x00\x00\x00a\x01\x00\x00\x00\x00\x00\x01\x00\x00\x00\x00",
            2,
            0,
        ),
        // a length or a payload that is cut short
        (b"\x01", 0, 0),
        (b"\x01\xff\x00\x00\x00", 0, 0),
        (b"\x01\xff\xff\xff\xff0123456789", 0, 0),
        (b"\x01\x01\x00\x00\x00a\x00\x02\x00", 1, 0),
        (b"\x01\x01\x00\x00\x00a\x01\x02\x00\x00\x00b", 1, 0),
        // a frame whose gate was not opened, and one byte more than that
        (b"\x01\x01\x00\x00\x00a\x00\x02\x00\x00\x00bc\x00", 1, 0),
        (b"\x01\x01\x00\x00\x00a\x00\x02\x00\x00\x00bc\x00\x00", 1, 9),
        // a gate byte that is neither
        (b"\x02", 0, 1),
        (b"\x07\x00\x00\x00\x00", 0, 5),
        // texts
        (b"hello, world", 0, 12),
        (
            b"\x01\x01\x00\x00\x00a\x01\x00\x00\x00\x00hello, world",
            2,
            12,
        ),
    ];
    for (bytes, payloads, foreign) in table {
        assert_found(&rt, rt.alloc(), bytes, payloads, foreign)?;
    }
    Ok(())
}

/// Whether a fault is answered for what is foreign, on a disk that fails at this call.
fn is_fault(alloc: Global, call: u64) -> Result<bool, NoMemory> {
    let bytes = b"\x01\x01\x00\x00\x00ahello, world";
    let mut disk = MemoryDisk::new(alloc, bytes, b"", &[call])?;
    Ok(foreign_bytes(alloc, &mut disk).is_err())
}

/// The calls are three: of the length, the frames, and what follows them.
#[test]
fn a_fault_is_answered_for_what_is_foreign(rt: HostRuntime) -> Result<(), Fail> {
    for (call, fault) in [(1, true), (2, true), (3, true), (4, false)] {
        assert_eq!(rt; is_fault(rt.alloc(), call)?, fault, "at {call}");
    }
    Ok(())
}

/// The place and the size of each read of a disk, and nothing for another call.
fn reads_of(alloc: Global, disk: &MemoryDisk) -> Result<String, Fail> {
    let mut reads = String::new(alloc);
    for traced in disk.trace() {
        if let Call::Read { place, size, .. } = &traced.call {
            reads.push_str(format!(in alloc; "{size} from {place}\n")?.as_str())?;
        }
    }
    Ok(reads)
}

/// Five frames with payloads of 40,000 bytes.
fn five_frames(alloc: Global) -> Result<Vec<u8>, Fail> {
    let mut bytes = Vec::new(alloc);
    for _ in 0..5 {
        bytes.extend_from_slice(&[1, 0x40, 0x9c, 0, 0])?;
        bytes.extend_from_slice(vec![in alloc; 7; 40_000]?.as_slice())?;
    }
    Ok(bytes)
}

// Each piece begins with a frame, and has as many bytes as are read at once, or those that are left.
const READS: &str = "\
65536 from 0
65536 from 40005
65536 from 80010
65536 from 120015
40005 from 160020
";

#[test]
fn a_journal_is_read_in_pieces(rt: HostRuntime) -> Result<(), Fail> {
    let bytes = five_frames(rt.alloc())?;
    let disk = MemoryDisk::new(rt.alloc(), bytes.as_slice(), b"", &[])?;
    let mut journal = Journal::open(disk).ok().ok_or("opened")?;
    let count = read_all(rt.alloc(), &mut journal)?;
    let reads = reads_of(rt.alloc(), &journal.into_disk())?;
    assert_eq!(rt; (count, reads.as_str()), (5, READS));
    Ok(())
}

fn commit(
    alloc: Global,
    journal: &mut Journal<MemoryDisk>,
    payload: &[u8],
) -> Result<Result<u64, DiskFault>, Fail>
    requires { journal.old.ended ≡ true }
    ensures { journal.new.ended ≡ true }
{
    if payload.len() > 1000 {
        return Err(Fail::new("long"));
    }
    let frame = Frame::of(alloc, payload)?;
    Ok(journal.append(&frame))
}

/// What is left after the commit of a first row, after that of a second, and after a settling, on a disk that fails at
/// these calls; and how many calls were made.
fn left_by(alloc: Global, fail: &[u64]) -> Result<([Left; 3], u64), Fail> {
    let disk = MemoryDisk::new(alloc, b"", b"", fail)?;
    let mut journal = Journal::open(disk).ok().ok_or("opened")?;
    read_all(alloc, &mut journal)?;
    let _ = commit(alloc, &mut journal, b"one")?;
    let one = journal.left_by_last_call();
    let _ = commit(alloc, &mut journal, b"two")?;
    let two = journal.left_by_last_call();
    let _ = journal.settle();
    Ok((
        [one, two, journal.left_by_last_call()],
        journal.counts().ticks,
    ))
}

/// Call 1 is that of the length; 2 and 3 settle, and 4 to 7 commit: the payload, a sync, the gate, a sync. Behind a fault the
/// next commit settles first.
#[test]
fn a_fault_leaves_a_row_until_the_tail_is_settled(rt: HostRuntime) -> Result<(), Fail> {
    let table: [(&[u64], [Left; 3], u64); 6] = [
        (&[], [Left::Nothing, Left::Nothing, Left::Nothing], 11),
        (&[4], [Left::Nothing, Left::Nothing, Left::Nothing], 8),
        (&[7], [Left::InFlight, Left::Nothing, Left::Nothing], 13),
        (&[7, 9], [Left::InFlight, Left::Earlier, Left::Nothing], 11),
        (
            &[7, 9, 11],
            [Left::InFlight, Left::Earlier, Left::Earlier],
            11,
        ),
        (&[11], [Left::Nothing, Left::InFlight, Left::Nothing], 13),
    ];
    for (fail, left, calls) in table {
        assert_eq!(rt; left_by(rt.alloc(), fail)?, (left, calls));
    }
    Ok(())
}
