//! What follows the frames of a journal, where it can be no frame of it.

ghost use Rattle.std.specs.Prelude.{◌≡◌, ◌≤◌, ◌^◌, List, ℕ, min, length, take, drop, IfOk, OnErr};
ghost use Rattle.disk_model.specs.Devices.{bytes_now};
ghost use Rattle.disk_model.specs.DiskStates.{IfModeled, Both};
ghost use Rattle.vob_journal.specs.Foreign.{behind, foreign, foreign_of, may_be_cut};
ghost use Rattle.vob_journal.specs.Pieces.{LooksBehind, ReadsFromStart, ReadsFromStartUntil, ReadsPiece};
ghost use Rattle.vob_journal.specs.Reads.{SameFiles, Rests, CountsOn};

use crate::reading::{Found, read_frame};
use crate::window::look;
use cc_names::memory::Or;
use disk_model::{Disk, DiskFault};
use std::alloc::Global;

/// The number of bytes after the last whole frame of file 0, if they cannot be a torn frame; else 0. The next frame
/// that is appended overwrites them. Reads the journal once, and then at most one piece of it more, after its last whole frame.
/// Takes time linear in the journal. Whatever it answers, both files are as they were.
pub fn foreign_bytes<D: Disk>(alloc: Global, disk: &mut D) -> Result<u64, Or<DiskFault>>
    ensures foreign { IfOk result
        (λ count. IfModeled (D.ghost_state disk.old).modeled
        (λ d. count ≡ foreign (bytes_now 0 d))) }
    ensures files { Both SameFiles (D.ghost_state disk.old).modeled
        (D.ghost_state disk.new).modeled }
    ensures rests { Both Rests (D.ghost_state disk.old).modeled (D.ghost_state disk.new).modeled }
    ensures looks { Both LooksBehind (D.ghost_state disk.old).modeled
        (D.ghost_state disk.new).modeled }
    ensures counts { CountsOn result (D.ghost_state disk.old) (D.ghost_state disk.new) }
{
    let size = match disk.length(0) {
        Ok(size) => size,
        Err(fault) => return Err(Or::Is(fault)),
    };
    match tail_of(alloc, disk, size) {
        Ok(tail) => foreign_at(alloc, disk, size, tail),
        Err(fault) => Err(fault),
    }
}

/// The place after the last whole frame of a journal of so many bytes.
fn tail_of<D: Disk>(alloc: Global, disk: &mut D, size: u64) -> Result<u64, Or<DiskFault>>
    requires small { size ≤ 2 ^ 62 }
    requires all { IfModeled (D.ghost_state disk.old).modeled (λ d. size ≡ length (bytes_now 0 d)) }
    ensures within { IfOk result (λ tail. tail ≤ size) }
    ensures behind { IfOk result
        (λ tail.
        IfModeled (D.ghost_state disk.old).modeled
        (λ d. behind (bytes_now 0 d) ≡ drop tail (bytes_now 0 d))) }
    ensures rests { Both Rests (D.ghost_state disk.old).modeled (D.ghost_state disk.new).modeled }
    ensures forth { IfOk result
        (λ _. Both ReadsFromStart (D.ghost_state disk.old).modeled (D.ghost_state disk.new).modeled) }
    ensures until { OnErr result
        (Both ReadsFromStartUntil (D.ghost_state disk.old).modeled (D.ghost_state disk.new).modeled) }
    ensures counts { CountsOn result (D.ghost_state disk.old) (D.ghost_state disk.new) }
{
    let mut tail = 0;
    let mut window = None;
    'frames: loop {
        match read_frame(alloc, disk, window, size, tail) {
            Ok(Found::Payload(payload, seen)) => {
                tail += 5 + payload.as_bytes().len() as u64;
                window = Some(seen);
            }
            Ok(Found::End(_)) => return Ok(tail),
            Err(fault) => return Err(fault),
        }
    }
}

/// How many bytes stand at a tail, if no frame that was cut short can stand there, else 0.
fn foreign_at<D: Disk>(
    alloc: Global,
    disk: &mut D,
    size: u64,
    tail: u64,
) -> Result<u64, Or<DiskFault>>
    requires within { tail ≤ size }
    requires small { size ≤ 2 ^ 62 }
    requires all { IfModeled (D.ghost_state disk.old).modeled (λ d. size ≡ length (bytes_now 0 d)) }
    ensures foreign { IfOk result
        (λ count.
        IfModeled (D.ghost_state disk.old).modeled
        (λ d. count ≡ foreign_of (drop tail (bytes_now 0 d)))) }
    ensures rests { Both Rests (D.ghost_state disk.old).modeled (D.ghost_state disk.new).modeled }
    ensures piece { Both (ReadsPiece tail 0) (D.ghost_state disk.old).modeled
        (D.ghost_state disk.new).modeled }
    ensures counts { CountsOn result (D.ghost_state disk.old) (D.ghost_state disk.new) }
{
    let left = size - tail;
    if left == 0 {
        return Ok(0);
    }
    match look(alloc, disk, None, size, tail, left.min(5)) {
        Ok(window) => Ok(foreign_in(window.part(tail, left.min(5)), left)),
        Err(fault) => Err(fault),
    }
}

/// How many of so many bytes can be no frame that was cut short, by the first five, or all where there are fewer.
fn foreign_in(bytes: &[u8], left: u64) -> u64
    ensures { (rest : List ℕ)
        → length rest ≡ left
        → bytes.now ≡ take (min left 5) rest
        → result ≡ foreign_of rest }
{
    if may_be_cut(bytes, left) { 0 } else { left }
}

/// Whether so many bytes may be a frame that was cut short, by the first five, or all where there are fewer.
fn may_be_cut(bytes: &[u8], left: u64) -> bool
    ensures { (rest : List ℕ)
        → length rest ≡ left
        → bytes.now ≡ take (min left 5) rest
        → result ≡ may_be_cut rest }
{
    if bytes.is_empty() {
        return true;
    }
    if bytes.len() < 5 || left < 5 {
        return bytes[0] <= 1;
    }
    let size = u32::from_le_bytes([bytes[1], bytes[2], bytes[3], bytes[4]]);
    bytes[0] <= 1 && left <= 6 + u64::from(size)
}
