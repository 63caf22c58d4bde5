//! How the frames of a journal are read, one by one.

ghost use Rattle.std.specs.Prelude.{◌≡◌, ◌≤◌, ◌<◌, ◌+◌, ◌-◌, ◌^◌, List, ℕ, min, length, take, drop, IfOk, OnErr, Some};
ghost use Rattle.disk_model.specs.Devices.{bytes_now};
ghost use Rattle.disk_model.specs.DiskStates.{IfModeled, Both};
ghost use Rattle.vob_journal.specs.Pieces.{ReadsFrame, ReadsUntil, needed};
ghost use Rattle.vob_journal.specs.Windows.{IfShows, StartsBy, reach_of};
ghost use Rattle.vob_journal.specs.Reads.{Rests, CountsReads};
ghost use Rattle.vob_journal.specs.Found.{BeginsBy, HeadTells, FindsAtHead, IsPayload, IsFrameWithin, ShowsOn, FitsIn};

use crate::window::{Window, look};
use cc_names::memory::Or;
use cc_names::texts::Text;
use disk_model::{Disk, DiskFault};
use std::alloc::Global;

/// What stands at the head of the rest of a journal.
enum Head {
    /// A whole frame, whose payload has so many bytes.
    Whole(u32),
    /// A gate byte other than 1.
    Shut,
    /// The end of the file, or an open gate without a whole frame.
    Cut,
}

/// What was read there.
#[derive(Drop)]
pub(crate) enum Found {
    /// A payload, and the window in which its frame stood.
    Payload(Text, Window),
    /// The end of the list, and whether it is settled.
    End(bool),
}

/// What stands at the head, by the first five bytes, or all where there are fewer, of so many that are left.
fn head_of(bytes: &[u8], left: u64) -> Head
    ensures fits { FitsIn left result }
    ensures tells { (rest : List ℕ)
        → length rest ≡ left
        → bytes.now ≡ take (min left 5) rest
        → HeadTells result rest }
{
    if bytes.is_empty() {
        return Head::Cut;
    }
    if bytes[0] != 1 {
        return Head::Shut;
    }
    if bytes.len() < 5 || left < 5 {
        return Head::Cut;
    }
    let size = u32::from_le_bytes([bytes[1], bytes[2], bytes[3], bytes[4]]);
    if left - 5 < u64::from(size) {
        return Head::Cut;
    }
    Head::Whole(size)
}

/// The frame at a place, or the end of the list there. Takes time linear in what is read, and reads each byte of the
/// journal at most a few times over all frames.
pub(crate) fn read_frame<D: Disk>(
    alloc: Global,
    disk: &mut D,
    window: Option<Window>,
    size: u64,
    tail: u64,
) -> Result<Found, Or<DiskFault>>
    requires within { tail ≤ size }
    requires small { size ≤ 2 ^ 62 }
    requires all { IfModeled (D.ghost_state disk.old).modeled (λ d. size ≡ length (bytes_now 0 d)) }
    requires starts { StartsBy window tail }
    requires shows { IfShows window (D.ghost_state disk.old).modeled }
    ensures found { IfOk result
        (λ found. IfModeled (D.ghost_state disk.old).modeled
        (λ d. FindsAtHead found (drop tail (bytes_now 0 d)))) }
    ensures within { IfOk result (IsFrameWithin tail size) }
    ensures begins { IfOk result (BeginsBy tail) }
    ensures shows { IfOk result (ShowsOn (D.ghost_state disk.new).modeled) }
    ensures rests { Both Rests (D.ghost_state disk.old).modeled (D.ghost_state disk.new).modeled }
    ensures forth { IfOk result
        (λ found. Both (ReadsFrame tail (reach_of window) found) (D.ghost_state disk.old).modeled
        (D.ghost_state disk.new).modeled) }
    ensures until { OnErr result
        (Both (ReadsUntil tail (reach_of window)) (D.ghost_state disk.old).modeled
        (D.ghost_state disk.new).modeled) }
    ensures counts { CountsReads 2 result (D.ghost_state disk.old) (D.ghost_state disk.new) }
{
    let left = size - tail;
    if left == 0 {
        return Ok(Found::End(false));
    }
    let window = match look(alloc, disk, window, size, tail, left.min(5)) {
        Ok(window) => window,
        Err(fault) => return Err(fault),
    };
    match head_of(window.part(tail, left.min(5)), left) {
        Head::Whole(count) => read_payload(alloc, disk, window, size, tail, u64::from(count)),
        Head::Shut => Ok(Found::End(true)),
        Head::Cut => Ok(Found::End(false)),
    }
}

/// The payload of so many bytes of the frame at a place.
fn read_payload<D: Disk>(
    alloc: Global,
    disk: &mut D,
    window: Window,
    size: u64,
    tail: u64,
    count: u64,
) -> Result<Found, Or<DiskFault>>
    requires within { tail + (5 + count) ≤ size }
    requires small { size ≤ 2 ^ 62 }
    requires all { IfModeled (D.ghost_state disk.old).modeled (λ d. size ≡ length (bytes_now 0 d)) }
    requires whole { IfModeled (D.ghost_state disk.old).modeled
        (λ d. 5 + count ≡ needed (drop tail (bytes_now 0 d))) }
    requires starts { window.start ≤ tail }
    requires shows { IfShows (Some window) (D.ghost_state disk.old).modeled }
    ensures found { IfOk result
        (λ found.
        IfModeled (D.ghost_state disk.old).modeled
        (λ d. IsPayload found (take count (drop 5 (drop tail (bytes_now 0 d)))))) }
    ensures within { IfOk result (IsFrameWithin tail size) }
    ensures begins { IfOk result (BeginsBy tail) }
    ensures shows { IfOk result (ShowsOn (D.ghost_state disk.new).modeled) }
    ensures rests { Both Rests (D.ghost_state disk.old).modeled (D.ghost_state disk.new).modeled }
    ensures forth { IfOk result
        (λ found. Both (ReadsFrame tail (reach_of (Some window)) found)
        (D.ghost_state disk.old).modeled (D.ghost_state disk.new).modeled) }
    ensures until { OnErr result
        (Both (ReadsUntil tail (reach_of (Some window))) (D.ghost_state disk.old).modeled
        (D.ghost_state disk.new).modeled) }
    ensures counts { CountsReads 1 result (D.ghost_state disk.old) (D.ghost_state disk.new) }
{
    let window = match look(alloc, disk, Some(window), size, tail, 5 + count) {
        Ok(window) => window,
        Err(fault) => return Err(fault),
    };
    match Text::from_bytes(alloc, window.part(tail + 5, count)) {
        Ok(payload) => Ok(Found::Payload(payload, window)),
        Err(_) => Err(Or::NoMemory),
    }
}
