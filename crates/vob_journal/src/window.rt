//! The piece of a journal that is held in memory while it is read.

ghost use Rattle.std.specs.Prelude.{◌≡◌, ◌≤◌, ◌<◌, ◌+◌, ◌-◌, ◌^◌, ◌↔◌, min, max, Some, length, take, drop, IfOk, IfSome, IfNone, OnErr, IsTrue};
ghost use Rattle.disk_model.specs.DiskStates.{IfModeled, Both};
ghost use Rattle.disk_model.specs.Devices.{bytes_now, Fetches, Idles};
ghost use Rattle.vob_journal.specs.Pieces.{IsSought, ReadsAt, ReadsPiece, ReadsUntil};
ghost use Rattle.vob_journal.specs.Windows.{IfShows, StartsBy, reach_of};
ghost use Rattle.vob_journal.specs.Reads.{Rests, CountsReads};

use cc_names::memory::Or;
use disk_model::{Disk, DiskFault};
use std::alloc::Global;

/// The journal is read in pieces of at least so many bytes, where it has them.
const PIECE: u64 = 65_536;

/// Some bytes of the journal, from a place on.
#[derive(Drop)]
pub(crate) struct Window {
    pub(crate) start: u64,
    pub(crate) bytes: Vec<u8>,
}

impl Window {
    fn holds(&self, place: u64, needed: u64) -> bool
        requires { place + needed ≤ 2 ^ 62 }
        ensures { IsTrue result ↔
            ((self.now.start ≤ place)
            × (place + needed ≤ self.now.start + length self.now.bytes.items)) }
    {
        self.start <= place && place - self.start + needed <= self.bytes.len() as u64
    }

    /// So many bytes of the journal, from a place on.
    pub(crate) fn part(&self, place: u64, size: u64) -> &[u8]
        requires from { self.now.start ≤ place }
        requires to { place + size ≤ self.now.start + length self.now.bytes.items }
        ensures { result.now ≡ take size (drop (place - self.now.start) self.now.bytes.items) }
    {
        let from = (place - self.start) as usize;
        &self.bytes.as_slice()[from..from + size as usize]
    }
}

/// The window at hand, where it has these bytes.
fn held(window: Option<Window>, place: u64, needed: u64) -> Option<Window>
    requires within { place + needed ≤ 2 ^ 62 }
    requires some { 0 < needed }
    requires starts { StartsBy window place }
    ensures same { IfSome result (λ found. window ≡ Some found) }
    ensures from { IfSome result (λ found. found.start ≤ place) }
    ensures to { IfSome result
        (λ found. place + needed ≤ found.start + length found.bytes.items) }
    ensures further { IfNone result (reach_of window < place + needed) }
{
    let window = window?;
    if window.holds(place, needed) {
        Some(window)
    } else {
        None
    }
}

/// A window that begins at a place, with these bytes and as many more as a piece has.
fn read_piece<D: Disk>(
    alloc: Global,
    disk: &mut D,
    size: u64,
    place: u64,
    needed: u64,
) -> Result<Window, Or<DiskFault>>
    requires within { place + needed ≤ size }
    requires small { size ≤ 2 ^ 62 }
    requires all { IfModeled (D.ghost_state disk.old).modeled (λ d. size ≡ length (bytes_now 0 d)) }
    ensures from { IfOk result (λ window. window.start ≡ place) }
    ensures sized { IfOk result
        (λ window. length window.bytes.items ≡ max (min 65536 (size - place)) needed) }
    ensures shows { IfOk result (λ window. IfShows (Some window) (D.ghost_state disk.new).modeled) }
    ensures rests { Both Rests (D.ghost_state disk.old).modeled (D.ghost_state disk.new).modeled }
    ensures fetched { IfOk result
        (λ window. Both (Fetches 0 place (length window.bytes.items))
        (D.ghost_state disk.old).modeled (D.ghost_state disk.new).modeled) }
    ensures idle { OnErr result
        (Both Idles (D.ghost_state disk.old).modeled (D.ghost_state disk.new).modeled) }
    ensures pieces { Both (ReadsPiece place needed) (D.ghost_state disk.old).modeled
        (D.ghost_state disk.new).modeled }
    ensures counts { CountsReads 1 result (D.ghost_state disk.old) (D.ghost_state disk.new) }
{
    let mut bytes = Vec::new(alloc);
    let Ok(()) = bytes.resize(needed.max(PIECE).min(size - place) as usize, 0) else {
        return Err(Or::NoMemory);
    };
    if let Err(fault) = disk.read_at(0, place, bytes.as_mut_slice()) {
        return Err(Or::Is(fault));
    }
    Ok(Window {
        start: place,
        bytes,
    })
}

/// A window that has these bytes: the one at hand, or else a new one that begins there.
pub(crate) fn look<D: Disk>(
    alloc: Global,
    disk: &mut D,
    window: Option<Window>,
    size: u64,
    place: u64,
    needed: u64,
) -> Result<Window, Or<DiskFault>>
    requires within { place + needed ≤ size }
    requires small { size ≤ 2 ^ 62 }
    requires some { 0 < needed }
    requires all { IfModeled (D.ghost_state disk.old).modeled (λ d. size ≡ length (bytes_now 0 d)) }
    requires sought { IfModeled (D.ghost_state disk.old).modeled
        (λ d. IsSought needed (drop place (bytes_now 0 d))) }
    requires starts { StartsBy window place }
    requires shows { IfShows window (D.ghost_state disk.old).modeled }
    ensures from { IfOk result (λ window. window.start ≤ place) }
    ensures to { IfOk result (λ window. place + needed ≤ window.start + length window.bytes.items) }
    ensures shows { IfOk result (λ window. IfShows (Some window) (D.ghost_state disk.new).modeled) }
    ensures rests { Both Rests (D.ghost_state disk.old).modeled (D.ghost_state disk.new).modeled }
    ensures forth { IfOk result
        (λ found. Both (ReadsAt place (reach_of window) (reach_of (Some found)))
        (D.ghost_state disk.old).modeled (D.ghost_state disk.new).modeled) }
    ensures until { OnErr result
        (Both (ReadsUntil place (reach_of window)) (D.ghost_state disk.old).modeled
        (D.ghost_state disk.new).modeled) }
    ensures pieces { Both (ReadsPiece place needed) (D.ghost_state disk.old).modeled
        (D.ghost_state disk.new).modeled }
    ensures counts { CountsReads 1 result (D.ghost_state disk.old) (D.ghost_state disk.new) }
{
    match held(window, place, needed) {
        Some(window) => Ok(window),
        None => read_piece(alloc, disk, size, place, needed),
    }
}
