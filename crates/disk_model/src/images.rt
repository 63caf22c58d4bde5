//! The images of a file that a stop may leave, made by going over the trace of calls.

ghost use Rattle.std.specs.Prelude.{ℕ, List, ◌≡◌, ◌≤◌, ◌<◌, ◌+◌, length, take, IfOk, OnOk, OnErr, fold};
ghost use Rattle.disk_model.specs.Files.{overwritten, IsImage};
ghost use Rattle.disk_model.specs.Devices.{Device, new_device, bytes_handed_in, file_of, MayLeave};
ghost use Rattle.disk_model.specs.Records.{device_of};
ghost use Rattle.disk_model.specs.Picks.{IsPicture};

use crate::calls::{Call, TracedCall};
use cc_names::memory::NoMemory;
use cc_names::texts::Text;
use std::alloc::{AllocError, Global};

/// What a stop keeps of the writes since the last sync.
#[derive(Clone, Copy)]
pub(crate) enum Keep {
    Nothing,
    All,
    /// Their ranges, each byte of which reads so.
    Fill(u8),
}

impl Keep {
    /// 0 keeps nothing, 1 keeps all, another fills with its low byte.
    pub(crate) fn of(pick: u64) -> Keep {
        match pick {
            0 => Keep::Nothing,
            1 => Keep::All,
            _ => Keep::Fill((pick % 256) as u8),
        }
    }
}

/// A file as it reads after some calls, and what a stop then leaves of it.
#[derive(Drop)]
pub(crate) struct Picture {
    bytes: Vec<u8>,
    image: Vec<u8>,
}

impl Picture {
    ghost use Rattle.disk_model.specs.Files.{IsTorn};
    ghost use Rattle.disk_model.specs.Devices.{during, file_after_call};
    ghost use Rattle.disk_model.specs.Records.{event_of};

    fn of(alloc: Global, first: &[u8]) -> Result<Picture, NoMemory>
        ensures { IfOk result
            (λ picture. (picture.bytes.items ≡ first.now) × (picture.image.items ≡ first.now)) }
    {
        Ok(Picture {
            bytes: Vec::from_slice(alloc, first)?,
            image: Vec::from_slice(alloc, first)?,
        })
    }

    /// A write of these bytes, and of so many after them that were lost.
    fn write(
        &mut self,
        alloc: Global,
        keep: Keep,
        place: u64,
        landed: &[u8],
        lost: u64,
    ) -> Result<(), NoMemory>
        ensures bytes { OnOk result
            (self.new.bytes.items ≡ overwritten place landed.now self.old.bytes.items) }
        ensures image { OnOk result
            (IsTorn place (length landed.now + lost) self.old.image.items self.new.image.items) }
    {
        match keep {
            Keep::Nothing => {}
            Keep::All => overwrite(&mut self.image, place, landed)?,
            Keep::Fill(byte) => {
                let size = (landed.len() as u64).checked_add(lost).ok_or(NoMemory)?;
                let mut fill = Vec::new(alloc);
                fill.resize(size as usize, byte)?;
                overwrite(&mut self.image, place, fill.as_slice())?;
            }
        }
        overwrite(&mut self.bytes, place, landed)?;
        Ok(())
    }

    fn sync(&mut self, alloc: Global) -> Result<(), NoMemory>
        ensures bytes { self.new.bytes.items ≡ self.old.bytes.items }
        ensures image { OnOk result (self.new.image.items ≡ self.old.bytes.items) }
    {
        self.image = Vec::from_slice(alloc, self.bytes.as_slice())?;
        Ok(())
    }

    /// The picture within a call: a write may have been carried out, a sync has done nothing yet.
    fn enter(&mut self, alloc: Global, keep: Keep, file: u8, call: &Call) -> Result<(), NoMemory>
        ensures { OnOk result
            ((d : Device)
            → IsPicture (file_of file d) self.old.bytes.items self.old.image.items
            → IsPicture (during file (event_of call.now d) (file_of file d))
            self.new.bytes.items self.new.image.items) }
    {
        match call {
            Call::Write {
                file: other,
                place,
                piece,
            } => {
                if *other == file {
                    return self.write(alloc, keep, *place, piece.as_bytes(), 0);
                }
                Ok(())
            }
            Call::Tear {
                file: other,
                place,
                landed,
                lost,
            } => {
                if *other == file {
                    return self.write(alloc, keep, *place, landed.as_bytes(), *lost);
                }
                Ok(())
            }
            Call::Length { file: _ } => Ok(()),
            Call::Read {
                file: _,
                place: _,
                size: _,
            } => Ok(()),
            Call::Sync { file: _ } => Ok(()),
        }
    }

    /// The picture after a call.
    fn go_over(&mut self, alloc: Global, keep: Keep, file: u8, call: &Call) -> Result<(), NoMemory>
        ensures { OnOk result
            ((d : Device)
            → IsPicture (file_of file d) self.old.bytes.items self.old.image.items
            → IsPicture
            (file_after_call file (event_of call.now d) (file_of file d)) self.new.bytes.items
            self.new.image.items) }
    {
        match call {
            Call::Sync { file: other } => {
                if *other == file {
                    return self.sync(alloc);
                }
                Ok(())
            }
            Call::Length { file: _ } => Ok(()),
            Call::Read {
                file: _,
                place: _,
                size: _,
            } => Ok(()),
            Call::Write { .. } | Call::Tear { .. } => self.enter(alloc, keep, file, call),
        }
    }
}

/// Writes a piece over bytes from a place on, or after them where they end before it. Only the bytes after their end
/// take memory; without it they stay as they were.
pub(crate) fn overwrite(bytes: &mut Vec<u8>, place: u64, piece: &[u8]) -> Result<(), AllocError>
    ensures ok { OnOk result (bytes.new.items ≡ overwritten place piece.now bytes.old.items) }
    ensures err { OnErr result (bytes.new.items ≡ bytes.old.items) }
{
    let from = bytes.len().min(place as usize);
    let inside = piece.len().min(bytes.len() - from);
    bytes.extend_from_slice(&piece[inside..])?;
    bytes[from..from + inside].copy_from_slice(&piece[..inside]);
    Ok(())
}

/// One image that a stop at a call of this trace may leave of a file, in time linear in its calls.
pub(crate) fn image_of(
    alloc: Global,
    first: &[u8],
    trace: &[TracedCall],
    file: u8,
    call: u64,
    keep: Keep,
) -> Result<Vec<u8>, NoMemory>
    requires { 1 ≤ call }
    ensures { IfOk result
        (λ image.
        (journal objects : List ℕ) (failed : ℕ)
        → bytes_handed_in file (new_device journal objects) ≡ first.now
        → call ≤ length (device_of journal objects trace.now failed).calls + 1
        → MayLeave file (device_of journal objects trace.now failed) call image.items) }
{
    let mut picture = Picture::of(alloc, first)?;
    let mut made = 0u64;
    for traced in trace {
        if call - made <= traced.failed_before {
            return Ok(picture.image);
        }
        made += traced.failed_before + 1;
        if made == call {
            picture.enter(alloc, keep, file, &traced.call)?;
            return Ok(picture.image);
        }
        picture.go_over(alloc, keep, file, &traced.call)?;
    }
    Ok(picture.image)
}
