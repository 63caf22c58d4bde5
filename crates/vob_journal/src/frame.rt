//! A frame that is ready to be written.

ghost use Rattle.std.specs.Prelude.{◌≡◌, ◌<◌, ◌^◌, List, ℕ, length, IfOk};
ghost use Rattle.vob_journal.specs.Frames.{frame_after_gate};

use cc_names::memory::NoMemory;
use std::alloc::Global;
use std::marker::Model;

/// A payload in the form in which a journal writes it. Contracts see it as the payload.
#[derive(Debug, Drop)]
pub struct Frame {
    bytes: Vec<u8>,
}

impl Model for Frame {
    ghost use Rattle.std.specs.Prelude.{List, ℕ};
    ghost use Rattle.vob_journal.specs.Frames.{payload_of, IsWritten};

    ghost Value = { List ℕ };

    ghost view = { λ frame. payload_of frame.bytes.items };

    ghost invariant = { λ frame. IsWritten frame.bytes.items };
}

impl Frame {
    /// The frame of a payload. Takes time linear in it.
    pub fn of(alloc: Global, payload: &[u8]) -> Result<Frame, NoMemory>
        requires { length payload.now < 2 ^ 32 }
        ensures { IfOk result (λ frame. frame ≡ payload.now) }
    {
        let mut bytes = Vec::with_capacity(alloc, payload.len() + 5)?;
        bytes.extend_from_slice(&(payload.len() as u32).to_le_bytes())?;
        bytes.extend_from_slice(payload)?;
        bytes.push(0)?;
        Ok(Frame { bytes })
    }

    /// What is written after the gate byte.
    pub(crate) fn as_bytes(&self) -> &[u8]
        ensures bytes { result.now ≡ frame_after_gate self.now }
        ensures short { length self.now < 2 ^ 32 }
    {
        self.bytes.as_slice()
    }

    /// The payload's length.
    pub(crate) fn payload_len(&self) -> u64
        ensures { result ≡ length self.now }
    {
        self.bytes.len() as u64 - 5
    }
}
