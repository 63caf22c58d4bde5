//! A sink over a writer of the standard library.

ghost use Rattle.std.specs.Prelude.{◌≡◌, None};

use crate::sinks::{Sink, WriteFault};
use crate::sources::ended_at;
use std::io::Write;
use std::marker::Model;

/// The bytes go to a writer. Each error of the writer, and each write that takes nothing, is one fault.
#[derive(Drop)]
pub struct StdSink<O: Write> {
    inner: O,
    calls: u64,
    faults: u64,
    ended: Option<u64>,
}

impl<O: Write> Model for StdSink<O> {
    ghost use Rattle.cc_outside.specs.Feeds.{Outflow};

    ghost Value = { Outflow };

    ghost view = { λ s. record { calls = s.calls; faults = s.faults; ended = s.ended } };
}

impl<O: Write> StdSink<O> {
    /// A sink over this writer.
    pub fn new(inner: O) -> StdSink<O>
        ensures { result ≡ record { calls = 0; faults = 0; ended = None } }
    {
        StdSink {
            inner,
            calls: 0,
            faults: 0,
            ended: None,
        }
    }
}

impl<O: Write> Sink for StdSink<O> {
    ghost ghost_state = { λ s.
        record { held = None; calls = s.calls; faults = s.faults; ended = s.ended } };

    fn write(&mut self, piece: &[u8]) -> Result<usize, WriteFault> {
        self.calls = self.calls.saturating_add(1);
        match self.inner.write(piece) {
            Ok(count) if count > 0 => Ok(count),
            _ => {
                self.faults = self.faults.saturating_add(1);
                self.ended = ended_at(self.ended, self.calls, true);
                Err(WriteFault)
            }
        }
    }
}
