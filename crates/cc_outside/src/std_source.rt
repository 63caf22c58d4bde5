//! A source over a reader of the standard library.

ghost use Rattle.std.specs.Prelude.{◌≡◌, None};

use crate::sources::{ReadFault, Source, ended_at};
use std::io::Read;
use std::marker::Model;

/// The bytes of a reader. Each error of the reader is one fault; its content is not known before it comes.
#[derive(Drop)]
pub struct StdSource<I: Read> {
    inner: I,
    given: u64,
    calls: u64,
    faults: u64,
    ended: Option<u64>,
}

impl<I: Read> Model for StdSource<I> {
    ghost use Rattle.cc_outside.specs.Feeds.{Flow};

    ghost Value = { Flow };

    ghost view = { λ s.
        record { given = s.given; calls = s.calls; faults = s.faults; ended = s.ended } };
}

impl<I: Read> StdSource<I> {
    /// A source over this reader.
    pub fn new(inner: I) -> StdSource<I>
        ensures { result ≡ record { given = 0; calls = 0; faults = 0; ended = None } }
    {
        StdSource {
            inner,
            given: 0,
            calls: 0,
            faults: 0,
            ended: None,
        }
    }
}

impl<I: Read> Source for StdSource<I> {
    ghost ghost_state = { λ s.
        record {
          left = None;
          given = s.given;
          calls = s.calls;
          faults = s.faults;
          ended = s.ended;
        } };

    fn read(&mut self, into: &mut [u8]) -> Result<usize, ReadFault> {
        self.calls = self.calls.saturating_add(1);
        match self.inner.read(into) {
            Ok(count) => {
                self.given = self.given.saturating_add(count as u64);
                self.ended = ended_at(self.ended, self.calls, count == 0);
                Ok(count)
            }
            Err(_) => {
                self.faults = self.faults.saturating_add(1);
                self.ended = ended_at(self.ended, self.calls, true);
                Err(ReadFault)
            }
        }
    }
}
