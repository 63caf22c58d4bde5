//! A sink in memory, whose calls fail by plan.

ghost use Rattle.std.specs.Prelude.{◌≡◌, ◌≤◌, ◌<◌, IfOk, OnErr, IsErr, is_err, length, Some, true};
ghost use Rattle.cc_names.specs.Counts.{raised_count, Rose};
ghost use Rattle.cc_outside.specs.Feeds.{WriteTakes, is_to_fail, fresh_basin, basin_after};
ghost use Rattle.cc_outside.specs.GhostStates.{ended_at};

use crate::sinks::{Sink, WriteFault};
use crate::sources::ended_at;
use cc_names::memory::NoMemory;
use std::alloc::Global;
use std::marker::Model;

/// A sink that keeps all that it is given. Its calls are counted from 1; those whose number was given to `new` fail
/// and take nothing. Beside these a call fails only for want of memory.
#[derive(Debug, Drop)]
pub struct MemorySink {
    held: Vec<u8>,
    calls: u64,
    faults: u64,
    ended: Option<u64>,
    fail: Vec<u64>,
}

impl Model for MemorySink {
    ghost use Rattle.cc_outside.specs.Feeds.{Basin};

    ghost Value = { Basin };

    ghost view = { λ s.
        record {
          held = s.held.items;
          calls = s.calls;
          faults = s.faults;
          ended = s.ended;
          fail = s.fail.items;
        } };
}

impl MemorySink {
    /// A sink that holds nothing yet, whose calls with these numbers fail.
    pub fn new(alloc: Global, fail: &[u64]) -> Result<MemorySink, NoMemory>
        ensures { IfOk result (λ sink. sink ≡ fresh_basin fail.now) }
    {
        Ok(MemorySink {
            held: Vec::new(alloc),
            calls: 0,
            faults: 0,
            ended: None,
            fail: Vec::from_slice(alloc, fail)?,
        })
    }

    /// What it holds.
    pub fn bytes(&self) -> &[u8]
        ensures { result.now ≡ self.now.held }
    {
        self.held.as_slice()
    }
}

impl Sink for MemorySink {
    ghost ghost_state = { λ s.
        record { held = Some s.held; calls = s.calls; faults = s.faults; ended = s.ended } };

    fn write(&mut self, piece: &[u8]) -> Result<usize, WriteFault>
        requires { 0 < length piece.now }
        ensures within { IfOk result (λ count. count ≤ length piece.now) }
        ensures some { IfOk result (λ count. 0 < count) }
        ensures bytes { WriteTakes (Some self.old.held) (Some self.new.held) result piece.now }
        ensures kept { self.old.faults ≤ self.new.faults }
        ensures faultless { IfOk result (λ count. self.new.faults ≡ self.old.faults) }
        ensures fault { OnErr result (Rose self.old.faults self.new.faults) }
        ensures called { self.new.calls ≡ raised_count self.old.calls 1 }
        ensures ended { self.new.ended
            ≡ ended_at self.old.ended self.new.calls (is_err result) }
        ensures planned { is_to_fail self.old.fail (raised_count self.old.calls 1) ≡ true
            → IsErr result }
        ensures whole { IfOk result (λ count. count ≡ length piece.now) }
        ensures after { self.new ≡ basin_after self.old piece.now result }
    {
        self.calls = self.calls.saturating_add(1);
        if self.fail.contains(&self.calls) || self.held.extend_from_slice(piece).is_err() {
            self.faults = self.faults.saturating_add(1);
            self.ended = ended_at(self.ended, self.calls, true);
            return Err(WriteFault);
        }
        Ok(piece.len())
    }
}
