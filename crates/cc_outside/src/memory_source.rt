//! A source in memory, whose calls fail by plan.

ghost use Rattle.std.specs.Prelude.{◌≡◌, ◌≤◌, ◌<◌, IfOk, OnErr, length, Some};
ghost use Rattle.std.specs.Io.KnownBytes.{ReadConsumes};
ghost use Rattle.cc_names.specs.Counts.{raised_count, Rose};
ghost use Rattle.cc_outside.specs.Feeds.{fresh_feed, feed_answer, feed_after};
ghost use Rattle.cc_outside.specs.GhostStates.{ended_at, is_end};

use crate::sources::{ReadFault, Source, ended_at};
use cc_names::memory::NoMemory;
use std::alloc::Global;
use std::marker::Model;

/// A source that gives the bytes of a list, as many at once as there is room for. Its calls are counted from 1, and
/// exactly those whose number was given to `new` fail.
#[derive(Debug, Drop)]
pub struct MemorySource {
    bytes: Vec<u8>,
    place: usize,
    calls: u64,
    faults: u64,
    ended: Option<u64>,
    fail: Vec<u64>,
}

impl Model for MemorySource {
    ghost use Rattle.std.specs.Prelude.{drop, ◌≤◌, vec_len};
    ghost use Rattle.cc_outside.specs.Feeds.{Feed};

    ghost Value = { Feed };

    ghost view = { λ s.
        record {
          left = drop s.place s.bytes.items;
          given = s.place;
          calls = s.calls;
          faults = s.faults;
          ended = s.ended;
          fail = s.fail.items;
        } };

    ghost invariant = { λ s. s.place ≤ vec_len s.bytes };
}

impl MemorySource {
    /// A source of these bytes, whose calls with these numbers fail.
    pub fn new(alloc: Global, bytes: &[u8], fail: &[u64]) -> Result<MemorySource, NoMemory>
        ensures { IfOk result (λ source. source ≡ fresh_feed bytes.now fail.now) }
    {
        Ok(MemorySource {
            bytes: Vec::from_slice(alloc, bytes)?,
            place: 0,
            calls: 0,
            faults: 0,
            ended: None,
            fail: Vec::from_slice(alloc, fail)?,
        })
    }
}

impl Source for MemorySource {
    ghost ghost_state = { λ s.
        record {
          left = Some s.left;
          given = s.given;
          calls = s.calls;
          faults = s.faults;
          ended = s.ended;
        } };

    fn read(&mut self, into: &mut [u8]) -> Result<usize, ReadFault>
        requires { 0 < length into.old }
        ensures within { IfOk result (λ count. count ≤ length into.new) }
        ensures bytes { ReadConsumes (Some self.old.left) (Some self.new.left) result into.new }
        ensures counted { IfOk result
            (λ count. self.new.given ≡ raised_count self.old.given count) }
        ensures uncounted { OnErr result (self.new.given ≡ self.old.given) }
        ensures kept { self.old.faults ≤ self.new.faults }
        ensures faultless { IfOk result (λ count. self.new.faults ≡ self.old.faults) }
        ensures fault { OnErr result (Rose self.old.faults self.new.faults) }
        ensures called { self.new.calls ≡ raised_count self.old.calls 1 }
        ensures ended { self.new.ended
            ≡ ended_at self.old.ended self.new.calls (is_end result) }
        ensures answer { result ≡ feed_answer self.old (length into.old) }
        ensures after { self.new ≡ feed_after self.old result }
    {
        self.calls = self.calls.saturating_add(1);
        if self.fail.contains(&self.calls) {
            self.faults = self.faults.saturating_add(1);
            self.ended = ended_at(self.ended, self.calls, true);
            return Err(ReadFault);
        }
        let left = &self.bytes[self.place..];
        let count = left.len().min(into.len());
        into[..count].copy_from_slice(&left[..count]);
        self.place += count;
        self.ended = ended_at(self.ended, self.calls, count == 0);
        Ok(count)
    }
}
