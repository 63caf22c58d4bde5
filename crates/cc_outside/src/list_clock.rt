//! A clock that tells a list.

ghost use Rattle.std.specs.Prelude.{◌≡◌, ◌<◌, IfOk, IfSome, length, Some};
ghost use Rattle.cc_names.specs.Counts.{raised_count};
ghost use Rattle.cc_outside.specs.Moments.{moment_at};

use crate::clocks::Clock;
use cc_names::memory::NoMemory;
use std::alloc::Global;
use std::marker::Model;

/// A clock that tells the moments of a list in turn, and then its last moment again and again.
#[derive(Debug, Drop)]
pub struct ListClock {
    moments: Vec<u64>,
    readings: u64,
}

impl Model for ListClock {
    ghost use Rattle.std.specs.Prelude.{◌<◌, vec_len};
    ghost use Rattle.cc_outside.specs.Moments.{ModeledClock};

    ghost Value = { ModeledClock };

    ghost view = { λ c. record { moments = c.moments.items; readings = c.readings } };

    ghost invariant = { λ c. 0 < vec_len c.moments };
}

impl ListClock {
    /// A clock that tells these moments.
    pub fn new(alloc: Global, modeled: &[u64]) -> Result<ListClock, NoMemory>
        requires { 0 < length modeled.now }
        ensures { IfOk result (λ clock. clock ≡ record { moments = modeled.now; readings = 0 }) }
    {
        Ok(ListClock {
            moments: Vec::from_slice(alloc, modeled)?,
            readings: 0,
        })
    }
}

impl Clock for ListClock {
    ghost ghost_state = { λ c. record { modeled = Some c.moments; readings = c.readings } };

    fn now(&mut self) -> u64 {
        let last = self.moments.len() - 1;
        let place = self.readings.min(last as u64) as usize;
        self.readings = self.readings.saturating_add(1);
        self.moments[place]
    }
}
