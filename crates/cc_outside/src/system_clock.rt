//! The system's clock.

ghost use Rattle.std.specs.Prelude.{◌≡◌, None};

use crate::clocks::Clock;
use std::marker::Model;
use std::rt;

/// The clock of the runtime. Where it fails, it tells its last answer again, at first 0.
#[derive(Drop)]
pub struct SystemClock<R: rt::Clock> {
    rt: R,
    last: u64,
    readings: u64,
}

impl<R: rt::Clock> Model for SystemClock<R> {
    ghost use Rattle.std.specs.Prelude.{ℕ};

    ghost Value = { ℕ };

    ghost view = { λ c. c.readings };
}

impl<R: rt::Clock> SystemClock<R> {
    /// A clock over this runtime. Contracts see it as its count of readings.
    pub fn new(rt: R) -> SystemClock<R>
        ensures { result ≡ 0 }
    {
        SystemClock {
            rt,
            last: 0,
            readings: 0,
        }
    }
}

impl<R: rt::Clock> Clock for SystemClock<R> {
    ghost ghost_state = { λ c. record { modeled = None; readings = c } };

    fn now(&mut self) -> u64 {
        if let Ok(time) = self.rt.since_1970() {
            self.last = time.as_secs();
        }
        self.readings = self.readings.saturating_add(1);
        self.last
    }
}
