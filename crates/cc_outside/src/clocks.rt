//! The moments at which things happen.

ghost use Rattle.std.specs.Prelude.{◌≡◌};
ghost use Rattle.cc_names.specs.Counts.{raised_count};
ghost use Rattle.cc_outside.specs.GhostStates.{ClockState, Tells};

/// Tells moments, in seconds since 1970. It cannot fail.
pub trait Clock {
    // The moments that its readings tell, where contracts know them, and how many readings were made so far.
    ghost ghost_state: { Self → ClockState };

    /// The moment now.
    fn now(&mut self) -> u64
        ensures moment { Tells (ghost_state self.old) result }
        ensures list { (ghost_state self.new).modeled ≡ (ghost_state self.old).modeled }
        ensures counted { (ghost_state self.new).readings
            ≡ raised_count (ghost_state self.old).readings 1 };
}
