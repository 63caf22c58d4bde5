//! Gates that hold runs of scripts until others have come or ended, and gates that count.

use cc_names::paths::Path;
use cc_outside::Hook;
use std::sync::atomic::{AtomicBool, AtomicU64, Ordering};
use std::thread;

// How often a gate looks whether another run has come, before it gives up.
const LOOKS: u32 = 10_000_000;

// How often a run that is late looks away once another one has ended, while that is finished.
const LOOKS_AWAY: u32 = 200;

/// What a run is about to do where it asks a gate.
#[derive(Clone, Copy, Debug, PartialEq, Eq)]
pub(crate) enum About {
    Enter,
    Read,
}

/// A point at which a run of a unit's script asks the gate: the lane by its number, the unit by its first target, and what is
/// asked first there.
#[derive(Drop)]
pub(crate) struct HookPoint {
    lane: u32,
    unit: &'static str,
    about: About,
    has_come: AtomicBool,
}

impl HookPoint {
    pub(crate) fn new(lane: u32, unit: &'static str, about: About) -> HookPoint {
        HookPoint {
            lane,
            unit,
            about,
            has_come: AtomicBool::new(false),
        }
    }

    fn is_at(&self, lane: u32, unit: &Path, about: About) -> bool {
        self.lane == lane && self.about == about && self.unit.as_bytes() == unit.as_bytes()
    }

    fn mark(&self, lane: u32, unit: &Path, about: About) {
        if self.is_at(lane, unit, about) {
            self.has_come.store(true, Ordering::SeqCst);
        }
    }

    fn has_come(&self) -> bool {
        self.has_come.load(Ordering::SeqCst)
    }
}

/// Holds the run that comes to one point until another run has come to another point.
#[derive(Drop)]
pub(crate) struct Hold {
    held: HookPoint,
    until: HookPoint,
    gave_up: AtomicBool,
}

impl Hold {
    pub(crate) fn new(held: HookPoint, until: HookPoint) -> Hold {
        Hold {
            held,
            until,
            gave_up: AtomicBool::new(false),
        }
    }

    /// Whether both runs have come, the other while the one was held or before.
    pub(crate) fn was_met(&self) -> bool {
        self.held.has_come() && self.until.has_come() && !self.gave_up.load(Ordering::SeqCst)
    }

    fn wait(&self) {
        for _ in 0..LOOKS {
            if self.until.has_come() {
                return;
            }
            thread::yield_now();
        }
        self.gave_up.store(true, Ordering::SeqCst);
    }
}

/// A gate of these holds.
#[derive(Drop)]
pub(crate) struct Holds<'a>(pub(crate) &'a [Hold]);

impl Holds<'_> {
    /// Whether each hold ended because the other run had come.
    pub(crate) fn were_met(&self) -> bool {
        self.0.iter().all(|hold| hold.was_met())
    }

    fn mark(&self, lane: u32, unit: &Path, about: About) {
        for hold in self.0 {
            hold.held.mark(lane, unit, about);
            hold.until.mark(lane, unit, about);
        }
    }

    fn come(&self, lane: u32, unit: &Path, about: About) {
        self.mark(lane, unit, about);
        for hold in self.0 {
            if hold.held.is_at(lane, unit, about) {
                hold.wait();
            }
        }
    }
}

impl Hook for Holds<'_> {
    fn enter(&self, lane: u32, unit: &Path) {
        self.come(lane, unit, About::Enter);
    }

    fn leave(&self, _lane: u32, _unit: &Path) {}

    fn read(&self, lane: u32, unit: &Path, _path: &Path) {
        self.come(lane, unit, About::Read);
    }
}

/// A gate at whose reads the runs of one unit wait until a run of another has ended, and a while more.
#[derive(Drop)]
pub(crate) struct Late {
    unit: &'static str,
    has_ended: AtomicBool,
}

impl Late {
    pub(crate) fn new(unit: &'static str) -> Late {
        Late {
            unit,
            has_ended: AtomicBool::new(false),
        }
    }

    fn wait(&self) {
        for _ in 0..LOOKS {
            if self.has_ended.load(Ordering::SeqCst) {
                break;
            }
            thread::yield_now();
        }
    }
}

impl Hook for Late {
    fn enter(&self, _lane: u32, _unit: &Path) {}

    fn leave(&self, _lane: u32, _unit: &Path) {
        self.has_ended.store(true, Ordering::SeqCst);
    }

    fn read(&self, _lane: u32, unit: &Path, _path: &Path) {
        if self.unit.as_bytes() == unit.as_bytes() {
            self.wait();
            for _ in 0..LOOKS_AWAY {
                thread::yield_now();
            }
        }
    }
}

/// How often the scripts of a unit's builds were run, in whichever lane.
#[derive(Drop)]
pub(crate) struct Runs {
    unit: &'static str,
    entered: AtomicU64,
    read: AtomicU64,
    left: AtomicU64,
}

impl Runs {
    pub(crate) fn new(unit: &'static str) -> Runs {
        Runs {
            unit,
            entered: AtomicU64::new(0),
            read: AtomicU64::new(0),
            left: AtomicU64::new(0),
        }
    }

    /// How often runs began, read, and ended.
    pub(crate) fn counts(&self) -> (u64, u64, u64) {
        (
            self.entered.load(Ordering::SeqCst),
            self.read.load(Ordering::SeqCst),
            self.left.load(Ordering::SeqCst),
        )
    }

    // Whether just one run more has begun than have ended.
    fn is_one_inside(&self) -> bool {
        let (entered, _, left) = self.counts();
        entered == left.saturating_add(1)
    }
}

/// A gate that counts the runs of these units, no two of which run at once, and notes what it is asked beside them.
#[derive(Drop)]
pub(crate) struct Counting<'a> {
    runs: &'a [Runs],
    was_astray: AtomicBool,
}

impl<'a> Counting<'a> {
    pub(crate) fn new(runs: &'a [Runs]) -> Counting<'a> {
        Counting {
            runs,
            was_astray: AtomicBool::new(false),
        }
    }

    /// Whether something was asked of another unit, or a read or an end where not just one run of the unit was inside.
    pub(crate) fn was_astray(&self) -> bool {
        self.was_astray.load(Ordering::SeqCst)
    }

    fn runs_of(&self, unit: &Path) -> Option<&'a Runs> {
        self.runs
            .iter()
            .find(|runs| runs.unit.as_bytes() == unit.as_bytes())
    }

    fn stray(&self) {
        self.was_astray.store(true, Ordering::SeqCst);
    }

    // The runs of a unit of which one is inside.
    fn inside(&self, unit: &Path) -> Option<&'a Runs> {
        match self.runs_of(unit) {
            Some(runs) if runs.is_one_inside() => Some(runs),
            _ => None,
        }
    }
}

impl Hook for Counting<'_> {
    fn enter(&self, _lane: u32, unit: &Path) {
        match self.runs_of(unit) {
            Some(runs) => {
                runs.entered.fetch_add(1, Ordering::SeqCst);
            }
            None => self.stray(),
        }
    }

    fn leave(&self, _lane: u32, unit: &Path) {
        match self.inside(unit) {
            Some(runs) => {
                runs.left.fetch_add(1, Ordering::SeqCst);
            }
            None => self.stray(),
        }
    }

    fn read(&self, _lane: u32, unit: &Path, _path: &Path) {
        match self.inside(unit) {
            Some(runs) => {
                runs.read.fetch_add(1, Ordering::SeqCst);
            }
            None => self.stray(),
        }
    }
}
