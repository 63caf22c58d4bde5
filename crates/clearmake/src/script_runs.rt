//! Whether a builder is at a script, as the other builders see it.

use std::sync::atomic::{AtomicU64, Ordering};

/// The runs of scripts of a builder. A run that asks the service is not at its script meanwhile, and at a new one afterwards.
#[derive(Drop)]
pub(crate) struct ScriptRuns {
    // Odd while the builder is at a script.
    changes: AtomicU64,
    // The latest run that was found to be long.
    long: AtomicU64,
}

impl ScriptRuns {
    /// Of a builder that has run no script.
    pub(crate) fn new() -> ScriptRuns {
        ScriptRuns {
            changes: AtomicU64::new(0),
            long: AtomicU64::new(0),
        }
    }

    /// The run that the builder is at, where it is at one.
    pub(crate) fn current(&self) -> Option<u64> {
        let changes = self.changes.load(Ordering::SeqCst);
        (changes % 2 == 1).then_some(changes)
    }

    /// Whether a run was found to be long.
    pub(crate) fn is_long(&self, run: u64) -> bool {
        self.long.load(Ordering::SeqCst) == run
    }

    /// Notes that a run is long.
    pub(crate) fn note_long(&self, run: u64) {
        self.long.store(run, Ordering::SeqCst);
    }
}

/// Notes that a builder comes to a script or leaves it, where others look at it.
pub(crate) fn note_change(runs: Option<&ScriptRuns>) {
    if let Some(runs) = runs {
        runs.changes.fetch_add(1, Ordering::SeqCst);
    }
}
