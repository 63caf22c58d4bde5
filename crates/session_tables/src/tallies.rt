//! How much was run.

/// How many sessions the tables have, how often one was run on what a stop left, and how many runs there were in all.
#[derive(Clone, Copy, Default)]
pub(crate) struct RunCounts {
    pub(crate) sessions: usize,
    pub(crate) stops: usize,
    pub(crate) runs: usize,
}

impl RunCounts {
    /// Adds the sessions of a case.
    pub(crate) fn add_sessions(&mut self, sessions: usize) {
        self.sessions = self.sessions.saturating_add(sessions);
    }

    /// Adds a run on the base that was left.
    pub(crate) fn add_run(&mut self) {
        self.runs = self.runs.saturating_add(1);
    }

    /// Adds a run on what a stop left.
    pub(crate) fn add_stop(&mut self) {
        self.stops = self.stops.saturating_add(1);
        self.add_run();
    }

    fn and(self, more: RunCounts) -> RunCounts {
        RunCounts {
            sessions: self.sessions.saturating_add(more.sessions),
            stops: self.stops.saturating_add(more.stops),
            runs: self.runs.saturating_add(more.runs),
        }
    }
}

/// How many tables and cases were run, what they counted, and how many cases came to something else.
#[derive(Clone, Copy, Default)]
pub(crate) struct Tally {
    pub(crate) tables: usize,
    pub(crate) cases: usize,
    pub(crate) counts: RunCounts,
    pub(crate) differing: usize,
}

impl Tally {
    /// Both together.
    pub(crate) fn and(self, more: Tally) -> Tally {
        Tally {
            tables: self.tables.saturating_add(more.tables),
            cases: self.cases.saturating_add(more.cases),
            counts: self.counts.and(more.counts),
            differing: self.differing.saturating_add(more.differing),
        }
    }
}
