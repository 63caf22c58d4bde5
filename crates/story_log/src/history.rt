//! What a session leaves: the rows, and the steps of its story.

ghost use Rattle.std.specs.Prelude.{◌≡◌, []};

use crate::steps::Steps;
use cc_names::rows::Row;
use std::alloc::Global;
use std::marker::Model;

/// The history of a session, with its rows. Contracts see it as the steps of its story. A session that opened no base has the
/// empty history.
#[derive(Drop)]
pub struct History {
    rows: Vec<Row>,
    steps: Steps,
}

impl Model for History {
    ghost use Rattle.std.specs.Prelude.{◌≡◌, List};
    ghost use Rattle.cc_names.specs.declared.steps.StoryStep.{StoryStep};
    ghost use Rattle.story_log.specs.Story.Telling.{rows_named};

    ghost Value = { List StoryStep };

    ghost view = { λ h. h.steps.items };

    ghost invariant = { λ h. rows_named h.steps.items ≡ h.rows.items };
}

impl History {
    ghost use Rattle.story_log.specs.Story.Telling.{rows_named};

    /// The history of a session that opened no base. Takes no memory.
    pub fn empty(alloc: Global) -> History
        ensures { result ≡ [] }
    {
        History {
            rows: Vec::new(alloc),
            steps: Steps::new(),
        }
    }

    /// The history of these steps, whose rows these are.
    pub(crate) fn of(rows: Vec<Row>, steps: Steps) -> History
        requires { rows_named steps.items ≡ rows.items }
        ensures { result ≡ steps.items }
    {
        History { rows, steps }
    }

    /// The rows from row 1 on: those of the opened base, and after them that of each commit.
    pub fn rows(&self) -> &[Row]
        ensures { result.now ≡ rows_named self.now }
    {
        self.rows.as_slice()
    }
}
