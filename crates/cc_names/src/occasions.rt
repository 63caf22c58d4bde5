//! What a lane is told of its next command, on what occasion it is decided, and what became of it.

ghost use Rattle.std.specs.Prelude.{◌≤◌};

use crate::rows::Tag;

/// On what occasion a command is decided.
#[derive(Clone, Copy)]
pub struct Occasion {
    /// The tag of the command.
    pub tag: Tag,
    /// The moment of its phase, in seconds since 1970, at most the last of the year 9999.
    pub moment: u64,
    /// The command that builds in the same view, if one does.
    pub busy: Option<Tag>,
    /// How many rows there are, row 0 included, and are reserved for the units of active builds.
    pub taken: u64,
    ghost in_time: { moment ≤ 253402300799 },
}

/// What a lane has to do next.
#[derive(Clone, Copy, Debug, PartialEq, Eq)]
pub enum Next {
    /// To carry out its next command, which builds nothing.
    Act,
    /// To build, for the command of this tag.
    Build(Tag),
    /// Nothing: each command of the lane is finished.
    Done,
}

/// What became of a command, by the kind of step that finished it.
#[derive(Clone, Copy, Debug, PartialEq, Eq)]
pub enum Done {
    /// A row was committed.
    Committed,
    /// It was refused.
    Refused,
    /// A query was answered, or there was nothing to scrub or to label.
    Answered,
    /// The disk failed under it.
    Faulted,
}

/// What became of the begin of a build.
#[derive(Clone, Copy, Debug, PartialEq, Eq)]
pub enum Begun {
    /// The build is active and has this many units.
    Units(u32),
    /// The build was refused.
    Refused,
}
