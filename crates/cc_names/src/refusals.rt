//! Why a command, a unit or a reader says no.

use crate::names::Name;
use crate::paths::Path;
use crate::rows::Tag;

/// Why a line of a config spec is none, in the order in which the causes are tested.
#[derive(Clone, Copy, Debug, PartialEq, Eq)]
pub enum SpecCause {
    /// Its words are no rule.
    BadRule,
    /// Its pattern is none.
    BadPattern,
    /// Its selector is none.
    BadSelector,
    /// A date in it is none.
    BadDate,
    /// Behind `-mkbranch` stands no name of a type.
    BadType,
    /// `end time` where no block is open.
    NoBlock,
}

/// Where a text is no config spec: the first line that fails, counted from 1, and why.
#[derive(Clone, Copy, Debug, PartialEq, Eq)]
pub struct SpecError {
    pub line: u32,
    pub cause: SpecCause,
}

/// Why a makefile cannot be read.
#[derive(Clone, Copy, Debug, PartialEq, Eq)]
pub enum MakeCause {
    /// It is no line of a makefile.
    BadLine,
    /// A `$` that begins no macro, or a macro without a proper name.
    BadMacro,
    /// A word that should be a path is none.
    BadPath,
    /// It is longer than 65,536 bytes.
    LineTooLong,
    /// A macro whose expansion needs itself.
    MacroLoop,
    /// A target that has a script already.
    TwoScripts,
    /// An included file is not there.
    IncludeAbsent,
    /// An include deeper than 16 files.
    IncludeDepth,
    /// It is one line, rule or included file too many.
    TooMany,
    /// A target of `.PHONY` has a script.
    PhonyScript,
}

/// Where a makefile cannot be read: the file, the line counted from 1, and why.
#[derive(Debug, Drop, PartialEq, Eq)]
pub struct MakeError {
    /// The makefile or the file that it includes.
    pub file: Path,
    pub line: u32,
    pub cause: MakeCause,
}

/// Why a line of a session is none, in the order in which the causes are tested.
#[derive(Clone, Copy, Debug, PartialEq, Eq)]
pub enum SessionCause {
    /// It stands before the first phase.
    NoPhase,
    /// It stands before the first lane of its phase.
    NoLane,
    /// A body line under a line that takes none.
    NoBody,
    /// The phase has a lane of this name already.
    TwoLanes,
    /// It begins the 65th lane of the phase.
    TooManyLanes,
    /// Its first word is no command.
    UnknownCommand,
    /// A word too few or too many, or one outside its rule.
    BadWord,
}

/// Where a text is no session: the first line that fails, counted from 1, and why.
#[derive(Clone, Copy, Debug, PartialEq, Eq)]
pub struct SessionError {
    pub line: u32,
    pub cause: SessionCause,
}

/// Why a script's run gave nothing. Lines are counted from 1.
#[derive(Debug, Drop, PartialEq, Eq)]
pub enum ScriptFault {
    /// X1: a read found nothing at this path.
    Absent(Path),
    /// X2: this line is outside the language.
    BadLine(u32),
    /// X3: this output would pass its limit.
    TooBig(Path),
    /// X4: this include lies too deep, or is one too many.
    IncludeDepth(Path),
    /// X5: this line is `fail`.
    Failed(u32),
    /// X6: this output is no target.
    StrayWrite(Path),
    /// X7: this target was not written.
    NotWritten(Path),
}

/// Why a unit of a build failed.
#[derive(Drop)]
pub enum UnitFault {
    /// U1: this prerequisite is neither a unit nor a file of the view.
    NoRule(Path),
    /// U2: the parent of a target is no directory of the view.
    NoDirectory(Path),
    /// U3: the expanded script of this target is too long.
    ScriptTooLong(Path),
    /// X1 to X7: the script's own fault.
    Script(ScriptFault),
}

/// Why a makefile and its goals give no units.
#[derive(Debug, Drop, PartialEq, Eq)]
pub enum GraphFault {
    /// G1: this goal is neither a unit nor a file.
    NoGoal(Path),
    /// G2: this path is met again on the walk.
    Cycle(Path),
    /// G3: this target, which has a script, is a file of the view.
    TargetIsSource(Path),
}

/// Why a command was refused.
#[derive(Drop)]
pub enum Refusal {
    /// C1: there is no such view.
    NoView,
    /// C2: a view of this name exists.
    ViewExists,
    /// C3: what the command needs at the path is not there.
    NoPath(Path),
    /// C4: what stands at the path is no directory.
    NotDirectory(Path),
    /// C5: the name is taken at the path: by the catalog, a private file or an object of the view.
    NameTaken(Path),
    /// C6: a private file stands at the path.
    NotElement(Path),
    /// C7: the view has not the element checked out.
    NotCheckedOut(Path),
    /// C8: the view has the element checked out already, by this row.
    AlreadyOut(u64),
    /// C9: this other view has a reserved checkout on the branch.
    Reserved(Name),
    /// C10: the checkout does not come from the latest version of the branch, which is this.
    NotLatest(u64),
    /// C11: the text is that of the origin, which is this.
    Identical(u64),
    /// C12: the view has not the directory checked out.
    ParentNotOut(Path),
    /// C13: there is no type of this name and kind.
    NoType(Name),
    /// C14: the name is taken by a type, or stands for something else.
    TypeExists(Name),
    /// C15: the element has a branch of this type, which is this.
    BranchExists(u64),
    /// C16: the label stands on this other version of the element.
    LabelElsewhere(u64),
    /// C17: the rule on this line of the config spec has `-nocheckout`.
    NoCheckoutRule(u32),
    /// C18: the view is building, by this command.
    Building(Tag),
    /// C19: the view holds an object at the path.
    IsDerived(Path),
    /// C20: the view holds no object at the path.
    NoObject(Path),
    /// C21: the view has checkouts, the oldest by this row.
    HasCheckouts(u64),
    /// C22: this line of the text is no line of a config spec, for this cause.
    BadSpec(u32, SpecCause),
    /// C23: there is no room for the rows that are needed: so many are there or reserved by builds, at most 4,000,000.
    Full(u64),
    /// C24: the label stands on no version of the element.
    NoLabel(Path),
    /// C25: a directory stands at the path.
    IsDirectory(Path),
    /// C26: what the object rests on at the path is no version.
    NotVersion(Path),
    /// C27: the element at the path has no such version.
    NoVersion(Path),
    /// C28: this row made the same arrow.
    ArrowExists(u64),
    /// C29: both ends of the arrow would be this version.
    SameVersion(u64),
    /// B1: the view has no makefile at the path.
    NoMakefile(Path),
    /// M1: this line of the makefile cannot be read, for this cause.
    MakeError(Path, u32, MakeCause),
    /// G1: this goal is neither a unit nor a file.
    NoGoal(Path),
    /// G2: this path is met again on the walk.
    Cycle(Path),
    /// G3: this target, which has a script, is a file of the view.
    TargetIsSource(Path),
}
