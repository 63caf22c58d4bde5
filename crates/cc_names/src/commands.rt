//! The commands of a session, and the session that they stand in.

use crate::lists::List;
use crate::names::Name;
use crate::paths::Path;
use crate::texts::Text;

/// A version by its place in its element's tree: the branches after `main`, and the number on the last of them.
#[derive(Drop)]
pub struct VersionName {
    /// The branches after `main`, from the root of the tree on.
    pub branches: List<Name>,
    /// The number of the version on the last of them, from 0.
    pub number: u64,
}

/// A macro of a makefile or of a command line.
#[derive(Drop)]
pub struct Macro {
    pub name: Text,
    pub value: Text,
}

/// A command that makes a row, finds nothing to change, or is refused.
#[derive(Drop)]
pub enum Change {
    /// Makes a view; its config spec is the default one.
    Mkview {
        view: Name,
    },
    /// Ends a view, with its checkouts, private files and references. Where it has checkouts it needs `-force`.
    Rmview {
        view: Name,
        force: bool,
    },
    /// Sets the config spec of a view to the text of the body.
    Setcs {
        view: Name,
        text: Text,
    },
    /// Makes a file element and checks it out, unless `-nco`. Its directory must be checked out.
    Mkelem {
        view: Name,
        nco: bool,
        path: Path,
    },
    /// Makes a directory element and checks it out, unless `-nco`. Its directory must be checked out.
    Mkdir {
        view: Name,
        nco: bool,
        path: Path,
    },
    /// Checks out the version that the view selects, reserved unless `-unreserved`.
    Checkout {
        view: Name,
        unreserved: bool,
        path: Path,
    },
    /// Makes a branch at the version that the view selects, and checks it out reserved, unless `-nco`.
    Mkbranch {
        view: Name,
        nco: bool,
        branch: Name,
        path: Path,
    },
    /// Writes the text of the body to a checkout or to a private file.
    Save {
        view: Name,
        path: Path,
        text: Text,
    },
    /// Removes a private file.
    Rm {
        view: Name,
        path: Path,
    },
    /// Makes a version of a checkout. A file that equals its origin needs `-identical`.
    Checkin {
        view: Name,
        identical: bool,
        path: Path,
    },
    /// Gives up a checkout.
    Uncheckout {
        view: Name,
        path: Path,
    },
    /// Takes a name out of a checked-out directory.
    Rmname {
        view: Name,
        path: Path,
    },
    /// Gives an element another name in its checked-out directory.
    Mv {
        view: Name,
        path: Path,
        name: Name,
    },
    /// Makes a label type.
    Mklbtype {
        name: Name,
    },
    /// Makes a branch type.
    Mkbrtype {
        name: Name,
    },
    /// Puts a label on the version that the view selects; where it stands on another of the element, with `-replace`.
    Mklabel {
        view: Name,
        replace: bool,
        label: Name,
        path: Path,
    },
    /// Puts a label on each version that the record of an object lists.
    MklabelConfig {
        view: Name,
        replace: bool,
        path: Path,
        label: Name,
    },
    /// Takes a label off an element.
    Rmlabel {
        view: Name,
        label: Name,
        path: Path,
    },
    /// Records that a version was merged into the version that the view selects.
    Mkarrow {
        view: Name,
        path: Path,
        version: VersionName,
    },
    /// Gives up the reference of a view to its object at a path.
    Rmdo {
        view: Name,
        path: Path,
    },
    /// Removes each object that no view refers to and that was published at least `age` seconds ago.
    Scrub {
        age: u64,
    },
}

/// A command that asks for a text, and makes no row.
#[derive(Drop)]
pub enum Query {
    /// Asks for the config spec of a view.
    Catcs {
        view: Name,
    },
    /// Asks for the objects that a view refers to.
    Lsdo {
        view: Name,
    },
    /// Asks what stands in a directory of a view; without a path, in its root.
    Ls {
        view: Name,
        path: Option<Path>,
    },
    /// Asks for the text at a path of a view, or for that of a version of the element there.
    Cat {
        view: Name,
        path: Path,
        version: Option<VersionName>,
    },
    /// Asks about what stands at a path of a view.
    Describe {
        view: Name,
        path: Path,
    },
    /// Asks for the branches and versions of an element.
    Lsvtree {
        view: Name,
        path: Path,
    },
    /// Asks for the rows that made an element what it is, the newest first.
    Lshistory {
        view: Name,
        path: Path,
    },
    /// Asks for the record of the object at a path of a view.
    Catcr {
        view: Name,
        path: Path,
    },
    /// Asks where the records of two views' objects differ.
    Diffcr {
        view: Name,
        path: Path,
        other: Name,
        second: Path,
    },
    /// Asks whether what `seer` sees covers the record of the object of `view` at a path.
    Covers {
        seer: Name,
        view: Name,
        path: Path,
    },
    /// Asks which versions at a path and below it the last version on the element's branch of a type has not reached.
    Findmerge {
        view: Name,
        path: Path,
        branch: Name,
    },
}

/// A command that builds goals in a view; without goals the first target of the makefile.
#[derive(Drop)]
pub struct Clearmake {
    pub view: Name,
    /// The makefile; without `-f` the path `Makefile`.
    pub file: Option<Path>,
    /// Whether objects of other views are left alone (`-V`).
    pub own_only: bool,
    /// Whether every script is run again (`-u`).
    pub rebuild: bool,
    /// How many scripts may run at once (`-J`), from 1 to 64.
    pub jobs: u32,
    /// The macros of the command line, each name once.
    pub macros: List<Macro>,
    pub goals: List<Path>,
}

/// One command of a lane, as its line says it.
#[derive(Drop)]
pub enum Command {
    Change(Change),
    Query(Query),
    Build(Clearmake),
}

/// A lane of a phase: its name, and its commands in their order.
#[derive(Drop)]
pub struct Lane {
    pub name: Name,
    pub commands: List<Command>,
}

/// A phase: its lanes, which run side by side.
#[derive(Drop)]
pub struct Phase {
    pub lanes: List<Lane>,
}

/// A lane as its transcript names it: its name, and the word of each of its commands.
#[derive(Drop)]
pub struct LaneWords {
    pub name: Name,
    pub words: List<Text>,
}

/// A phase as its transcript names it: its lanes, in the order of their numbers.
#[derive(Drop)]
pub struct PhaseWords {
    pub lanes: List<LaneWords>,
}

/// A session: its phases, one after the other.
#[derive(Drop)]
pub struct Session {
    pub phases: List<Phase>,
}
