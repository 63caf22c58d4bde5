//! The rows of a base: who made one, when, and what it did.

use crate::lists::List;
use crate::names::Name;
use crate::paths::Path;
use crate::texts::Text;
use std::marker::Model;

/// The last moment that a row may have, the end of the year 9999, in seconds since 1970.
pub const LAST_MOMENT: u64 = 253_402_300_799;

/// Which command made a row: its phase, its lane and its number in the lane, each counted from 1.
#[derive(Clone, Copy, Debug, PartialEq, Eq)]
pub struct Tag {
    /// The phase of its session.
    pub phase: u32,
    /// The lane of that phase.
    pub lane: u32,
    /// The command of that lane.
    pub command: u32,
}

/// What an element is.
#[derive(Clone, Copy, Debug, PartialEq, Eq)]
pub enum Kind {
    File,
    Directory,
}

/// What a type is a type of.
#[derive(Clone, Copy, Debug, PartialEq, Eq)]
pub enum TypeKind {
    Label,
    Branch,
}

/// Whether making a branch checks it out, and how.
#[derive(Clone, Copy, Debug, PartialEq, Eq)]
pub enum Out {
    /// It is not checked out.
    No,
    /// No other view may check in on the branch.
    Reserved,
    /// Others may check in on the branch first.
    Unreserved,
}

/// One read of a script: the path that it asked for and the row that made the text there, 0 where nothing was there.
#[derive(Drop, PartialEq)]
pub struct ReadOf {
    /// The path that was asked for.
    pub path: Path,
    /// The row that made the text there, 0 where nothing was there.
    pub row: u64,
}

/// A label put on a version of an element.
#[derive(Clone, Copy, Debug, PartialEq, Eq)]
pub struct Placed {
    /// The row that made the element.
    pub element: u64,
    /// The row that made the version.
    pub version: u64,
}

/// A piece of the file of objects.
#[derive(Clone, Copy, Debug, PartialEq, Eq)]
pub struct Extent {
    /// Where it begins, in bytes.
    pub place: u64,
    /// Its length in bytes.
    pub length: u64,
}

/// An output of an object as a row spells it: its bytes, or where they stand.
#[derive(Drop)]
pub enum Stored {
    /// Its bytes.
    Here(Text),
    /// Where in the file of objects they stand.
    There(Extent),
}

/// What a row does. Elements, versions, branches and objects are named by the number of the row that made them.
#[derive(Drop)]
pub enum Deed {
    /// The view begins, with the default config spec.
    Mkview {
        view: Name,
    },
    /// The view ends, with its checkouts, private files and references.
    Rmview {
        view: Name,
    },
    /// The view has this config spec.
    Setcs {
        view: Name,
        text: Text,
    },
    /// The directory, checked out in the view, has an element more under this name, which is checked out as well where `out`
    /// is set.
    Mkelem {
        view: Name,
        directory: u64,
        name: Name,
        kind: Kind,
        out: bool,
    },
    /// The view has the element checked out, from the version `origin`.
    Checkout {
        view: Name,
        element: u64,
        origin: u64,
        reserved: bool,
    },
    /// The element has a branch more, begun at the version `origin`.
    Branch {
        view: Name,
        element: u64,
        origin: u64,
        name: Name,
        out: Out,
    },
    /// The view's checkout of the file has this text.
    Save {
        view: Name,
        element: u64,
        text: Text,
    },
    /// The view's checkout is the next version on its branch.
    Checkin {
        view: Name,
        element: u64,
    },
    /// The view's checkout is gone.
    Uncheckout {
        view: Name,
        element: u64,
    },
    /// The view's checkout of the directory lacks this name.
    Rmname {
        view: Name,
        directory: u64,
        name: Name,
    },
    /// In the view's checkout of the directory an element has another name.
    Mv {
        view: Name,
        directory: u64,
        from_name: Name,
        to_name: Name,
    },
    /// The view has a private file of this text at the path.
    Put {
        view: Name,
        path: Path,
        text: Text,
    },
    /// The private file at the path is gone.
    Rm {
        view: Name,
        path: Path,
    },
    /// A type of labels or branches has this name.
    Mktype {
        kind: TypeKind,
        name: Name,
    },
    /// The label stands on this version of the element.
    Label {
        label: Name,
        element: u64,
        version: u64,
    },
    /// The label stands on no version of the element.
    Unlabel {
        label: Name,
        element: u64,
    },
    /// A build made an object: its targets, the script that ran, what that read, and the text of each target. The view
    /// refers to it at each target.
    Publish {
        view: Name,
        targets: List<Path>,
        script: Text,
        entries: List<ReadOf>,
        outputs: List<Text>,
    },
    /// The view refers to the object at each of its targets.
    Wink {
        view: Name,
        object: u64,
    },
    /// The view refers to no object at the path.
    Drop {
        view: Name,
        path: Path,
    },
    /// These objects, ascending, are gone.
    Scrub {
        objects: List<u64>,
    },
    /// The label stands on each of these versions.
    Labels {
        label: Name,
        placed: List<Placed>,
    },
    /// The version `tail` was merged into the version `head`.
    Arrow {
        element: u64,
        tail: u64,
        head: u64,
    },
    /// As a publish, with outputs that may stand in the file of objects.
    PublishAt {
        view: Name,
        targets: List<Path>,
        script: Text,
        entries: List<ReadOf>,
        outputs: List<Stored>,
    },
}

/// A row of a base. Its type keeps its form: names, paths, numbers and lists are as the spelling of a row wants them.
/// Contracts see it as the plain record of its fields.
#[derive(Drop)]
pub struct Row {
    tag: Tag,
    moment: u64,
    deed: Deed,
}

impl Model for Row {
    ghost use Rattle.cc_names.specs.Formed.{Plain, IsFormed};

    ghost Value = { Plain };

    ghost view = { λ row. record { tag = row.tag; moment = row.moment; deed = row.deed } };

    ghost invariant = { λ row.
        IsFormed (record { tag = row.tag; moment = row.moment; deed = row.deed }) };
}

impl Row {
    ghost use Rattle.std.specs.Prelude.{◌≡◌};
    ghost use Rattle.cc_names.specs.Formed.{IsFormed};

    /// The row of these fields, which have the form of a row. Takes no memory.
    pub fn of(tag: Tag, moment: u64, deed: Deed) -> Row
        requires { IsFormed (record { tag = tag; moment = moment; deed = deed }) }
        ensures { result ≡ record { tag = tag; moment = moment; deed = deed } }
    {
        Row { tag, moment, deed }
    }

    /// The command that made it.
    pub fn tag(&self) -> Tag
        ensures { result ≡ self.now.tag }
    {
        self.tag
    }

    /// When it was made, in seconds since 1970.
    pub fn moment(&self) -> u64
        ensures { result ≡ self.now.moment }
    {
        self.moment
    }

    /// What it did.
    pub fn deed(&self) -> &Deed
        ensures deed { result.now ≡ self.now.deed }
        ensures formed { IsFormed self.now }
    {
        &self.deed
    }
}
