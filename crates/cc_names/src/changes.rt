//! The three kinds of change that the indexes of a base keep, each with the number of the row that made it; and what the
//! trees of versions answer.

use crate::lists::List;
use crate::names::Name;
use crate::paths::Path;
use crate::rows::Kind;

/// A change of the trees of versions. A branch is named by the row that made it, `main` by its element's row, and a
/// branch begins with its own version 0.
#[derive(Drop)]
pub enum TreeChange {
    /// An element, its branch `main` and version 0 on it.
    ElementMade {
        row: u64,
        moment: u64,
        kind: Kind,
    },
    /// A branch of the element, begun at the version `origin`, and version 0 on it.
    BranchMade {
        row: u64,
        moment: u64,
        element: u64,
        origin: u64,
        name: Name,
    },
    /// The next version on the branch.
    VersionMade {
        row: u64,
        moment: u64,
        branch: u64,
    },
}

/// What a version is known by: its element, its branch, and its number on the branch, counted from 0.
#[derive(Clone, Copy, Debug, PartialEq, Eq)]
pub struct VersionId {
    pub element: u64,
    pub branch: u64,
    pub number: u64,
}

/// One name of a directory's catalog, and the element that it names.
#[derive(Drop)]
pub struct CatalogEntry {
    pub name: Name,
    pub element: u64,
}

/// A change of a label on an element.
#[derive(Drop)]
pub enum LabelChange {
    /// The label stands on this version of the element from here on.
    Put {
        row: u64,
        label: Name,
        element: u64,
        version: u64,
    },
    /// The label stands on no version of the element from here on.
    Taken {
        row: u64,
        label: Name,
        element: u64,
    },
}

/// A change of the references that views hold to objects.
#[derive(Drop)]
pub enum ReferenceChange {
    /// The view holds the object at each of its targets, in place of what it held there.
    Won {
        view: Name,
        targets: List<Path>,
        object: u64,
    },
    /// The view holds nothing at the path any more.
    Lost {
        view: Name,
        path: Path,
    },
    /// The view is gone, and all its references with it.
    ViewGone {
        view: Name,
    },
}
