//! The trees of versions of all elements, as they were at any number of rows.
//!
//! What it is for: one place that knows every element, branch and version of a base, and answers what stood where when the
//! base had only its first `rows` rows. An element and its branch `main` are named by the row that made the element, any
//! other branch and every version by its own row. Version trees and their numbering are those of ClearCase.
//!
//! What it promises: each answer is that of the definitions over the list of changes (`cc_names`, `Versions` and
//! `Branches`), None exactly where they find nothing. Adding a change takes no memory, where room for it was reserved before.
//!
//! What it stands on: `cc_names`. A version takes about 80 bytes.
#![tactic(auto)]

ghost use Rattle.std.specs.Prelude.{◌≡◌, ℕ, ◌<◌, ◌≤◌, ◌+◌, ◌∷◌, [], IsTrue, IsSome, IfOk, IfSome, OnOk, map, reverse, filter, nat_lt, option_copied};
ghost use Rattle.cc_names.specs.Versions.{row_of_change, branch_of_change, of_first_rows, change_at, element_of_branch, versions_on, latest, version_of_number, version_id, kind_of};
ghost use Rattle.cc_names.specs.Branches.{branch_of_version, origin_of, name_of_branch};
ghost use Rattle.cc_names.specs.declared.changes.TreeChange.TheVariants as changes;
ghost use Rattle.cc_names.specs.Falling.{IsAbove, Falls};
ghost use Rattle.version_tree.specs.Forest.{AddsChange, KeepsAll, has_room};

mod branches;
mod changes;
pub mod laws;

use branches::{Branch, Later};
use cc_names::by_row::{item_of, place_of};
use cc_names::changes::TreeChange;
pub use cc_names::changes::VersionId;
use cc_names::memory::NoMemory;
use cc_names::names::Name;
use cc_names::rows::Kind;
use changes::Made;
use std::alloc::Global;
use std::marker::Model;

/// The trees of versions of all elements of a base. Contracts see the list of changes.
#[derive(Drop)]
pub struct Tree {
    alloc: Global,
    made: Vec<Made>,
    branches: Vec<Branch>,
}

impl Model for Tree {
    ghost use Rattle.version_tree.specs.Forest.{Forest};

    ghost Value = { Forest };

    ghost use Rattle.version_tree.specs.TreeFields.{forest_of, IsInStep};

    ghost view = { forest_of };

    ghost invariant = { IsInStep };
}

/// The branch on which a change made a version.
fn branch_changed(change: &TreeChange) -> u64
    ensures { result ≡ branch_of_change change.now }
{
    match change {
        TreeChange::ElementMade { row, .. } => *row,
        TreeChange::BranchMade { row, .. } => *row,
        TreeChange::VersionMade { branch, .. } => *branch,
    }
}

impl Tree {
    ghost use Rattle.version_tree.specs.Branches.{row_of_later, versions_by};

    /// The trees of a base with the root alone, a directory that row 0 made. Takes constant time.
    pub fn new(alloc: Global) -> Result<Tree, NoMemory>
        ensures root { IfOk result
            (λ tree. tree.changes ≡ changes.ElementMade 0 0 Kind.Directory ∷ []) }
    {
        let mut made = Vec::new(alloc);
        made.push(Made {
            change: TreeChange::ElementMade {
                row: 0,
                moment: 0,
                kind: Kind::Directory,
            },
        })?;
        let mut branches = Vec::new(alloc);
        branches.push(Branch {
            row: 0,
            moment: 0,
            later: Vec::new(alloc),
        })?;
        Ok(Tree {
            alloc,
            made,
            branches,
        })
    }

    /// Makes room for one element or one branch and, where a branch that is there is named, for one version on it. Takes time
    /// logarithmic in the branches; a list that is full is doubled, in time linear in it.
    pub fn reserve(&mut self, branch: Option<u64>) -> Result<(), NoMemory>
        ensures kept { KeepsAll self.old self.new }
        ensures stay { (b : ℕ) → IsTrue (has_room self.old b) → IsTrue (has_room self.new b) }
        ensures room { OnOk result (0 < self.new.room) }
        ensures ready { OnOk result
            (IfSome branch
            (λ b. IsSome (latest self.old.changes b None) → IsTrue (has_room self.new b))) }
    {
        self.reserve_change()?;
        match branch {
            Some(branch) => self.reserve_version(branch),
            None => Ok(()),
        }
    }

    // Makes room for one change.
    fn reserve_change(&mut self) -> Result<(), NoMemory>
        ensures kept { KeepsAll self.old self.new }
        ensures stay { (b : ℕ) → IsTrue (has_room self.old b) → IsTrue (has_room self.new b) }
        ensures room { OnOk result (0 < self.new.room) }
    {
        self.made.reserve(1)?;
        self.branches.reserve(1)?;
        Ok(())
    }

    // Makes room for one version on a branch, where it is there.
    fn reserve_version(&mut self, branch: u64) -> Result<(), NoMemory>
        ensures kept { KeepsAll self.old self.new }
        ensures stay { (b : ℕ) → IsTrue (has_room self.old b) → IsTrue (has_room self.new b) }
        ensures ready { OnOk result
            (IsSome (latest self.old.changes branch None) → IsTrue (has_room self.new branch)) }
    {
        if let Some(place) = place_of(&self.branches, branch) {
            let on = &mut self.branches[place];
            on.later.reserve(1)?;
        }
        Ok(())
    }

    /// Adds an element with its branch `main` and version 0 on it. The row is above all rows so far. Takes constant time.
    pub fn add_element(&mut self, row: u64, moment: u64, kind: Kind)
        requires above { IsAbove row (map row_of_change self.old.changes) }
        requires room { 0 < self.old.room }
        ensures { AddsChange self.old self.new (changes.ElementMade row moment kind) }
    {
        let change = TreeChange::ElementMade { row, moment, kind };
        self.made.push_reserved(Made { change });
        let later = Vec::new(self.alloc);
        self.branches.push_reserved(Branch { row, moment, later });
    }

    /// Adds a branch of an element that begins at the version `origin`, and version 0 on it. The row is above all rows so
    /// far. Takes constant time.
    pub fn add_branch(&mut self, row: u64, moment: u64, element: u64, origin: u64, name: Name)
        requires above { IsAbove row (map row_of_change self.old.changes) }
        requires room { 0 < self.old.room }
        ensures { AddsChange self.old self.new (changes.BranchMade row moment element origin name) }
    {
        let change = TreeChange::BranchMade {
            row,
            moment,
            element,
            origin,
            name,
        };
        self.made.push_reserved(Made { change });
        let later = Vec::new(self.alloc);
        self.branches.push_reserved(Branch { row, moment, later });
    }

    /// Adds the next version on a branch. The row is above all rows so far. Takes time logarithmic in the branches.
    pub fn add_version(&mut self, row: u64, moment: u64, branch: u64)
        requires above { IsAbove row (map row_of_change self.old.changes) }
        requires room { 0 < self.old.room }
        requires ready { IsTrue (has_room self.old branch) }
        ensures { AddsChange self.old self.new (changes.VersionMade row moment branch) }
    {
        let change = TreeChange::VersionMade {
            row,
            moment,
            branch,
        };
        self.made.push_reserved(Made { change });
        match place_of(&self.branches, branch) {
            Some(place) => {
                let on = &mut self.branches[place];
                on.later.push_reserved(Later { row, moment });
            }
            None => unreachable!(),
        }
    }

    // The branch that a row made, with its versions.
    fn branch_at(&self, branch: u64) -> Option<&Branch>
        ensures versions { versions_by (option_copied result)
            ≡ versions_on self.now.changes branch }
        ensures first_rows { (rows : ℕ)
            → filter (λ v. nat_lt v.row rows) (versions_by (option_copied result))
            ≡ versions_on (of_first_rows rows self.now.changes) branch }
        ensures falls { IfSome result
            (λ found. Falls (map row_of_later (reverse found.now.later.items))) }
    {
        item_of(&self.branches, branch)
    }

    // What a row made.
    fn change_at(&self, row: u64) -> Option<&TreeChange>
        ensures { option_copied result ≡ change_at self.now.changes row }
    {
        item_of(&self.made, row).map(|made| &made.change)
    }

    /// The last version on a branch in the first `rows` rows that was made before the moment. Takes time logarithmic in the
    /// branches and in the branch, and walks back over the versions that are not before the moment.
    pub fn latest(&self, branch: u64, rows: u64, before: Option<u64>) -> Option<u64>
        ensures { result ≡ latest (of_first_rows rows self.now.changes) branch before }
    {
        self.branch_at(branch)?.latest(rows, before)
    }

    /// The version with a number on a branch, counted from 0, in the first `rows` rows. Takes time logarithmic in the branches.
    pub fn version_of_number(&self, branch: u64, number: u64, rows: u64) -> Option<u64>
        ensures { result ≡ version_of_number (of_first_rows rows self.now.changes) branch number }
    {
        self.branch_at(branch)?.version_of_number(number, rows)
    }

    /// What kind an element is of. Takes time logarithmic in the changes.
    pub fn kind(&self, element: u64) -> Option<Kind>
        ensures { result ≡ kind_of self.now.changes element }
    {
        match self.change_at(element)? {
            TreeChange::ElementMade { kind, .. } => Some(*kind),
            _ => None,
        }
    }

    /// The version at which a branch leaves; `main` leaves nowhere. Takes time logarithmic in the changes.
    pub fn origin(&self, branch: u64) -> Option<u64>
        ensures { result ≡ origin_of self.now.changes branch }
    {
        match self.change_at(branch)? {
            TreeChange::BranchMade { origin, .. } => Some(*origin),
            _ => None,
        }
    }

    /// The name of a branch; `main` has none of its own. Takes time logarithmic in the changes.
    pub fn name(&self, branch: u64) -> Option<&Name>
        ensures { option_copied result ≡ name_of_branch self.now.changes branch }
    {
        match self.change_at(branch)? {
            TreeChange::BranchMade { name, .. } => Some(name),
            _ => None,
        }
    }

    // The element of a branch.
    fn element_of(&self, branch: u64) -> Option<u64>
        ensures { result ≡ element_of_branch self.now.changes branch }
    {
        match self.change_at(branch)? {
            TreeChange::ElementMade { row, .. } => Some(*row),
            TreeChange::BranchMade { element, .. } => Some(*element),
            TreeChange::VersionMade { .. } => None,
        }
    }

    /// The id of the version that a row made. Takes time logarithmic in the changes.
    pub fn version_id(&self, version: u64) -> Option<VersionId>
        ensures { result ≡ version_id self.now.changes version }
    {
        let branch = branch_changed(self.change_at(version)?);
        let element = self.element_of(branch)?;
        let number = self.branch_at(branch)?.number_of(version)?;
        Some(VersionId {
            element,
            branch,
            number,
        })
    }

    /// The branch on which the version that a row made stands. Takes time logarithmic in the rows.
    pub fn branch(&self, version: u64) -> Option<u64>
        ensures { result ≡ branch_of_version self.now.changes version }
    {
        Some(branch_changed(self.change_at(version)?))
    }
}
