//! What a row adds to the trees of versions.

ghost use Rattle.std.specs.Prelude.{◌≡◌, ℕ, OnOk, IfOk, map};
ghost use Rattle.std.specs.Option.{option_map};
ghost use Rattle.cc_names.specs.Falling.{IsAbove};
ghost use Rattle.cc_names.specs.Versions.{row_of_change};
ghost use Rattle.base_model.specs.Changes.{tree};
ghost use Rattle.base_model.specs.Rows.{size};
ghost use Rattle.version_tree.specs.Forest.{KeepsAll};
ghost use Rattle.base_rows.specs.Effects.{plain_checkout};
ghost use Rattle.base_rows.specs.Growing.{HasPlace, IsRooted, change_of, tree_change, version_made, with_change};

use crate::bases::FirstRows;
use crate::checkouts::{Checkout, checked_out};
use crate::trees::branch_of_version;
use cc_names::memory::NoMemory;
use cc_names::names::Name;
use cc_names::rows::{Deed, Kind};
use std::alloc::Global;
use version_tree::Tree;

/// What a row adds to the trees of versions.
#[derive(Drop)]
pub(crate) enum Growth {
    /// Nothing.
    Same,
    /// An element of this kind.
    Element(Kind),
    /// A branch of an element, which leaves at a version.
    Branch {
        element: u64,
        origin: u64,
        name: Name,
    },
    /// The next version on a branch.
    Version(u64),
}

/// The version that a checkin of a checkout makes.
fn version_made(rows: &FirstRows<'_>, checkout: Option<Checkout>) -> Growth
    ensures change { (n : ℕ) (moment : ℕ) → change_of n moment result
        ≡ version_made n moment (tree rows.now) (option_map plain_checkout checkout) }
    ensures rooted { IsRooted (tree rows.now) result }
{
    match checkout {
        None => Growth::Same,
        Some(checkout) => match branch_of_version(rows, checkout.origin) {
            None => Growth::Same,
            Some(branch) => Growth::Version(branch),
        },
    }
}

/// What the next row adds to the trees, where it is of this deed. Takes the time of `checked_out`, time logarithmic in the
/// changes, and for a branch time linear in its name.
pub(crate) fn growth_of(
    alloc: Global,
    rows: &FirstRows<'_>,
    deed: &Deed,
) -> Result<Growth, NoMemory>
    ensures change { IfOk result
        (λ growth. (moment : ℕ) → change_of (size rows.now) moment growth
        ≡ tree_change rows.now moment deed.now) }
    ensures rooted { IfOk result (λ growth. IsRooted (tree rows.now) growth) }
{
    match deed {
        Deed::Mkelem { kind, .. } => Ok(Growth::Element(*kind)),
        Deed::Branch {
            element,
            origin,
            name,
            ..
        } => Ok(Growth::Branch {
            element: *element,
            origin: *origin,
            name: name.copy(alloc)?,
        }),
        Deed::Checkin { view, element } => {
            Ok(version_made(rows, checked_out(rows, view, *element)))
        }
        _ => Ok(Growth::Same),
    }
}

/// Makes room for what a row adds to the trees. Takes time logarithmic in the branches; a list that is full is doubled, in time
/// linear in it.
pub(crate) fn reserve_growth(tree: &mut Tree, growth: &Growth) -> Result<(), NoMemory>
    requires rooted { IsRooted tree.old.changes growth.now }
    ensures kept { KeepsAll tree.old tree.new }
    ensures room { OnOk result (HasPlace tree.new growth.now) }
{
    match growth {
        Growth::Same => Ok(()),
        Growth::Element(_) | Growth::Branch { .. } => tree.reserve(None),
        Growth::Version(branch) => tree.reserve(Some(*branch)),
    }
}

/// Adds to the trees what a row adds, whose number is above all so far. Takes time logarithmic in the branches; no memory.
pub(crate) fn grow(tree: &mut Tree, row: u64, moment: u64, growth: Growth)
    requires above { IsAbove row (map row_of_change tree.old.changes) }
    requires place { HasPlace tree.old growth }
    ensures { tree.new.changes ≡ with_change (change_of row moment growth) tree.old.changes }
{
    match growth {
        Growth::Same => {}
        Growth::Element(kind) => tree.add_element(row, moment, kind),
        Growth::Branch {
            element,
            origin,
            name,
        } => tree.add_branch(row, moment, element, origin, name),
        Growth::Version(branch) => tree.add_version(row, moment, branch),
    }
}
