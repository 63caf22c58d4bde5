//! The version of an element that a name leads to, as `/main/fix/1`.

ghost use Rattle.std.specs.Prelude.{◌≡◌, option_and_then};
ghost use Rattle.cc_names.specs.Branches.{branch_above, branch_behind, branch_named, if_above};
ghost use Rattle.base_model.specs.Changes.{tree};
ghost use Rattle.legal_history.specs.Commands.LabelLines.{version_named};

use crate::branch_names::branch_named;
use base_rows::bases::FirstRows;
use base_rows::trees::{branch_of_version, is_number, origin_of, version_numbered};
use cc_names::commands::VersionName;
use cc_names::names::Name;

/// The branch that a branch leaves; `main` leaves none.
fn branch_above(rows: &FirstRows<'_>, branch: u64) -> Option<u64>
    ensures { result ≡ branch_above (tree rows.now) branch }
{
    branch_of_version(rows, origin_of(rows, branch)?)
}

/// The element's branch of a name, where it leaves this branch.
fn branch_from(rows: &FirstRows<'_>, element: u64, branch: u64, name: &Name) -> Option<u64>
    ensures { result
        ≡ option_and_then (if_above (tree rows.now) branch)
        (branch_named (tree rows.now) element name.now) }
{
    let next = branch_named(rows, element, name)?;
    if is_number(branch, branch_above(rows, next)) {
        Some(next)
    } else {
        None
    }
}

/// The element's branch whose names after `main` are these.
fn branch_behind(rows: &FirstRows<'_>, element: u64, names: &[Name]) -> Option<u64>
    ensures { result ≡ branch_behind (tree rows.now) element names.now }
{
    let mut branch = element;
    for name in names {
        branch = branch_from(rows, element, branch, name)?;
    }
    Some(branch)
}

/// The element's version of this name. Takes for each branch in the name the time of `branch_named`, and time logarithmic in the
/// changes.
pub fn version_named(rows: &FirstRows<'_>, element: u64, name: &VersionName) -> Option<u64>
    ensures { result ≡ version_named rows.now element name.now }
{
    let branch = branch_behind(rows, element, name.branches.as_slice())?;
    version_numbered(rows, branch, name.number)
}
