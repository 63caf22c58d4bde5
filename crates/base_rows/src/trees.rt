//! What the trees of versions had at the first rows.

ghost use Rattle.std.specs.Prelude.{◌≡◌};
ghost use Rattle.std.specs.Option.{option_copied};
ghost use Rattle.cc_names.specs.Branches.{branch_of_version, name_of_branch, origin_of};
ghost use Rattle.cc_names.specs.Versions.{is_number, latest, version_of_number, version_id};
ghost use Rattle.base_model.specs.Changes.{tree};
ghost use Rattle.base_model.specs.Checkouts.{is_latest, latest_beside};
ghost use Rattle.base_model.specs.Closures.{is_version_of};

use crate::bases::FirstRows;
use cc_names::changes::VersionId;
use cc_names::names::Name;

/// Whether there is a number, and it is this one.
pub fn is_number(number: u64, found: Option<u64>) -> bool
    ensures { result ≡ is_number number found }
{
    match found {
        None => false,
        Some(other) => number == other,
    }
}

/// The branch on which a version stands. Takes time logarithmic in the changes.
pub fn branch_of_version(rows: &FirstRows<'_>, version: u64) -> Option<u64>
    ensures { result ≡ branch_of_version (tree rows.now) version }
{
    let trees = rows.tree();
    if version < rows.size() {
        trees.branch(version)
    } else {
        None
    }
}

/// The version at which a branch leaves; `main` leaves nowhere. Takes time logarithmic in the changes.
pub fn origin_of(rows: &FirstRows<'_>, branch: u64) -> Option<u64>
    ensures { result ≡ origin_of (tree rows.now) branch }
{
    let trees = rows.tree();
    if branch < rows.size() {
        trees.origin(branch)
    } else {
        None
    }
}

/// The last version on a branch that was made before the moment. Takes time logarithmic in the branches and in the branch, and
/// walks back over the versions that are not before the moment.
pub fn latest_version(rows: &FirstRows<'_>, branch: u64, before: Option<u64>) -> Option<u64>
    ensures { result ≡ latest (tree rows.now) branch before }
{
    rows.tree().latest(branch, rows.size(), before)
}

/// The version with a number on a branch, counted from 0. Takes time logarithmic in the branches.
pub fn version_numbered(rows: &FirstRows<'_>, branch: u64, number: u64) -> Option<u64>
    ensures { result ≡ version_of_number (tree rows.now) branch number }
{
    rows.tree().version_of_number(branch, number, rows.size())
}

/// The id of the version that a row made: its element, its branch and its number there. Takes time logarithmic in the changes.
pub fn version_id_of(rows: &FirstRows<'_>, version: u64) -> Option<VersionId>
    ensures { result ≡ version_id (tree rows.now) version }
{
    rows.version_id(version)
}

/// The name of a branch; `main` has none of its own. Takes time logarithmic in the changes.
pub fn name_of_branch<'a>(rows: &FirstRows<'a>, branch: u64) -> Option<&'a Name>
    ensures { option_copied result ≡ name_of_branch (tree rows.now) branch }
{
    let trees = rows.tree();
    if branch < rows.size() {
        trees.name(branch)
    } else {
        None
    }
}

/// Whether a row made a version of the element. Takes time logarithmic in the changes.
pub fn is_version_of(rows: &FirstRows<'_>, element: u64, row: u64) -> bool
    ensures { result ≡ is_version_of rows.now element row }
{
    match version_id_of(rows, row) {
        None => false,
        Some(version_id) => version_id.element == element,
    }
}

/// The latest version of the branch on which a version stands. Takes the time of `latest_version`.
pub fn latest_beside(rows: &FirstRows<'_>, version: u64) -> Option<u64>
    ensures { result ≡ latest_beside rows.now version }
{
    let branch = branch_of_version(rows, version)?;
    latest_version(rows, branch, None)
}

/// Whether a version is the latest of its branch. Takes the time of `latest_version`.
pub fn is_latest(rows: &FirstRows<'_>, version: u64) -> bool
    ensures { result ≡ is_latest rows.now version }
{
    is_number(version, latest_beside(rows, version))
}
