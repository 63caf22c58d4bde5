//! What a view has had of its own: the paths at which it put private files or came to hold objects.

ghost use Rattle.std.specs.Prelude.{◌≡◌, ◌||◌, ℕ, true, List, IfOk, OnOk};
ghost use Rattle.std.specs.List.{AllByRecursion};
ghost use Rattle.cc_names.specs.Formed.{IsBelowRoot};
ghost use Rattle.base_model.specs.Closures.{is_path_among};
ghost use Rattle.base_model.specs.Rows.{deed_at};
ghost use Rattle.cleartool.specs.Owned.{is_given_by, paths_by, was_given};

use cc_names::memory::NoMemory;
use cc_names::names::Name;
use cc_names::paths::Path;
use cc_names::rows::Deed;
use std::alloc::Global;
use std::collections::BTreeSet;
use std::slice;
use view_lookup::{FirstRows, row_at, rows_owning, targets_of};

/// The paths at which the row of a number gave its view a private file or an object.
fn paths_by<'a>(rows: &FirstRows<'a>, number: u64) -> &'a [Path]
    ensures paths { result.now ≡ paths_by rows.now (deed_at rows.now number) }
    ensures below { AllByRecursion IsBelowRoot result.now }
{
    match row_at(rows, number) {
        None => &[],
        Some(row) => match row.deed() {
            Deed::Put { path, .. } => slice::from_ref(path),
            Deed::Publish { targets, .. } => targets.as_slice(),
            Deed::Wink { object, .. } => targets_of(rows, *object),
            _ => &[],
        },
    }
}

/// Adds these paths.
fn add_all(alloc: Global, found: &mut BTreeSet<Path>, paths: &[Path]) -> Result<(), NoMemory>
    ensures { OnOk result
        ((path : List ℕ)
        → is_path_among path found.new.keys
        ≡ (is_path_among path paths.now || is_path_among path found.old.keys)) }
{
    for path in paths {
        found.insert(path.copy(alloc)?)?;
    }
    Ok(())
}

/// Adds the paths at which the row of a number gave something.
fn add_paths_of_row(
    alloc: Global,
    found: &mut BTreeSet<Path>,
    rows: &FirstRows<'_>,
    number: u64,
) -> Result<(), NoMemory>
    ensures found { OnOk result
        ((path : List ℕ)
        → is_path_among path found.new.keys
        ≡ (is_given_by rows.now path number || is_path_among path found.old.keys)) }
    ensures below { (path : List ℕ)
        → is_given_by rows.now path number ≡ true
        → IsBelowRoot path }
{
    add_all(alloc, found, paths_by(rows, number))
}

/// The paths at which a view ever put a private file or came to hold an object, whether it has one there still or not. Takes time
/// linear in the rows by which it did, times logarithmic in the paths.
pub(crate) fn paths_owned(
    alloc: Global,
    rows: &FirstRows<'_>,
    view: &Name,
) -> Result<BTreeSet<Path>, NoMemory>
    ensures found { IfOk result
        (λ found. (path : List ℕ)
        → is_path_among path found.keys ≡ was_given rows.now view.now path rows.now) }
    ensures below { OnOk result
        ((path : List ℕ)
        → was_given rows.now view.now path rows.now ≡ true
        → IsBelowRoot path) }
{
    let numbers = rows_owning(alloc, rows, view)?;
    let mut found = BTreeSet::new(alloc);
    for number in &numbers {
        add_paths_of_row(alloc, &mut found, rows, *number)?;
    }
    Ok(found)
}
