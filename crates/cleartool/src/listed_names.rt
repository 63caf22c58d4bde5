//! The names that may stand in a directory.

ghost use Rattle.std.specs.Prelude.{◌≡◌, ◌||◌, ℕ, List, IfOk, OnOk};
ghost use Rattle.cc_names.specs.Paths.{IsPath, last_of, parent_of};
ghost use Rattle.base_model.specs.Closures.{is_path_among};
ghost use Rattle.view_lookup.specs.GivenNames.{is_name};
ghost use Rattle.cleartool.specs.Listed.{HasNames, lies_in};

use crate::sets::owned_paths::paths_owned;
use cc_names::memory::NoMemory;
use cc_names::names::Name;
use cc_names::paths::Path;
use std::alloc::Global;
use std::collections::BTreeSet;
use view_lookup::{FirstRows, names_given};

/// Whether a path lies right in the directory of these bytes.
fn is_inside(alloc: Global, directory: &[u8], path: &Path) -> Result<bool, NoMemory>
    ensures { IfOk result (λ is. is ≡ is_name directory.now (parent_of path.now)) }
{
    match path.parent(alloc)? {
        None => Ok(false),
        Some(parent) => Ok(directory == parent.as_bytes()),
    }
}

/// Adds the last name of a path.
fn add_last(alloc: Global, names: &mut BTreeSet<Name>, path: &Path) -> Result<(), NoMemory>
    ensures { OnOk result
        ((name : List ℕ)
        → is_path_among name names.new.keys
        ≡ (is_name name (last_of path.now) || is_path_among name names.old.keys)) }
{
    match path.last(alloc)? {
        None => Ok(()),
        Some(name) => {
            names.insert(name)?;
            Ok(())
        }
    }
}

/// Adds the last name of a path, where it lies right in the directory of these bytes.
fn add_inside(
    alloc: Global,
    names: &mut BTreeSet<Name>,
    directory: &[u8],
    path: &Path,
) -> Result<(), NoMemory>
    ensures { OnOk result
        ((name : List ℕ)
        → is_path_among name names.new.keys
        ≡ (lies_in directory.now name path.now || is_path_among name names.old.keys)) }
{
    if is_inside(alloc, directory, path)? {
        add_last(alloc, names, path)?;
        Ok(())
    } else {
        Ok(())
    }
}

/// The names that may stand in a directory as a view sees it: those that were given there, and those of the paths in it at which
/// the view ever had a private file or an object. Takes the time of `names_given` and of `paths_owned`, and time linear in these
/// paths.
pub(crate) fn names_in(
    alloc: Global,
    rows: &FirstRows<'_>,
    view: &Name,
    directory: &Path,
    element: u64,
) -> Result<BTreeSet<Name>, NoMemory>
    ensures names { IfOk result
        (λ names. HasNames rows.now view.now directory.now element names.keys) }
    ensures path { OnOk result (IsPath directory.now) }
{
    let mut names = names_given(alloc, rows, element)?;
    let paths = paths_owned(alloc, rows, view)?;
    let within = directory.as_bytes();
    for path in &paths {
        add_inside(alloc, &mut names, within, path)?;
    }
    Ok(names)
}
