//! The names that were given in a directory.

ghost use Rattle.std.specs.Prelude.{◌≡◌, ◌||◌, ℕ, List, IfOk, OnOk};
ghost use Rattle.std.specs.Option.{option_copied};
ghost use Rattle.base_model.specs.Closures.{is_path_among};
ghost use Rattle.view_lookup.specs.GivenNames.{is_name, name_at, name_given, was_named};

use crate::given_names::rows_naming;
use base_rows::bases::{FirstRows, row_at};
use cc_names::memory::NoMemory;
use cc_names::names::Name;
use cc_names::rows::Deed;
use std::alloc::Global;
use std::collections::BTreeSet;

/// The name that a deed gives.
fn name_given(deed: &Deed) -> Option<&Name>
    ensures { option_copied result ≡ name_given deed.now }
{
    match deed {
        Deed::Mkelem { name, .. } => Some(name),
        Deed::Mv { to_name, .. } => Some(to_name),
        _ => None,
    }
}

/// The name that the row of a number gave.
fn name_at<'a>(rows: &FirstRows<'a>, number: u64) -> Option<&'a Name>
    ensures { option_copied result ≡ name_at rows.now number }
{
    let row = row_at(rows, number)?;
    name_given(row.deed())
}

/// Adds a name, where there is one.
pub fn add_name(
    alloc: Global,
    found: &mut BTreeSet<Name>,
    name: Option<&Name>,
) -> Result<(), NoMemory>
    ensures { OnOk result
        ((other : List ℕ)
        → is_path_among other found.new.keys
        ≡ (is_name other (option_copied name.entry) || is_path_among other found.old.keys)) }
{
    match name {
        None => Ok(()),
        Some(name) => {
            found.insert(name.copy(alloc)?)?;
            Ok(())
        }
    }
}

/// The names that were given to elements of a directory, by whatever view and whether they stand there still or not. Takes time
/// linear in the rows that gave them, times logarithmic in the names.
pub fn names_given(
    alloc: Global,
    rows: &FirstRows<'_>,
    directory: u64,
) -> Result<BTreeSet<Name>, NoMemory>
    ensures { IfOk result
        (λ found. (name : List ℕ)
        → is_path_among name found.keys ≡ was_named directory name rows.now) }
{
    let numbers = rows_naming(alloc, rows, directory)?;
    let mut found = BTreeSet::new(alloc);
    for number in &numbers {
        add_name(alloc, &mut found, name_at(rows, *number))?;
    }
    Ok(found)
}
