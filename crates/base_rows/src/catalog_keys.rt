//! The keys of what the next row changes of catalogs.

ghost use Rattle.std.specs.Prelude.{◌≡◌, ◌++◌, Some, map, option_to_list, IfOk, OnOk};
ghost use Rattle.std.specs.Option.{option_copied};
ghost use Rattle.base_model.specs.Rows.{deed_at};
ghost use Rattle.base_rows.specs.Changed as changed;
ghost use Rattle.base_rows.specs.Subjects as model;

use crate::bases::{FirstRows, row_at};
use crate::changed::{changing, checked_in_on, checked_in_rows};
use crate::subjects::Subject;
use cc_names::memory::NoMemory;
use cc_names::names::Name;
use cc_names::rows::Deed;
use std::alloc::Global;
use std::hash::RandomState;

/// The one or two names that a deed changes.
fn names_of(deed: &Deed) -> (Option<&Name>, Option<&Name>)
    ensures { changed.names_of_deed (Some deed.now)
        ≡ option_to_list (option_copied result.0) ++ option_to_list (option_copied result.1) }
{
    match deed {
        Deed::Mkelem { name, .. } => (Some(name), None),
        Deed::Rmname { name, .. } => (Some(name), None),
        Deed::Mv {
            from_name,
            to_name,
            ..
        } => (Some(from_name), Some(to_name)),
        _ => (None, None),
    }
}

/// The names that the row of a number changes.
fn names_at<'a>(rows: &FirstRows<'a>, number: u64) -> (Option<&'a Name>, Option<&'a Name>)
    ensures { changed.names_of_deed (deed_at rows.now number)
        ≡ option_to_list (option_copied result.0) ++ option_to_list (option_copied result.1) }
{
    match row_at(rows, number) {
        None => (None, None),
        Some(row) => names_of(row.deed()),
    }
}

/// Adds the key of a name on a branch, where there is one.
fn push_name_key(
    hashing: RandomState,
    keys: &mut Vec<u64>,
    branch: u64,
    name: Option<&Name>,
) -> Result<(), NoMemory>
    ensures { OnOk result
        (keys.new.items
        ≡ keys.old.items
        ++ map (model.key hashing)
        (map (model.Altered branch) (option_to_list (option_copied name.entry)))) }
{
    match name {
        None => {}
        Some(name) => keys.push(Subject::Altered(branch, name.as_bytes()).key(hashing))?,
    }
    Ok(())
}

/// Adds the keys of the names that a row changes, on a branch.
fn push_name_keys(
    hashing: RandomState,
    keys: &mut Vec<u64>,
    branch: u64,
    rows: &FirstRows<'_>,
    number: u64,
) -> Result<(), NoMemory>
    ensures { OnOk result
        (keys.new.items
        ≡ keys.old.items
        ++ map (model.key hashing)
        (map (model.Altered branch) (changed.names_of_deed (deed_at rows.now number)))) }
{
    let (first, second) = names_at(rows, number);
    push_name_key(hashing, keys, branch, first)?;
    push_name_key(hashing, keys, branch, second)
}

/// Adds the keys of the names that some rows change, on a branch.
fn push_altered(
    hashing: RandomState,
    keys: &mut Vec<u64>,
    branch: u64,
    rows: &FirstRows<'_>,
    numbers: &[u64],
) -> Result<(), NoMemory>
    ensures { OnOk result
        (keys.new.items
        ≡ keys.old.items
        ++ map (model.key hashing)
        (map (model.Altered branch) (changed.names_by rows.now numbers.now))) }
{
    for number in numbers {
        push_name_keys(hashing, keys, branch, rows, *number)?;
    }
    Ok(())
}

fn push_if(keys: &mut Vec<u64>, key: Option<u64>) -> Result<(), NoMemory>
    ensures { OnOk result (keys.new.items ≡ keys.old.items ++ option_to_list key) }
{
    match key {
        None => {}
        Some(key) => keys.push(key)?,
    }
    Ok(())
}

/// The key of the checkout that a row began in which names are changed, where there is one.
fn changing_key(hashing: RandomState, began: Option<u64>) -> Option<u64>
    ensures { option_to_list result ≡ map (model.key hashing) (model.changing_subjects began) }
{
    match began {
        None => None,
        Some(began) => Some(Subject::Changing(began).key(hashing)),
    }
}

/// Adds the keys of the names that a version of a branch alters, where there is one.
fn push_version_keys(
    alloc: Global,
    hashing: RandomState,
    keys: &mut Vec<u64>,
    rows: &FirstRows<'_>,
    branch: Option<u64>,
    deed: &Deed,
) -> Result<(), NoMemory>
    ensures { OnOk result
        (keys.new.items
        ≡ keys.old.items
        ++ map (model.key hashing)
        (model.altered_subjects branch
        (changed.names_by rows.now (changed.checked_in_rows rows.now deed.now)))) }
{
    match branch {
        None => Ok(()),
        Some(branch) => {
            let numbers = checked_in_rows(alloc, rows, deed)?;
            push_altered(hashing, keys, branch, rows, numbers.as_slice())
        }
    }
}

/// The keys of what the next row changes of catalogs, where it is of this deed. Takes the time of some look-ups, and for each row
/// that changed names in a checkout that ends, that of some more.
pub(crate) fn catalog_keys(
    alloc: Global,
    hashing: RandomState,
    rows: &FirstRows<'_>,
    deed: &Deed,
) -> Result<Vec<u64>, NoMemory>
    ensures { IfOk result
        (λ keys. keys.items ≡ map (model.key hashing) (model.catalog_subjects rows.now deed.now)) }
{
    let mut keys = Vec::new(alloc);
    push_if(&mut keys, changing_key(hashing, changing(rows, deed)))?;
    push_version_keys(
        alloc,
        hashing,
        &mut keys,
        rows,
        checked_in_on(rows, deed),
        deed,
    )?;
    Ok(keys)
}
