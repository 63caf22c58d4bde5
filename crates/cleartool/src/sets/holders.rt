//! How many views hold an object.

ghost use Rattle.std.specs.Prelude.{◌≡◌, ◌||◌, ℕ, List, IfOk, OnOk};
ghost use Rattle.std.specs.List.{list_any};
ghost use Rattle.std.specs.Option.{option_copied};
ghost use Rattle.cc_names.specs.References.{count};
ghost use Rattle.base_model.specs.Changes.{objects_held};
ghost use Rattle.base_model.specs.Closures.{is_path_among};
ghost use Rattle.base_model.specs.Rows.{deed_at};
ghost use Rattle.view_lookup.specs.GivenNames.{is_name};
ghost use Rattle.cleartool.specs.HeldObjects.{AreHolders};
ghost use Rattle.cleartool.specs.Owned.{maker_by, winker, winker_at};

use cc_names::memory::NoMemory;
use cc_names::names::Name;
use cc_names::rows::Deed;
use std::alloc::Global;
use std::collections::{BTreeMap, BTreeSet};
use view_lookup::{FirstRows, add_name, holds_one, row_at, winks_of};

/// Objects, and how many views hold each.
pub(crate) type Holders = BTreeMap<u64, usize>;

/// The view of the row that made an object, where it holds it.
fn maker_of<'a>(rows: &FirstRows<'a>, object: u64) -> Option<&'a Name>
    ensures { option_copied result ≡ maker_by rows.now object (deed_at rows.now object) }
{
    match row_at(rows, object) {
        None => None,
        Some(row) => match row.deed() {
            Deed::Publish { view, targets, .. } => {
                if holds_one(rows, view, object, targets.as_slice()) {
                    Some(view)
                } else {
                    None
                }
            }
            _ => None,
        },
    }
}

/// The view of a wink.
fn winker(deed: &Deed) -> Option<&Name>
    ensures { option_copied result ≡ winker deed.now }
{
    match deed {
        Deed::Wink { view, .. } => Some(view),
        _ => None,
    }
}

/// The view whose wink the row of a number is.
fn winker_at<'a>(rows: &FirstRows<'a>, number: u64) -> Option<&'a Name>
    ensures { option_copied result ≡ winker_at rows.now number }
{
    let row = row_at(rows, number)?;
    winker(row.deed())
}

/// Adds the views whose winks the rows of these numbers are.
fn add_winkers(
    alloc: Global,
    views: &mut BTreeSet<Name>,
    rows: &FirstRows<'_>,
    winks: &[u64],
) -> Result<(), NoMemory>
    ensures { OnOk result
        ((view : List ℕ)
        → is_path_among view views.new.keys
        ≡ (list_any (λ n. is_name view (winker_at rows.now n)) winks.now
        || is_path_among view views.old.keys)) }
{
    for wink in winks {
        add_name(alloc, views, winker_at(rows, *wink))?;
    }
    Ok(())
}

/// How many views hold the object. Takes for each of its targets the time of `held_object`: once for the view that made it, and
/// once for each wink of it.
fn count_holders(alloc: Global, rows: &FirstRows<'_>, object: u64) -> Result<usize, NoMemory>
    ensures { IfOk result (λ views. views ≡ count (objects_held rows.now) object) }
{
    let mut views = BTreeSet::new(alloc);
    add_name(alloc, &mut views, maker_of(rows, object))?;
    let winks = winks_of(alloc, rows, object)?;
    add_winkers(alloc, &mut views, rows, &winks)?;
    Ok(views.len())
}

/// How many views hold the object, which is kept. Takes the time of `count_holders` the first time, then time logarithmic in the
/// objects that are kept.
pub(crate) fn kept_holders(
    alloc: Global,
    rows: &FirstRows<'_>,
    kept: &mut Holders,
    object: u64,
) -> Result<usize, NoMemory>
    requires { AreHolders rows.now kept.old }
    ensures count { IfOk result (λ views. views ≡ count (objects_held rows.now) object) }
    ensures kept { OnOk result (AreHolders rows.now kept.new) }
{
    if let Some(views) = kept.get(&object) {
        return Ok(*views);
    }
    let views = count_holders(alloc, rows, object)?;
    kept.insert(object, views)?;
    Ok(views)
}
