//! Which objects have to be run again: the live ones, and those that an entry of one of these names.

ghost use Rattle.std.specs.Prelude.{◌≡◌, ◌||◌, ℕ, IfOk, OnOk, is_some, suc};
ghost use Rattle.std.specs.BTreeSet.{contains};
ghost use Rattle.std.specs.Ordering.{nat_cmp};
ghost use Rattle.base_model.specs.Changes.{live_row};
ghost use Rattle.object_check.specs.Needed.{is_object_of, name_object, HasLive, IsClosed, NeedsFrom};

use cc_names::memory::NoMemory;
use cc_names::rows::ReadOf;
use std::alloc::Global;
use std::collections::BTreeSet;
use view_lookup::{FirstRows, is_publish, live_row, record_of};

/// Adds the object that an entry names, if it names one.
fn add_object_of_entry(
    rows: &FirstRows<'_>,
    needed: &mut BTreeSet<u64>,
    entry: &ReadOf,
) -> Result<(), NoMemory>
    ensures { OnOk result
        ((id : ℕ) → contains nat_cmp needed.new id
        ≡ (is_object_of rows.now id entry.now || contains nat_cmp needed.old id)) }
{
    if !is_publish(rows, entry.row) {
        return Ok(());
    }
    needed.insert(entry.row)?;
    Ok(())
}

/// Adds the objects that entries name.
fn add_objects_of_entries(
    rows: &FirstRows<'_>,
    needed: &mut BTreeSet<u64>,
    entries: &[ReadOf],
) -> Result<(), NoMemory>
    ensures { OnOk result
        ((id : ℕ) → contains nat_cmp needed.new id
        ≡ (name_object rows.now entries.now id || contains nat_cmp needed.old id)) }
{
    for entry in entries {
        add_object_of_entry(rows, needed, entry)?;
    }
    Ok(())
}

/// Whether a row is a live object, or needed already.
fn is_needed(rows: &FirstRows<'_>, needed: &BTreeSet<u64>, id: u64) -> bool
    ensures { result ≡ (contains nat_cmp needed.now id || is_some (live_row rows.now id)) }
{
    needed.contains(&id) || live_row(rows, id).is_some()
}

/// Adds a row, where it is needed, and the objects that its entries name. Those after it are added by now.
fn take_row(rows: &FirstRows<'_>, needed: &mut BTreeSet<u64>, id: u64) -> Result<(), NoMemory>
    requires { NeedsFrom rows.now (suc id) (contains nat_cmp needed.old) }
    ensures { OnOk result (NeedsFrom rows.now id (contains nat_cmp needed.new)) }
{
    rows.are_base();
    if !is_needed(rows, needed, id) {
        return Ok(());
    }
    needed.insert(id)?;
    add_objects_of_entries(rows, needed, record_of(rows, id))?;
    Ok(())
}

/// The objects that have to be run again. An object that was scrubbed is one of them where an entry names it. Takes for each
/// row the time of `live_row`, and for each entry of these objects time logarithmic in their number.
pub(crate) fn needed(alloc: Global, rows: &FirstRows<'_>) -> Result<BTreeSet<u64>, NoMemory>
    ensures live { IfOk result (λ needed. HasLive rows.now (contains nat_cmp needed)) }
    ensures closed { IfOk result (λ needed. IsClosed rows.now (contains nat_cmp needed)) }
{
    let mut needed = BTreeSet::new(alloc);
    let mut id = rows.size();
    while id > 0 {
        id -= 1;
        take_row(rows, &mut needed, id)?;
    }
    Ok(needed)
}
