//! The check of all live objects.

ghost use Rattle.std.specs.Prelude.{◌≡◌, ◌<◌, suc, IfOk, OnOk, nat_eq};
ghost use Rattle.std.specs.BTreeSet.{contains};
ghost use Rattle.std.specs.HashMap.{get};
ghost use Rattle.std.specs.Ordering.{nat_cmp};
ghost use Rattle.base_model.specs.Rows.{size};
ghost use Rattle.object_check.specs.Kept.{KeepsBelow};
ghost use Rattle.object_check.specs.Needed.{HasLive, IsClosed};
ghost use Rattle.object_check.specs.Verdicts.{IsFoundToBe, IsVerdict};

use crate::checks::check;
use crate::needs::needed;
use crate::values::Values;
use crate::verdicts::{Found, Verdict, live_objects};
use cc_names::memory::NoMemory;
use std::alloc::Global;
use std::collections::{BTreeSet, HashMap};
use std::hash::RandomState;
use view_lookup::{FirstRows, live_row};

/// What the row of this number is, where the values of the needed objects before it are kept. Keeps its own, where it is
/// needed.
fn find(
    alloc: Global,
    hashing: RandomState,
    rows: &FirstRows<'_>,
    needed: &BTreeSet<u64>,
    values: &mut Values,
    id: u64,
) -> Result<Found, NoMemory>
    requires row { id < size rows.now }
    requires live { HasLive rows.now (contains nat_cmp needed.now) }
    requires closed { IsClosed rows.now (contains nat_cmp needed.now) }
    requires keeps { KeepsBelow id (contains nat_cmp needed.now) rows.now (get nat_eq values.old) }
    ensures found { IfOk result (λ found. IsFoundToBe rows.now id found) }
    ensures keeps { OnOk result
        (KeepsBelow (suc id) (contains nat_cmp needed.now) rows.now (get nat_eq values.new)) }
{
    if !needed.contains(&id) {
        return Ok(Found::Dead);
    }
    let is_true = check(alloc, hashing, rows, needed, values, id)?;
    if live_row(rows, id).is_none() {
        return Ok(Found::Dead);
    }
    if is_true {
        return Ok(Found::Same);
    }
    Ok(Found::Other)
}

/// Checks all live objects: whether the record of each, run again on the texts of its entries, gives the stored outputs and asks
/// for nothing else. Answers how many there are, or the first that is not so. Fails only where memory runs out.
///
/// Each live object and each that one of these was made from is run once, the oldest first, up to the first that is not true.
/// Takes the time of these runs, and for each read that of `text_of` and time logarithmic in the record. Takes memory for the
/// numbers of these objects, for one run, and for the outputs of runs that are not the stored ones.
pub fn verify(
    alloc: Global,
    hashing: RandomState,
    rows: &FirstRows<'_>,
) -> Result<Verdict, NoMemory>
    ensures { IfOk result (λ verdict. IsVerdict rows.now verdict) }
{
    let needed = needed(alloc, rows)?;
    let mut values = HashMap::new(alloc);
    let mut count = 0u64;
    for id in 1..rows.size() {
        let found = find(alloc, hashing, rows, &needed, &mut values, id)?;
        let Some(more) = live_objects(found) else {
            return Ok(Verdict::Unsound(id));
        };
        count += more;
    }
    Ok(Verdict::Sound(count))
}
