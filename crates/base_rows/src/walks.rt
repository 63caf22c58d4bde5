//! All rows that do something to a thing, one after the other.

ghost use Rattle.std.specs.Prelude.{◌≡◌, ◌++◌, ◌&&◌, ℕ, List, nat_lt, is_some, OnOk};
ghost use Rattle.cc_names.specs.Versions.{put_if};
ghost use Rattle.base_rows.specs.LookUps.{update_at};

use crate::bases::FirstRows;
use crate::look_ups::{LookUp, update_at};
use cc_names::memory::NoMemory;

/// Adds a number where it lies below a bound and its row does something to a thing.
pub(crate) fn add_updating_row<L: LookUp>(
    rows: &FirstRows<'_>,
    numbers: &mut Vec<u64>,
    bound: u64,
    number: u64,
    look: &L,
) -> Result<(), NoMemory>
    ensures { OnOk result
        ((rest : List ℕ)
        → numbers.new.items ++ rest
        ≡ numbers.old.items
        ++ put_if
        (nat_lt number bound && is_some (update_at (L.effect look.now) rows.now number))
        number rest) }
{
    if number < bound && update_at(rows, number, look).is_some() {
        numbers.push(number)?;
    }
    Ok(())
}
