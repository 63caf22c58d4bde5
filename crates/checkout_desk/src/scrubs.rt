//! Scrubbing the objects that are due: those that no view holds any more, and that were published long enough ago.

ghost use Rattle.std.specs.Prelude.{◌≡◌, ℕ, ◌+◌, ◌&&◌, nat_le, Some, IfOk, List};
ghost use Rattle.std.specs.List.Sorted.{IsStrictlySortedBy};
ghost use Rattle.std.specs.Ordering.{nat_cmp};
ghost use Rattle.cc_names.specs.Formed.{IsListOf, IsLong};
ghost use Rattle.base_model.specs.Closures.{is_publish_deed};
ghost use Rattle.base_model.specs.Rows.{row_at};
ghost use Rattle.legal_history.specs.Commands.Decisions.{Scene};
ghost use Rattle.legal_history.specs.Commands.ObjectLines.{due_objects, is_due, scrub};
ghost use Rattle.checkout_desk.specs.Deciding.{DecidesIfAny, Sees};

use crate::room::needs_room;
use cc_names::lists::List;
use cc_names::memory::{NoMemory, Or};
use cc_names::occasions::Occasion;
use cc_names::refusals::Refusal;
use cc_names::rows::{Deed, Row};
use std::alloc::Global;
use view_lookup::{FirstRows, may_be_scrubbed};

/// Whether a moment lies this many seconds or more after another.
fn is_as_old(published: u64, moment: u64, age: u64) -> bool
    ensures { result ≡ nat_le (published + age) moment }
{
    age <= moment && published <= moment - age
}

/// Whether a row of this deed publishes an object.
fn publishes_object(deed: &Deed) -> bool
    ensures { result ≡ is_publish_deed (Some deed.now) }
{
    matches!(deed, Deed::Publish { .. })
}

/// Whether a row publishes an object, and did so as long ago as this age.
fn is_old_object(moment: u64, age: u64, row: &Row) -> bool
    ensures { result
        ≡ (is_publish_deed (Some row.now.deed) && nat_le (row.now.moment + age) moment) }
{
    publishes_object(row.deed()) && is_as_old(row.moment(), moment, age)
}

/// Whether a row publishes an object that is due. Takes constant time, and where it publishes an object that is old enough the
/// time of `may_be_scrubbed`.
#[tactic(auto, using(crate::proofs::DueRows::due_tested))]
fn is_due(rows: &FirstRows<'_>, moment: u64, age: u64, number: u64, row: &Row) -> bool
    requires { row_at rows.now number ≡ Some row.now }
    ensures { result ≡ is_due rows.now moment age number row.now.moment }
{
    is_old_object(moment, age, row) && may_be_scrubbed(rows, number)
}

/// The objects that are due, oldest first. Takes time linear in the rows, and for each object that is old enough the time of
/// `may_be_scrubbed`.
fn due_objects(
    alloc: Global,
    rows: &FirstRows<'_>,
    moment: u64,
    age: u64,
) -> Result<Vec<u64>, NoMemory>
    ensures due_objects { IfOk result (λ objects. objects.items ≡ due_objects rows.now moment age) }
    ensures formed { IfOk result
        (λ objects. IsListOf IsLong objects.items
        × IsStrictlySortedBy nat_cmp objects.items) }
{
    rows.size();
    let all = rows.as_slice();
    let mut objects = Vec::new(alloc);
    let mut number = 0;
    for row in all {
        number += 1;
        if is_due(rows, moment, age, number, row) {
            objects.push(number)?;
        }
    }
    Ok(objects)
}

/// The row of `scrub AGE`, which lists what is due; none where nothing is due; or its refusal. Takes time linear in the rows, and
/// for each object that is old enough the time of `may_be_scrubbed`.
pub fn scrub(
    alloc: Global,
    rows: &FirstRows<'_>,
    age: u64,
    occasion: Occasion,
) -> Result<Option<Row>, Or<Refusal>>
    ensures { (scene : Scene) (view : List ℕ)
        → Sees scene rows.now occasion.moment view occasion.busy occasion.taken
        → DecidesIfAny occasion.tag occasion.moment result (scrub scene age) }
{
    let objects = due_objects(alloc, rows, occasion.moment, age)?;
    if objects.is_empty() {
        return Ok(None);
    }
    needs_room(occasion.taken)?;
    let deed = Deed::Scrub {
        objects: List::of(objects),
    };
    Ok(Some(Row::of(occasion.tag, occasion.moment, deed)))
}
