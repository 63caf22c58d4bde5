//! Ending checkouts, with a version or without.

ghost use Rattle.std.specs.Prelude.{ℕ, option_map};
ghost use Rattle.legal_history.specs.Commands.CheckoutLines.{changes_unless, checkin, checkin_of, uncheckout, uncheckout_of};
ghost use Rattle.legal_history.specs.Commands.CheckoutTests.{needs_change};
ghost use Rattle.legal_history.specs.Commands.Decisions.{Scene, first_refusal};
ghost use Rattle.base_rows.specs.Effects.{plain_checkout};
ghost use Rattle.checkout_desk.specs.Deciding.{Sees, Decides, Tests};

use crate::checkout_needs::{needs_change, needs_latest_origin, needs_no_other, needs_out};
use crate::found::find_standing_idle;
use crate::room::needs_room;
use cc_names::memory::Or;
use cc_names::names::Name;
use cc_names::occasions::Occasion;
use cc_names::paths::Path;
use cc_names::refusals::Refusal;
use cc_names::rows::{Deed, Row};
use std::alloc::Global;
use view_lookup::{Checkout, FirstRows, checked_out};

/// An identical text is refused unless `-identical` is given.
fn changes_unless(
    rows: &FirstRows<'_>,
    view: &Name,
    identical: bool,
    path: &Path,
    element: u64,
    taken: Option<Checkout>,
) -> Result<(), Or<Refusal>>
    ensures { Tests result (first_refusal
        (changes_unless identical
        (needs_change rows.now view.now path.now element (option_map plain_checkout taken)))) }
{
    if identical {
        return Ok(());
    }
    needs_change(rows, view, path, element, taken)
}

/// The row of `checkin V [-identical] P` of an element, or its first refusal.
fn checkin_of(
    alloc: Global,
    rows: &FirstRows<'_>,
    view: &Name,
    identical: bool,
    path: &Path,
    element: u64,
    occasion: Occasion,
) -> Result<Row, Or<Refusal>>
    ensures { (scene : Scene) (now : ℕ)
        → Sees scene rows.now now view.now occasion.busy occasion.taken
        → Decides occasion.tag occasion.moment result
        (checkin_of scene view.now identical path.now element) }
{
    let taken = checked_out(rows, view, element);
    needs_out(alloc, path, taken)?;
    needs_no_other(alloc, rows, view, taken)?;
    needs_latest_origin(rows, taken)?;
    changes_unless(rows, view, identical, path, element, taken)?;
    needs_room(occasion.taken)?;
    let view = view.copy(alloc)?;
    Ok(Row::of(
        occasion.tag,
        occasion.moment,
        Deed::Checkin { view, element },
    ))
}

/// The row of `checkin V [-identical] P`, or its first refusal. Takes the time of `at` and of `other_reserver`; without
/// `-identical` also that of `text_of` for the texts of the checkout and of its origin, and time linear in them.
pub fn checkin(
    alloc: Global,
    rows: &FirstRows<'_>,
    view: &Name,
    identical: bool,
    path: &Path,
    occasion: Occasion,
) -> Result<Row, Or<Refusal>>
    ensures { (scene : Scene) (now : ℕ)
        → Sees scene rows.now now view.now occasion.busy occasion.taken
        → Decides occasion.tag occasion.moment result
        (checkin scene view.now identical path.now) }
{
    let element = find_standing_idle(alloc, rows, view, path, occasion.busy)?;
    checkin_of(alloc, rows, view, identical, path, element, occasion)
}

/// The row of `uncheckout V P` of an element, or its first refusal.
fn uncheckout_of(
    alloc: Global,
    rows: &FirstRows<'_>,
    view: &Name,
    path: &Path,
    element: u64,
    occasion: Occasion,
) -> Result<Row, Or<Refusal>>
    ensures { (scene : Scene) (now : ℕ)
        → Sees scene rows.now now view.now occasion.busy occasion.taken
        → Decides occasion.tag occasion.moment result
        (uncheckout_of scene view.now path.now element) }
{
    needs_out(alloc, path, checked_out(rows, view, element))?;
    needs_room(occasion.taken)?;
    let view = view.copy(alloc)?;
    Ok(Row::of(
        occasion.tag,
        occasion.moment,
        Deed::Uncheckout { view, element },
    ))
}

/// The row of `uncheckout V P`, or its first refusal. Takes the time of `at`.
pub fn uncheckout(
    alloc: Global,
    rows: &FirstRows<'_>,
    view: &Name,
    path: &Path,
    occasion: Occasion,
) -> Result<Row, Or<Refusal>>
    ensures { (scene : Scene) (now : ℕ)
        → Sees scene rows.now now view.now occasion.busy occasion.taken
        → Decides occasion.tag occasion.moment result (uncheckout scene view.now path.now) }
{
    let element = find_standing_idle(alloc, rows, view, path, occasion.busy)?;
    uncheckout_of(alloc, rows, view, path, element, occasion)
}
