//! The commands on views.

ghost use Rattle.std.specs.Prelude.{ℕ, List, Option};
ghost use Rattle.legal_history.specs.Commands.Decisions.{Scene};
ghost use Rattle.legal_history.specs.Commands.FileLines.{mkview, rmview};
ghost use Rattle.legal_history.specs.Commands.Tests.{needs_new_view, needs_no_checkouts};
ghost use Rattle.checkout_desk.specs.Deciding.{Sees, Decides, Tests};
ghost use Rattle.cc_names.specs.declared.rows.Tag.{Tag};

use crate::needs::{needs_idle, needs_view};
use crate::room::needs_room;
use cc_names::memory::Or;
use cc_names::names::Name;
use cc_names::occasions::Occasion;
use cc_names::refusals::Refusal;
use cc_names::rows::{Deed, Row};
use std::alloc::Global;
use view_lookup::{FirstRows, oldest_out, view_row};

/// No view has the name.
fn needs_new_view(rows: &FirstRows<'_>, view: &Name) -> Result<(), Or<Refusal>>
    ensures { Tests result (needs_new_view rows.now view.now) }
{
    if view_row(rows, view).is_some() {
        return Err(Or::Is(Refusal::ViewExists));
    }
    Ok(())
}

/// The row of `mkview V`, or its first refusal.
pub fn mkview(
    alloc: Global,
    rows: &FirstRows<'_>,
    view: &Name,
    occasion: Occasion,
) -> Result<Row, Or<Refusal>>
    ensures { (scene : Scene) (now : ℕ) (other : List ℕ) (busy : Option Tag)
        → Sees scene rows.now now other busy occasion.taken
        → Decides occasion.tag occasion.moment result (mkview scene view.now) }
{
    needs_new_view(rows, view)?;
    needs_room(occasion.taken)?;
    let deed = Deed::Mkview {
        view: view.copy(alloc)?,
    };
    Ok(Row::of(occasion.tag, occasion.moment, deed))
}

/// The view has no checkout, unless it is to go by force. The refusal names its oldest one.
fn needs_no_checkouts(rows: &FirstRows<'_>, view: &Name, force: bool) -> Result<(), Or<Refusal>>
    ensures { Tests result (needs_no_checkouts rows.now view.now force) }
{
    if force {
        return Ok(());
    }
    match oldest_out(rows, view) {
        Some(row) => Err(Or::Is(Refusal::HasCheckouts(row))),
        None => Ok(()),
    }
}

/// The row of `rmview [-force] V`, or its first refusal.
pub fn rmview(
    alloc: Global,
    rows: &FirstRows<'_>,
    view: &Name,
    force: bool,
    occasion: Occasion,
) -> Result<Row, Or<Refusal>>
    ensures { (scene : Scene) (now : ℕ)
        → Sees scene rows.now now view.now occasion.busy occasion.taken
        → Decides occasion.tag occasion.moment result (rmview scene view.now force) }
{
    needs_view(rows, view)?;
    needs_idle(occasion.busy)?;
    needs_no_checkouts(rows, view, force)?;
    needs_room(occasion.taken)?;
    let deed = Deed::Rmview {
        view: view.copy(alloc)?,
    };
    Ok(Row::of(occasion.tag, occasion.moment, deed))
}
