//! Letting go of the objects that a view holds.

ghost use Rattle.std.specs.Prelude.{ℕ};
ghost use Rattle.cc_names.specs.Formed.{IsBelowRoot};
ghost use Rattle.legal_history.specs.Commands.Decisions.{Scene};
ghost use Rattle.legal_history.specs.Commands.ObjectLines.{rmdo};
ghost use Rattle.legal_history.specs.Commands.Tests.{needs_object};
ghost use Rattle.checkout_desk.specs.Deciding.{Sees, Decides, Tests};

use crate::needs::{needs_idle, needs_view};
use crate::room::needs_room;
use cc_names::memory::Or;
use cc_names::names::Name;
use cc_names::occasions::Occasion;
use cc_names::paths::Path;
use cc_names::refusals::Refusal;
use cc_names::rows::{Deed, Row};
use std::alloc::Global;
use view_lookup::{FirstRows, held_object};

/// The view holds an object at the path.
fn needs_object(
    alloc: Global,
    rows: &FirstRows<'_>,
    view: &Name,
    path: &Path,
) -> Result<(), Or<Refusal>>
    ensures { Tests result (needs_object rows.now view.now path.now) }
{
    if held_object(rows, view, path).is_none() {
        return Err(Or::Is(Refusal::NoObject(path.copy(alloc)?)));
    }
    Ok(())
}

/// The row of `rmdo V P`, or its first refusal. Takes the time of `held_object`.
pub fn rmdo(
    alloc: Global,
    rows: &FirstRows<'_>,
    view: &Name,
    path: &Path,
    occasion: Occasion,
) -> Result<Row, Or<Refusal>>
    requires { IsBelowRoot path.now }
    ensures { (scene : Scene) (now : ℕ)
        → Sees scene rows.now now view.now occasion.busy occasion.taken
        → Decides occasion.tag occasion.moment result (rmdo scene view.now path.now) }
{
    needs_view(rows, view)?;
    needs_idle(occasion.busy)?;
    needs_object(alloc, rows, view, path)?;
    needs_room(occasion.taken)?;
    let deed = Deed::Drop {
        view: view.copy(alloc)?,
        path: path.copy(alloc)?,
    };
    Ok(Row::of(occasion.tag, occasion.moment, deed))
}
