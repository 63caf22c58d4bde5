//! Taking private files away.

ghost use Rattle.std.specs.Prelude.{ℕ};
ghost use Rattle.cc_names.specs.Formed.{IsBelowRoot};
ghost use Rattle.base_model.specs.Seen.{at};
ghost use Rattle.legal_history.specs.Commands.Decisions.{Scene};
ghost use Rattle.legal_history.specs.Commands.FileLines.{rm};
ghost use Rattle.legal_history.specs.Commands.Tests.{needs_private};
ghost use Rattle.checkout_desk.specs.Deciding.{Sees, Decides, Tests};

use crate::needs::{needs_idle, needs_view};
use crate::room::needs_room;
use cc_names::memory::Or;
use cc_names::names::Name;
use cc_names::occasions::Occasion;
use cc_names::paths::Path;
use cc_names::refusals::Refusal;
use cc_names::rows::{Deed, Row};
use cc_names::selection::Seen;
use std::alloc::Global;
use view_lookup::{FirstRows, at};

/// A private file stands at the path.
fn needs_private(
    alloc: Global,
    rows: &FirstRows<'_>,
    view: &Name,
    path: &Path,
) -> Result<(), Or<Refusal>>
    ensures { Tests result (needs_private path.now (at rows.now view.now path.now)) }
{
    match at(rows, view, path) {
        Seen::Private(_) => Ok(()),
        Seen::Element(_, _) => Err(Or::Is(Refusal::NoPath(path.copy(alloc)?))),
        Seen::Unselected(_) => Err(Or::Is(Refusal::NoPath(path.copy(alloc)?))),
        Seen::Nothing => Err(Or::Is(Refusal::NoPath(path.copy(alloc)?))),
    }
}

/// The row of `rm V P`, or its first refusal. Takes the time of `at`.
pub fn rm(
    alloc: Global,
    rows: &FirstRows<'_>,
    view: &Name,
    path: &Path,
    occasion: Occasion,
) -> Result<Row, Or<Refusal>>
    requires { IsBelowRoot path.now }
    ensures { (scene : Scene) (now : ℕ)
        → Sees scene rows.now now view.now occasion.busy occasion.taken
        → Decides occasion.tag occasion.moment result (rm scene view.now path.now) }
{
    needs_view(rows, view)?;
    needs_idle(occasion.busy)?;
    needs_private(alloc, rows, view, path)?;
    needs_room(occasion.taken)?;
    let deed = Deed::Rm {
        view: view.copy(alloc)?,
        path: path.copy(alloc)?,
    };
    Ok(Row::of(occasion.tag, occasion.moment, deed))
}
