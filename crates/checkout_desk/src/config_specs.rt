//! Setting the config spec of a view.

ghost use Rattle.std.specs.Prelude.{ℕ, ◌≤◌, length};
ghost use Rattle.base_model.specs.ConfigSpecs.Specs.{rules_of};
ghost use Rattle.legal_history.specs.Commands.Decisions.{Scene};
ghost use Rattle.legal_history.specs.Commands.FileLines.{setcs};
ghost use Rattle.legal_history.specs.Commands.Tests.{needs_rules};
ghost use Rattle.checkout_desk.specs.Deciding.{Sees, Decides, Tests};

use crate::needs::{needs_idle, needs_view};
use crate::room::needs_room;
use cc_names::memory::Or;
use cc_names::names::Name;
use cc_names::occasions::Occasion;
use cc_names::refusals::Refusal;
use cc_names::rows::{Deed, Row};
use cc_names::texts::Text;
use spec_text::read_rules;
use std::alloc::Global;
use view_lookup::FirstRows;

/// The text is a config spec. The refusal has its first line that is wrong, and why. Takes time linear in the text.
fn needs_rules(alloc: Global, text: &Text) -> Result<(), Or<Refusal>>
    requires { length text.now ≤ 16777216 }
    ensures { Tests result (needs_rules (rules_of text.now)) }
{
    match read_rules(alloc, text.as_bytes()) {
        Ok(_) => Ok(()),
        Err(Or::Is(error)) => Err(Or::Is(Refusal::BadSpec(error.line, error.cause))),
        Err(Or::NoMemory) => Err(Or::NoMemory),
    }
}

/// The row of `setcs V`, or its first refusal. Takes time linear in the text, however many rows there are.
pub fn setcs(
    alloc: Global,
    rows: &FirstRows<'_>,
    view: &Name,
    text: &Text,
    occasion: Occasion,
) -> Result<Row, Or<Refusal>>
    requires { length text.now ≤ 16777216 }
    ensures { (scene : Scene) (now : ℕ)
        → Sees scene rows.now now view.now occasion.busy occasion.taken
        → Decides occasion.tag occasion.moment result (setcs scene view.now text.now) }
{
    needs_view(rows, view)?;
    needs_idle(occasion.busy)?;
    needs_rules(alloc, text)?;
    needs_room(occasion.taken)?;
    let deed = Deed::Setcs {
        view: view.copy(alloc)?,
        text: text.copy(alloc)?,
    };
    Ok(Row::of(occasion.tag, occasion.moment, deed))
}
