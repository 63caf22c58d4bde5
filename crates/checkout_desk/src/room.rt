//! Room for one more row.

ghost use Rattle.std.specs.Prelude.{◌≡◌, ◌+◌};
ghost use Rattle.legal_history.specs.Commands.Decisions.{Scene, needs_room};
ghost use Rattle.base_model.specs.Rows.{size};
ghost use Rattle.legal_history.specs.Builds.Active.{rows_reserved};
ghost use Rattle.checkout_desk.specs.Deciding.{Tests};

use cc_names::memory::Or;
use cc_names::refusals::Refusal;
use view_lookup::ROW_LIMIT;

/// There is room for one more row beside those that are taken: the rows of the base and the reserved ones. The refusal names
/// the limit.
pub fn needs_room(taken: u64) -> Result<(), Or<Refusal>>
    ensures { (scene : Scene)
        → size scene.base + rows_reserved scene.active ≡ taken
        → Tests result (needs_room scene 1) }
{
    if taken >= ROW_LIMIT {
        return Err(Or::Is(Refusal::Full(ROW_LIMIT)));
    }
    Ok(())
}
