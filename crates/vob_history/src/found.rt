//! What a query asks about: an element, or an object.

ghost use Rattle.std.specs.Prelude.{◌≡◌};
ghost use Rattle.cc_names.specs.References.{held_at};
ghost use Rattle.base_model.specs.Changes.{objects_held};
ghost use Rattle.legal_history.specs.Commands.Found.{for_object};
ghost use Rattle.legal_history.specs.Queries.QueryLines.{answers_of};
ghost use Rattle.vob_history.specs.Found.{FindsObject, FindsSelected};

use cc_names::memory::Or;
use cc_names::names::Name;
use cc_names::paths::Path;
use cc_names::refusals::Refusal;
use cc_names::selection::{Picked, Seen};
use std::alloc::Global;
use view_lookup::{FirstRows, at, held_object, view_row};

/// The element that the view selects at a path, and what it picks of it; or the first refusal of a query about it.
pub(crate) fn find_selected(
    alloc: Global,
    rows: &FirstRows<'_>,
    view: &Name,
    path: &Path,
) -> Result<(u64, Picked), Or<Refusal>>
    ensures { FindsSelected result (answers_of rows.now view.now path.now) }
{
    if view_row(rows, view).is_none() {
        return Err(Or::Is(Refusal::NoView));
    }
    match at(rows, view, path) {
        Seen::Element(element, picked) => Ok((element, picked)),
        Seen::Private(_) => Err(Or::Is(Refusal::NotElement(path.copy(alloc)?))),
        Seen::Unselected(_) => Err(Or::Is(Refusal::NoPath(path.copy(alloc)?))),
        Seen::Nothing => Err(Or::Is(Refusal::NoPath(path.copy(alloc)?))),
    }
}

/// The object that the view holds at a path; or that it holds none.
pub(crate) fn find_object(
    alloc: Global,
    rows: &FirstRows<'_>,
    view: &Name,
    path: &Path,
) -> Result<u64, Or<Refusal>>
    ensures { FindsObject result
        (for_object path.now (held_at (objects_held rows.now) view.now path.now)) }
{
    match held_object(rows, view, path) {
        Some(object) => Ok(object),
        None => Err(Or::Is(Refusal::NoObject(path.copy(alloc)?))),
    }
}
