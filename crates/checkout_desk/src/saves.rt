//! Saving the text of a file.

ghost use Rattle.std.specs.Prelude.{◌≡◌, ℕ, ◌≤◌, length, IfOk, ◌++◌, ◌∷◌, []};
ghost use Rattle.cc_names.specs.Formed.{IsBelowRoot, IsDeedFormed};
ghost use Rattle.base_model.specs.Seen.{at};
ghost use Rattle.base_model.specs.Views.{out};
ghost use Rattle.legal_history.specs.Commands.Decisions.{Scene, first_refusal, needs_room};
ghost use Rattle.legal_history.specs.Commands.FileLines.{save, save_deed, save_tests, saves_at, saves_element};
ghost use Rattle.base_model.specs.Conditions.{is_directory};
ghost use Rattle.checkout_desk.specs.Deciding.{Sees, Decides, Tests};

use crate::checkout_needs::needs_out;
use crate::found::parent_of;
use crate::needs::{needs_directory, needs_idle, needs_selected, needs_view};
use crate::room::needs_room;
use cc_names::memory::{NoMemory, Or};
use cc_names::names::Name;
use cc_names::occasions::Occasion;
use cc_names::paths::Path;
use cc_names::refusals::Refusal;
use cc_names::rows::{Deed, Row, Tag};
use cc_names::selection::Seen;
use cc_names::texts::Text;
use std::alloc::Global;
use view_lookup::{FirstRows, at, checked_out, held_object, is_directory_element};

/// An element that is saved at a path is no directory, and the view has it out.
fn saves_element(
    alloc: Global,
    rows: &FirstRows<'_>,
    view: &Name,
    path: &Path,
    element: u64,
) -> Result<(), Or<Refusal>>
    ensures { Tests result
        (saves_element (is_directory rows.now element) path.now (out rows.now view.now element)) }
{
    if is_directory_element(rows, element) {
        return Err(Or::Is(Refusal::IsDirectory(path.copy(alloc)?)));
    }
    needs_out(alloc, path, checked_out(rows, view, element))
}

/// What stands at the path may be saved: a private file always, a file element that the view has checked out, and a new private
/// file where the view holds no object.
fn saves_at(
    alloc: Global,
    rows: &FirstRows<'_>,
    view: &Name,
    path: &Path,
    seen: Seen,
) -> Result<(), Or<Refusal>>
    ensures { Tests result (saves_at rows.now view.now path.now seen) }
{
    match seen {
        Seen::Private(_) => Ok(()),
        Seen::Element(element, _) => saves_element(alloc, rows, view, path, element),
        Seen::Unselected(element) => saves_element(alloc, rows, view, path, element),
        Seen::Nothing => match held_object(rows, view, path) {
            Some(_) => Err(Or::Is(Refusal::IsDerived(path.copy(alloc)?))),
            None => Ok(()),
        },
    }
}

/// The tests of `save V P` where this stands at the path, with that of its room.
fn save_tests(
    alloc: Global,
    rows: &FirstRows<'_>,
    view: &Name,
    path: &Path,
    seen: Seen,
    busy: Option<Tag>,
    taken: u64,
) -> Result<(), Or<Refusal>>
    requires { seen ≡ at rows.now view.now path.now }
    ensures { (scene : Scene) (now : ℕ)
        → Sees scene rows.now now view.now busy taken
        → Tests result (first_refusal
        (save_tests scene view.now path.now ++ needs_room scene 1 ∷ [])) }
{
    needs_view(rows, view)?;
    needs_idle(busy)?;
    let parent = parent_of(alloc, path)?;
    let above = at(rows, view, &parent);
    needs_selected(alloc, &parent, above)?;
    needs_directory(alloc, rows, &parent, above)?;
    saves_at(alloc, rows, view, path, seen)?;
    needs_room(taken)
}

/// What a save does where this stands at the path.
fn save_deed(
    alloc: Global,
    view: &Name,
    path: &Path,
    text: &Text,
    seen: Seen,
) -> Result<Deed, NoMemory>
    requires below { IsBelowRoot path.now }
    requires short { length text.now ≤ 16777216 }
    ensures deed { IfOk result (λ deed. deed ≡ save_deed view.now path.now text.now seen) }
    ensures formed { IfOk result IsDeedFormed }
{
    let view = view.copy(alloc)?;
    match seen {
        Seen::Element(element, _) => Ok(Deed::Save {
            view,
            element,
            text: text.copy(alloc)?,
        }),
        Seen::Unselected(element) => Ok(Deed::Save {
            view,
            element,
            text: text.copy(alloc)?,
        }),
        _ => Ok(Deed::Put {
            view,
            path: path.copy(alloc)?,
            text: text.copy(alloc)?,
        }),
    }
}

/// The row of `save V P`, or its first refusal. Takes the time of `at` and time linear in the text.
pub fn save(
    alloc: Global,
    rows: &FirstRows<'_>,
    view: &Name,
    path: &Path,
    text: &Text,
    occasion: Occasion,
) -> Result<Row, Or<Refusal>>
    requires below { IsBelowRoot path.now }
    requires short { length text.now ≤ 16777216 }
    ensures { (scene : Scene) (now : ℕ)
        → Sees scene rows.now now view.now occasion.busy occasion.taken
        → Decides occasion.tag occasion.moment result (save scene view.now path.now text.now) }
{
    let seen = at(rows, view, path);
    save_tests(alloc, rows, view, path, seen, occasion.busy, occasion.taken)?;
    let deed = save_deed(alloc, view, path, text, seen)?;
    Ok(Row::of(occasion.tag, occasion.moment, deed))
}
