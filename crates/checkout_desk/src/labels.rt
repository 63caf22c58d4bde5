//! Putting labels on versions, and taking them off.

ghost use Rattle.std.specs.Prelude.{◌≡◌, ℕ, Option, List, ◌∷◌, []};
ghost use Rattle.cc_names.specs.Formed.{IsTypeName};
ghost use Rattle.cc_names.specs.declared.rows.Tag.{Tag};
ghost use Rattle.base_model.specs.Seen.{at};
ghost use Rattle.legal_history.specs.Commands.Decisions.{Scene, past};
ghost use Rattle.legal_history.specs.Commands.Found.{for_element};
ghost use Rattle.legal_history.specs.Commands.LabelLines.{mklabel, mklabel_of, needs_label, needs_label_free, rmlabel, rmlabel_of};
ghost use Rattle.legal_history.specs.Commands.Tests.{needs_view};
ghost use Rattle.checkout_desk.specs.Deciding.{Sees, Decides, Finds, Tests};

use crate::checkout_needs::needs_version_picked;
use crate::found::{Selected, find_selected_in, find_standing};
use crate::needs::{needs_label_type, needs_view};
use crate::room::needs_room;
use cc_names::memory::Or;
use cc_names::names::Name;
use cc_names::occasions::Occasion;
use cc_names::paths::Path;
use cc_names::refusals::Refusal;
use cc_names::rows::{Deed, Placed, Row};
use std::alloc::Global;
use view_lookup::{FirstRows, checked_out, has_label, holder};

/// The label stands on this version or on none of the element, unless `-replace` is given. The refusal names the version that
/// holds it.
pub fn needs_label_free(
    rows: &FirstRows<'_>,
    replace: bool,
    label: &Name,
    placed: Placed,
) -> Result<(), Or<Refusal>>
    ensures { Tests result
        (needs_label_free rows.now replace label.now placed.element placed.version) }
{
    if replace {
        return Ok(());
    }
    match holder(rows, label, placed.element) {
        Some(other) => {
            if other == placed.version {
                Ok(())
            } else {
                Err(Or::Is(Refusal::LabelElsewhere(other)))
            }
        }
        None => Ok(()),
    }
}

/// The row of `mklabel V [-replace] L P` of a selected element, or its first refusal.
fn mklabel_of(
    alloc: Global,
    rows: &FirstRows<'_>,
    view: &Name,
    replace: bool,
    label: &Name,
    selected: Selected,
    occasion: Occasion,
) -> Result<Row, Or<Refusal>>
    requires { IsTypeName label.now }
    ensures { (scene : Scene) (now : ℕ)
        → Sees scene rows.now now view.now occasion.busy occasion.taken
        → Decides occasion.tag occasion.moment result
        (mklabel_of scene view.now replace label.now selected.element selected.picked) }
{
    needs_label_type(alloc, rows, label)?;
    let taken = checked_out(rows, view, selected.element);
    needs_version_picked(selected.picked.out, taken)?;
    let placed = Placed {
        element: selected.element,
        version: selected.picked.row,
    };
    needs_label_free(rows, replace, label, placed)?;
    needs_room(occasion.taken)?;
    let deed = Deed::Label {
        label: label.copy(alloc)?,
        element: placed.element,
        version: placed.version,
    };
    Ok(Row::of(occasion.tag, occasion.moment, deed))
}

/// The row of `mklabel V [-replace] L P`, or its first refusal. Takes the time of `at` and of `holder`.
pub fn mklabel(
    alloc: Global,
    rows: &FirstRows<'_>,
    view: &Name,
    replace: bool,
    label: &Name,
    path: &Path,
    occasion: Occasion,
) -> Result<Row, Or<Refusal>>
    requires { IsTypeName label.now }
    ensures { (scene : Scene) (now : ℕ)
        → Sees scene rows.now now view.now occasion.busy occasion.taken
        → Decides occasion.tag occasion.moment result
        (mklabel scene view.now replace label.now path.now) }
{
    let selected = find_selected_in(alloc, rows, view, path)?;
    mklabel_of(alloc, rows, view, replace, label, selected, occasion)
}

/// The label stands on a version of the element.
fn needs_label(
    alloc: Global,
    rows: &FirstRows<'_>,
    label: &Name,
    path: &Path,
    element: u64,
) -> Result<(), Or<Refusal>>
    ensures { Tests result (needs_label rows.now label.now path.now element) }
{
    if !has_label(rows, label, element) {
        return Err(Or::Is(Refusal::NoLabel(path.copy(alloc)?)));
    }
    Ok(())
}

/// The row of `rmlabel V L P` of an element, or its first refusal.
fn rmlabel_of(
    alloc: Global,
    rows: &FirstRows<'_>,
    label: &Name,
    path: &Path,
    element: u64,
    occasion: Occasion,
) -> Result<Row, Or<Refusal>>
    requires { IsTypeName label.now }
    ensures { (scene : Scene) (now : ℕ) (view : List ℕ) (busy : Option Tag)
        → Sees scene rows.now now view busy occasion.taken
        → Decides occasion.tag occasion.moment result
        (rmlabel_of scene label.now path.now element) }
{
    needs_label_type(alloc, rows, label)?;
    needs_label(alloc, rows, label, path, element)?;
    needs_room(occasion.taken)?;
    let label = label.copy(alloc)?;
    Ok(Row::of(
        occasion.tag,
        occasion.moment,
        Deed::Unlabel { label, element },
    ))
}

/// The element that stands at a path of a view that there is.
fn find_standing_in(
    alloc: Global,
    rows: &FirstRows<'_>,
    view: &Name,
    path: &Path,
) -> Result<u64, Or<Refusal>>
    ensures { (scene : Scene)
        → scene.base ≡ rows.now
        → Finds result
        (λ more. past (needs_view scene.base view.now ∷ [])
        (for_element path.now (at scene.base view.now path.now) more)) }
{
    needs_view(rows, view)?;
    find_standing(alloc, rows, view, path)
}

/// The row of `rmlabel V L P`, or its first refusal. Takes the time of `at` and of `holder`.
pub fn rmlabel(
    alloc: Global,
    rows: &FirstRows<'_>,
    view: &Name,
    label: &Name,
    path: &Path,
    occasion: Occasion,
) -> Result<Row, Or<Refusal>>
    requires { IsTypeName label.now }
    ensures { (scene : Scene) (now : ℕ)
        → Sees scene rows.now now view.now occasion.busy occasion.taken
        → Decides occasion.tag occasion.moment result
        (rmlabel scene view.now label.now path.now) }
{
    let element = find_standing_in(alloc, rows, view, path)?;
    rmlabel_of(alloc, rows, label, path, element, occasion)
}
