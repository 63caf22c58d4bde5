//! Arrows between the versions of an element: that one was merged into the other.

ghost use Rattle.std.specs.Prelude.{◌==◌, ℕ, option_map};
ghost use Rattle.cc_names.specs.declared.refusals.Refusal.TheVariants as refusals;
ghost use Rattle.base_model.specs.Conditions.{arrow_row};
ghost use Rattle.legal_history.specs.Commands.Decisions.{Scene};
ghost use Rattle.legal_history.specs.Commands.Found.{for_version};
ghost use Rattle.legal_history.specs.Commands.LabelLines.{mkarrow, mkarrow_from, mkarrow_of, version_named};
ghost use Rattle.legal_history.specs.Commands.Tests.{refused_where};
ghost use Rattle.checkout_desk.specs.Deciding.{Sees, Decides, Finds, Tests};

use crate::checkout_needs::needs_version_picked;
use crate::found::{Selected, find_selected_in};
use crate::room::needs_room;
use cc_names::commands::VersionName;
use cc_names::memory::Or;
use cc_names::names::Name;
use cc_names::occasions::Occasion;
use cc_names::paths::Path;
use cc_names::refusals::Refusal;
use cc_names::rows::{Deed, Row};
use std::alloc::Global;
use view_lookup::{FirstRows, arrow_row, checked_out, version_named};

/// A version is another one than that at the other end of the arrow.
fn needs_another(version: u64, tail: u64) -> Result<(), Or<Refusal>>
    ensures { Tests result (refused_where (version == tail) (refusals.SameVersion version)) }
{
    if version == tail {
        return Err(Or::Is(Refusal::SameVersion(version)));
    }
    Ok(())
}

/// No such arrow is there. The refusal names its row.
fn needs_no_arrow(rows: &FirstRows<'_>, selected: Selected, tail: u64) -> Result<(), Or<Refusal>>
    ensures { Tests result
        (option_map refusals.ArrowExists
        (arrow_row rows.now selected.element tail selected.picked.row)) }
{
    match arrow_row(rows, selected.element, tail, selected.picked.row) {
        Some(row) => Err(Or::Is(Refusal::ArrowExists(row))),
        None => Ok(()),
    }
}

/// The version of a selected element that has this name.
fn find_version(
    alloc: Global,
    rows: &FirstRows<'_>,
    selected: Selected,
    path: &Path,
    name: &VersionName,
) -> Result<u64, Or<Refusal>>
    ensures { Finds result
        (for_version path.now (version_named rows.now selected.element name.now)) }
{
    match version_named(rows, selected.element, name) {
        Some(version) => Ok(version),
        None => Err(Or::Is(Refusal::NoVersion(path.copy(alloc)?))),
    }
}

/// The row of an arrow from this version to the selected one, or its first refusal.
fn mkarrow_from(
    rows: &FirstRows<'_>,
    view: &Name,
    selected: Selected,
    tail: u64,
    occasion: Occasion,
) -> Result<Row, Or<Refusal>>
    ensures { (scene : Scene) (now : ℕ)
        → Sees scene rows.now now view.now occasion.busy occasion.taken
        → Decides occasion.tag occasion.moment result
        (mkarrow_from scene view.now selected.element selected.picked tail) }
{
    let taken = checked_out(rows, view, selected.element);
    needs_version_picked(selected.picked.out, taken)?;
    needs_another(selected.picked.row, tail)?;
    needs_no_arrow(rows, selected, tail)?;
    needs_room(occasion.taken)?;
    let deed = Deed::Arrow {
        element: selected.element,
        tail,
        head: selected.picked.row,
    };
    Ok(Row::of(occasion.tag, occasion.moment, deed))
}

/// The row of `mkarrow V P VERSION` of a selected element, or its first refusal.
fn mkarrow_of(
    alloc: Global,
    rows: &FirstRows<'_>,
    view: &Name,
    path: &Path,
    name: &VersionName,
    selected: Selected,
    occasion: Occasion,
) -> Result<Row, Or<Refusal>>
    ensures { (scene : Scene) (now : ℕ)
        → Sees scene rows.now now view.now occasion.busy occasion.taken
        → Decides occasion.tag occasion.moment result
        (mkarrow_of scene view.now path.now name.now selected.element selected.picked) }
{
    let tail = find_version(alloc, rows, selected, path, name)?;
    mkarrow_from(rows, view, selected, tail, occasion)
}

/// The row of `mkarrow V P VERSION`, or its first refusal. Takes the time of `at`, of `version_named` and of `arrow_row`.
pub fn mkarrow(
    alloc: Global,
    rows: &FirstRows<'_>,
    view: &Name,
    path: &Path,
    name: &VersionName,
    occasion: Occasion,
) -> Result<Row, Or<Refusal>>
    ensures { (scene : Scene) (now : ℕ)
        → Sees scene rows.now now view.now occasion.busy occasion.taken
        → Decides occasion.tag occasion.moment result
        (mkarrow scene view.now path.now name.now) }
{
    let selected = find_selected_in(alloc, rows, view, path)?;
    mkarrow_of(alloc, rows, view, path, name, selected, occasion)
}
