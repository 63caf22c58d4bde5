//! Putting labels on the versions that the record of an object lists.

ghost use Rattle.std.specs.Prelude.{◌≡◌, ℕ, Option, List, ◌∷◌, [], map, option_map, IfOk};
ghost use Rattle.std.specs.List.Sorted.{IsStrictlySortedBy};
ghost use Rattle.std.specs.Option.{option_copied};
ghost use Rattle.std.specs.Ordering.{nat_cmp};
ghost use Rattle.cc_names.specs.Formed.{IsListOf, IsPlaced, IsTypeName, element_of};
ghost use Rattle.cc_names.specs.References.{held_at};
ghost use Rattle.cc_names.specs.declared.refusals.Refusal.TheVariants.{NotVersion};
ghost use Rattle.cc_names.specs.declared.rows.Tag.{Tag};
ghost use Rattle.base_model.specs.Changes.{objects_held};
ghost use Rattle.legal_history.specs.Commands.Decisions.{Scene, first_refusal, past};
ghost use Rattle.legal_history.specs.Commands.Found.{for_object};
ghost use Rattle.legal_history.specs.Commands.LabelLines.{labels_free, mklabel_config, mklabel_config_of, mklabel_config_tests, outsider};
ghost use Rattle.base_model.specs.Closures.{placed_by};
ghost use Rattle.legal_history.specs.Commands.Tests.{needs_view};
ghost use Rattle.checkout_desk.specs.Deciding.{DecidesIfAny, Finds, Sees, Tests};

use crate::found::find_object;
use crate::labels::needs_label_free;
use crate::needs::{needs_label_type, needs_view};
use crate::room::needs_room;
use cc_names::lists::List;
use cc_names::memory::{NoMemory, Or};
use cc_names::names::Name;
use cc_names::occasions::Occasion;
use cc_names::paths::Path;
use cc_names::refusals::Refusal;
use cc_names::rows::{Deed, Placed, Row};
use std::alloc::Global;
use view_lookup::{FirstRows, InputTest, first_input, placed_by, version_id_of};

/// Rows of a base, of which those are told that made no version.
#[derive(Drop)]
struct Outside<'a> {
    rows: &'a FirstRows<'a>,
}

impl InputTest for Outside<'_> {
    ghost use Rattle.checkout_desk.specs.Outsiders.{is_outside};

    ghost passes = { λ it. is_outside it.rows.now };

    // Whether a row is there that made no version.
    fn passes(&self, _path: &Path, row: u64) -> bool {
        0 < row && version_id_of(self.rows, row).is_none()
    }
}

/// The first path that an object rests on in the end, where a row is there that made no version.
fn outsider<'a>(
    alloc: Global,
    rows: &FirstRows<'a>,
    object: u64,
) -> Result<Option<&'a Path>, NoMemory>
    ensures { IfOk result (λ path. option_copied path ≡ outsider rows.now object) }
{
    first_input(alloc, rows, object, &Outside { rows: &*rows })
}

/// Whatever is there of what the object rests on in the end is a version. The refusal has the first path of anything else.
fn needs_versions(alloc: Global, rows: &FirstRows<'_>, object: u64) -> Result<(), Or<Refusal>>
    ensures { Tests result (option_map NotVersion (outsider rows.now object)) }
{
    match outsider(alloc, rows, object)? {
        Some(path) => Err(Or::Is(Refusal::NotVersion(path.copy(alloc)?))),
        None => Ok(()),
    }
}

/// The label is free on each of some elements. The refusal names the version that holds it on the first where it is not.
fn needs_labels_free(
    rows: &FirstRows<'_>,
    replace: bool,
    label: &Name,
    placed: &[Placed],
) -> Result<(), Or<Refusal>>
    ensures { Tests result
        (first_refusal (labels_free rows.now replace label.now placed.now)) }
{
    for one in placed {
        needs_label_free(rows, replace, label, *one)?;
    }
    Ok(())
}

/// The versions that the record of an object lists, past the tests of a label on them.
fn find_placed(
    alloc: Global,
    rows: &FirstRows<'_>,
    replace: bool,
    label: &Name,
    object: u64,
) -> Result<Vec<Placed>, Or<Refusal>>
    ensures tests { (scene : Scene)
        → scene.base ≡ rows.now
        → Tests result
        (first_refusal (mklabel_config_tests scene replace label.now object)) }
    ensures placed { IfOk result (λ placed. placed.items ≡ placed_by rows.now object) }
    ensures formed { IfOk result
        (λ placed. IsListOf IsPlaced placed.items
        × IsStrictlySortedBy nat_cmp (map element_of placed.items)) }
{
    needs_label_type(alloc, rows, label)?;
    needs_versions(alloc, rows, object)?;
    let placed = placed_by(alloc, rows, object)?;
    needs_labels_free(rows, replace, label, placed.as_slice())?;
    Ok(placed)
}

/// The row of `mklabel V [-replace] -config P L` of an object; none where its record lists nothing; or its first refusal.
fn mklabel_config_of(
    alloc: Global,
    rows: &FirstRows<'_>,
    replace: bool,
    label: &Name,
    object: u64,
    occasion: Occasion,
) -> Result<Option<Row>, Or<Refusal>>
    requires { IsTypeName label.now }
    ensures { (scene : Scene) (now : ℕ) (view : List ℕ) (busy : Option Tag)
        → Sees scene rows.now now view busy occasion.taken
        → DecidesIfAny occasion.tag occasion.moment result
        (mklabel_config_of scene replace label.now object) }
{
    let placed = find_placed(alloc, rows, replace, label, object)?;
    if placed.is_empty() {
        return Ok(None);
    }
    needs_room(occasion.taken)?;
    let deed = Deed::Labels {
        label: label.copy(alloc)?,
        placed: List::of(placed),
    };
    Ok(Some(Row::of(occasion.tag, occasion.moment, deed)))
}

/// The object that a view that there is holds at a path.
fn find_object_in(
    alloc: Global,
    rows: &FirstRows<'_>,
    view: &Name,
    path: &Path,
) -> Result<u64, Or<Refusal>>
    ensures { (scene : Scene)
        → scene.base ≡ rows.now
        → Finds result
        (λ more. past (needs_view scene.base view.now ∷ [])
        (for_object path.now (held_at (objects_held scene.base) view.now path.now) more)) }
{
    needs_view(rows, view)?;
    find_object(alloc, rows, view, path)
}

/// The row of `mklabel V [-replace] -config P L`, with each version that the record of the view's object lists; none where it
/// lists nothing; or its first refusal. Takes the time of `held_object`, for each entry of the records on which the object rests
/// that of
/// `version_id_of`, each record once, and for each version that the record lists that of `holder`.
pub fn mklabel_config(
    alloc: Global,
    rows: &FirstRows<'_>,
    view: &Name,
    replace: bool,
    path: &Path,
    label: &Name,
    occasion: Occasion,
) -> Result<Option<Row>, Or<Refusal>>
    requires { IsTypeName label.now }
    ensures { (scene : Scene) (now : ℕ)
        → Sees scene rows.now now view.now occasion.busy occasion.taken
        → DecidesIfAny occasion.tag occasion.moment result
        (mklabel_config scene view.now replace path.now label.now) }
{
    let object = find_object_in(alloc, rows, view, path)?;
    mklabel_config_of(alloc, rows, replace, label, object, occasion)
}
