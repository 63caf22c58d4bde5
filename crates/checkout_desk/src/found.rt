//! Tests that find something and hand it on to the rest of a command; where it is not there, they refuse.

ghost use Rattle.std.specs.Prelude.{◌≡◌, ℕ, IfOk, ◌∷◌, []};
ghost use Rattle.cc_names.specs.Formed.{IsBelowRoot};
ghost use Rattle.cc_names.specs.Names.{IsName};
ghost use Rattle.cc_names.specs.References.{held_at};
ghost use Rattle.base_model.specs.Changes.{objects_held};
ghost use Rattle.base_model.specs.Seen.{at};
ghost use Rattle.legal_history.specs.Commands.Decisions.{Scene, past};
ghost use Rattle.legal_history.specs.Commands.DirectoryLines.{changes_directory};
ghost use Rattle.legal_history.specs.Commands.FileLines.{last_name, parent};
ghost use Rattle.legal_history.specs.Commands.Found.{for_directory, for_element, for_object, for_selected};
ghost use Rattle.legal_history.specs.Commands.Tests.{needs_idle, needs_view};
ghost use Rattle.checkout_desk.specs.Deciding.{Finds, Sees, apart};

use crate::needs::{needs_idle, needs_parent_out, needs_view};
use cc_names::memory::{NoMemory, Or};
use cc_names::names::Name;
use cc_names::paths::{Path, parts_join};
use cc_names::refusals::Refusal;
use cc_names::rows::Tag;
use cc_names::selection::{Picked, Seen};
use std::alloc::Global;
use view_lookup::{FirstRows, at, held_object, is_directory_element};

/// The element that is selected at a path, and what was picked of it.
#[derive(Clone, Copy)]
pub struct Selected {
    /// The row that made the element.
    pub element: u64,
    /// What was picked of it.
    pub picked: Picked,
}

/// The element that is selected at a path.
pub fn find_selected(
    alloc: Global,
    rows: &FirstRows<'_>,
    view: &Name,
    path: &Path,
) -> Result<Selected, Or<Refusal>>
    ensures { Finds result
        (λ more. for_selected path.now (at rows.now view.now path.now) (apart more)) }
{
    match at(rows, view, path) {
        Seen::Element(element, picked) => Ok(Selected { element, picked }),
        Seen::Private(_) => Err(Or::Is(Refusal::NotElement(path.copy(alloc)?))),
        Seen::Unselected(_) => Err(Or::Is(Refusal::NoPath(path.copy(alloc)?))),
        Seen::Nothing => Err(Or::Is(Refusal::NoPath(path.copy(alloc)?))),
    }
}

/// The element that stands at a path, selected or not.
pub fn find_standing(
    alloc: Global,
    rows: &FirstRows<'_>,
    view: &Name,
    path: &Path,
) -> Result<u64, Or<Refusal>>
    ensures { Finds result
        (λ more. for_element path.now (at rows.now view.now path.now) more) }
{
    match at(rows, view, path) {
        Seen::Element(element, _) => Ok(element),
        Seen::Unselected(element) => Ok(element),
        Seen::Private(_) => Err(Or::Is(Refusal::NotElement(path.copy(alloc)?))),
        Seen::Nothing => Err(Or::Is(Refusal::NoPath(path.copy(alloc)?))),
    }
}

/// The object that a view holds at a path.
pub fn find_object(
    alloc: Global,
    rows: &FirstRows<'_>,
    view: &Name,
    path: &Path,
) -> Result<u64, Or<Refusal>>
    ensures { Finds result
        (λ more. for_object path.now (held_at (objects_held rows.now) view.now path.now) more) }
{
    match held_object(rows, view, path) {
        Some(object) => Ok(object),
        None => Err(Or::Is(Refusal::NoObject(path.copy(alloc)?))),
    }
}

/// The directory that is selected at a path.
fn find_directory(
    alloc: Global,
    rows: &FirstRows<'_>,
    view: &Name,
    path: &Path,
) -> Result<u64, Or<Refusal>>
    ensures { Finds result
        (λ more. for_directory rows.now path.now (at rows.now view.now path.now) more) }
{
    match at(rows, view, path) {
        Seen::Element(element, _) => {
            if is_directory_element(rows, element) {
                Ok(element)
            } else {
                Err(Or::Is(Refusal::NotDirectory(path.copy(alloc)?)))
            }
        }
        Seen::Private(_) => Err(Or::Is(Refusal::NotDirectory(path.copy(alloc)?))),
        Seen::Unselected(_) => Err(Or::Is(Refusal::NoPath(path.copy(alloc)?))),
        Seen::Nothing => Err(Or::Is(Refusal::NoPath(path.copy(alloc)?))),
    }
}

/// The element that is selected at a path of a view that there is.
pub fn find_selected_in(
    alloc: Global,
    rows: &FirstRows<'_>,
    view: &Name,
    path: &Path,
) -> Result<Selected, Or<Refusal>>
    ensures { (scene : Scene)
        → scene.base ≡ rows.now
        → Finds result
        (λ more. past (needs_view scene.base view.now ∷ [])
        (for_selected path.now (at scene.base view.now path.now) (apart more))) }
{
    needs_view(rows, view)?;
    find_selected(alloc, rows, view, path)
}

/// The element that is selected at a path of a view that builds nothing.
pub fn find_selected_idle(
    alloc: Global,
    rows: &FirstRows<'_>,
    view: &Name,
    path: &Path,
    busy: Option<Tag>,
) -> Result<Selected, Or<Refusal>>
    ensures { (scene : Scene) (now taken : ℕ)
        → Sees scene rows.now now view.now busy taken
        → Finds result
        (λ more. past (needs_view scene.base view.now ∷ needs_idle scene view.now ∷ [])
        (for_selected path.now (at scene.base view.now path.now) (apart more))) }
{
    needs_view(rows, view)?;
    needs_idle(busy)?;
    find_selected(alloc, rows, view, path)
}

/// The element that stands at a path of a view that builds nothing, selected or not.
pub fn find_standing_idle(
    alloc: Global,
    rows: &FirstRows<'_>,
    view: &Name,
    path: &Path,
    busy: Option<Tag>,
) -> Result<u64, Or<Refusal>>
    ensures { (scene : Scene) (now taken : ℕ)
        → Sees scene rows.now now view.now busy taken
        → Finds result
        (λ more. past (needs_view scene.base view.now ∷ needs_idle scene view.now ∷ [])
        (for_element path.now (at scene.base view.now path.now) more)) }
{
    needs_view(rows, view)?;
    needs_idle(busy)?;
    find_standing(alloc, rows, view, path)
}

/// The path of the directory in which a path lies. That of the root is the root.
pub fn parent_of(alloc: Global, path: &Path) -> Result<Path, NoMemory>
    ensures { IfOk result (λ directory. directory ≡ parent path.now) }
{
    Ok(path.parent(alloc)?.unwrap_or(Path::root()))
}

/// The last name of a path below the root.
pub fn last_name(alloc: Global, path: &Path) -> Result<Name, NoMemory>
    requires { IsBelowRoot path.now }
    ensures name { IfOk result (λ name. name ≡ last_name path.now) }
    ensures formed { IfOk result IsName }
{
    parts_join();
    match path.last(alloc)? {
        Some(name) => Ok(name),
        None => unreachable!(),
    }
}

/// The directory in which a path lies: it is selected, and the view, which builds nothing, has it out.
pub fn find_directory_out(
    alloc: Global,
    rows: &FirstRows<'_>,
    view: &Name,
    path: &Path,
    busy: Option<Tag>,
) -> Result<u64, Or<Refusal>>
    ensures { (scene : Scene) (now taken : ℕ)
        → Sees scene rows.now now view.now busy taken
        → Finds result (changes_directory scene view.now path.now) }
{
    needs_view(rows, view)?;
    needs_idle(busy)?;
    let parent = parent_of(alloc, path)?;
    let directory = find_directory(alloc, rows, view, &parent)?;
    needs_parent_out(alloc, rows, view, &parent, directory)?;
    Ok(directory)
}
