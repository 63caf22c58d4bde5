//! What commands need of the base, each a test of its own: passed, or the refusal where the need is not met.

ghost use Rattle.std.specs.Prelude.{◌≡◌, ℕ, List};
ghost use Rattle.legal_history.specs.Builds.Active.{building};
ghost use Rattle.legal_history.specs.Commands.Decisions.{Scene};
ghost use Rattle.legal_history.specs.Commands.Tests.{needs_branch_type, needs_directory, needs_free_path, needs_idle, needs_label_type, needs_name, needs_no_branch, needs_parent_out, needs_selected, needs_view};
ghost use Rattle.checkout_desk.specs.Deciding.{Tests};

use cc_names::memory::Or;
use cc_names::names::Name;
use cc_names::paths::Path;
use cc_names::refusals::Refusal;
use cc_names::rows::Tag;
use cc_names::selection::Seen;
use std::alloc::Global;
use view_lookup::{
    FirstRows, branch_named, has_name, has_out, held_object, is_branch_type, is_directory_element,
    is_label_type, private, view_row,
};

/// The view exists.
pub fn needs_view(rows: &FirstRows<'_>, view: &Name) -> Result<(), Or<Refusal>>
    ensures { Tests result (needs_view rows.now view.now) }
{
    if view_row(rows, view).is_none() {
        return Err(Or::Is(Refusal::NoView));
    }
    Ok(())
}

/// No build of the view is active. The refusal names the build.
pub fn needs_idle(busy: Option<Tag>) -> Result<(), Or<Refusal>>
    ensures { (scene : Scene) (view : List ℕ)
        → building scene.active view ≡ busy
        → Tests result (needs_idle scene view) }
{
    match busy {
        Some(build) => Err(Or::Is(Refusal::Building(build))),
        None => Ok(()),
    }
}

/// Something is selected at the path where this is seen.
pub fn needs_selected(alloc: Global, path: &Path, seen: Seen) -> Result<(), Or<Refusal>>
    ensures { Tests result (needs_selected path.now seen) }
{
    match seen {
        Seen::Nothing => Err(Or::Is(Refusal::NoPath(path.copy(alloc)?))),
        Seen::Unselected(_) => Err(Or::Is(Refusal::NoPath(path.copy(alloc)?))),
        Seen::Private(_) => Ok(()),
        Seen::Element(_, _) => Ok(()),
    }
}

/// What is selected at the path where this is seen is a directory.
pub fn needs_directory(
    alloc: Global,
    rows: &FirstRows<'_>,
    path: &Path,
    seen: Seen,
) -> Result<(), Or<Refusal>>
    ensures { Tests result (needs_directory rows.now path.now seen) }
{
    match seen {
        Seen::Private(_) => Err(Or::Is(Refusal::NotDirectory(path.copy(alloc)?))),
        Seen::Element(element, _) => {
            if is_directory_element(rows, element) {
                Ok(())
            } else {
                Err(Or::Is(Refusal::NotDirectory(path.copy(alloc)?)))
            }
        }
        Seen::Unselected(_) => Ok(()),
        Seen::Nothing => Ok(()),
    }
}

/// The view has the directory at the path out.
pub fn needs_parent_out(
    alloc: Global,
    rows: &FirstRows<'_>,
    view: &Name,
    path: &Path,
    directory: u64,
) -> Result<(), Or<Refusal>>
    ensures { Tests result (needs_parent_out rows.now view.now path.now directory) }
{
    if !has_out(rows, view, directory) {
        return Err(Or::Is(Refusal::ParentNotOut(path.copy(alloc)?)));
    }
    Ok(())
}

/// The catalog of the view's checkout of a directory has the name of this path in it.
pub fn needs_name(
    alloc: Global,
    rows: &FirstRows<'_>,
    view: &Name,
    path: &Path,
    directory: u64,
    name: &Name,
) -> Result<(), Or<Refusal>>
    ensures { Tests result (needs_name rows.now view.now path.now directory name.now) }
{
    if !has_name(rows, view, directory, name) {
        return Err(Or::Is(Refusal::NoPath(path.copy(alloc)?)));
    }
    Ok(())
}

/// Neither that catalog has the name, nor the view a private file or an object at the path.
pub fn needs_free_path(
    alloc: Global,
    rows: &FirstRows<'_>,
    view: &Name,
    path: &Path,
    directory: u64,
    name: &Name,
) -> Result<(), Or<Refusal>>
    ensures { Tests result (needs_free_path rows.now view.now path.now directory name.now) }
{
    if has_name(rows, view, directory, name)
        || private(rows, view, path).is_some()
        || held_object(rows, view, path).is_some()
    {
        return Err(Or::Is(Refusal::NameTaken(path.copy(alloc)?)));
    }
    Ok(())
}

/// A label type has the name.
pub fn needs_label_type(alloc: Global, rows: &FirstRows<'_>, name: &Name) -> Result<(), Or<Refusal>>
    ensures { Tests result (needs_label_type rows.now name.now) }
{
    if !is_label_type(rows, name) {
        return Err(Or::Is(Refusal::NoType(name.copy(alloc)?)));
    }
    Ok(())
}

/// A branch type has the name.
pub fn needs_branch_type(
    alloc: Global,
    rows: &FirstRows<'_>,
    name: &Name,
) -> Result<(), Or<Refusal>>
    ensures { Tests result (needs_branch_type rows.now name.now) }
{
    if !is_branch_type(rows, name) {
        return Err(Or::Is(Refusal::NoType(name.copy(alloc)?)));
    }
    Ok(())
}

/// The element has no branch of the type. The refusal names the branch.
pub fn needs_no_branch(rows: &FirstRows<'_>, element: u64, name: &Name) -> Result<(), Or<Refusal>>
    ensures { Tests result (needs_no_branch rows.now element name.now) }
{
    match branch_named(rows, element, name) {
        Some(branch) => Err(Or::Is(Refusal::BranchExists(branch))),
        None => Ok(()),
    }
}
