//! The names of elements in their directories.

ghost use Rattle.std.specs.Prelude.{◌≡◌, ℕ, Option, ◌∷◌, [], ◌++◌, IfOk, option_and_then, option_map};
ghost use Rattle.cc_names.specs.Formed.{IsBelowRoot};
ghost use Rattle.cc_names.specs.Names.{IsName};
ghost use Rattle.base_model.specs.Catalogs.{element_named, own_of};
ghost use Rattle.base_model.specs.Views.{out};
ghost use Rattle.legal_history.specs.Commands.FileLines.{last_name};
ghost use Rattle.base_rows.specs.Effects.{plain_checkout};
ghost use Rattle.legal_history.specs.Commands.Decisions.{Scene, first_refusal, needs_room};
ghost use Rattle.legal_history.specs.Commands.DirectoryLines.{mv, mv_in, mv_tests, renamed_path, rmname, rmname_in};
ghost use Rattle.cc_names.specs.declared.rows.Tag.{Tag};
ghost use Rattle.checkout_desk.specs.Deciding.{Sees, Decides, Tests};

use crate::checkout_needs::needs_not_out;
use crate::found::{find_directory_out, last_name, parent_of};
use crate::needs::{needs_free_path, needs_name};
use crate::room::needs_room;
use cc_names::memory::{NoMemory, Or};
use cc_names::names::Name;
use cc_names::occasions::Occasion;
use cc_names::paths::Path;
use cc_names::refusals::Refusal;
use cc_names::rows::{Deed, Row};
use std::alloc::Global;
use view_lookup::{Checkout, FirstRows, checked_out, named_by_checkout};

/// The view's checkout of the element that its checkout of a directory names so.
fn named_out(rows: &FirstRows<'_>, view: &Name, directory: u64, name: &Name) -> Option<Checkout>
    ensures { option_map plain_checkout result
        ≡ option_and_then (out rows.now view.now)
        (element_named name.now (own_of rows.now view.now directory)) }
{
    let element = named_by_checkout(rows, view, directory, name)?;
    checked_out(rows, view, element)
}

/// The row of `rmname V P` in a directory that the view has checked out, or its first refusal.
fn rmname_in(
    alloc: Global,
    rows: &FirstRows<'_>,
    view: &Name,
    path: &Path,
    directory: u64,
    occasion: Occasion,
) -> Result<Row, Or<Refusal>>
    requires { IsBelowRoot path.now }
    ensures { (scene : Scene) (now : ℕ)
        → Sees scene rows.now now view.now occasion.busy occasion.taken
        → Decides occasion.tag occasion.moment result
        (rmname_in scene view.now path.now directory) }
{
    let name = last_name(alloc, path)?;
    needs_name(alloc, rows, view, path, directory, &name)?;
    needs_not_out(named_out(rows, view, directory, &name))?;
    needs_room(occasion.taken)?;
    let deed = Deed::Rmname {
        view: view.copy(alloc)?,
        directory,
        name,
    };
    Ok(Row::of(occasion.tag, occasion.moment, deed))
}

/// The row of `rmname V P`, or its first refusal. Takes the time of `at` for the directory and time linear in the path.
pub fn rmname(
    alloc: Global,
    rows: &FirstRows<'_>,
    view: &Name,
    path: &Path,
    occasion: Occasion,
) -> Result<Row, Or<Refusal>>
    requires { IsBelowRoot path.now }
    ensures { (scene : Scene) (now : ℕ)
        → Sees scene rows.now now view.now occasion.busy occasion.taken
        → Decides occasion.tag occasion.moment result (rmname scene view.now path.now) }
{
    let directory = find_directory_out(alloc, rows, view, path, occasion.busy)?;
    rmname_in(alloc, rows, view, path, directory, occasion)
}

/// The path with another last name. One that would be too long is the path itself, and no command asks for it.
fn renamed_path(alloc: Global, path: &Path, name: &Name) -> Result<Path, NoMemory>
    ensures { IfOk result (λ other. other ≡ renamed_path path.now name.now) }
{
    let parent = parent_of(alloc, path)?;
    match parent.join(alloc, name) {
        Ok(joined) => Ok(joined),
        Err(Or::Is(_)) => path.copy(alloc),
        Err(Or::NoMemory) => Err(NoMemory),
    }
}

/// The tests of a new name in a directory that the view has checked out, with that of its room. Answers the name that it has.
fn mv_tests(
    alloc: Global,
    rows: &FirstRows<'_>,
    view: &Name,
    path: &Path,
    name: &Name,
    directory: u64,
    taken: u64,
) -> Result<Name, Or<Refusal>>
    requires { IsBelowRoot path.now }
    ensures tests { (scene : Scene) (now : ℕ) (busy : Option Tag)
        → Sees scene rows.now now view.now busy taken
        → Tests result (first_refusal
        (mv_tests scene view.now path.now name.now directory ++ needs_room scene 1 ∷ [])) }
    ensures from { IfOk result (λ from. from ≡ last_name path.now) }
    ensures formed { IfOk result IsName }
{
    let from = last_name(alloc, path)?;
    needs_name(alloc, rows, view, path, directory, &from)?;
    let target = renamed_path(alloc, path, name)?;
    needs_free_path(alloc, rows, view, &target, directory, name)?;
    needs_room(taken)?;
    Ok(from)
}

/// The row of `mv V P NAME` in a directory that the view has checked out, or its first refusal.
fn mv_in(
    alloc: Global,
    rows: &FirstRows<'_>,
    view: &Name,
    path: &Path,
    name: &Name,
    directory: u64,
    occasion: Occasion,
) -> Result<Row, Or<Refusal>>
    requires { IsBelowRoot path.now }
    ensures { (scene : Scene) (now : ℕ)
        → Sees scene rows.now now view.now occasion.busy occasion.taken
        → Decides occasion.tag occasion.moment result
        (mv_in scene view.now path.now name.now directory) }
{
    let from_name = mv_tests(alloc, rows, view, path, name, directory, occasion.taken)?;
    let deed = Deed::Mv {
        view: view.copy(alloc)?,
        directory,
        from_name,
        to_name: name.copy(alloc)?,
    };
    Ok(Row::of(occasion.tag, occasion.moment, deed))
}

/// The row of `mv V P NAME`, or its first refusal. Takes the time of `at` for the directory and time linear in the path and
/// the name.
pub fn mv(
    alloc: Global,
    rows: &FirstRows<'_>,
    view: &Name,
    path: &Path,
    name: &Name,
    occasion: Occasion,
) -> Result<Row, Or<Refusal>>
    requires { IsBelowRoot path.now }
    ensures { (scene : Scene) (now : ℕ)
        → Sees scene rows.now now view.now occasion.busy occasion.taken
        → Decides occasion.tag occasion.moment result (mv scene view.now path.now name.now) }
{
    let directory = find_directory_out(alloc, rows, view, path, occasion.busy)?;
    mv_in(alloc, rows, view, path, name, directory, occasion)
}
