//! Making elements.

ghost use Rattle.std.specs.Prelude.{ℕ};
ghost use Rattle.cc_names.specs.Formed.{IsBelowRoot};
ghost use Rattle.legal_history.specs.Commands.Decisions.{Scene};
ghost use Rattle.legal_history.specs.Commands.DirectoryLines.{mkelem, mkelem_in};
ghost use Rattle.checkout_desk.specs.Deciding.{Sees, Decides};

use crate::found::{find_directory_out, last_name};
use crate::needs::needs_free_path;
use crate::room::needs_room;
use cc_names::memory::Or;
use cc_names::names::Name;
use cc_names::occasions::Occasion;
use cc_names::paths::Path;
use cc_names::refusals::Refusal;
use cc_names::rows::{Deed, Kind, Row};
use std::alloc::Global;
use view_lookup::FirstRows;

/// The row of `mkelem V P` or `mkdir V P` in a directory that the view has checked out, or its first refusal.
fn mkelem_in(
    alloc: Global,
    rows: &FirstRows<'_>,
    view: &Name,
    nco: bool,
    kind: Kind,
    path: &Path,
    directory: u64,
    occasion: Occasion,
) -> Result<Row, Or<Refusal>>
    requires { IsBelowRoot path.now }
    ensures { (scene : Scene) (now : ℕ)
        → Sees scene rows.now now view.now occasion.busy occasion.taken
        → Decides occasion.tag occasion.moment result
        (mkelem_in scene view.now nco kind path.now directory) }
{
    let name = last_name(alloc, path)?;
    needs_free_path(alloc, rows, view, path, directory, &name)?;
    needs_room(occasion.taken)?;
    let deed = Deed::Mkelem {
        view: view.copy(alloc)?,
        directory,
        name,
        kind,
        out: !nco,
    };
    Ok(Row::of(occasion.tag, occasion.moment, deed))
}

/// The row of `mkelem V [-nco] P` or `mkdir V [-nco] P`, or its first refusal. Takes the time of `at` for the directory and
/// time linear in the path.
pub fn mkelem(
    alloc: Global,
    rows: &FirstRows<'_>,
    view: &Name,
    nco: bool,
    kind: Kind,
    path: &Path,
    occasion: Occasion,
) -> Result<Row, Or<Refusal>>
    requires { IsBelowRoot path.now }
    ensures { (scene : Scene) (now : ℕ)
        → Sees scene rows.now now view.now occasion.busy occasion.taken
        → Decides occasion.tag occasion.moment result (mkelem scene view.now nco kind path.now) }
{
    let directory = find_directory_out(alloc, rows, view, path, occasion.busy)?;
    mkelem_in(alloc, rows, view, nco, kind, path, directory, occasion)
}
