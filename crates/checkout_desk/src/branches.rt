//! Making branches.

ghost use Rattle.std.specs.Prelude.{◌≡◌, ℕ};
ghost use Rattle.cc_names.specs.Formed.{IsTypeName};
ghost use Rattle.legal_history.specs.Commands.CheckoutLines.{mkbranch, mkbranch_of, out_unless};
ghost use Rattle.legal_history.specs.Commands.Decisions.{Scene};
ghost use Rattle.checkout_desk.specs.Deciding.{Sees, Decides};

use crate::checkout_needs::needs_not_out;
use crate::found::{Selected, find_selected_idle};
use crate::needs::{needs_branch_type, needs_no_branch};
use crate::room::needs_room;
use cc_names::memory::Or;
use cc_names::names::Name;
use cc_names::occasions::Occasion;
use cc_names::paths::Path;
use cc_names::refusals::Refusal;
use cc_names::rows::{Deed, Out, Row};
use std::alloc::Global;
use view_lookup::{FirstRows, checked_out};

/// Whether a new branch is checked out: unless `-nco` is given, and reserved.
fn out_unless(nco: bool) -> Out
    ensures { result ≡ out_unless nco }
{
    if nco { Out::No } else { Out::Reserved }
}

/// The row of `mkbranch V [-nco] B P` of a selected element, or its first refusal.
fn mkbranch_of(
    alloc: Global,
    rows: &FirstRows<'_>,
    view: &Name,
    nco: bool,
    branch: &Name,
    selected: Selected,
    occasion: Occasion,
) -> Result<Row, Or<Refusal>>
    requires { IsTypeName branch.now }
    ensures { (scene : Scene) (now : ℕ)
        → Sees scene rows.now now view.now occasion.busy occasion.taken
        → Decides occasion.tag occasion.moment result
        (mkbranch_of scene view.now nco branch.now selected.element selected.picked) }
{
    needs_not_out(checked_out(rows, view, selected.element))?;
    needs_branch_type(alloc, rows, branch)?;
    needs_no_branch(rows, selected.element, branch)?;
    needs_room(occasion.taken)?;
    let deed = Deed::Branch {
        view: view.copy(alloc)?,
        element: selected.element,
        origin: selected.picked.row,
        name: branch.copy(alloc)?,
        out: out_unless(nco),
    };
    Ok(Row::of(occasion.tag, occasion.moment, deed))
}

/// The row of `mkbranch V [-nco] B P`, or its first refusal. Takes the time of `at`.
pub fn mkbranch(
    alloc: Global,
    rows: &FirstRows<'_>,
    view: &Name,
    nco: bool,
    branch: &Name,
    path: &Path,
    occasion: Occasion,
) -> Result<Row, Or<Refusal>>
    requires { IsTypeName branch.now }
    ensures { (scene : Scene) (now : ℕ)
        → Sees scene rows.now now view.now occasion.busy occasion.taken
        → Decides occasion.tag occasion.moment result
        (mkbranch scene view.now nco branch.now path.now) }
{
    let selected = find_selected_idle(alloc, rows, view, path, occasion.busy)?;
    mkbranch_of(alloc, rows, view, nco, branch, selected, occasion)
}
