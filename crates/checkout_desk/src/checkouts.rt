//! Checking elements out.

ghost use Rattle.std.specs.Prelude.{◌≡◌, ℕ, ◌∷◌, [], IfOk, IfSome};
ghost use Rattle.std.specs.Option.{option_copied};
ghost use Rattle.cc_names.specs.Formed.{IsDeedFormed, IsTypeName};
ghost use Rattle.legal_history.specs.Commands.CheckoutLines.{branch_by, checkout, checkout_by, checkout_deed, checkout_of, deciding_rule, out_by};
ghost use Rattle.legal_history.specs.Commands.Decisions.{Scene, first_refusal};
ghost use Rattle.legal_history.specs.Commands.Tests.{needs_branch_type, needs_no_branch};
ghost use Rattle.checkout_desk.specs.Deciding.{Sees, Decides, Tests};

use crate::checkout_needs::{needs_checkout_rule, needs_latest, needs_not_out, needs_unreserved};
use crate::found::{Selected, find_selected_idle};
use crate::needs::{needs_branch_type, needs_no_branch};
use crate::room::needs_room;
use cc_names::memory::{NoMemory, Or};
use cc_names::names::Name;
use cc_names::occasions::Occasion;
use cc_names::paths::Path;
use cc_names::refusals::Refusal;
use cc_names::rows::{Deed, Out, Row};
use cc_names::selection::{Picked, Rule};
use std::alloc::Global;
use view_lookup::{FirstRows, checked_out, rules};

/// The rule of the view's config spec that decided on an element of which this was picked. Scans the rules, as selecting by
/// them does.
fn deciding_rule<'a>(rows: &FirstRows<'a>, view: &Name, picked: Picked) -> Option<&'a Rule>
    ensures { option_copied result ≡ deciding_rule rows.now view.now picked }
{
    rules(rows, view)?
        .as_slice()
        .iter()
        .find(|rule| rule.line == picked.line)
}

/// The type of the branch that a checkout by this rule makes.
fn branch_by<'a>(rule: Option<&'a Rule>) -> Option<&'a Name>
    ensures { option_copied result ≡ branch_by (option_copied rule.entry) }
{
    rule?.mkbranch.as_ref()
}

/// The tests of a checkout that makes a branch of this type.
fn branch_tests(
    alloc: Global,
    rows: &FirstRows<'_>,
    element: u64,
    name: &Name,
) -> Result<(), Or<Refusal>>
    ensures { Tests result (first_refusal
        (needs_branch_type rows.now name.now ∷ needs_no_branch rows.now element name.now ∷ [])) }
{
    needs_branch_type(alloc, rows, name)?;
    needs_no_branch(rows, element, name)
}

/// The last tests of a checkout: of a new branch, or of the latest version.
fn checkout_by(
    alloc: Global,
    rows: &FirstRows<'_>,
    unreserved: bool,
    selected: Selected,
    branch: Option<&Name>,
) -> Result<(), Or<Refusal>>
    ensures { Tests result (first_refusal
        (checkout_by rows.now unreserved selected.element selected.picked
        (option_copied branch.entry))) }
{
    match branch {
        Some(name) => branch_tests(alloc, rows, selected.element, name),
        None => {
            needs_latest(rows, selected.picked.row)?;
            if unreserved {
                return Ok(());
            }
            needs_unreserved(alloc, rows, selected.picked.row)
        }
    }
}

/// How a new branch is checked out.
fn out_by(unreserved: bool) -> Out
    ensures { result ≡ out_by unreserved }
{
    if unreserved {
        Out::Unreserved
    } else {
        Out::Reserved
    }
}

/// A checkout, or a new branch that is checked out.
fn checkout_deed(
    alloc: Global,
    view: &Name,
    unreserved: bool,
    selected: Selected,
    branch: Option<&Name>,
) -> Result<Deed, NoMemory>
    requires { IfSome (option_copied branch) IsTypeName }
    ensures deed { IfOk result
        (λ deed. deed
        ≡ checkout_deed view.now unreserved selected.element selected.picked
        (option_copied branch.entry)) }
    ensures formed { IfOk result IsDeedFormed }
{
    let view = view.copy(alloc)?;
    match branch {
        Some(name) => Ok(Deed::Branch {
            view,
            element: selected.element,
            origin: selected.picked.row,
            name: name.copy(alloc)?,
            out: out_by(unreserved),
        }),
        None => Ok(Deed::Checkout {
            view,
            element: selected.element,
            origin: selected.picked.row,
            reserved: !unreserved,
        }),
    }
}

/// The row of a checkout of a selected element, or its first refusal.
fn checkout_of(
    alloc: Global,
    rows: &FirstRows<'_>,
    view: &Name,
    unreserved: bool,
    selected: Selected,
    occasion: Occasion,
) -> Result<Row, Or<Refusal>>
    ensures { (scene : Scene) (now : ℕ)
        → Sees scene rows.now now view.now occasion.busy occasion.taken
        → Decides occasion.tag occasion.moment result
        (checkout_of scene view.now unreserved selected.element selected.picked) }
{
    needs_not_out(checked_out(rows, view, selected.element))?;
    let rule = deciding_rule(rows, view, selected.picked);
    needs_checkout_rule(rule)?;
    let branch = branch_by(rule);
    checkout_by(alloc, rows, unreserved, selected, branch)?;
    needs_room(occasion.taken)?;
    let deed = checkout_deed(alloc, view, unreserved, selected, branch)?;
    Ok(Row::of(occasion.tag, occasion.moment, deed))
}

/// The row of `checkout V [-unreserved] P`, or its first refusal. Takes the time of `at` and of `reserver`, and time linear in
/// the rules of the view's config spec.
pub fn checkout(
    alloc: Global,
    rows: &FirstRows<'_>,
    view: &Name,
    unreserved: bool,
    path: &Path,
    occasion: Occasion,
) -> Result<Row, Or<Refusal>>
    ensures { (scene : Scene) (now : ℕ)
        → Sees scene rows.now now view.now occasion.busy occasion.taken
        → Decides occasion.tag occasion.moment result
        (checkout scene view.now unreserved path.now) }
{
    let selected = find_selected_idle(alloc, rows, view, path, occasion.busy)?;
    checkout_of(alloc, rows, view, unreserved, selected, occasion)
}
