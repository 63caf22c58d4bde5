//! What commands need of checkouts and of the versions that they end or begin with, each a test of its own.

ghost use Rattle.std.specs.Prelude.{◌≡◌, option_map};
ghost use Rattle.std.specs.Option.{option_copied};
ghost use Rattle.base_model.specs.Texts.{text_of_row};
ghost use Rattle.base_model.specs.Views.{making};
ghost use Rattle.legal_history.specs.Commands.CheckoutTests.{is_same_text, needs_change, needs_checkout_rule, needs_latest, needs_latest_origin, needs_no_other, needs_not_out, needs_out, needs_unreserved};
ghost use Rattle.legal_history.specs.Commands.LabelLines.{needs_version_picked};
ghost use Rattle.base_rows.specs.Effects.{plain_checkout};
ghost use Rattle.checkout_desk.specs.Deciding.{Tests};

use cc_names::memory::Or;
use cc_names::names::Name;
use cc_names::paths::Path;
use cc_names::refusals::Refusal;
use cc_names::selection::Rule;
use std::alloc::Global;
use view_lookup::{
    Checkout, FirstRows, is_file_element, latest_beside, making, other_reserver_beside,
    reserver_beside, text_of,
};

/// The view has the element out.
pub fn needs_out(alloc: Global, path: &Path, taken: Option<Checkout>) -> Result<(), Or<Refusal>>
    ensures { Tests result (needs_out path.now (option_map plain_checkout taken)) }
{
    match taken {
        Some(_) => Ok(()),
        None => Err(Or::Is(Refusal::NotCheckedOut(path.copy(alloc)?))),
    }
}

/// The view has not the element out. The refusal names the row that made the checkout.
pub fn needs_not_out(taken: Option<Checkout>) -> Result<(), Or<Refusal>>
    ensures { Tests result (needs_not_out (option_map plain_checkout taken)) }
{
    match taken {
        Some(checkout) => Err(Or::Is(Refusal::AlreadyOut(checkout.row))),
        None => Ok(()),
    }
}

/// A version is selected and no checkout. The refusal names the row that made the checkout.
pub fn needs_version_picked(out: bool, taken: Option<Checkout>) -> Result<(), Or<Refusal>>
    ensures { Tests result (needs_version_picked out (option_map plain_checkout taken)) }
{
    if out { needs_not_out(taken) } else { Ok(()) }
}

/// Nobody reserves the branch of a version. The refusal names who does.
pub fn needs_unreserved(
    alloc: Global,
    rows: &FirstRows<'_>,
    version: u64,
) -> Result<(), Or<Refusal>>
    ensures { Tests result (needs_unreserved rows.now version) }
{
    match reserver_beside(rows, version) {
        Some(view) => Err(Or::Is(Refusal::Reserved(view.copy(alloc)?))),
        None => Ok(()),
    }
}

/// No other view reserves the branch of a checkout. The refusal names the one that does.
pub fn needs_no_other(
    alloc: Global,
    rows: &FirstRows<'_>,
    view: &Name,
    taken: Option<Checkout>,
) -> Result<(), Or<Refusal>>
    ensures { Tests result
        (needs_no_other rows.now view.now (option_map plain_checkout taken)) }
{
    let Some(checkout) = taken else {
        return Ok(());
    };
    match other_reserver_beside(rows, view, checkout) {
        Some(other) => Err(Or::Is(Refusal::Reserved(other.copy(alloc)?))),
        None => Ok(()),
    }
}

/// A version is the latest of its branch. The refusal names the one that is.
pub fn needs_latest(rows: &FirstRows<'_>, version: u64) -> Result<(), Or<Refusal>>
    ensures { Tests result (needs_latest rows.now version) }
{
    match latest_beside(rows, version) {
        Some(latest) => {
            if latest == version {
                Ok(())
            } else {
                Err(Or::Is(Refusal::NotLatest(latest)))
            }
        }
        None => Ok(()),
    }
}

/// The origin of a checkout is the latest version of its branch.
pub fn needs_latest_origin(rows: &FirstRows<'_>, taken: Option<Checkout>) -> Result<(), Or<Refusal>>
    ensures { Tests result
        (needs_latest_origin rows.now (option_map plain_checkout taken)) }
{
    match taken {
        Some(checkout) => needs_latest(rows, checkout.origin),
        None => Ok(()),
    }
}

/// Whether two texts are the same; no text is none.
fn is_same_text(one: Option<&[u8]>, two: Option<&[u8]>) -> bool
    ensures { result ≡ is_same_text (option_copied one.entry) (option_copied two.entry) }
{
    match (one, two) {
        (Some(one), Some(two)) => one == two,
        _ => false,
    }
}

/// The text of the view's checkout of an element.
fn own_text<'a>(rows: &FirstRows<'a>, view: &Name, path: &Path, element: u64) -> Option<&'a [u8]>
    ensures { option_copied result
        ≡ text_of_row rows.now path.now (making rows.now view.now element) }
{
    text_of(rows, making(rows, view, element)?, path)
}

/// The text of a file's checkout is not that of its origin, which the refusal names. Takes time linear in the two texts beside
/// that of `text_of`.
pub fn needs_change(
    rows: &FirstRows<'_>,
    view: &Name,
    path: &Path,
    element: u64,
    taken: Option<Checkout>,
) -> Result<(), Or<Refusal>>
    ensures { Tests result
        (needs_change rows.now view.now path.now element (option_map plain_checkout taken)) }
{
    let Some(checkout) = taken else {
        return Ok(());
    };
    if is_file_element(rows, element)
        && is_same_text(
            own_text(rows, view, path, element),
            text_of(rows, checkout.origin, path),
        )
    {
        return Err(Or::Is(Refusal::Identical(checkout.origin)));
    }
    Ok(())
}

/// The rule that decided lets check out. The refusal names its line.
pub fn needs_checkout_rule(rule: Option<&Rule>) -> Result<(), Or<Refusal>>
    ensures { Tests result (needs_checkout_rule (option_copied rule.entry)) }
{
    match rule {
        Some(rule) => {
            if rule.nocheckout {
                Err(Or::Is(Refusal::NoCheckoutRule(rule.line)))
            } else {
                Ok(())
            }
        }
        None => Ok(()),
    }
}
