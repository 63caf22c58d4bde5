//! Who may reserve a branch, and which checkout may become a version.

ghost use Rattle.std.specs.Prelude.{◌≡◌, option_map};
ghost use Rattle.std.specs.Option.{option_and_then, option_copied};
ghost use Rattle.cc_names.specs.Branches.{branch_of_version};
ghost use Rattle.base_model.specs.Changes.{tree};
ghost use Rattle.base_model.specs.Checkouts.{branch_of, other_reserver, reserver};
ghost use Rattle.base_model.specs.Conditions.{is_unreserved, may_check_in};
ghost use Rattle.base_model.specs.Fits.{may_reserve};
ghost use Rattle.base_rows.specs.Effects.{plain_checkout};

use crate::reservations::{other_reserver, reserver};
use base_rows::bases::FirstRows;
use base_rows::checkouts::Checkout;
use base_rows::trees::{branch_of_version, is_latest};
use cc_names::names::Name;

/// The branch of a checkout: that of its origin. Takes time logarithmic in the changes.
pub fn branch_of(rows: &FirstRows<'_>, checkout: Checkout) -> Option<u64>
    ensures { result ≡ branch_of rows.now (plain_checkout checkout) }
{
    branch_of_version(rows, checkout.origin)
}

/// The view that has a reserved checkout on the branch of a version. Takes the time of `reserver`.
pub fn reserver_beside<'a>(rows: &FirstRows<'a>, version: u64) -> Option<&'a Name>
    ensures { option_copied result
        ≡ option_and_then (reserver rows.now) (branch_of_version (tree rows.now) version) }
{
    reserver(rows, branch_of_version(rows, version)?)
}

/// The other view that has a reserved checkout on the branch of the view's checkout. Takes the time of `other_reserver`.
pub fn other_reserver_beside<'a>(
    rows: &FirstRows<'a>,
    view: &Name,
    checkout: Checkout,
) -> Option<&'a Name>
    ensures { option_copied result
        ≡ option_and_then (other_reserver rows.now view.now)
        (branch_of rows.now (plain_checkout checkout)) }
{
    other_reserver(rows, view, branch_of(rows, checkout)?)
}

/// Whether nobody has a reserved checkout on the branch of a version. Takes the time of `reserver`.
pub fn is_unreserved(rows: &FirstRows<'_>, version: u64) -> bool
    ensures { result ≡ is_unreserved rows.now version }
{
    reserver_beside(rows, version).is_none()
}

/// Whether a checkout from a version may be made as far as others go: a reserved one asks that nobody reserves the branch. Takes
/// the time of `reserver`.
pub fn may_reserve(rows: &FirstRows<'_>, origin: u64, reserved: bool) -> bool
    ensures { result ≡ may_reserve rows.now origin reserved }
{
    !reserved || is_unreserved(rows, origin)
}

/// Whether a view's checkout may become a version: no other view reserves its branch, and its origin is the branch's latest
/// version. Takes the time of `other_reserver`.
pub fn may_check_in(rows: &FirstRows<'_>, view: &Name, checkout: Option<Checkout>) -> bool
    ensures { result ≡ may_check_in rows.now view.now (option_map plain_checkout checkout) }
{
    match checkout {
        None => false,
        Some(checkout) => {
            other_reserver_beside(rows, view, checkout).is_none()
                && is_latest(rows, checkout.origin)
        }
    }
}
