//! When a row fits that is about elements: catalogs of directories, checkouts and branches, and what marks versions.

ghost use Rattle.std.specs.Prelude.{◌≡◌, Bool, ℕ, true};
ghost use Rattle.std.specs.List.{list_all};
ghost use Rattle.cc_names.specs.declared.rows.Deed.TheVariants as deeds;
ghost use Rattle.cc_names.specs.declared.rows.Kind.{Kind};
ghost use Rattle.cc_names.specs.declared.rows.Out.{Out};
ghost use Rattle.base_model.specs.Conditions.{is_placed};
ghost use Rattle.base_model.specs.Fits.{deed_fits};
ghost use Rattle.view_lookup.specs.Grouped.{is_of_catalog, is_of_checkout, is_of_version};

use crate::branch_names::has_branch;
use crate::checkins::{may_check_in, may_reserve};
use crate::directories::{has_name, has_out_by_name, is_directory_element, is_file_element};
use crate::merges::arrow_row;
use crate::types::{is_branch_type, is_label_type};
use base_rows::bases::FirstRows;
use base_rows::checkouts::{checked_out, has_out};
use base_rows::labels::has_label;
use base_rows::trees::{is_latest, is_version_of};
use base_rows::views::view_row;
use cc_names::names::Name;
use cc_names::rows::{Deed, Placed};

fn mkelem_fits(rows: &FirstRows<'_>, view: &Name, directory: u64, name: &Name) -> bool
    ensures { (kind : Kind) (out : Bool) → result
        ≡ deed_fits rows.now (deeds.Mkelem view.now directory name.now kind out) }
{
    view_row(rows, view).is_some()
        && has_out(rows, view, directory)
        && is_directory_element(rows, directory)
        && !has_name(rows, view, directory, name)
}

fn rmname_fits(rows: &FirstRows<'_>, view: &Name, directory: u64, name: &Name) -> bool
    ensures { result ≡ deed_fits rows.now (deeds.Rmname view.now directory name.now) }
{
    has_out(rows, view, directory)
        && has_name(rows, view, directory, name)
        && !has_out_by_name(rows, view, directory, name)
}

fn mv_fits(
    rows: &FirstRows<'_>,
    view: &Name,
    directory: u64,
    from_name: &Name,
    to_name: &Name,
) -> bool
    ensures { result ≡ deed_fits rows.now (deeds.Mv view.now directory from_name.now to_name.now) }
{
    has_out(rows, view, directory)
        && has_name(rows, view, directory, from_name)
        && !has_name(rows, view, directory, to_name)
}

/// Whether a row fits that changes the catalog of a view's checkout of a directory.
pub(crate) fn catalog_deed_fits(rows: &FirstRows<'_>, deed: &Deed) -> bool
    requires { is_of_catalog deed.now ≡ true }
    ensures { result ≡ deed_fits rows.now deed.now }
{
    match deed {
        Deed::Mkelem {
            view,
            directory,
            name,
            ..
        } => mkelem_fits(rows, view, *directory, name),
        Deed::Rmname {
            view,
            directory,
            name,
        } => rmname_fits(rows, view, *directory, name),
        Deed::Mv {
            view,
            directory,
            from_name,
            to_name,
        } => mv_fits(rows, view, *directory, from_name, to_name),
        _ => false,
    }
}

fn checkout_fits(
    rows: &FirstRows<'_>,
    view: &Name,
    element: u64,
    origin: u64,
    reserved: bool,
) -> bool
    ensures { result ≡ deed_fits rows.now (deeds.Checkout view.now element origin reserved) }
{
    view_row(rows, view).is_some()
        && !has_out(rows, view, element)
        && is_version_of(rows, element, origin)
        && is_latest(rows, origin)
        && may_reserve(rows, origin, reserved)
}

fn branch_fits(rows: &FirstRows<'_>, view: &Name, element: u64, origin: u64, name: &Name) -> bool
    ensures { (out : Out) → result
        ≡ deed_fits rows.now (deeds.Branch view.now element origin name.now out) }
{
    view_row(rows, view).is_some()
        && !has_out(rows, view, element)
        && is_version_of(rows, element, origin)
        && is_branch_type(rows, name)
        && !has_branch(rows, element, name)
}

/// Whether a row fits that makes a checkout or a branch, or changes or ends a checkout.
pub(crate) fn checkout_deed_fits(rows: &FirstRows<'_>, deed: &Deed) -> bool
    requires { is_of_checkout deed.now ≡ true }
    ensures { result ≡ deed_fits rows.now deed.now }
{
    match deed {
        Deed::Checkout {
            view,
            element,
            origin,
            reserved,
        } => checkout_fits(rows, view, *element, *origin, *reserved),
        Deed::Branch {
            view,
            element,
            origin,
            name,
            ..
        } => branch_fits(rows, view, *element, *origin, name),
        Deed::Save { view, element, .. } => {
            has_out(rows, view, *element) && is_file_element(rows, *element)
        }
        Deed::Checkin { view, element } => {
            may_check_in(rows, view, checked_out(rows, view, *element))
        }
        Deed::Uncheckout { view, element } => has_out(rows, view, *element),
        _ => false,
    }
}

/// Whether a label is placed on versions of their elements.
fn are_placed(rows: &FirstRows<'_>, placed: &[Placed]) -> bool
    ensures { result ≡ list_all (is_placed rows.now) placed.now }
{
    placed
        .iter()
        .all(|one| is_version_of(rows, one.element, one.version))
}

fn arrow_fits(rows: &FirstRows<'_>, element: u64, tail: u64, head: u64) -> bool
    ensures { result ≡ deed_fits rows.now (deeds.Arrow element tail head) }
{
    is_version_of(rows, element, tail)
        && is_version_of(rows, element, head)
        && tail != head
        && arrow_row(rows, element, tail, head).is_none()
}

/// Whether a row fits that marks versions, by a label or by a merge.
pub(crate) fn version_deed_fits(rows: &FirstRows<'_>, deed: &Deed) -> bool
    requires { is_of_version deed.now ≡ true }
    ensures { result ≡ deed_fits rows.now deed.now }
{
    match deed {
        Deed::Label {
            label,
            element,
            version,
        } => is_label_type(rows, label) && is_version_of(rows, *element, *version),
        Deed::Unlabel { label, element } => has_label(rows, label, *element),
        Deed::Labels { label, placed } => {
            is_label_type(rows, label) && are_placed(rows, placed.as_slice())
        }
        Deed::Arrow {
            element,
            tail,
            head,
        } => arrow_fits(rows, *element, *tail, *head),
        _ => false,
    }
}
