//! What rows change of directories: which names in which checkout and, once that is checked in, on which branch.

ghost use Rattle.std.specs.Prelude.{◌≡◌, ◌&&◌, option_map, IfOk};
ghost use Rattle.std.specs.Option.{option_and_then};
ghost use Rattle.base_model.specs.Checkouts.{branch_of};
ghost use Rattle.base_rows.specs.Changed as model;
ghost use Rattle.base_rows.specs.Effects.{plain_checkout};

use crate::bases::FirstRows;
use crate::checkouts::{Checkout, checked_out};
use crate::edits::{BegunOf, ChangedOf};
use crate::look_ups::{Does, LookUp, only_if};
use crate::subjects::Subject;
use crate::trees::{branch_of_version, is_number};
use cc_names::memory::NoMemory;
use cc_names::names::Name;
use cc_names::rows::Deed;
use std::alloc::Global;

/// The newest row that began a checkout of a directory by the view. Takes the time of a look-up.
pub(crate) fn newest_checkout_row(rows: &FirstRows<'_>, view: &Name, directory: u64) -> Option<u64>
    ensures { result ≡ model.newest_checkout_row rows.now view.now directory }
{
    rows.last(&BegunOf { view, directory })
}

/// The newest row that changed the name in one. Takes the time of a look-up.
fn newest_change_row(rows: &FirstRows<'_>, view: &Name, directory: u64, name: &[u8]) -> Option<u64>
    ensures { result ≡ model.newest_change_row rows.now view.now directory name.now }
{
    rows.last(&ChangedOf {
        view,
        directory,
        name,
    })
}

fn branch_of_checkout(rows: &FirstRows<'_>, checkout: Option<Checkout>) -> Option<u64>
    ensures { result ≡ option_and_then (branch_of rows.now) (option_map plain_checkout checkout) }
{
    match checkout {
        None => None,
        Some(checkout) => branch_of_version(rows, checkout.origin),
    }
}

/// The branch on which a deed makes the next version, where it checks in. Takes the time of `checked_out`.
pub(crate) fn checked_in_on(rows: &FirstRows<'_>, deed: &Deed) -> Option<u64>
    ensures { result ≡ model.checked_in_on rows.now deed.now }
{
    match deed {
        Deed::Checkin { view, element } => {
            branch_of_checkout(rows, checked_out(rows, view, *element))
        }
        _ => None,
    }
}

fn is_since(began: Option<u64>, newest_change_row: Option<u64>) -> bool
    ensures { result ≡ model.is_since began newest_change_row }
{
    match (began, newest_change_row) {
        (Some(began), Some(newest_change_row)) => began < newest_change_row,
        _ => false,
    }
}

/// Whether a deed makes a version of the branch from a checkout in which the name was changed.
fn alters(rows: &FirstRows<'_>, branch: u64, name: &[u8], deed: &Deed) -> bool
    ensures { result ≡ model.alters branch name.now rows.now deed.now }
{
    match deed {
        Deed::Checkin { view, element } => {
            let is_on = is_number(branch, checked_in_on(rows, deed));
            let row = newest_checkout_row(rows, view, *element);
            let newest_change_row = newest_change_row(rows, view, *element, name);
            let since = is_since(row, newest_change_row);
            is_on && since
        }
        _ => false,
    }
}

/// The row that began the checkout in which a deed changes names. Takes the time of a look-up.
pub(crate) fn changing(rows: &FirstRows<'_>, deed: &Deed) -> Option<u64>
    ensures { result ≡ model.changing rows.now deed.now }
{
    match deed {
        Deed::Mkelem {
            view,
            directory,
            ..
        } => newest_checkout_row(rows, view, *directory),
        Deed::Rmname {
            view,
            directory,
            ..
        } => newest_checkout_row(rows, view, *directory),
        Deed::Mv {
            view,
            directory,
            ..
        } => newest_checkout_row(rows, view, *directory),
        _ => None,
    }
}

/// A row that changes names in the checkout that this row began.
#[derive(Clone, Copy)]
struct ChangingIn {
    began: u64,
}

impl LookUp for ChangingIn {
    type Item = u64;

    ghost use Rattle.base_rows.specs.Laws.AffectedByChanges.{changing_affects, changing_effect};
    ghost use Rattle.base_rows.specs.Subjects as subjects;

    ghost effect = { λ it. changing_effect it.began };

    ghost about = { λ it. subjects.Changing it.began };

    fn effect(&self, older: &FirstRows<'_>, deed: &Deed) -> Does<u64> {
        only_if(
            is_number(self.began, changing(older, deed)),
            Does::Sets(older.size()),
        )
    }

    fn subject(&self) -> Subject<'_> {
        Subject::Changing(self.began)
    }

    ghost affects = { λ it. changing_affects it.began };
}

/// A version of the branch from a checkout in which the name was changed.
#[derive(Clone, Copy)]
pub struct AlteredOn<'a> {
    pub branch: u64,
    pub name: &'a [u8],
}

impl LookUp for AlteredOn<'_> {
    type Item = u64;

    ghost use Rattle.base_rows.specs.Laws.AffectedByChanges.{altered_affects, altered_effect};
    ghost use Rattle.base_rows.specs.Subjects as subjects;

    ghost effect = { λ it. altered_effect it.branch it.name.now };

    ghost about = { λ it. subjects.Altered it.branch it.name.now };

    fn effect(&self, older: &FirstRows<'_>, deed: &Deed) -> Does<u64> {
        only_if(
            alters(older, self.branch, self.name, deed),
            Does::Sets(older.size()),
        )
    }

    fn subject(&self) -> Subject<'_> {
        Subject::Altered(self.branch, self.name)
    }

    ghost affects = { λ it. altered_affects it.branch it.name.now };
}

/// The rows that change names in the checkout that a deed checks in, the newest first. Takes time linear in them, times the time
/// of a look-up.
pub(crate) fn checked_in_rows(
    alloc: Global,
    rows: &FirstRows<'_>,
    deed: &Deed,
) -> Result<Vec<u64>, NoMemory>
    ensures { IfOk result (λ numbers. numbers.items ≡ model.checked_in_rows rows.now deed.now) }
{
    match deed {
        Deed::Checkin { view, element } => match newest_checkout_row(rows, view, *element) {
            None => Ok(Vec::new(alloc)),
            Some(began) => rows.updating_rows(alloc, &ChangingIn { began }),
        },
        _ => Ok(Vec::new(alloc)),
    }
}
