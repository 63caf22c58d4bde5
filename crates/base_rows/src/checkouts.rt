//! What a view has checked out.

ghost use Rattle.std.specs.Prelude.{◌≡◌, ◌==◌, ◌&&◌, bytes_eq, option_map};
ghost use Rattle.base_model.specs.Conditions.{has_out};
ghost use Rattle.base_model.specs.Views as model;
ghost use Rattle.base_model.specs.Views.{making, out};
ghost use Rattle.base_rows.specs.Effects.{stored_checkout, map_effect, map_update, plain_checkout, plain_taken, row_of_stored};
ghost use Rattle.base_rows.specs.LookUps.{effect_of};

use crate::bases::FirstRows;
use crate::look_ups::{Does, LookUp, later, only_if};
use crate::subjects::Subject;
use crate::views::{in_life, same_name};
use cc_names::names::Name;
use cc_names::rows::{Deed, Out};

/// A checkout. One that comes with a new element or branch has that row's own version 0 as its origin.
#[derive(Clone, Copy)]
pub struct Checkout {
    /// The row that made it.
    pub row: u64,
    /// The version that it was made from.
    pub origin: u64,
    /// Whether no other view may check in on its branch.
    pub reserved: bool,
}

pub(crate) fn same_checkout(view: &Name, element: u64, other: &Name, one: u64) -> bool
    ensures { result ≡ (bytes_eq other.now view.now && (one == element)) }
{
    same_name(view, other) && one == element
}

/// A checkout of an element by a view.
#[derive(Clone, Copy)]
pub struct Taken<'a> {
    pub view: &'a Name,
    pub element: u64,
    pub checkout: Checkout,
}

/// The checkout that the making of an element makes in a row.
fn checkout_of_element(out: bool, row: u64) -> Option<Checkout>
    ensures { option_map plain_checkout result ≡ model.checkout_of_element out row }
{
    if out {
        Some(Checkout {
            row,
            origin: row,
            reserved: true,
        })
    } else {
        None
    }
}

/// The checkout that the making of a branch makes in a row.
fn checkout_of_branch(out: Out, row: u64) -> Option<Checkout>
    ensures { option_map plain_checkout result ≡ model.checkout_of_branch out row }
{
    match out {
        Out::No => None,
        Out::Reserved => Some(Checkout {
            row,
            origin: row,
            reserved: true,
        }),
        Out::Unreserved => Some(Checkout {
            row,
            origin: row,
            reserved: false,
        }),
    }
}

fn taken_out<'a>(view: &'a Name, element: u64, checkout: Option<Checkout>) -> Option<Taken<'a>>
    ensures { option_map plain_taken result
        ≡ model.taken_out view.now element (option_map plain_checkout checkout) }
{
    match checkout {
        None => None,
        Some(checkout) => Some(Taken {
            view,
            element,
            checkout,
        }),
    }
}

/// The checkout that a deed makes in a row.
pub fn made_out<'a>(row: u64, deed: &'a Deed) -> Option<Taken<'a>>
    ensures { option_map plain_taken result ≡ model.made_out row deed.now }
{
    match deed {
        Deed::Mkelem { view, out, .. } => taken_out(view, row, checkout_of_element(*out, row)),
        Deed::Checkout {
            view,
            element,
            origin,
            reserved,
        } => {
            let checkout = Checkout {
                row,
                origin: *origin,
                reserved: *reserved,
            };
            Some(Taken {
                view,
                element: *element,
                checkout,
            })
        }
        Deed::Branch {
            view,
            element,
            out,
            ..
        } => { taken_out(view, *element, checkout_of_branch(*out, row)) }
        _ => None,
    }
}

/// A checkout, where it is one of this element by this view.
fn set_by(view: &Name, element: u64, taken: Option<Taken<'_>>) -> Does<Checkout>
    ensures { effect_of result
        ≡ map_effect stored_checkout
        (model.set_by view.now element (option_map plain_taken taken.entry)) }
{
    match taken {
        None => Does::Keeps,
        Some(taken) => only_if(
            same_checkout(view, element, taken.view, taken.element),
            Does::Sets(taken.checkout),
        ),
    }
}

/// A view's checkout of an element, whatever becomes of the view.
#[derive(Clone, Copy)]
struct TakenOf<'a> {
    view: &'a Name,
    element: u64,
}

impl LookUp for TakenOf<'_> {
    type Item = Checkout;

    ghost use Rattle.base_rows.specs.Laws.AffectedSubjects.{checkout_affects};
    ghost use Rattle.base_rows.specs.Effects.{checkout_effect};
    ghost use Rattle.base_rows.specs.Subjects as subjects;

    ghost effect = { λ it. checkout_effect it.view.now it.element };

    ghost about = { λ it. subjects.Out it.view.now it.element };

    fn effect(&self, older: &FirstRows<'_>, deed: &Deed) -> Does<Checkout> {
        match deed {
            Deed::Checkin { view, element } => only_if(
                same_checkout(self.view, self.element, view, *element),
                Does::Ends,
            ),
            Deed::Uncheckout { view, element } => only_if(
                same_checkout(self.view, self.element, view, *element),
                Does::Ends,
            ),
            _ => set_by(self.view, self.element, made_out(older.size(), deed)),
        }
    }

    fn subject(&self) -> Subject<'_> {
        Subject::Out(self.view, self.element)
    }

    ghost affects = { λ it. checkout_affects it.view.now it.element };
}

/// The text that a view saved last in its checkout of an element, whatever becomes of either.
#[derive(Clone, Copy)]
struct SavedOf<'a> {
    view: &'a Name,
    element: u64,
}

impl LookUp for SavedOf<'_> {
    type Item = u64;

    ghost use Rattle.base_rows.specs.Laws.AffectedSubjects.{saved_affects};
    ghost use Rattle.base_rows.specs.Effects.{saved_effect};
    ghost use Rattle.base_rows.specs.Subjects as subjects;

    ghost effect = { λ it. saved_effect it.view.now it.element };

    ghost about = { λ it. subjects.Saved it.view.now it.element };

    fn effect(&self, older: &FirstRows<'_>, deed: &Deed) -> Does<u64> {
        match deed {
            Deed::Save { view, element, .. } => only_if(
                same_checkout(self.view, self.element, view, *element),
                Does::Sets(older.size()),
            ),
            _ => Does::Keeps,
        }
    }

    fn subject(&self) -> Subject<'_> {
        Subject::Saved(self.view, self.element)
    }

    ghost affects = { λ it. saved_affects it.view.now it.element };
}

/// The view's checkout of the element. Takes the time of `newest`, twice.
pub fn checked_out(rows: &FirstRows<'_>, view: &Name, element: u64) -> Option<Checkout>
    ensures { option_map plain_checkout result ≡ out rows.now view.now element }
{
    in_life(rows, view, rows.newest(&TakenOf { view, element }))
}

/// Whether the view has the element out. Takes the time of `checked_out`.
pub fn has_out(rows: &FirstRows<'_>, view: &Name, element: u64) -> bool
    ensures { result ≡ has_out rows.now view.now element }
{
    checked_out(rows, view, element).is_some()
}

/// The row of a checkout in place of it.
fn row_of_update(update_by_row: Option<(u64, Option<Checkout>)>) -> Option<(u64, Option<u64>)>
    ensures { result ≡ option_map (map_update row_of_stored) update_by_row }
{
    match update_by_row {
        None => None,
        Some((number, None)) => Some((number, None)),
        Some((number, Some(checkout))) => Some((number, Some(checkout.row))),
    }
}

/// The row that made the text of the view's checkout of the element: the last save since, else the row that made the checkout.
/// Takes the time of `newest`, three times.
pub fn making(rows: &FirstRows<'_>, view: &Name, element: u64) -> Option<u64>
    ensures { result ≡ making rows.now view.now element }
{
    let taken = row_of_update(rows.newest(&TakenOf { view, element }));
    let saved = rows.newest(&SavedOf { view, element });
    in_life(rows, view, later(taken, saved))
}
