//! What is looked up by the rows that affect it: the newest row that does something to a thing tells what has become of it.

ghost use Rattle.std.specs.Prelude.{◌≡◌};
ghost use Rattle.std.specs.Option.{option_or};
ghost use Rattle.cc_names.specs.Last.{only_if};
ghost use Rattle.base_rows.specs.Lifetimes.{is_behind, later, within};
ghost use Rattle.base_rows.specs.LookUps.{effect_of, left_by, set_at, update_at};

use crate::bases::{FirstRows, first_rows, row_at};
use crate::subjects::Subject;
use cc_names::rows::Deed;

/// What a row does to a thing.
#[derive(Clone, Copy)]
pub enum Does<T> {
    /// Nothing.
    Keeps,
    /// The thing is there no more.
    Ends,
    /// The thing is this from now on.
    Sets(T),
}

/// An effect where a test holds, else none.
pub fn only_if<T: Copy>(test: bool, does: Does<T>) -> Does<T>
    ensures { effect_of result ≡ only_if test (effect_of does) }
{
    if test { does } else { Does::Keeps }
}

/// What a row leaves, where there is one.
pub fn left_by<T: Copy>(update_by_row: Option<(u64, Option<T>)>) -> Option<T>
    ensures { result ≡ left_by update_by_row }
{
    let (_, item) = update_by_row?;
    item
}

/// What is left of a thing of a view, by the last end of its life and by the newest row that does something to the thing.
pub(crate) fn within<T: Copy>(
    ended: Option<u64>,
    update_by_row: Option<(u64, Option<T>)>,
) -> Option<T>
    ensures { result ≡ within ended update_by_row }
{
    let (number, item) = update_by_row?;
    if is_behind(ended, number) { item } else { None }
}

/// Whether a row lies after another one, where there is one.
fn is_behind(ended: Option<u64>, number: u64) -> bool
    ensures { result ≡ is_behind ended number }
{
    match ended {
        None => true,
        Some(ended) => ended < number,
    }
}

/// The later of two updates, the first where both are of one row.
pub fn later<T: Copy>(
    one: Option<(u64, Option<T>)>,
    two: Option<(u64, Option<T>)>,
) -> Option<(u64, Option<T>)>
    ensures { result ≡ later one two }
{
    match (one, two) {
        (None, _) => two,
        (Some(_), None) => one,
        (Some(first), Some(second)) => { if first.0 < second.0 { two } else { one } }
    }
}

/// A thing that is looked up. Each row that does something to it affects its subject.
pub trait LookUp {
    type Item: Copy;

    ghost use Rattle.std.specs.Prelude.{◌≡◌};
    ghost use Rattle.std.specs.Prelude.{Some};
    ghost use Rattle.cc_names.specs.Formed.{IsDeedFormed};
    ghost use Rattle.base_model.specs.Rows.{deed_at, first_rows};
    ghost use Rattle.base_rows.specs.LookUps.{Deeds, ActsBySubject, effect_of};
    ghost use Rattle.base_rows.specs.Subjects as model;

    ghost effect: { Self → Deeds Self.Item };

    ghost about: { Self → model.Subject };

    /// What the row of this deed does to it, which comes after the older rows.
    fn effect(&self, older: &FirstRows<'_>, deed: &Deed) -> Does<Self::Item>
        requires { IsDeedFormed deed.now }
        ensures { effect_of result ≡ effect self.now older.now deed.now };

    /// What the row of this number does to it, which has this deed. Written where it takes less time by what is kept of the row.
    fn effect_at(&self, rows: &FirstRows<'_>, number: u64, deed: &Deed) -> Does<Self::Item>
        requires formed { IsDeedFormed deed.now }
        requires deed { deed_at rows.now number ≡ Some deed.now }
        ensures { effect_of result ≡ effect self.now (first_rows number rows.now) deed.now }
    {
        self.effect(&first_rows(rows, number), deed)
    }

    /// Its subject.
    fn subject(&self) -> Subject<'_>
        ensures { model.plain result ≡ about self.now };

    ghost affects: { (it : Self) → ActsBySubject (about it) (effect it) };
}

/// The row of this number, where it does something to the thing, and what it leaves.
pub(crate) fn update_at<L: LookUp>(
    rows: &FirstRows<'_>,
    number: u64,
    look: &L,
) -> Option<(u64, Option<L::Item>)>
    ensures { result ≡ update_at (L.effect look.now) rows.now number }
{
    let row = row_at(rows, number)?;
    match look.effect_at(rows, number, row.deed()) {
        Does::Keeps => None,
        Does::Ends => Some((number, None)),
        Does::Sets(item) => Some((number, Some(item))),
    }
}

/// What the row of this number sets the thing to, where it does, else another.
pub(crate) fn set_at<L: LookUp>(
    rows: &FirstRows<'_>,
    number: u64,
    look: &L,
    other: Option<L::Item>,
) -> Option<L::Item>
    ensures { result ≡ option_or (set_at (L.effect look.now) rows.now number) other }
{
    match left_by(update_at(rows, number, look)) {
        Some(item) => Some(item),
        None => other,
    }
}
