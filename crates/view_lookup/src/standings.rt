//! The checkouts of a view that stand.

ghost use Rattle.std.specs.Prelude.{◌≡◌};
ghost use Rattle.base_model.specs.Checkouts.{oldest_out};
ghost use Rattle.base_rows.specs.Effects.{plain_taken, stands};

use base_rows::bases::FirstRows;
use base_rows::checkouts::{Taken, checked_out, made_out};
use base_rows::look_ups::{Does, LookUp, only_if};
use base_rows::subjects::Subject;
use base_rows::views::{same_name, view_row};
use cc_names::names::Name;
use cc_names::rows::Deed;

/// Whether a checkout stands in these rows.
pub(crate) fn stands(rows: &FirstRows<'_>, taken: Taken<'_>) -> bool
    ensures { result ≡ stands rows.now (plain_taken taken.entry) }
{
    match checked_out(rows, taken.view, taken.element) {
        None => false,
        Some(checkout) => taken.checkout.row == checkout.row,
    }
}

/// The rows that made the checkouts of a view that stand in a base.
#[derive(Clone, Copy)]
struct StandingOf<'a> {
    rows: &'a FirstRows<'a>,
    view: &'a Name,
}

impl LookUp for StandingOf<'_> {
    type Item = u64;

    ghost use Rattle.base_rows.specs.Laws.AffectedSubjects.{standing_affects};
    ghost use Rattle.base_rows.specs.Effects.{standing_effect};
    ghost use Rattle.base_rows.specs.Subjects as subjects;

    ghost effect = { λ it. standing_effect it.rows.now it.view.now };

    ghost about = { λ it. subjects.AllCheckedOut it.view.now };

    fn effect(&self, older: &FirstRows<'_>, deed: &Deed) -> Does<u64> {
        match made_out(older.size(), deed) {
            None => Does::Keeps,
            Some(taken) => only_if(
                same_name(self.view, taken.view) && stands(self.rows, taken),
                Does::Sets(taken.checkout.row),
            ),
        }
    }

    fn subject(&self) -> Subject<'_> {
        Subject::AllCheckedOut(self.view)
    }

    ghost affects = { λ it. standing_affects it.rows.now it.view.now };
}

/// The row that made the view's oldest checkout. Takes time linear in what the view took out in its life, and for each the time
/// of `checked_out`.
pub fn oldest_out(rows: &FirstRows<'_>, view: &Name) -> Option<u64>
    ensures { result ≡ oldest_out rows.now view.now }
{
    let began = view_row(rows, view).unwrap_or(0);
    rows.oldest_from(began, &StandingOf { rows, view })
}
