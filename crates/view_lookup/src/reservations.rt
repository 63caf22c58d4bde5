//! Who reserves a branch.

ghost use Rattle.std.specs.Prelude.{◌≡◌, option_map};
ghost use Rattle.std.specs.Option.{option_copied};
ghost use Rattle.base_model.specs.Checkouts.{other_reserver, reserver};
ghost use Rattle.base_rows.specs.Effects.{plain_taken};
ghost use Rattle.view_lookup.specs.Reservations.{newest_reserving, reserving};

use crate::standings::stands;
use base_rows::bases::{FirstRows, row_at};
use base_rows::checkouts::{Taken, made_out};
use base_rows::look_ups::{Does, LookUp, only_if};
use base_rows::subjects::{Subject, reserved_branch};
use base_rows::views::same_name;
use cc_names::names::Name;
use cc_names::rows::Deed;

/// The rows that made reserved checkouts on a branch.
#[derive(Clone, Copy)]
struct ReservingOf {
    branch: u64,
}

impl LookUp for ReservingOf {
    type Item = u64;

    ghost use Rattle.base_rows.specs.Laws.AffectedSubjects.{reserving_affects};
    ghost use Rattle.base_rows.specs.Effects.{reserving_effect};
    ghost use Rattle.base_rows.specs.Subjects as subjects;

    ghost effect = { λ it. reserving_effect it.branch };

    ghost about = { λ it. subjects.Reserved it.branch };

    fn effect(&self, older: &FirstRows<'_>, deed: &Deed) -> Does<u64> {
        match reserved_branch(older, deed) {
            None => Does::Keeps,
            Some(branch) => only_if(self.branch == branch, Does::Sets(older.size())),
        }
    }

    fn subject(&self) -> Subject<'_> {
        Subject::Reserved(self.branch)
    }

    ghost affects = { λ it. reserving_affects it.branch };
}

/// The newest reserved checkout that was made on a branch, whatever became of it.
fn newest_reserving<'a>(rows: &FirstRows<'a>, branch: u64) -> Option<Taken<'a>>
    ensures { option_map plain_taken result ≡ newest_reserving rows.now branch }
{
    let number = rows.last(&ReservingOf { branch })?;
    let row = row_at(rows, number)?;
    made_out(number, row.deed())
}

/// The reserved checkout that stands on a branch. No older one than the newest may stand, since each was made where none stood.
fn reserving<'a>(rows: &FirstRows<'a>, branch: u64) -> Option<Taken<'a>>
    ensures { option_map plain_taken result ≡ reserving rows.now branch }
{
    rows.are_base();
    let taken = newest_reserving(rows, branch)?;
    if stands(rows, taken) {
        Some(taken)
    } else {
        None
    }
}

/// The view that has a reserved checkout on a branch. Takes the time of `newest` for the newest such checkout, and that of
/// `checked_out`.
pub fn reserver<'a>(rows: &FirstRows<'a>, branch: u64) -> Option<&'a Name>
    ensures { option_copied result ≡ reserver rows.now branch }
{
    Some(reserving(rows, branch)?.view)
}

/// The other view that has a reserved checkout on a branch. Takes the time of `reserver`.
pub fn other_reserver<'a>(rows: &FirstRows<'a>, view: &Name, branch: u64) -> Option<&'a Name>
    ensures { option_copied result ≡ other_reserver rows.now view.now branch }
{
    rows.are_base();
    let reserver = reserver(rows, branch)?;
    if same_name(view, reserver) {
        None
    } else {
        Some(reserver)
    }
}
