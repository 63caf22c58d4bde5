//! Which objects some view holds, and which may be scrubbed.

ghost use Rattle.std.specs.Prelude.{◌≡◌, IfOk};
ghost use Rattle.cc_names.specs.References.{is_held};
ghost use Rattle.base_model.specs.Changes.{objects_held};
ghost use Rattle.base_model.specs.Conditions.{may_be_scrubbed};
ghost use Rattle.base_model.specs.Rows.{deed_at};
ghost use Rattle.base_rows.specs.Effects.{held_by_maker, holds_one, winked_effect};
ghost use Rattle.base_rows.specs.Walks.{updating_rows};

use base_rows::bases::{FirstRows, row_at};
use base_rows::look_ups::{Does, LookUp, only_if};
use base_rows::objects::{held_object, live_row, targets_of};
use base_rows::subjects::Subject;
use base_rows::trees::is_number;
use cc_names::memory::NoMemory;
use cc_names::names::Name;
use cc_names::paths::Path;
use cc_names::rows::Deed;
use std::alloc::Global;

/// Whether a view holds an object at one of these paths.
pub fn holds_one(rows: &FirstRows<'_>, view: &Name, object: u64, targets: &[Path]) -> bool
    ensures { result ≡ holds_one rows.now view.now object targets.now }
{
    targets.iter().any(|target| is_number(object, held_object(rows, view, target)))
}

/// The winks of an object by views that hold it still in these rows.
#[derive(Clone, Copy)]
struct WinkedOf<'a> {
    rows: &'a FirstRows<'a>,
    object: u64,
}

impl LookUp for WinkedOf<'_> {
    type Item = u64;

    ghost use Rattle.base_rows.specs.Laws.AffectedSubjects.{winked_affects};
    ghost use Rattle.base_rows.specs.Effects.{winked_effect};
    ghost use Rattle.base_rows.specs.Subjects as subjects;

    ghost effect = { λ it. winked_effect it.rows.now it.object };

    ghost about = { λ it. subjects.Winked it.object };

    fn effect(&self, older: &FirstRows<'_>, deed: &Deed) -> Does<u64> {
        match deed {
            Deed::Wink { view, object } => {
                let targets = targets_of(older, *object);
                only_if(
                    *object == self.object && holds_one(self.rows, view, self.object, targets),
                    Does::Sets(*object),
                )
            }
            _ => Does::Keeps,
        }
    }

    fn subject(&self) -> Subject<'_> {
        Subject::Winked(self.object)
    }

    ghost affects = { λ it. winked_affects it.rows.now it.object };
}

/// The numbers of the rows by which views that hold an object still winked it in, the newest first. Takes for each wink of it the
/// time of `holds_one`.
pub fn winks_of(alloc: Global, rows: &FirstRows<'_>, object: u64) -> Result<Vec<u64>, NoMemory>
    ensures { IfOk result
        (λ numbers. numbers.items ≡ updating_rows (winked_effect rows.now object) rows.now) }
{
    rows.updating_rows(alloc, &WinkedOf { rows, object })
}

/// Whether the view of the row that made an object holds it at one of its targets.
fn is_held_by_maker(rows: &FirstRows<'_>, object: u64) -> bool
    ensures { result ≡ held_by_maker rows.now object (deed_at rows.now object) }
{
    match row_at(rows, object) {
        None => false,
        Some(row) => match row.deed() {
            Deed::Publish { view, targets, .. } => {
                holds_one(rows, view, object, targets.as_slice())
            }
            _ => false,
        },
    }
}

/// Whether some view holds the object. Takes for each of its targets the time of `held_object`: once for the view that made it,
/// and once for each wink after the last one whose view holds it still.
pub fn is_held(rows: &FirstRows<'_>, object: u64) -> bool
    ensures { result ≡ is_held (objects_held rows.now) object }
{
    is_held_by_maker(rows, object) || rows.last(&WinkedOf { rows, object }).is_some()
}

/// Whether an object is live and no view holds it. Takes the time of `live_row` and of `is_held`.
pub fn may_be_scrubbed(rows: &FirstRows<'_>, object: u64) -> bool
    ensures { result ≡ may_be_scrubbed rows.now object }
{
    live_row(rows, object).is_some() && !is_held(rows, object)
}
