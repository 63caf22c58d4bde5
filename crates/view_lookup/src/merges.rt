//! Merges of one version of an element into another.

ghost use Rattle.std.specs.Prelude.{◌≡◌};
ghost use Rattle.base_model.specs.Conditions.{arrow_row};

use base_rows::bases::FirstRows;
use base_rows::look_ups::{Does, LookUp, only_if};
use base_rows::subjects::Subject;
use cc_names::rows::Deed;

/// A merge of one version of an element into another.
#[derive(Clone, Copy)]
struct MergeOf {
    element: u64,
    tail: u64,
    head: u64,
}

impl LookUp for MergeOf {
    type Item = u64;

    ghost use Rattle.base_rows.specs.Laws.AffectedSubjects.{merge_affects};
    ghost use Rattle.base_rows.specs.Effects.{merge_effect};
    ghost use Rattle.base_rows.specs.Subjects as model;

    ghost effect = { λ it. merge_effect it.element it.tail it.head };

    ghost about = { λ it. model.Merge it.element it.tail it.head };

    fn effect(&self, older: &FirstRows<'_>, deed: &Deed) -> Does<u64> {
        match deed {
            Deed::Arrow {
                element,
                tail,
                head,
            } => only_if(
                *element == self.element && *tail == self.tail && *head == self.head,
                Does::Sets(older.size()),
            ),
            _ => Does::Keeps,
        }
    }

    fn subject(&self) -> Subject<'_> {
        Subject::Merge(self.element, self.tail, self.head)
    }

    ghost affects = { λ it. merge_affects it.element it.tail it.head };
}

/// The row that says that the version `tail` of an element was merged into its version `head`, where there is one. Takes the time
/// of `newest`.
pub fn arrow_row(rows: &FirstRows<'_>, element: u64, tail: u64, head: u64) -> Option<u64>
    ensures { result ≡ arrow_row rows.now element tail head }
{
    rows.last(&MergeOf {
        element,
        tail,
        head,
    })
}
