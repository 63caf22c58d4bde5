//! The merges into a version.

ghost use Rattle.std.specs.Prelude.{◌≡◌, IfOk};
ghost use Rattle.base_rows.specs.Effects.{merged_effect};
ghost use Rattle.base_rows.specs.Walks.{updating_rows};

use base_rows::bases::FirstRows;
use base_rows::look_ups::{Does, LookUp, only_if};
use base_rows::subjects::Subject;
use cc_names::memory::NoMemory;
use cc_names::rows::Deed;
use std::alloc::Global;

/// The merges into a version.
#[derive(Clone, Copy)]
struct MergedInto {
    head: u64,
}

impl LookUp for MergedInto {
    type Item = u64;

    ghost use Rattle.base_rows.specs.Laws.AffectedSubjects.{merged_affects};
    ghost use Rattle.base_rows.specs.Effects.{merged_effect};
    ghost use Rattle.base_rows.specs.Subjects as model;

    ghost effect = { λ it. merged_effect it.head };

    ghost about = { λ it. model.Merged it.head };

    fn effect(&self, older: &FirstRows<'_>, deed: &Deed) -> Does<u64> {
        match deed {
            Deed::Arrow { head, .. } => only_if(*head == self.head, Does::Sets(older.size())),
            _ => Does::Keeps,
        }
    }

    fn subject(&self) -> Subject<'_> {
        Subject::Merged(self.head)
    }

    ghost affects = { λ it. merged_affects it.head };
}

/// The numbers of the rows that say that a version was merged into the version `head`, the newest first. Takes time linear in
/// them, and in the rows with the version's key.
pub fn arrows_into(alloc: Global, rows: &FirstRows<'_>, head: u64) -> Result<Vec<u64>, NoMemory>
    ensures { IfOk result (λ numbers. numbers.items ≡ updating_rows (merged_effect head) rows.now) }
{
    rows.updating_rows(alloc, &MergedInto { head })
}
