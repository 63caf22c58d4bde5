//! The branches that leave a version.

ghost use Rattle.std.specs.Prelude.{◌≡◌, IfOk};
ghost use Rattle.base_model.specs.Changes.{tree};
ghost use Rattle.legal_history.specs.Queries.ElementTexts.{branches_leaving};

use base_rows::bases::FirstRows;
use base_rows::look_ups::{Does, LookUp, only_if};
use base_rows::subjects::Subject;
use cc_names::memory::NoMemory;
use cc_names::rows::Deed;
use std::alloc::Global;

/// The branches that leave a version.
#[derive(Clone, Copy)]
struct LeavingOf {
    version: u64,
}

impl LookUp for LeavingOf {
    type Item = u64;

    ghost use Rattle.base_rows.specs.Laws.AffectedSubjects.{leaving_affects};
    ghost use Rattle.base_rows.specs.Effects.{leaving_effect};
    ghost use Rattle.base_rows.specs.Subjects as model;

    ghost effect = { λ it. leaving_effect it.version };

    ghost about = { λ it. model.Leaving it.version };

    fn effect(&self, older: &FirstRows<'_>, deed: &Deed) -> Does<u64> {
        match deed {
            Deed::Branch { origin, .. } => {
                only_if(*origin == self.version, Does::Sets(older.size()))
            }
            _ => Does::Keeps,
        }
    }

    fn subject(&self) -> Subject<'_> {
        Subject::Leaving(self.version)
    }

    ghost affects = { λ it. leaving_affects it.version };
}

/// The branches that leave a version, the newest first. Takes time linear in the rows with its key, those after these rows too.
pub fn branches_leaving(
    alloc: Global,
    rows: &FirstRows<'_>,
    version: u64,
) -> Result<Vec<u64>, NoMemory>
    ensures { IfOk result
        (λ branches. branches.items ≡ branches_leaving version (tree rows.now)) }
{
    rows.updating_rows(alloc, &LeavingOf { version })
}
