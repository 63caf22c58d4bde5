//! The rows that gave names in a directory.

ghost use Rattle.std.specs.Prelude.{◌≡◌, IfOk};
ghost use Rattle.base_rows.specs.Giving.{gives_in, naming_effect};
ghost use Rattle.base_rows.specs.Walks.{updating_rows};

use base_rows::bases::FirstRows;
use base_rows::look_ups::{Does, LookUp, only_if};
use base_rows::subjects::Subject;
use cc_names::memory::NoMemory;
use cc_names::rows::Deed;
use std::alloc::Global;

/// The names that are given in a directory.
#[derive(Clone, Copy)]
struct NamingIn {
    directory: u64,
}

impl LookUp for NamingIn {
    type Item = u64;

    ghost use Rattle.base_rows.specs.Laws.AffectedSubjects.{naming_affects};
    ghost use Rattle.base_rows.specs.Giving.{naming_effect};
    ghost use Rattle.base_rows.specs.Subjects as model;

    ghost effect = { λ it. naming_effect it.directory };

    ghost about = { λ it. model.Given it.directory };

    fn effect(&self, older: &FirstRows<'_>, deed: &Deed) -> Does<u64> {
        only_if(gives_in(self.directory, deed), Does::Sets(older.size()))
    }

    fn subject(&self) -> Subject<'_> {
        Subject::Given(self.directory)
    }

    ghost affects = { λ it. naming_affects it.directory };
}

/// Whether a deed gives a name in the directory.
fn gives_in(directory: u64, deed: &Deed) -> bool
    ensures { result ≡ gives_in directory deed.now }
{
    match deed {
        Deed::Mkelem {
            directory: within,
            ..
        } => *within == directory,
        Deed::Mv {
            directory: within,
            ..
        } => *within == directory,
        _ => false,
    }
}

/// The numbers of the rows that gave a name in a directory, the newest first. Takes time linear in them, and in the rows with
/// the directory's key.
pub fn rows_naming(
    alloc: Global,
    rows: &FirstRows<'_>,
    directory: u64,
) -> Result<Vec<u64>, NoMemory>
    ensures { IfOk result
        (λ numbers. numbers.items ≡ updating_rows (naming_effect directory) rows.now) }
{
    rows.updating_rows(alloc, &NamingIn { directory })
}
