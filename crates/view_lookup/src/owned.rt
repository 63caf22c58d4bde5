//! The rows that gave a view something: a private file, or an object.

ghost use Rattle.std.specs.Prelude.{◌≡◌, IfOk};
ghost use Rattle.base_rows.specs.Giving.{gives_view, own_effect};
ghost use Rattle.base_rows.specs.Walks.{updating_rows};

use base_rows::bases::FirstRows;
use base_rows::look_ups::{Does, LookUp, only_if};
use base_rows::subjects::Subject;
use base_rows::views::same_name;
use cc_names::memory::NoMemory;
use cc_names::names::Name;
use cc_names::rows::Deed;
use std::alloc::Global;

/// What a view puts or comes to hold.
#[derive(Clone, Copy)]
struct OwnOf<'a> {
    view: &'a Name,
}

impl LookUp for OwnOf<'_> {
    type Item = u64;

    ghost use Rattle.base_rows.specs.Laws.AffectedSubjects.{own_affects};
    ghost use Rattle.base_rows.specs.Giving.{own_effect};
    ghost use Rattle.base_rows.specs.Subjects as model;

    ghost effect = { λ it. own_effect it.view.now };

    ghost about = { λ it. model.Owned it.view.now };

    fn effect(&self, older: &FirstRows<'_>, deed: &Deed) -> Does<u64> {
        only_if(gives_view(self.view, deed), Does::Sets(older.size()))
    }

    fn subject(&self) -> Subject<'_> {
        Subject::Owned(self.view)
    }

    ghost affects = { λ it. own_affects it.view.now };
}

/// Whether a deed gives the view something.
fn gives_view(view: &Name, deed: &Deed) -> bool
    ensures { result ≡ gives_view view.now deed.now }
{
    match deed {
        Deed::Put { view: by, .. } => same_name(view, by),
        Deed::Publish { view: by, .. } => same_name(view, by),
        Deed::Wink { view: by, .. } => same_name(view, by),
        _ => false,
    }
}

/// The numbers of the rows by which a view put a private file or came to hold an object, the newest first. Takes time linear in
/// them, and in the rows with the view's key.
pub fn rows_owning(alloc: Global, rows: &FirstRows<'_>, view: &Name) -> Result<Vec<u64>, NoMemory>
    ensures { IfOk result
        (λ numbers. numbers.items ≡ updating_rows (own_effect view.now) rows.now) }
{
    rows.updating_rows(alloc, &OwnOf { view })
}
