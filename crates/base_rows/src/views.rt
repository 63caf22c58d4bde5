//! A view's own state: its life, and its private files.

ghost use Rattle.std.specs.Prelude.{◌≡◌, bytes_eq, ◌&&◌, option_map};
ghost use Rattle.base_model.specs.Views.{view_row, private};
ghost use Rattle.base_rows.specs.Effects.{end_effect};
ghost use Rattle.base_rows.specs.Lifetimes.{number_of, within};
ghost use Rattle.base_rows.specs.LookUps.{newest};

use crate::bases::FirstRows;
use crate::look_ups::{Does, LookUp, only_if, within};
use crate::subjects::Subject;
use cc_names::names::Name;
use cc_names::paths::Path;
use cc_names::rows::Deed;

pub fn same_name(one: &Name, two: &Name) -> bool
    ensures { result ≡ bytes_eq two.now one.now }
{
    two.as_bytes() == one.as_bytes()
}

pub(crate) fn same_view_path(view: &Name, path: &Path, other: &Name, place: &Path) -> bool
    ensures { result ≡ (bytes_eq other.now view.now && bytes_eq place.now path.now) }
{
    same_name(view, other) && place.as_bytes() == path.as_bytes()
}

fn same_file(view: &Name, path: &[u8], other: &Name, place: &Path) -> bool
    ensures { result ≡ (bytes_eq other.now view.now && bytes_eq place.now path.now) }
{
    same_name(view, other) && place.as_bytes() == path
}

/// The row with which a view's life began.
#[derive(Clone, Copy)]
pub(crate) struct LifeOf<'a> {
    pub(crate) view: &'a Name,
}

impl LookUp for LifeOf<'_> {
    type Item = u64;

    ghost use Rattle.base_rows.specs.Laws.AffectedSubjects.{life_affects};
    ghost use Rattle.base_rows.specs.Effects.{life_effect};
    ghost use Rattle.base_rows.specs.Subjects as model;

    ghost effect = { λ it. life_effect it.view.now };

    ghost about = { λ it. model.Life it.view.now };

    fn effect(&self, older: &FirstRows<'_>, deed: &Deed) -> Does<u64> {
        match deed {
            Deed::Mkview { view } => only_if(same_name(self.view, view), Does::Sets(older.size())),
            Deed::Rmview { view } => only_if(same_name(self.view, view), Does::Ends),
            _ => Does::Keeps,
        }
    }

    fn subject(&self) -> Subject<'_> {
        Subject::Life(self.view)
    }

    ghost affects = { λ it. life_affects it.view.now };
}

/// Where what a view has of its own ends.
#[derive(Clone, Copy)]
struct EndOf<'a> {
    view: &'a Name,
}

impl LookUp for EndOf<'_> {
    type Item = u64;

    ghost use Rattle.base_rows.specs.Laws.AffectedSubjects.{end_affects};
    ghost use Rattle.base_rows.specs.Effects.{end_effect};
    ghost use Rattle.base_rows.specs.Subjects as model;

    ghost effect = { λ it. end_effect it.view.now };

    ghost about = { λ it. model.Life it.view.now };

    fn effect(&self, _older: &FirstRows<'_>, deed: &Deed) -> Does<u64> {
        match deed {
            Deed::Mkview { view } => only_if(same_name(self.view, view), Does::Ends),
            Deed::Rmview { view } => only_if(same_name(self.view, view), Does::Ends),
            _ => Does::Keeps,
        }
    }

    fn subject(&self) -> Subject<'_> {
        Subject::Life(self.view)
    }

    ghost affects = { λ it. end_affects it.view.now };
}

/// A view's private file at a path.
#[derive(Clone, Copy)]
struct FileOf<'a> {
    view: &'a Name,
    path: &'a [u8],
}

impl LookUp for FileOf<'_> {
    type Item = u64;

    ghost use Rattle.base_rows.specs.Laws.AffectedSubjects.{file_affects};
    ghost use Rattle.base_rows.specs.Effects.{file_effect};
    ghost use Rattle.base_rows.specs.Subjects as model;

    ghost effect = { λ it. file_effect it.view.now it.path.now };

    ghost about = { λ it. model.File it.view.now it.path.now };

    fn effect(&self, older: &FirstRows<'_>, deed: &Deed) -> Does<u64> {
        match deed {
            Deed::Put { view, path, .. } => only_if(
                same_file(self.view, self.path, view, path),
                Does::Sets(older.size()),
            ),
            Deed::Rm { view, path } => {
                only_if(same_file(self.view, self.path, view, path), Does::Ends)
            }
            _ => Does::Keeps,
        }
    }

    fn subject(&self) -> Subject<'_> {
        Subject::File(self.view, self.path)
    }

    ghost affects = { λ it. file_affects it.view.now it.path.now };
}

/// The mkview row with which the view's life began, where the view exists. Takes the time of `newest`.
pub fn view_row(rows: &FirstRows<'_>, view: &Name) -> Option<u64>
    ensures { result ≡ view_row rows.now view.now }
{
    rows.last(&LifeOf { view })
}

/// The last row with which the view's life began or ended.
fn last_end(rows: &FirstRows<'_>, view: &Name) -> Option<u64>
    ensures { result ≡ option_map number_of (newest (end_effect view.now) rows.now) }
{
    let (number, _) = rows.newest(&EndOf { view })?;
    Some(number)
}

/// What is known of a thing of the view, unless the view's life began or ended behind it. Takes the time of `newest` where
/// anything is told, else none.
pub(crate) fn in_life<T: Copy>(
    rows: &FirstRows<'_>,
    view: &Name,
    update_by_row: Option<(u64, Option<T>)>,
) -> Option<T>
    ensures { result
        ≡ within (option_map number_of (newest (end_effect view.now) rows.now)) update_by_row }
{
    match update_by_row {
        None => None,
        Some(_) => within(last_end(rows, view), update_by_row),
    }
}

/// The row that put the view's private file at the path. Takes the time of `newest`, twice where there was one.
pub fn private(rows: &FirstRows<'_>, view: &Name, path: &Path) -> Option<u64>
    ensures { result ≡ private rows.now view.now path.now }
{
    private_at(rows, view, path.as_bytes())
}

/// The same, for the bytes of a path.
pub fn private_at(rows: &FirstRows<'_>, view: &Name, path: &[u8]) -> Option<u64>
    ensures { result ≡ private rows.now view.now path.now }
{
    in_life(rows, view, rows.newest(&FileOf { view, path }))
}
