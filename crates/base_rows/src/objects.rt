//! The objects that a view holds, and which objects there are.

ghost use Rattle.std.specs.Prelude.{◌≡◌, ◌==◌, bytes_eq, option_map};
ghost use Rattle.std.specs.List.{AllByRecursion, IsDistinct, list_any};
ghost use Rattle.std.specs.List.Sorted.{IsStrictlySortedBy};
ghost use Rattle.std.specs.Ordering.{nat_cmp};
ghost use Rattle.cc_names.specs.Formed.{IsBelowRoot};
ghost use Rattle.cc_names.specs.References.{held_at};
ghost use Rattle.base_model.specs.Changes.{objects_held, live_row, targets_of};
ghost use Rattle.base_model.specs.Closures.{is_path_among};
ghost use Rattle.base_model.specs.Objects.{held_at_all, held_at_each, record_of};
ghost use Rattle.base_rows.specs.Effects.{gone_effect};
ghost use Rattle.base_rows.specs.Lifetimes.{number_of};
ghost use Rattle.base_rows.specs.LookUps.{newest};
ghost use Rattle.base_rows.specs.Made.{is_target};
ghost use Rattle.base_rows.specs.TargetOrders.{IsPlaceOf};

use crate::bases::{FirstRows, first_rows, row_at};
use crate::look_ups::{Does, LookUp, only_if, within};
use crate::subjects::Subject;
use crate::target_orders::place_among;
use crate::views::{same_name, same_view_path};
use cc_names::names::Name;
use cc_names::paths::Path;
use cc_names::rows::{Deed, ReadOf};

/// Whether a path is one of these targets. Takes time linear in them.
fn is_target(path: &Path, targets: &[Path]) -> bool
    ensures { result ≡ is_target path.now targets.now }
{
    targets
        .iter()
        .any(|target| target.as_bytes() == path.as_bytes())
}

/// The targets of the object of this number, which differ. Takes constant time.
pub fn targets_of<'a>(rows: &FirstRows<'a>, object: u64) -> &'a [Path]
    ensures targets { result.now ≡ targets_of rows.now object }
    ensures below { AllByRecursion IsBelowRoot result.now }
    ensures distinct { IsDistinct bytes_eq result.now }
{
    match row_at(rows, object) {
        Some(row) => match row.deed() {
            Deed::Publish { targets, .. } => targets.as_slice(),
            _ => &[],
        },
        None => &[],
    }
}

/// The place of a path among targets. Takes time linear in them.
fn first_place(targets: &[Path], path: &Path) -> Option<usize>
    ensures { IsPlaceOf path.now targets.now result }
{
    for (place, target) in targets.iter().enumerate() {
        if target.as_bytes() == path.as_bytes() {
            return Some(place);
        }
    }
    None
}

/// The entries of an object's record; any other row has none. Takes constant time.
pub fn record_of<'a>(rows: &FirstRows<'a>, object: u64) -> &'a [ReadOf]
    ensures { result.now ≡ record_of rows.now object }
{
    match row_at(rows, object) {
        None => &[],
        Some(row) => match row.deed() {
            Deed::Publish { entries, .. } => entries.as_slice(),
            _ => &[],
        },
    }
}

/// The place of a path among an object's targets, which differ. Takes time logarithmic in them.
pub fn target_place(rows: &FirstRows<'_>, object: u64, path: &Path) -> Option<usize>
    ensures place { IsPlaceOf path.now (targets_of rows.now object) result }
    ensures distinct { IsDistinct bytes_eq (targets_of rows.now object) }
{
    let targets = targets_of(rows, object);
    match rows.target_places(object) {
        None => first_place(targets, path),
        Some(places) => place_among(targets, places, path),
    }
}

/// Whether an object has this target. Takes time logarithmic in its targets.
pub fn has_target(rows: &FirstRows<'_>, object: u64, target: &Path) -> bool
    ensures among { result ≡ is_path_among target.now (targets_of rows.now object) }
    ensures target { result ≡ is_target target.now (targets_of rows.now object) }
{
    target_place(rows, object, target).is_some()
}

/// Where what a view holds ends.
#[derive(Clone, Copy)]
struct GoneOf<'a> {
    view: &'a Name,
}

impl LookUp for GoneOf<'_> {
    type Item = u64;

    ghost use Rattle.base_rows.specs.Laws.AffectedSubjects.{gone_affects};
    ghost use Rattle.base_rows.specs.Effects.{gone_effect};
    ghost use Rattle.base_rows.specs.Subjects as model;

    ghost effect = { λ it. gone_effect it.view.now };

    ghost about = { λ it. model.Life it.view.now };

    fn effect(&self, _older: &FirstRows<'_>, deed: &Deed) -> Does<u64> {
        match deed {
            Deed::Rmview { view } => only_if(same_name(self.view, view), Does::Ends),
            _ => Does::Keeps,
        }
    }

    fn subject(&self) -> Subject<'_> {
        Subject::Life(self.view)
    }

    ghost affects = { λ it. gone_affects it.view.now };
}

/// The object that a view holds at a path, unless the view is gone.
#[derive(Clone, Copy)]
struct ObjectOf<'a> {
    view: &'a Name,
    path: &'a Path,
}

impl LookUp for ObjectOf<'_> {
    type Item = u64;

    ghost use Rattle.base_rows.specs.Laws.AffectedSubjects.{object_affects};
    ghost use Rattle.base_rows.specs.Effects.{object_effect};
    ghost use Rattle.base_rows.specs.Subjects as model;

    ghost effect = { λ it. object_effect it.view.now it.path.now };

    ghost about = { λ it. model.Object it.view.now it.path.now };

    fn effect(&self, older: &FirstRows<'_>, deed: &Deed) -> Does<u64> {
        match deed {
            Deed::Publish { view, targets, .. } => only_if(
                same_name(self.view, view) && is_target(self.path, targets.as_slice()),
                Does::Sets(older.size()),
            ),
            Deed::Wink { view, object } => only_if(
                same_name(self.view, view) && has_target(older, *object, self.path),
                Does::Sets(*object),
            ),
            Deed::Drop { view, path } => {
                only_if(same_view_path(self.view, self.path, view, path), Does::Ends)
            }
            _ => Does::Keeps,
        }
    }

    fn effect_at(&self, rows: &FirstRows<'_>, number: u64, deed: &Deed) -> Does<u64> {
        let older = first_rows(rows, number);
        match deed {
            Deed::Publish { view, .. } => only_if(
                same_name(self.view, view) && has_target(rows, number, self.path),
                Does::Sets(older.size()),
            ),
            _ => self.effect(&older, deed),
        }
    }

    fn subject(&self) -> Subject<'_> {
        Subject::Object(self.view, self.path)
    }

    ghost affects = { λ it. object_affects it.view.now it.path.now };
}

/// An object, from its publish until a scrub takes it.
#[derive(Clone, Copy)]
struct LivingOf {
    object: u64,
}

impl LookUp for LivingOf {
    type Item = u64;

    ghost use Rattle.base_rows.specs.Laws.AffectedSubjects.{living_affects};
    ghost use Rattle.base_rows.specs.Effects.{living_effect};
    ghost use Rattle.base_rows.specs.Subjects as model;

    ghost effect = { λ it. living_effect it.object };

    ghost about = { λ it. model.Living it.object };

    fn effect(&self, older: &FirstRows<'_>, deed: &Deed) -> Does<u64> {
        match deed {
            Deed::Publish { .. } => {
                let number = older.size();
                only_if(number == self.object, Does::Sets(number))
            }
            Deed::Scrub { objects } => {
                only_if(is_among(self.object, objects.as_slice()), Does::Ends)
            }
            _ => Does::Keeps,
        }
    }

    fn subject(&self) -> Subject<'_> {
        Subject::Living(self.object)
    }

    ghost affects = { λ it. living_affects it.object };
}

/// Whether a list that ascends has an object. Takes time logarithmic in it.
fn is_among(object: u64, objects: &[u64]) -> bool
    requires { IsStrictlySortedBy nat_cmp objects.now }
    ensures { result ≡ list_any (λ other. other == object) objects.now }
{
    objects.binary_search(&object).is_ok()
}

/// The last row with which the view ended.
fn last_gone(rows: &FirstRows<'_>, view: &Name) -> Option<u64>
    ensures { result ≡ option_map number_of (newest (gone_effect view.now) rows.now) }
{
    let (number, _) = rows.newest(&GoneOf { view })?;
    Some(number)
}

/// The object that the view holds at the path. Takes the time of `newest`, twice, and time logarithmic in the targets of the
/// objects that are looked at.
pub fn held_object(rows: &FirstRows<'_>, view: &Name, path: &Path) -> Option<u64>
    ensures { result ≡ held_at (objects_held rows.now) view.now path.now }
{
    within(last_gone(rows, view), rows.newest(&ObjectOf { view, path }))
}

/// Whether the view holds the object at each of these paths. Takes the time of `held_object` for each path, as far as the first
/// where it doesn't.
fn is_held_at_each(rows: &FirstRows<'_>, view: &Name, paths: &[Path], object: u64) -> bool
    ensures { result ≡ held_at_each rows.now view.now paths.now object }
{
    paths
        .iter()
        .all(|path| held_object(rows, view, path) == Some(object))
}

/// The object that the view holds at each of these paths, where it is one and there are paths. Takes the time of `held_object`
/// for each path, as far as the first where the view holds another object or none.
pub fn held_at_all(rows: &FirstRows<'_>, view: &Name, paths: &[Path]) -> Option<u64>
    ensures { result ≡ held_at_all rows.now view.now paths.now }
{
    let [first, others @ ..] = paths else {
        return None;
    };
    let object = held_object(rows, view, first)?;
    if is_held_at_each(rows, view, others, object) {
        Some(object)
    } else {
        None
    }
}

/// The object's row, where it is live: from its publish until a scrub takes it. Takes the time of `newest`, and time logarithmic
/// in the objects of the scrub.
pub fn live_row(rows: &FirstRows<'_>, object: u64) -> Option<u64>
    ensures { result ≡ live_row rows.now object }
{
    rows.last(&LivingOf { object })
}
