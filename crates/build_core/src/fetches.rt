//! What the script of a unit sees.

ghost use Rattle.std.specs.Prelude.{◌≡◌, ◌<◌, Some, length, option_and_then, option_copied};
ghost use Rattle.cc_names.specs.declared.units.Unit as units;
ghost use Rattle.base_model.specs.Rows.{first_rows};
ghost use Rattle.base_model.specs.Seen.{file_at};
ghost use Rattle.legal_history.specs.Builds.Active.{unit_at};
ghost use Rattle.legal_history.specs.Builds.Choices.{visible};
ghost use Rattle.clearmake.specs.FoundTexts.{IsFetched, standing_at, found_standing, stands_for_unit};
ghost use Rattle.build_core.specs.VisibleObjects.{object_marked, AreNeeds};

use crate::active::ActiveBuild;
use build_script::files::Got;
use cc_names::memory::NoMemory;
use cc_names::paths::Path;
use cc_names::texts::Text;
use make_graph::closures::Closure;
use std::alloc::Global;
use view_lookup::{FirstRows, file_at, first_rows, text_of};

/// The object that the unit of a path was given or kept, where that unit is one of a closure. Takes a look-up by the path,
/// however many units there are.
fn object_in(build: &ActiveBuild, closure: &Closure, path: &Path) -> Option<u64>
    ensures { result ≡ object_marked build.now closure.now path.now }
{
    let unit = build.unit_with(path)?;
    if closure.has(unit) {
        build.object_of(unit)
    } else {
        None
    }
}

/// The file of the view at a path as the build began.
fn file_in(rows: &FirstRows<'_>, build: &ActiveBuild, path: &Path) -> Option<u64>
    ensures { result ≡ file_at (first_rows build.now.rows rows.now) build.now.view path.now }
{
    let rows = first_rows(rows, build.rows());
    file_at(&rows, build.view(), path)
}

/// The row that a unit of an active build sees at a path: the object that the build gave to a
/// unit that it needs, directly or through others, else the file of the view as the build began. The closure is that of the
/// unit.
///
/// Takes one look-up by the path among the units, and where no unit that it needs has an object there, one resolution of the path
/// in the view (`at`), however many units and prerequisites there are.
pub(crate) fn visible(
    rows: &FirstRows<'_>,
    build: &ActiveBuild,
    unit: u32,
    closure: &Closure,
    path: &Path,
) -> Option<u64>
    requires needs { AreNeeds build.now unit closure.now }
    ensures { (it : units.Unit)
        → unit_at build.now unit ≡ Some it
        → result ≡ visible rows.now build.now unit it path.now }
{
    if let Some(id) = object_in(build, closure, path) {
        return Some(id);
    }
    file_in(rows, build, path)
}

/// What a row made at the path.
fn text_found(alloc: Global, rows: &FirstRows<'_>, row: u64, path: &Path) -> Got
    ensures { IsFetched result (found_standing rows.now path.now row) }
{
    let Some(bytes) = text_of(rows, row, path) else {
        return Got::Absent;
    };
    match Text::from_bytes(alloc, bytes) {
        Ok(text) => Got::Found { row, text },
        Err(NoMemory) => Got::NoMemory,
    }
}

/// What the script of a unit finds at a path: the row that the unit sees there with its
/// text, or nothing. It never breaks. Takes the time of `visible`, that of `text_of` by the row that was found, and that of a
/// copy of the text.
fn fetch(
    alloc: Global,
    rows: &FirstRows<'_>,
    build: &ActiveBuild,
    unit: u32,
    closure: &Closure,
    path: &Path,
) -> Got
    requires needs { AreNeeds build.now unit closure.now }
    ensures { (it : units.Unit)
        → unit_at build.now unit ≡ Some it
        → IsFetched result (stands_for_unit rows.now build.now unit it path.now) }
{
    match visible(rows, build, unit, closure, path) {
        Some(row) => text_found(alloc, rows, row, path),
        None => Got::Absent,
    }
}

/// What a unit finds at a path, as `fetch` answers it, or want of memory. Takes the time of `fetch`; and what `needs` takes,
/// where the unit was not started or there was no memory for what it stands on then.
pub fn fetch_for_unit(
    alloc: Global,
    rows: &FirstRows<'_>,
    build: &ActiveBuild,
    unit: u32,
    path: &Path,
) -> Got
    requires unit { unit < length build.now.units }
    ensures { IsFetched result (standing_at rows.now build.now unit path.now) }
{
    if let Some(closure) = build.kept_needs(unit) {
        return fetch(alloc, rows, build, unit, closure, path);
    }
    match build.needs(alloc, unit) {
        Ok(closure) => fetch(alloc, rows, build, unit, &closure, path),
        Err(NoMemory) => Got::NoMemory,
    }
}
