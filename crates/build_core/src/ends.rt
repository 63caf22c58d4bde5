//! What a unit of a build comes to without a run.

ghost use Rattle.std.specs.Prelude.{◌≡◌, ◌<◌, ◌^◌, Bool, true, Some, length, find, option_copied, IfOk, IfSome};
ghost use Rattle.std.specs.List.{list_any};
ghost use Rattle.make_grammar.specs.Graphs.{first_target};
ghost use Rattle.legal_history.specs.Commands.FileLines.{parent};
ghost use Rattle.legal_history.specs.Builds.Fresh.{sees_directory, sees_file};
ghost use Rattle.legal_history.specs.Builds.Serials.{is_missing, is_bad, standing_or_file, no_directory, no_script, outside};
ghost use Rattle.legal_history.specs.Builds.Active.{came_to, unit_at};
ghost use Rattle.legal_history.specs.Builds.Turns.{standing_of_came, standing_of_unit, early_in};

use crate::active::{ActiveBuild, Came};
use cc_names::memory::NoMemory;
use cc_names::paths::Path;
use cc_names::refusals::UnitFault;
use cc_names::steps::UnitEnd;
use cc_names::units::{Unit, UnitScript};
use std::alloc::Global;
use view_lookup::{FirstRows, file_at, is_directory};

/// Whether a path is neither a unit's nor a file.
fn is_missing(rows: &FirstRows<'_>, build: &ActiveBuild, path: &Path) -> bool
    ensures { result
        ≡ is_missing
        (standing_or_file (sees_file rows.now build.now.view path.now)
        (standing_of_unit build.now path.now)) }
{
    build.unit_with(path).is_none() && file_at(rows, build.view(), path).is_none()
}

/// Whether a unit failed or was blocked.
fn is_bad_unit(build: &ActiveBuild, unit: u32) -> bool
    ensures { result ≡ is_bad (standing_of_came (came_to build.now unit)) }
{
    matches!(
        build.came_to(unit),
        Some(Came::Concluded(UnitEnd::Failed(_) | UnitEnd::Blocked(_)))
    )
}

/// Whether a path is that of a unit that failed or was blocked.
fn is_bad(build: &ActiveBuild, path: &Path) -> bool
    ensures { (is_file : Bool)
        → result ≡ is_bad (standing_or_file is_file (standing_of_unit build.now path.now)) }
{
    let Some(number) = build.unit_with(path) else {
        return false;
    };
    is_bad_unit(build, number)
}

/// The first of these paths that is neither a unit's nor a file.
fn first_missing<'a>(
    rows: &FirstRows<'_>,
    build: &ActiveBuild,
    paths: &'a [Path],
) -> Option<&'a Path>
    ensures { option_copied result
        ≡ find
        (λ path.
        is_missing
        (standing_or_file (sees_file rows.now build.now.view path)
        (standing_of_unit build.now path))) paths.now }
{
    for path in paths {
        if is_missing(rows, build, path) {
            return Some(path);
        }
    }
    None
}

/// The first of these paths that is that of a unit that failed or was blocked.
fn first_bad<'a>(rows: &FirstRows<'_>, build: &ActiveBuild, paths: &'a [Path]) -> Option<&'a Path>
    ensures { option_copied result
        ≡ find
        (λ path.
        is_bad
        (standing_or_file (sees_file rows.now build.now.view path)
        (standing_of_unit build.now path))) paths.now }
{
    for path in paths {
        if is_bad(build, path) {
            return Some(path);
        }
    }
    None
}

/// The first prerequisite of a unit that is neither a unit's nor a file. Where units make all of them, it looks up no path.
fn missing_prerequisite<'a>(
    rows: &FirstRows<'_>,
    build: &ActiveBuild,
    number: u32,
    unit: &'a Unit,
) -> Option<&'a Path>
    requires unit { unit_at build.now number ≡ Some unit.now }
    requires within { number < length build.now.units }
    ensures { option_copied result
        ≡ find
        (λ path.
        is_missing
        (standing_or_file (sees_file rows.now build.now.view path)
        (standing_of_unit build.now path))) unit.now.prerequisites }
{
    if build.makers(number).len() == unit.prerequisites.len() {
        return None;
    }
    first_missing(rows, build, unit.prerequisites.as_slice())
}

/// Whether one of these units failed or was blocked.
fn has_bad_unit(build: &ActiveBuild, units: &[u32]) -> bool
    ensures { result ≡ list_any (λ n. is_bad (standing_of_came (came_to build.now n))) units.now }
{
    for unit in units {
        if is_bad_unit(build, *unit) {
            return true;
        }
    }
    false
}

/// The first prerequisite of a unit that is that of a unit that failed or was blocked. Where there is none, it looks up no path.
fn bad_prerequisite<'a>(
    rows: &FirstRows<'_>,
    build: &ActiveBuild,
    number: u32,
    unit: &'a Unit,
) -> Option<&'a Path>
    requires unit { unit_at build.now number ≡ Some unit.now }
    requires within { number < length build.now.units }
    ensures { option_copied result
        ≡ find
        (λ path.
        is_bad
        (standing_or_file (sees_file rows.now build.now.view path)
        (standing_of_unit build.now path))) unit.now.prerequisites }
{
    if !has_bad_unit(build, build.makers(number)) {
        return None;
    }
    first_bad(rows, build, unit.prerequisites.as_slice())
}

/// The directory in which a path lies.
fn parent(alloc: Global, path: &Path) -> Result<Path, NoMemory>
    ensures { IfOk result (λ directory. directory ≡ parent path.now) }
{
    match path.parent(alloc)? {
        Some(directory) => Ok(directory),
        None => Ok(Path::root()),
    }
}

/// The first parent of a path that is no directory.
fn outside(
    alloc: Global,
    rows: &FirstRows<'_>,
    build: &ActiveBuild,
    paths: &[Path],
) -> Result<Option<Path>, NoMemory>
    ensures { IfOk result
        (λ found. found ≡ outside (sees_directory rows.now build.now.view) paths.now) }
{
    for path in paths {
        let directory = parent(alloc, path)?;
        if !is_directory(rows, build.view(), &directory) {
            return Ok(Some(directory));
        }
    }
    Ok(None)
}

fn no_directory(
    alloc: Global,
    rows: &FirstRows<'_>,
    build: &ActiveBuild,
    unit: &Unit,
) -> Result<Option<UnitEnd>, NoMemory>
    ensures { IfOk result
        (λ end.
        end
        ≡ no_directory (sees_directory rows.now build.now.view) unit.now.targets
        unit.now.script) }
{
    if let UnitScript::Bare = unit.script {
        return Ok(None);
    }
    match outside(alloc, rows, build, unit.targets.as_slice())? {
        Some(path) => Ok(Some(UnitEnd::Failed(UnitFault::NoDirectory(path)))),
        None => Ok(None),
    }
}

fn copy_first_target(alloc: Global, targets: &[Path]) -> Result<Path, NoMemory>
    ensures { IfOk result (λ target. target ≡ first_target targets.now) }
{
    match targets {
        [first, ..] => first.copy(alloc),
        [] => Ok(Path::root()),
    }
}

fn no_script(alloc: Global, unit: &Unit) -> Result<Option<UnitEnd>, NoMemory>
    ensures { IfOk result (λ end. end ≡ no_script unit.now.targets unit.now.script) }
{
    match &unit.script {
        UnitScript::Bare => Ok(Some(UnitEnd::Bare)),
        UnitScript::TooLong => {
            let target = copy_first_target(alloc, unit.targets.as_slice())?;
            Ok(Some(UnitEnd::Failed(UnitFault::ScriptTooLong(target))))
        }
        UnitScript::Lines(_) => Ok(None),
    }
}

/// What the unit of this number comes to without a run, where these are the rows that its build sees.
pub(crate) fn early(
    alloc: Global,
    rows: &FirstRows<'_>,
    build: &ActiveBuild,
    number: u32,
    unit: &Unit,
) -> Result<Option<UnitEnd>, NoMemory>
    requires unit { unit_at build.now number ≡ Some unit.now }
    requires within { number < length build.now.units }
    ensures { IfOk result (λ end. end ≡ early_in rows.now build.now unit.now) }
{
    if let Some(end) = no_directory(alloc, rows, build, unit)? {
        return Ok(Some(end));
    }
    if let Some(path) = missing_prerequisite(rows, build, number, unit) {
        let path = path.copy(alloc)?;
        return Ok(Some(UnitEnd::Failed(UnitFault::NoRule(path))));
    }
    if let Some(path) = bad_prerequisite(rows, build, number, unit) {
        return Ok(Some(UnitEnd::Blocked(path.copy(alloc)?)));
    }
    no_script(alloc, unit)
}
