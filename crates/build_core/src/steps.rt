//! What comes next for a unit of an active build.

ghost use Rattle.std.specs.Prelude.{◌≡◌, ◌<◌, ◌^◌, ℕ, true, false, not, Some, find, length, IfOk, IfSome};
ghost use Rattle.cc_names.specs.Answers.{Gives};
ghost use Rattle.script_grammar.specs.Lines.{script_of};
ghost use Rattle.base_model.specs.Rows.{Base, first_rows};
ghost use Rattle.legal_history.specs.Builds.Active.{Build, Started, came_to, is_outcome, unit_at};
ghost use Rattle.legal_history.specs.Builds.Fresh.{script_text};
ghost use Rattle.legal_history.specs.Builds.Turns.{early_in};
ghost use Rattle.make_graph.specs.Waits.{prerequisites_at};
ghost use Rattle.build_core.specs.UnitSteps.{first_awaited, IsNextOfStarted, IsNextOfUnit, IsUnitOpen, IsUnitStep, IsToRun};

use crate::active::{ActiveBuild, Came};
use crate::ends::early;
use crate::reuse::{Chosen, choose};
use build_script::scripts::Script;
use cc_names::copies::Copied;
use cc_names::lists::List;
use cc_names::memory::{NoMemory, Or};
use cc_names::paths::Path;
use cc_names::refusals::ScriptFault;
use cc_names::steps::UnitEnd;
use cc_names::units::{Unit, UnitScript};
use std::alloc::Global;
use view_lookup::{FirstRows, first_rows};

/// What comes next for a unit.
#[derive(Drop)]
pub enum UnitStep {
    /// The unit has its outcome.
    Concluded,
    /// It waits for this unit, the first of those that make its prerequisites and have no outcome.
    NotReady(u32),
    /// It ends without a run and without an object.
    EndEarly(UnitEnd),
    /// It keeps this object, which its build's view holds at every target.
    Keep(u64),
    /// Its build's view takes this object in, which it does not hold at every target.
    Wink(u64),
    /// It may reuse no object: its script, and the targets that a run is to write.
    Start(Script, List<Path>),
    /// It may reuse no object, and its script cannot be read.
    Unreadable(ScriptFault),
    /// It was started and has no outcome, as where memory ran out under its run: its script, and the targets that a run is to
    /// write.
    Run(Script, List<Path>),
    /// It was started and has no outcome, and its script cannot be read.
    Fail(ScriptFault),
}

/// The first of these units that has no outcome.
fn first_without_outcome(build: &ActiveBuild, units: &[u32]) -> Option<u32>
    ensures first { result ≡ find (λ n. not (is_outcome (came_to build.now n))) units.now }
    ensures waits { IfSome result (λ m. is_outcome (came_to build.now m) ≡ false) }
{
    for unit in units {
        if !build.has_outcome(*unit) {
            return Some(*unit);
        }
    }
    None
}

/// The first of the units that make a unit's prerequisites and have no outcome. Takes time linear in them, and looks up no path.
fn first_awaited(build: &ActiveBuild, unit: u32) -> Option<u32>
    requires { unit < length build.now.units }
    ensures first { result
        ≡ first_awaited build.now (prerequisites_at build.now.units unit) }
    ensures within { IfSome result (λ m. m < length build.now.units) }
    ensures waits { IfSome result (λ m. is_outcome (came_to build.now m) ≡ false) }
{
    first_without_outcome(build, build.makers(unit))
}

/// The text of the unit's script, nothing where it has none.
pub(crate) fn script_text(unit: &Unit) -> &[u8]
    ensures { result.now ≡ script_text unit.now.script }
{
    match &unit.script {
        UnitScript::Lines(text) => text.as_bytes(),
        _ => &[],
    }
}

/// Reads the unit's script. One of 4 GiB, which no makefile gives, is answered as if memory ran out.
fn read_script(alloc: Global, unit: &Unit) -> Result<Script, Or<ScriptFault>>
    ensures { Gives result (script_of (script_text unit.now.script)) }
{
    let text = script_text(unit);
    if text.len() > u32::MAX as usize {
        return Err(Or::NoMemory);
    }
    Script::read(alloc, text)
}

/// The start of a unit that is to run.
fn start(alloc: Global, unit: &Unit) -> Result<UnitStep, NoMemory>
    ensures { (b : Base) (build : Build) (n : ℕ)
        → IsToRun b build n unit.now
        → IfOk result (λ step. IsNextOfUnit b build n unit.now step) }
{
    match read_script(alloc, unit) {
        Ok(script) => {
            let targets = unit.targets.copy(alloc)?;
            Ok(UnitStep::Start(script, targets))
        }
        Err(Or::Is(fault)) => Ok(UnitStep::Unreadable(fault)),
        Err(Or::NoMemory) => Err(NoMemory),
    }
}

/// The step of a unit that was started and has no outcome: its run.
fn run_again(alloc: Global, unit: &Unit) -> Result<UnitStep, NoMemory>
    ensures { (build : Build) (n : ℕ)
        → came_to build n ≡ Some Started
        → IfOk result (λ step. IsNextOfStarted build n unit.now step) }
{
    match read_script(alloc, unit) {
        Ok(script) => {
            let targets = unit.targets.copy(alloc)?;
            Ok(UnitStep::Run(script, targets))
        }
        Err(Or::Is(fault)) => Ok(UnitStep::Fail(fault)),
        Err(Or::NoMemory) => Err(NoMemory),
    }
}

/// The step of an open unit: by the object that it may reuse, else its start.
fn reuse_or_start(
    alloc: Global,
    rows: &FirstRows<'_>,
    build: &ActiveBuild,
    number: u32,
    unit: &Unit,
) -> Result<UnitStep, NoMemory>
    requires unit { unit_at build.now number ≡ Some unit.now }
    requires open_unit { IsUnitOpen (first_rows build.now.rows rows.now) build.now unit.now }
    requires fresh { came_to build.now number ≡ None }
    ensures { IfOk result (λ step. IsNextOfUnit rows.now build.now number unit.now step) }
{
    match choose(alloc, rows, build, number)? {
        Chosen::Held(id) => Ok(UnitStep::Keep(id)),
        Chosen::Other(id) => Ok(UnitStep::Wink(id)),
        Chosen::Nothing => start(alloc, unit),
    }
}

/// The end of a unit without a run, by the rows that its build sees.
fn end_without_run(
    alloc: Global,
    rows: &FirstRows<'_>,
    build: &ActiveBuild,
    number: u32,
    unit: &Unit,
) -> Result<Option<UnitEnd>, NoMemory>
    requires unit { unit_at build.now number ≡ Some unit.now }
    requires within { number < length build.now.units }
    ensures { IfOk result
        (λ end.
        end
        ≡ early_in (first_rows build.now.rows rows.now) build.now unit.now) }
{
    let seen = first_rows(rows, build.rows());
    early(alloc, &seen, build, number, unit)
}

/// What comes next for a unit that has come to nothing yet.
fn next(
    alloc: Global,
    rows: &FirstRows<'_>,
    build: &ActiveBuild,
    number: u32,
    unit: &Unit,
) -> Result<UnitStep, NoMemory>
    requires unit { unit_at build.now number ≡ Some unit.now }
    requires within { number < length build.now.units }
    requires fresh { came_to build.now number ≡ None }
    ensures { IfOk result (λ step. IsNextOfUnit rows.now build.now number unit.now step) }
{
    if let Some(other) = first_awaited(build, number) {
        return Ok(UnitStep::NotReady(other));
    }
    if let Some(end) = end_without_run(alloc, rows, build, number, unit)? {
        return Ok(UnitStep::EndEarly(end));
    }
    reuse_or_start(alloc, rows, build, number, unit)
}

/// What comes next for a unit of an active build: nothing where it has its outcome; its run where it was started; else the wait
/// for another unit, the end without a run, the object that it keeps or that its view winks in, or its start with its script.
/// Fails only where memory runs out.
///
/// Takes time linear in the unit's prerequisites, and look-ups by their paths where one of them is no unit's, or its unit failed
/// or was blocked; look-ups by the paths of its targets; what `reusable` takes; and where it may reuse no object time linear in
/// the bytes of the script.
pub fn step(
    alloc: Global,
    rows: &FirstRows<'_>,
    build: &ActiveBuild,
    unit: u32,
) -> Result<UnitStep, NoMemory>
    requires unit { unit < length build.now.units }
    requires few { length build.now.units < 2 ^ 32 }
    ensures { IfOk result (λ step. IsUnitStep rows.now build.now unit step) }
{
    let found = &build.units()[unit as usize];
    match build.came_to(unit) {
        None => next(alloc, rows, build, unit, found),
        Some(Came::Started) => run_again(alloc, found),
        Some(Came::Concluded(_) | Came::Given(_)) => Ok(UnitStep::Concluded),
    }
}
