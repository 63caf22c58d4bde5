//! Which object a unit of a build may reuse in place of a run of its script.

ghost use Rattle.std.specs.Prelude.{◌≡◌, ◌<◌, false, Some, length, IfOk};
ghost use Rattle.std.specs.List.{list_all};
ghost use Rattle.cc_names.specs.declared.units.Unit as units;
ghost use Rattle.legal_history.specs.Builds.Active.{unit_at};
ghost use Rattle.legal_history.specs.Builds.Choices.{visible};
ghost use Rattle.base_model.specs.Objects.{agrees, held_at_all};
ghost use Rattle.legal_history.specs.Builds.Reuse.{entry_agrees, if_matches, matches, newest_match, reusable};
ghost use Rattle.build_core.specs.Reusing.{object_chosen, IsChosen};
ghost use Rattle.build_core.specs.VisibleObjects.{AreNeeds};

use crate::active::ActiveBuild;
use crate::fetches::visible;
use crate::steps::script_text;
use cc_names::memory::NoMemory;
use cc_names::rows::ReadOf;
use cc_names::units::Unit;
use make_graph::closures::Closure;
use std::alloc::Global;
use view_lookup::{FirstRows, RecordTest, held_at_all, newest_object, publishes, row_at};

/// The object that a unit may reuse, if there is one, by whether its build's view holds it.
#[derive(Clone, Copy)]
pub(crate) enum Chosen {
    /// There is none.
    Nothing,
    /// This one, which the view holds at every target.
    Held(u64),
    /// This one, which the view does not hold at every target.
    Other(u64),
}

impl Chosen {
    /// The object, however the view holds it.
    fn object(self) -> Option<u64>
        ensures { result ≡ object_chosen self }
    {
        match self {
            Chosen::Nothing => None,
            Chosen::Held(id) | Chosen::Other(id) => Some(id),
        }
    }
}

/// A unit of an active build, with which the records of objects are compared.
#[derive(Drop)]
struct Compared<'a> {
    rows: &'a FirstRows<'a>,
    build: &'a ActiveBuild,
    number: u32,
    unit: &'a Unit,
    closure: &'a Closure,
    ghost is: { unit_at build.now number ≡ Some unit.now },
    ghost needs: { AreNeeds build.now number closure.now },
}

impl RecordTest for Compared<'_> {
    ghost use Rattle.build_core.specs.Reusing.{agrees_with};

    ghost passes = { λ it. agrees_with it.rows.now it.build.now it.number it.unit.now };

    fn passes(&self, script: &[u8], entries: &[ReadOf]) -> bool {
        script == script_text(self.unit) && entries_agree(self, entries)
    }
}

/// Whether a row is the one that was found; row 0 says that nothing was there.
fn agrees(row: u64, found: Option<u64>) -> bool
    ensures { result ≡ agrees row found }
{
    match found {
        None => row == 0,
        Some(number) => row != 0 && row == number,
    }
}

/// Whether each entry has the row that the unit sees at its path, or says that nothing was there and the unit sees nothing. Takes
/// the time of `visible` for each entry, as far as the first that differs.
fn entries_agree(unit: &Compared<'_>, entries: &[ReadOf]) -> bool
    ensures { result
        ≡ list_all
        (entry_agrees
        (visible unit.now.rows.now unit.now.build.now unit.now.number unit.now.unit.now))
        entries.now }
{
    for entry in entries {
        let found = visible(
            unit.rows,
            unit.build,
            unit.number,
            unit.closure,
            &entry.path,
        );
        if !agrees(entry.row, found) {
            return false;
        }
    }
    true
}

/// Whether the record of an object is of the unit's targets and script, and each entry agrees with what the unit sees.
fn record_matches(unit: &Compared<'_>, object: u64) -> bool
    ensures { result
        ≡ matches unit.now.rows.now unit.now.build.now unit.now.number unit.now.unit.now object }
{
    match row_at(unit.rows, object) {
        Some(row) => publishes(row.deed(), unit.unit.targets.as_slice(), unit),
        None => false,
    }
}

/// The object that the build's view holds at every target of the unit, where its record matches.
fn own_match(unit: &Compared<'_>) -> Option<u64>
    ensures { let b = unit.now.rows.now in
        let build = unit.now.build.now in
        result
        ≡ if_matches b build unit.now.number unit.now.unit.now
        (held_at_all b build.view unit.now.unit.now.targets) }
{
    let held = held_at_all(unit.rows, unit.build.view(), unit.unit.targets.as_slice())?;
    if record_matches(unit, held) {
        Some(held)
    } else {
        None
    }
}

/// The newest live object whose record matches.
fn newest_match(unit: &Compared<'_>) -> Option<u64>
    ensures { let b = unit.now.rows.now in
        result ≡ newest_match b unit.now.build.now unit.now.number unit.now.unit.now b }
{
    newest_object(unit.rows, unit.unit.targets.as_slice(), unit)
}

/// The newest live object whose record matches, where the view's own does not.
fn other_match(unit: &Compared<'_>) -> Chosen
    requires rebuild { unit.now.build.now.rebuild ≡ false }
    requires any { unit.now.build.now.own_only ≡ false }
    requires own { let b = unit.now.rows.now in
        let build = unit.now.build.now in
        if_matches b build unit.now.number unit.now.unit.now
        (held_at_all b build.view unit.now.unit.now.targets)
        ≡ None }
    ensures { let b = unit.now.rows.now in
        IsChosen b unit.now.build.now unit.now.number unit.now.unit.now result }
{
    match newest_match(unit) {
        Some(id) => Chosen::Other(id),
        None => Chosen::Nothing,
    }
}

/// The object of the view, else the newest unless the view's own alone may be reused.
fn own_or_newest(unit: &Compared<'_>) -> Chosen
    requires { unit.now.build.now.rebuild ≡ false }
    ensures { let b = unit.now.rows.now in
        IsChosen b unit.now.build.now unit.now.number unit.now.unit.now result }
{
    match own_match(unit) {
        Some(id) => Chosen::Held(id),
        None if unit.build.own_only() => Chosen::Nothing,
        None => other_match(unit),
    }
}

/// The object that a unit of an active build may reuse, as `reusable` has it, and whether the view holds it at every target.
pub(crate) fn choose(
    alloc: Global,
    rows: &FirstRows<'_>,
    build: &ActiveBuild,
    unit: u32,
) -> Result<Chosen, NoMemory>
    requires unit { unit < length build.now.units }
    ensures { (it : units.Unit)
        → unit_at build.now unit ≡ Some it
        → IfOk result (IsChosen rows.now build.now unit it) }
{
    if build.rebuild() {
        return Ok(Chosen::Nothing);
    }
    let closure = build.needs(alloc, unit)?;
    let compared = Compared {
        rows,
        build,
        number: unit,
        unit: &build.units()[unit as usize],
        closure: &closure,
    };
    Ok(own_or_newest(&compared))
}

/// The object that a unit of an active build may reuse: the one that the build's view holds at every target, where its record
/// matches, else the newest live one whose record matches; by the build's options the view's own alone, or none. A record
/// matches that has the unit's targets in their order and its script, and each of whose entries has the row that the unit sees
/// at its path, or says that nothing was there and the unit sees nothing. Fails only where memory runs out.
///
/// Takes what `needs` takes, the time of `held_at_all` at the targets, and that of `newest_object`; and for each record of these
/// targets that it looks at time linear in the script, and for each entry the time of `visible`, as far as the first that
/// differs.
pub fn reusable(
    alloc: Global,
    rows: &FirstRows<'_>,
    build: &ActiveBuild,
    unit: u32,
) -> Result<Option<u64>, NoMemory>
    requires unit { unit < length build.now.units }
    ensures { (it : units.Unit)
        → unit_at build.now unit ≡ Some it
        → IfOk result (λ found. found ≡ reusable rows.now build.now unit it) }
{
    let chosen = choose(alloc, rows, build, unit)?;
    Ok(chosen.object())
}
