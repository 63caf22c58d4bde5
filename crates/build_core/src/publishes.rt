//! The row that the run of a unit's script publishes.

ghost use Rattle.std.specs.Prelude.{◌≡◌, ◌<◌, ◌≤◌, ◌^◌, true, Some, length, map, IfOk};
ghost use Rattle.legal_history.specs.Stories.Lawful.{last_moment};
ghost use Rattle.cc_names.specs.declared.units.Unit as units;
ghost use Rattle.legal_history.specs.Builds.Active.{unit_at};
ghost use Rattle.legal_history.specs.Builds.Choices.{as_entry, in_order, visible};
ghost use Rattle.build_core.specs.Publishing.{CanPublish, RunGave, IsPublishOf};
ghost use Rattle.build_core.specs.VisibleObjects.{AreNeeds};

use crate::active::ActiveBuild;
use crate::fetches::visible;
use crate::steps::script_text;
use cc_names::copies::Copied;
use cc_names::lists::List;
use cc_names::memory::NoMemory;
use cc_names::paths::Path;
use cc_names::rows::{Deed, ReadOf, Row};
use cc_names::texts::Text;
use make_graph::closures::Closure;
use std::alloc::Global;
use std::collections::BTreeMap;
use view_lookup::FirstRows;

/// The row that a unit sees at each of these paths, 0 where it sees none, in byte order of the paths. The closure is that of the
/// unit.
fn rows_seen(
    alloc: Global,
    rows: &FirstRows<'_>,
    build: &ActiveBuild,
    unit: u32,
    closure: &Closure,
    reads: &[Path],
) -> Result<BTreeMap<Path, u64>, NoMemory>
    requires needs { AreNeeds build.now unit closure.now }
    ensures { (it : units.Unit)
        → unit_at build.now unit ≡ Some it
        → IfOk result
        (λ found. found.entries ≡ in_order (visible rows.now build.now unit it) reads.now) }
{
    let mut found = BTreeMap::new(alloc);
    // From the last read to the first, as the record of reads is defined.
    for index in (0..reads.len()).rev() {
        let path = &reads[index];
        let row = visible(rows, build, unit, closure, path).unwrap_or(0);
        found.insert(path.copy(alloc)?, row)?;
    }
    Ok(found)
}

/// The row that a unit sees at each of these paths, as `rows_seen` has it.
fn rows_read(
    alloc: Global,
    rows: &FirstRows<'_>,
    build: &ActiveBuild,
    unit: u32,
    reads: &[Path],
) -> Result<BTreeMap<Path, u64>, NoMemory>
    requires unit { unit < length build.now.units }
    ensures { (it : units.Unit)
        → unit_at build.now unit ≡ Some it
        → IfOk result
        (λ found. found.entries ≡ in_order (visible rows.now build.now unit it) reads.now) }
{
    if let Some(closure) = build.kept_needs(unit) {
        return rows_seen(alloc, rows, build, unit, closure, reads);
    }
    let closure = build.needs(alloc, unit)?;
    rows_seen(alloc, rows, build, unit, &closure, reads)
}

/// The record of reads.
fn record_of_reads(alloc: Global, found: BTreeMap<Path, u64>) -> Result<List<ReadOf>, NoMemory>
    ensures { IfOk result (λ entries. entries ≡ map as_entry found.entries) }
{
    let entries = found
        .into_iter()
        .map(|(path, row)| ReadOf { path, row })
        .collect(alloc)?;
    Ok(List::of(entries))
}

/// The row that a unit of an active build publishes at this moment: its run gave these
/// outputs, and asked for these paths. Fails only where memory runs out.
///
/// Takes for each read the time of `visible`, and time linear in what it copies; and what `needs` takes, where the unit was not
/// started or there was no memory for what it stands on then.
pub fn publish_row(
    alloc: Global,
    rows: &FirstRows<'_>,
    build: &ActiveBuild,
    unit: u32,
    moment: u64,
    outputs: List<Text>,
    reads: &[Path],
) -> Result<Row, NoMemory>
    requires unit { unit < length build.now.units }
    requires moment { moment ≤ last_moment }
    requires formed { (it : units.Unit)
        → unit_at build.now unit ≡ Some it
        → CanPublish rows.now build.now it }
    requires ran { (it : units.Unit)
        → unit_at build.now unit ≡ Some it
        → RunGave rows.now build.now unit it outputs reads.now }
    ensures { (it : units.Unit)
        → unit_at build.now unit ≡ Some it
        → IfOk result (λ row. IsPublishOf rows.now build.now unit it moment row) }
{
    rows.size();
    let found = rows_read(alloc, rows, build, unit, reads)?;
    let entries = record_of_reads(alloc, found)?;
    let unit = &build.units()[unit as usize];
    let deed = Deed::Publish {
        view: build.view().copy(alloc)?,
        targets: unit.targets.copy(alloc)?,
        script: Text::from_bytes(alloc, script_text(unit))?,
        entries,
        outputs,
    };
    Ok(Row::of(build.tag(), moment, deed))
}
