//! The reply of a build that has ended: its units with objects at each of their targets, the others at their first.

ghost use Rattle.std.specs.Prelude.{◌≡◌, ◌++◌, ◌<◌, ◌^◌, [], true, Some, length, option_copied, IfOk, OnOk};
ghost use Rattle.legal_history.specs.Builds.Replied.{digest_at, is_of_tag, is_own, word_of_object, word_of_end, word_of_came, reported_targets, line_before, unit_lines_of, lines_from, reply_of};
ghost use Rattle.legal_history.specs.Builds.Active.{came_to, Given};
ghost use Rattle.base_model.specs.Texts.{text};

use crate::active::{ActiveBuild, Came};
use cc_names::copies::Copied;
use cc_names::lists::List;
use cc_names::memory::NoMemory;
use cc_names::paths::Path;
use cc_names::replies::{Digest, Reply, UnitLine, UnitWord};
use cc_names::rows::{Row, Tag};
use cc_names::steps::UnitEnd;
use reply_text::digest_of;
use std::alloc::Global;
use view_lookup::{FirstRows, row_at, text_of};

/// The length and the SHA-256 of an output; of no bytes where there is none.
fn digest_at(output: Option<&[u8]>) -> Digest
    ensures { result ≡ digest_at (option_copied output.entry) }
{
    let bytes = match output {
        Some(bytes) => bytes,
        None => b"",
    };
    Digest {
        length: bytes.len() as u64,
        sha256: digest_of(bytes),
    }
}

fn is_of_tag(tag: Tag, row: Option<&Row>) -> bool
    ensures { result ≡ is_of_tag tag (option_copied row.entry) }
{
    match row {
        None => false,
        Some(row) => {
            let own = row.tag();
            own.phase == tag.phase && own.lane == tag.lane && own.command == tag.command
        }
    }
}

/// Whether a build published an object itself.
fn is_own(rows: &FirstRows<'_>, build: &ActiveBuild, id: u64) -> bool
    ensures { result ≡ is_own rows.now build.now id }
{
    build.rows() <= id && is_of_tag(build.tag(), row_at(rows, id))
}

/// The word for an object that a unit was given, by its output at a path.
fn word_of_given(rows: &FirstRows<'_>, build: &ActiveBuild, path: &Path, id: u64) -> UnitWord
    ensures { result
        ≡ word_of_object rows.now build.now (Some (Given id))
        (digest_at (text rows.now id path.now)) }
{
    let digest = digest_at(text_of(rows, id, path));
    if is_own(rows, build, id) {
        UnitWord::Made(digest)
    } else {
        UnitWord::Winked(digest)
    }
}

/// The word for an end without a row.
fn word_of_end(
    alloc: Global,
    rows: &FirstRows<'_>,
    path: &Path,
    end: &UnitEnd,
) -> Result<UnitWord, NoMemory>
    ensures { IfOk result (λ word. word ≡ word_of_end rows.now path.now end.now) }
{
    match end {
        UnitEnd::Kept(id) => Ok(UnitWord::Kept(digest_at(text_of(rows, *id, path)))),
        UnitEnd::Bare => Ok(UnitWord::Bare),
        UnitEnd::Failed(fault) => Ok(UnitWord::Failed(fault.copy(alloc)?)),
        UnitEnd::Blocked(other) => Ok(UnitWord::Blocked(other.copy(alloc)?)),
    }
}

/// The word for a unit at one of its targets, if the unit has its outcome.
fn word_of(
    alloc: Global,
    rows: &FirstRows<'_>,
    build: &ActiveBuild,
    unit: u32,
    path: &Path,
) -> Result<Option<UnitWord>, NoMemory>
    ensures { IfOk result
        (λ word. word ≡ word_of_came rows.now build.now path.now (came_to build.now unit)) }
{
    match build.came_to(unit) {
        None | Some(Came::Started) => Ok(None),
        Some(Came::Concluded(end)) => Ok(Some(word_of_end(alloc, rows, path, end)?)),
        Some(Came::Given(id)) => Ok(Some(word_of_given(rows, build, path, *id))),
    }
}

/// Puts the line of a unit at one of its targets after others, if the unit has its outcome.
fn push_unit_line(
    alloc: Global,
    rows: &FirstRows<'_>,
    build: &ActiveBuild,
    unit: u32,
    path: &Path,
    lines: &mut Vec<UnitLine>,
) -> Result<(), NoMemory>
    ensures { OnOk result
        (lines.new.items
        ≡ lines.old.items
        ++ line_before path.now
        (word_of_came rows.now build.now path.now (came_to build.now unit)) []) }
{
    if let Some(word) = word_of(alloc, rows, build, unit, path)? {
        let path = path.copy(alloc)?;
        lines.push(UnitLine { path, word })?;
    }
    Ok(())
}

/// Puts the lines of a unit at these targets after others.
fn push_lines(
    alloc: Global,
    rows: &FirstRows<'_>,
    build: &ActiveBuild,
    unit: u32,
    targets: &[Path],
    lines: &mut Vec<UnitLine>,
) -> Result<(), NoMemory>
    ensures { OnOk result
        (lines.new.items
        ≡ lines.old.items
        ++ unit_lines_of (λ path. word_of_came rows.now build.now path (came_to build.now unit))
        targets.now) }
{
    let mut rest = targets;
    while let Some((path, more)) = rest.split_first() {
        push_unit_line(alloc, rows, build, unit, path, lines)?;
        rest = more;
    }
    Ok(())
}

/// The targets at which a unit is told: each of them where it has an object, else the first.
fn reported_targets(has_object: bool, targets: &[Path]) -> &[Path]
    ensures { result.now ≡ reported_targets has_object targets.now }
{
    if has_object {
        targets
    } else {
        &targets[..targets.len().min(1)]
    }
}

/// The lines of all units, in order.
fn lines_of_units(
    alloc: Global,
    rows: &FirstRows<'_>,
    build: &ActiveBuild,
) -> Result<Vec<UnitLine>, NoMemory>
    requires few { length build.now.units < 2 ^ 32 }
    ensures { IfOk result (λ lines. lines.items ≡ lines_from rows.now build.now 0 build.now.units) }
{
    let mut lines = Vec::new(alloc);
    let mut rest = build.units();
    let mut number = 0;
    while let Some((unit, more)) = rest.split_first() {
        let has_object = build.object_of(number).is_some();
        let targets = reported_targets(has_object, unit.targets.as_slice());
        push_lines(alloc, rows, build, number, targets, &mut lines)?;
        rest = more;
        number += 1;
    }
    Ok(lines)
}

/// The reply of a build: unit by unit in order, a line for each target of those that have an object, a line for the first target
/// of those that ended without one. Fails where memory runs out. Takes time linear in the targets and in the outputs, and for a
/// unit with several targets in the square of their number.
pub fn reply_of(alloc: Global, rows: &FirstRows<'_>, build: &ActiveBuild) -> Result<Reply, NoMemory>
    requires few { length build.now.units < 2 ^ 32 }
    ensures { IfOk result (λ reply. reply ≡ reply_of rows.now build.now) }
{
    let lines = lines_of_units(alloc, rows, build)?;
    Ok(Reply::Built(List::of(lines)))
}
