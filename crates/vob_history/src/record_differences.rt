//! The query for where the records of two objects differ.

ghost use Rattle.std.specs.Prelude.{◌≡◌, ◌++◌, ◌||◌, ℕ, List, IfOk, OnOk, map};
ghost use Rattle.std.specs.BTreeMap.{get};
ghost use Rattle.std.specs.Cmp.Lexicographic.{slice_cmp};
ghost use Rattle.std.specs.List.{concat};
ghost use Rattle.std.specs.List.Sorted.{IsStrictlySortedBy};
ghost use Rattle.std.specs.Ordering.{nat_cmp};
ghost use Rattle.base_model.specs.Closures.{is_path_among};
ghost use Rattle.base_model.specs.Objects.{are_same_paths, row_in};
ghost use Rattle.legal_history.specs.Queries.QueryLines.{diffcr};
ghost use Rattle.legal_history.specs.Queries.RecordTexts.{diffcr_text, is_same_row, path_lines, side_line, side_name, unless_same};
ghost use Rattle.view_lookup.specs.Answering.{AnswersAs};
ghost use Rattle.vob_history.specs.Differences.{is_path_read, difference_lines};

use crate::found::find_object;
use crate::lines::push_line;
use crate::records::record_of;
use crate::row_names::push_row_name;
use cc_names::memory::{NoMemory, Or};
use cc_names::names::Name;
use cc_names::paths::Path;
use cc_names::refusals::Refusal;
use cc_names::rows::ReadOf;
use cc_names::texts::Text;
use std::alloc::Global;
use std::collections::{BTreeMap, BTreeSet};
use view_lookup::{FirstRows, view_row};

/// The row that a record has at each path.
fn rows_by_path(alloc: Global, entries: &[ReadOf]) -> Result<BTreeMap<Path, u64>, NoMemory>
    ensures { IfOk result
        (λ found. (path : List ℕ)
        → get (slice_cmp nat_cmp) found path ≡ row_in entries.now path) }
{
    let mut found = BTreeMap::new(alloc);
    // From the last entry to the first: of two at a path the first counts.
    for index in (0..entries.len()).rev() {
        let entry = &entries[index];
        found.insert(entry.path.copy(alloc)?, entry.row)?;
    }
    Ok(found)
}

/// Adds the paths of a record.
fn add_paths(alloc: Global, paths: &mut BTreeSet<Path>, entries: &[ReadOf]) -> Result<(), NoMemory>
    ensures { OnOk result
        ((path : List ℕ)
        → is_path_among path paths.new.keys
        ≡ (is_path_read path entries.now || is_path_among path paths.old.keys)) }
{
    for entry in entries {
        paths.insert(entry.path.copy(alloc)?)?;
    }
    Ok(())
}

/// Whether two records have the same at a path.
fn is_same_row(one: Option<u64>, two: Option<u64>) -> bool
    ensures { result ≡ is_same_row one two }
{
    match one {
        None => two.is_none(),
        Some(one) => match two {
            None => false,
            Some(two) => one == two,
        },
    }
}

/// A path on one side of a difference.
fn side_name(
    alloc: Global,
    rows: &FirstRows<'_>,
    path: &[u8],
    row: u64,
) -> Result<Vec<u8>, NoMemory>
    ensures { IfOk result (λ name. name.items ≡ side_name rows.now path.now row) }
{
    let mut name = Vec::new(alloc);
    if row == 0 {
        name.extend_from_slice(path)?;
        name.extend_from_slice(b" absent")?;
        return Ok(name);
    }
    push_row_name(alloc, &mut name, rows, path, row)?;
    Ok(name)
}

/// Adds one side of a difference, where the record has the path.
fn push_side(
    alloc: Global,
    text: &mut Vec<u8>,
    rows: &FirstRows<'_>,
    mark: &[u8],
    path: &[u8],
    row: Option<u64>,
) -> Result<(), NoMemory>
    ensures { OnOk result
        (text.new.items ≡ text.old.items ++ side_line rows.now mark.now path.now row) }
{
    match row {
        None => Ok(()),
        Some(row) => {
            let name = side_name(alloc, rows, path, row)?;
            push_line(text, mark, &name)
        }
    }
}

/// Adds a path with what each record has there, where they differ.
fn push_path(
    alloc: Global,
    text: &mut Vec<u8>,
    rows: &FirstRows<'_>,
    path: &[u8],
    one: Option<u64>,
    two: Option<u64>,
) -> Result<(), NoMemory>
    ensures { OnOk result
        (text.new.items ≡ text.old.items ++ difference_lines rows.now path.now one two) }
{
    if is_same_row(one, two) {
        return Ok(());
    }
    push_side(alloc, text, rows, b"< ", path, one)?;
    push_side(alloc, text, rows, b"> ", path, two)
}

/// Adds what two records have at each of these paths where they differ.
fn push_listed(
    alloc: Global,
    text: &mut Vec<u8>,
    rows: &FirstRows<'_>,
    paths: BTreeSet<Path>,
    one: &[ReadOf],
    two: &[ReadOf],
) -> Result<(), NoMemory>
    ensures reported { OnOk result
        (text.new.items
        ≡ text.old.items
        ++ concat (map (path_lines rows.now one.now two.now) paths.keys)) }
    ensures ordered { OnOk result (IsStrictlySortedBy (slice_cmp nat_cmp) paths.keys) }
{
    let first = rows_by_path(alloc, one)?;
    let second = rows_by_path(alloc, two)?;
    for path in &paths {
        let bytes = path.as_bytes();
        push_path(
            alloc,
            text,
            rows,
            bytes,
            first.get(path).copied(),
            second.get(path).copied(),
        )?;
    }
    Ok(())
}

/// The paths of two records.
fn paths_of(alloc: Global, one: &[ReadOf], two: &[ReadOf]) -> Result<BTreeSet<Path>, NoMemory>
    ensures { IfOk result
        (λ paths. (path : List ℕ)
        → is_path_among path paths.keys
        ≡ (is_path_read path one.now || is_path_read path two.now)) }
{
    let mut paths = BTreeSet::new(alloc);
    add_paths(alloc, &mut paths, two)?;
    add_paths(alloc, &mut paths, one)?;
    Ok(paths)
}

/// Whether two lists have the same paths in the same order.
fn are_same_paths(one: &[Path], two: &[Path]) -> bool
    ensures { result ≡ are_same_paths one.now two.now }
{
    one == two
}

/// Adds a line where two records differ.
fn push_unless(text: &mut Vec<u8>, same: bool, line: &[u8]) -> Result<(), NoMemory>
    ensures { OnOk result (text.new.items ≡ text.old.items ++ unless_same same line.now) }
{
    if !same {
        text.extend_from_slice(line)?;
    }
    Ok(())
}

/// How the records of two objects differ.
fn diffcr_text(alloc: Global, rows: &FirstRows<'_>, one: u64, two: u64) -> Result<Text, NoMemory>
    ensures { IfOk result (λ text. text ≡ diffcr_text rows.now one two) }
{
    let first = record_of(rows, one);
    let second = record_of(rows, two);
    let paths = paths_of(alloc, first.entries, second.entries)?;
    let same_targets = are_same_paths(first.targets, second.targets);
    let same_script = first.script == second.script;
    let mut text = Vec::new(alloc);
    push_unless(&mut text, same_targets, b"targets differ\n")?;
    push_unless(&mut text, same_script, b"script differs\n")?;
    push_listed(alloc, &mut text, rows, paths, first.entries, second.entries)?;
    Ok(Text::of(text))
}

/// The text of `diffcr V P W Q`, where the records of two objects that views hold differ, or its first refusal. Takes the time of
/// `held_object` for both, and time linear in the records, times logarithmic in them, with that of the names of the rows that
/// differ.
pub fn diffcr(
    alloc: Global,
    rows: &FirstRows<'_>,
    view: &Name,
    path: &Path,
    other: &Name,
    second: &Path,
) -> Result<Text, Or<Refusal>>
    ensures { AnswersAs result (diffcr rows.now view.now path.now other.now second.now) }
{
    if view_row(rows, view).is_none() {
        return Err(Or::Is(Refusal::NoView));
    }
    if view_row(rows, other).is_none() {
        return Err(Or::Is(Refusal::NoView));
    }
    let one = find_object(alloc, rows, view, path)?;
    let two = find_object(alloc, rows, other, second)?;
    Ok(diffcr_text(alloc, rows, one, two)?)
}
