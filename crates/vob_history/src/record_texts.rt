//! The query for what an object was made from.

ghost use Rattle.std.specs.Prelude.{◌≡◌, ◌++◌, IfOk, OnOk, map};
ghost use Rattle.std.specs.List.{concat};
ghost use Rattle.cc_names.specs.Cuts.{lines_of};
ghost use Rattle.legal_history.specs.Queries.QueryLines.{catcr};
ghost use Rattle.legal_history.specs.Queries.RecordTexts.{catcr_text, line_of_read};
ghost use Rattle.view_lookup.specs.Answering.{AnswersAs};
ghost use Rattle.vob_history.specs.Recorded.{entry_line, recorded_script_line, target_line};

use crate::found::find_object;
use crate::lines::push_line;
use crate::records::record_of;
use crate::row_names::push_row_name;
use cc_names::cuts::Lines;
use cc_names::memory::{NoMemory, Or};
use cc_names::names::Name;
use cc_names::paths::Path;
use cc_names::refusals::Refusal;
use cc_names::rows::ReadOf;
use cc_names::texts::Text;
use std::alloc::Global;
use view_lookup::{FirstRows, view_row};

/// Adds a line for each target.
fn push_targets(text: &mut Vec<u8>, targets: &[Path]) -> Result<(), NoMemory>
    ensures { OnOk result
        (text.new.items ≡ text.old.items ++ concat (map target_line targets.now)) }
{
    for target in targets {
        push_line(text, b"target ", target.as_bytes())?;
    }
    Ok(())
}

/// Adds a line for each line of a script.
fn push_script(text: &mut Vec<u8>, script: &[u8]) -> Result<(), NoMemory>
    ensures { OnOk result
        (text.new.items
        ≡ text.old.items ++ concat (map recorded_script_line (lines_of script.now))) }
{
    let mut lines = Lines::of(script);
    while let Some(line) = lines.next() {
        push_line(text, b"script ", line)?;
    }
    Ok(())
}

/// Adds the line of what was read at a path; row 0 says that nothing was there.
fn push_read(
    alloc: Global,
    text: &mut Vec<u8>,
    rows: &FirstRows<'_>,
    path: &[u8],
    row: u64,
) -> Result<(), NoMemory>
    ensures { OnOk result (text.new.items ≡ text.old.items ++ line_of_read rows.now path.now row) }
{
    if row == 0 {
        return push_line(text, b"absent ", path);
    }
    let mut name = Vec::new(alloc);
    push_row_name(alloc, &mut name, rows, path, row)?;
    push_line(text, b"read ", &name)
}

/// Adds a line for each entry.
fn push_entries(
    alloc: Global,
    text: &mut Vec<u8>,
    rows: &FirstRows<'_>,
    entries: &[ReadOf],
) -> Result<(), NoMemory>
    ensures { OnOk result
        (text.new.items ≡ text.old.items ++ concat (map (entry_line rows.now) entries.now)) }
{
    for entry in entries {
        push_read(alloc, text, rows, entry.path.as_bytes(), entry.row)?;
    }
    Ok(())
}

/// The record of an object.
fn catcr_text(alloc: Global, rows: &FirstRows<'_>, object: u64) -> Result<Text, NoMemory>
    ensures { IfOk result (λ text. text ≡ catcr_text rows.now object) }
{
    let record = record_of(rows, object);
    let mut text = Vec::new(alloc);
    push_targets(&mut text, record.targets)?;
    push_script(&mut text, record.script)?;
    push_entries(alloc, &mut text, rows, record.entries)?;
    Ok(Text::of(text))
}

/// The text of `catcr V P`, the record of the object that the view holds at the path, or its first refusal. Takes the time of
/// `held_object`, time linear in the record, and for each entry that of its row's name.
pub fn catcr(
    alloc: Global,
    rows: &FirstRows<'_>,
    view: &Name,
    path: &Path,
) -> Result<Text, Or<Refusal>>
    ensures { AnswersAs result (catcr rows.now view.now path.now) }
{
    if view_row(rows, view).is_none() {
        return Err(Or::Is(Refusal::NoView));
    }
    let object = find_object(alloc, rows, view, path)?;
    Ok(catcr_text(alloc, rows, object)?)
}
