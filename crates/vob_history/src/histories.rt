//! The query for what was done to an element.

ghost use Rattle.std.specs.Prelude.{◌≡◌, ◌≤◌, ◌++◌, codes, map, IfOk, OnOk};
ghost use Rattle.std.specs.List.{concat};
ghost use Rattle.std.specs.List.Sorted.{IsStrictlySortedBy};
ghost use Rattle.std.specs.Ordering.{nat_cmp};
ghost use Rattle.cc_names.specs.Formed.{IsDeedFormed, element_of};
ghost use Rattle.legal_history.specs.Queries.HistoryTexts.{dated_line, history_line, lshistory_text, placed_lines};
ghost use Rattle.legal_history.specs.Queries.QueryLines.{lshistory};
ghost use Rattle.legal_history.specs.Queries.VersionNames.{branch_name, version_name};
ghost use Rattle.view_lookup.specs.Answering.{AnswersAs};
ghost use Rattle.vob_history.specs.Histories.{label_text, history_row_lines};

use crate::found::find_selected;
use cc_names::memory::{NoMemory, Or};
use cc_names::names::Name;
use cc_names::paths::Path;
use cc_names::refusals::Refusal;
use cc_names::rows::{Deed, Placed};
use cc_names::texts::Text;
use date_text::print;
use std::alloc::Global;
use view_lookup::{FirstRows, branch_name, history_of, placed_on, row_at, version_name};

/// Adds a line: the date of a moment, words and a name.
fn push_history_line(
    text: &mut Vec<u8>,
    moment: u64,
    words: &[u8],
    name: &[u8],
) -> Result<(), NoMemory>
    requires { moment ≤ 253402300799 }
    ensures { OnOk result
        (text.new.items ≡ text.old.items ++ dated_line moment (words.now ++ name.now)) }
{
    text.extend_from_slice(print(moment).as_bytes())?;
    text.push(b' ')?;
    text.extend_from_slice(words)?;
    text.extend_from_slice(name)?;
    text.push(b'\n')?;
    Ok(())
}

/// A label, a blank, and the name of the version on which it is put.
fn label_text(
    alloc: Global,
    rows: &FirstRows<'_>,
    label: &Name,
    version: u64,
) -> Result<Vec<u8>, NoMemory>
    ensures { IfOk result (λ text. text.items ≡ label_text rows.now label.now version) }
{
    let name = version_name(alloc, rows, version)?;
    let mut text = Vec::from_slice(alloc, label.as_bytes())?;
    text.push(b' ')?;
    text.extend_from_slice(name.as_bytes())?;
    Ok(text)
}

/// Adds the line of a label that was put on a version.
fn push_label(
    alloc: Global,
    text: &mut Vec<u8>,
    rows: &FirstRows<'_>,
    moment: u64,
    label: &Name,
    version: u64,
) -> Result<(), NoMemory>
    requires { moment ≤ 253402300799 }
    ensures { OnOk result
        (text.new.items
        ≡ text.old.items
        ++ dated_line moment (codes "label " ++ label_text rows.now label.now version)) }
{
    let name = label_text(alloc, rows, label, version)?;
    push_history_line(text, moment, b"label ", &name)
}

/// Adds the line of the label that a row put on these versions, where one is of the element.
fn push_placed(
    alloc: Global,
    text: &mut Vec<u8>,
    rows: &FirstRows<'_>,
    element: u64,
    moment: u64,
    label: &Name,
    placed: &[Placed],
) -> Result<(), NoMemory>
    requires moment { moment ≤ 253402300799 }
    requires rising { IsStrictlySortedBy nat_cmp (map element_of placed.now) }
    ensures { OnOk result
        (text.new.items
        ≡ text.old.items ++ placed_lines rows.now element moment label.now placed.now) }
{
    match placed_on(element, placed) {
        None => Ok(()),
        Some(one) => push_label(alloc, text, rows, moment, label, one.version),
    }
}

/// Adds the line of a branch that a row made.
fn push_branch(
    alloc: Global,
    text: &mut Vec<u8>,
    rows: &FirstRows<'_>,
    moment: u64,
    branch: u64,
) -> Result<(), NoMemory>
    requires { moment ≤ 253402300799 }
    ensures { OnOk result
        (text.new.items
        ≡ text.old.items
        ++ dated_line moment (codes "create branch " ++ branch_name rows.now branch)) }
{
    let name = branch_name(alloc, rows, branch)?;
    push_history_line(text, moment, b"create branch ", &name)
}

/// Adds the line of a version that a row made.
fn push_version(
    alloc: Global,
    text: &mut Vec<u8>,
    rows: &FirstRows<'_>,
    moment: u64,
    version: u64,
) -> Result<(), NoMemory>
    requires { moment ≤ 253402300799 }
    ensures { OnOk result
        (text.new.items
        ≡ text.old.items
        ++ dated_line moment (codes "create version " ++ version_name rows.now version)) }
{
    let name = version_name(alloc, rows, version)?;
    push_history_line(text, moment, b"create version ", name.as_bytes())
}

/// Adds what row `number` did to the element, by its deed.
fn push_deed(
    alloc: Global,
    text: &mut Vec<u8>,
    rows: &FirstRows<'_>,
    element: u64,
    number: u64,
    moment: u64,
    deed: &Deed,
) -> Result<(), NoMemory>
    requires moment { moment ≤ 253402300799 }
    requires formed { IsDeedFormed deed.now }
    ensures { OnOk result
        (text.new.items
        ≡ text.old.items ++ history_line rows.now element number moment deed.now) }
{
    match deed {
        Deed::Mkelem { .. } if number == element => {
            push_history_line(text, moment, b"create element", b"")
        }
        Deed::Branch { element: of, .. } if *of == element => {
            push_branch(alloc, text, rows, moment, number)
        }
        Deed::Checkin { element: of, .. } if *of == element => {
            push_version(alloc, text, rows, moment, number)
        }
        Deed::Label {
            label,
            element: of,
            version,
        } if *of == element => push_label(alloc, text, rows, moment, label, *version),
        Deed::Unlabel { label, element: of } if *of == element => {
            push_history_line(text, moment, b"unlabel ", label.as_bytes())
        }
        Deed::Labels { label, placed } => {
            push_placed(alloc, text, rows, element, moment, label, placed.as_slice())
        }
        _ => Ok(()),
    }
}

/// Adds what a row did to the element.
fn push_row(
    alloc: Global,
    text: &mut Vec<u8>,
    rows: &FirstRows<'_>,
    element: u64,
    number: u64,
) -> Result<(), NoMemory>
    ensures { OnOk result
        (text.new.items ≡ text.old.items ++ history_row_lines rows.now element number) }
{
    let Some(row) = row_at(rows, number) else {
        return Ok(());
    };
    push_deed(alloc, text, rows, element, number, row.moment(), row.deed())
}

/// Adds what the rows of these numbers did to the element.
fn push_rows(
    alloc: Global,
    text: &mut Vec<u8>,
    rows: &FirstRows<'_>,
    element: u64,
    numbers: &[u64],
) -> Result<(), NoMemory>
    ensures { OnOk result
        (text.new.items
        ≡ text.old.items ++ concat (map (history_row_lines rows.now element) numbers.now)) }
{
    for number in numbers {
        push_row(alloc, text, rows, element, *number)?;
    }
    Ok(())
}

/// What was done to an element, the newest first.
fn history_text(alloc: Global, rows: &FirstRows<'_>, element: u64) -> Result<Text, NoMemory>
    ensures { IfOk result (λ text. text ≡ lshistory_text rows.now element) }
{
    let numbers = history_of(alloc, rows, element)?;
    let mut text = Vec::new(alloc);
    push_rows(alloc, &mut text, rows, element, &numbers)?;
    Ok(Text::of(text))
}

/// The text of `lshistory V P`, what made the element, its branches and versions and moved its labels, or its first refusal.
/// Takes the time of `at` and of `history_of`, for each line that of its version's name, and for each row of the history that put
/// a label on many versions that of `placed_on`.
pub fn lshistory(
    alloc: Global,
    rows: &FirstRows<'_>,
    view: &Name,
    path: &Path,
) -> Result<Text, Or<Refusal>>
    ensures { AnswersAs result (lshistory rows.now view.now path.now) }
{
    let (element, _) = find_selected(alloc, rows, view, path)?;
    Ok(history_text(alloc, rows, element)?)
}
