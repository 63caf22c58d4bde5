//! The query for what is selected of an element.

ghost use Rattle.std.specs.Prelude.{◌≡◌, ◌++◌, codes, IfOk, OnOk, map};
ghost use Rattle.std.specs.List.{concat};
ghost use Rattle.legal_history.specs.Queries.ElementTexts.{describe_text, kind_word, labels_on, selected_lines};
ghost use Rattle.legal_history.specs.Queries.QueryLines.{describe};
ghost use Rattle.legal_history.specs.Queries.VersionNames.{line, version_name};
ghost use Rattle.view_lookup.specs.Answering.{AnswersAs};
ghost use Rattle.vob_history.specs.Descriptions.{label_line};

use crate::found::find_selected;
use crate::lines::push_line;
use crate::version_labels::{labels_of, labels_on};
use cc_names::memory::{NoMemory, Or};
use cc_names::names::Name;
use cc_names::numbers::push_number;
use cc_names::paths::Path;
use cc_names::refusals::Refusal;
use cc_names::selection::Picked;
use cc_names::texts::Text;
use std::alloc::Global;
use view_lookup::{FirstRows, is_directory_element, origin_name, version_name};

/// The word for the kind of an element.
fn kind_word(is_directory: bool) -> &'static [u8]
    ensures { result.now ≡ kind_word is_directory }
{
    if is_directory { b"directory" } else { b"file" }
}

/// Adds a line for each of these labels.
fn push_labels(text: &mut Vec<u8>, labels: &[&Text]) -> Result<(), NoMemory>
    ensures { OnOk result
        (text.new.items
        ≡ text.old.items ++ concat (map (λ label. label_line label.now) labels.now)) }
{
    for label in labels {
        push_line(text, b"label ", label.as_bytes())?;
    }
    Ok(())
}

/// Adds a line for each label on a version of the element.
fn push_labels_on(
    alloc: Global,
    text: &mut Vec<u8>,
    rows: &FirstRows<'_>,
    element: u64,
    version: u64,
) -> Result<(), NoMemory>
    ensures { OnOk result
        (text.new.items
        ≡ text.old.items ++ concat (map label_line (labels_on rows.now element version))) }
{
    let labels = labels_of(alloc, rows, element)?;
    let own = labels_on(alloc, &labels, version)?;
    push_labels(text, &own)?;
    Ok(())
}

/// Adds the line of a version.
fn push_version(
    alloc: Global,
    text: &mut Vec<u8>,
    rows: &FirstRows<'_>,
    version: u64,
) -> Result<(), NoMemory>
    ensures { OnOk result
        (text.new.items
        ≡ text.old.items ++ line (codes "version " ++ version_name rows.now version)) }
{
    let name = version_name(alloc, rows, version)?;
    push_line(text, b"version ", name.as_bytes())
}

/// Adds the selected version with its labels, or the view's checkout.
fn push_selected(
    alloc: Global,
    text: &mut Vec<u8>,
    rows: &FirstRows<'_>,
    view: &Name,
    element: u64,
    picked: Picked,
) -> Result<(), NoMemory>
    ensures { OnOk result
        (text.new.items
        ≡ text.old.items ++ selected_lines rows.now view.now element picked picked.out) }
{
    if picked.out {
        let name = origin_name(alloc, rows, view, element)?;
        push_line(text, b"checkedout from ", name.as_bytes())
    } else {
        push_version(alloc, text, rows, picked.row)?;
        push_labels_on(alloc, text, rows, element, picked.row)?;
        Ok(())
    }
}

/// An element, its kind, and what is selected of it.
fn describe_text(
    alloc: Global,
    rows: &FirstRows<'_>,
    view: &Name,
    element: u64,
    picked: Picked,
) -> Result<Text, NoMemory>
    ensures { IfOk result (λ text. text ≡ describe_text rows.now view.now element picked) }
{
    let mut number = Vec::new(alloc);
    push_number(alloc, &mut number, element)?;
    let mut text = Vec::new(alloc);
    push_line(&mut text, b"element ", &number)?;
    push_line(
        &mut text,
        b"kind ",
        kind_word(is_directory_element(rows, element)),
    )?;
    push_selected(alloc, &mut text, rows, view, element, picked)?;
    Ok(Text::of(text))
}

/// The text of `describe V P`, the element there, its kind and what is selected of it with its labels, or its first refusal.
/// Takes the time of `at` and of `labels_of`, and time linear in the text.
pub fn describe(
    alloc: Global,
    rows: &FirstRows<'_>,
    view: &Name,
    path: &Path,
) -> Result<Text, Or<Refusal>>
    ensures { AnswersAs result (describe rows.now view.now path.now) }
{
    let (element, picked) = find_selected(alloc, rows, view, path)?;
    Ok(describe_text(alloc, rows, view, element, picked)?)
}
