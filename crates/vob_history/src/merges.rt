//! The query for what is left to be merged.

ghost use Rattle.std.specs.Prelude.{◌≡◌, ◌++◌, codes, bytes_eq, IfOk, OnOk};
ghost use Rattle.base_model.specs.Views.{out};
ghost use Rattle.legal_history.specs.Queries.Merges.{branch_of_type, findmerge_text, found_line, merge_line, merge_source, merge_target};
ghost use Rattle.legal_history.specs.Queries.QueryLines.{findmerge, needs_branch};
ghost use Rattle.legal_history.specs.Queries.VersionNames.{at_version, line, version_name};
ghost use Rattle.view_lookup.specs.Answering.{AnswersAs};
ghost use Rattle.vob_history.specs.Found.{Tests};

use crate::elements_below::elements_below;
use crate::found::find_selected;
use crate::lines::push_path_at_version;
use crate::reached::reaches;
use cc_names::memory::{NoMemory, Or};
use cc_names::names::Name;
use cc_names::paths::Path;
use cc_names::refusals::Refusal;
use cc_names::selection::{Picked, Seen};
use cc_names::texts::Text;
use std::alloc::Global;
use view_lookup::{FirstRows, branch_named, checked_out, is_branch_type, latest_version};

/// Whether a name is that of the branch that each element has.
fn is_main(name: &Name) -> bool
    ensures { result ≡ bytes_eq name.now (codes "main") }
{
    name.as_bytes() == b"main".as_slice()
}

/// The element's branch of a type; `main` is named by the element.
fn branch_of_type(rows: &FirstRows<'_>, element: u64, name: &Name) -> Option<u64>
    ensures { result ≡ branch_of_type rows.now element name.now }
{
    if is_main(name) {
        Some(element)
    } else {
        branch_named(rows, element, name)
    }
}

/// The last version on the element's branch of a type.
fn merge_source(rows: &FirstRows<'_>, element: u64, name: &Name) -> Option<u64>
    ensures { result ≡ merge_source rows.now element name.now }
{
    let branch = branch_of_type(rows, element, name)?;
    latest_version(rows, branch, None)
}

/// The selected version, or the origin of the view's checkout where that is what is selected.
fn merge_target(rows: &FirstRows<'_>, view: &Name, element: u64, picked: Picked) -> u64
    ensures { result ≡ merge_target picked.out picked (out rows.now view.now element) }
{
    if !picked.out {
        return picked.row;
    }
    match checked_out(rows, view, element) {
        None => picked.row,
        Some(checkout) => checkout.origin,
    }
}

/// Adds the line of a version of the element at a path that is to be merged into another one.
fn push_merge(
    alloc: Global,
    text: &mut Vec<u8>,
    rows: &FirstRows<'_>,
    path: &Path,
    source: u64,
    target: u64,
) -> Result<(), NoMemory>
    ensures { OnOk result
        (text.new.items
        ≡ text.old.items
        ++ line
        (at_version path.now (version_name rows.now source) ++ codes " into "
        ++ at_version path.now (version_name rows.now target))) }
{
    let bytes = path.as_bytes();
    push_path_at_version(alloc, text, rows, bytes, source)?;
    text.extend_from_slice(b" into ")?;
    push_path_at_version(alloc, text, rows, bytes, target)?;
    text.push(b'\n')?;
    Ok(())
}

/// Adds the line of the element at a path, where its last version on the branch does not reach what is selected.
fn push_unless_reached(
    alloc: Global,
    text: &mut Vec<u8>,
    rows: &FirstRows<'_>,
    path: &Path,
    target: u64,
    source: Option<u64>,
) -> Result<(), NoMemory>
    ensures { OnOk result
        (text.new.items ≡ text.old.items ++ merge_line rows.now path.now target source) }
{
    match source {
        None => Ok(()),
        Some(source) => {
            if !reaches(alloc, rows, source, target)? {
                push_merge(alloc, text, rows, path, source, target)?;
            }
            Ok(())
        }
    }
}

/// Adds the line of a path, where an element stands there that is to be merged.
fn push_found(
    alloc: Global,
    text: &mut Vec<u8>,
    rows: &FirstRows<'_>,
    view: &Name,
    branch: &Name,
    path: &Path,
    seen: Seen,
) -> Result<(), NoMemory>
    ensures { OnOk result
        (text.new.items
        ≡ text.old.items ++ found_line rows.now view.now branch.now path.now seen) }
{
    match seen {
        Seen::Element(element, picked) => {
            let target = merge_target(rows, view, element, picked);
            push_unless_reached(
                alloc,
                text,
                rows,
                path,
                target,
                merge_source(rows, element, branch),
            )
        }
        Seen::Private(_) => Ok(()),
        Seen::Unselected(_) => Ok(()),
        Seen::Nothing => Ok(()),
    }
}

/// The lines of the elements at a path and below it.
fn findmerge_text(
    alloc: Global,
    rows: &FirstRows<'_>,
    view: &Name,
    path: &Path,
    branch: &Name,
) -> Result<Text, NoMemory>
    ensures { IfOk result
        (λ text. text ≡ findmerge_text rows.now view.now path.now branch.now) }
{
    let elements = elements_below(alloc, rows, view, path)?;
    let mut text = Vec::new(alloc);
    for (place, seen) in &elements {
        push_found(alloc, &mut text, rows, view, branch, place, *seen)?;
    }
    Ok(Text::of(text))
}

/// The name is `main`, or that of a branch type.
fn needs_branch(alloc: Global, rows: &FirstRows<'_>, name: &Name) -> Result<(), Or<Refusal>>
    ensures { Tests result (needs_branch rows.now name.now) }
{
    if is_main(name) || is_branch_type(rows, name) {
        Ok(())
    } else {
        Err(Or::Is(Refusal::NoType(name.copy(alloc)?)))
    }
}

/// The text of `findmerge V P -fversion .../B/LATEST`, a line for each element at the path and below it whose last version on the
/// branch has not reached what the view selects of it, or its first refusal. Takes the time of `elements_below`, and for each
/// element that has the branch that of `reaches` and of two names of versions.
pub fn findmerge(
    alloc: Global,
    rows: &FirstRows<'_>,
    view: &Name,
    path: &Path,
    branch: &Name,
) -> Result<Text, Or<Refusal>>
    ensures { AnswersAs result (findmerge rows.now view.now path.now branch.now) }
{
    find_selected(alloc, rows, view, path)?;
    needs_branch(alloc, rows, branch)?;
    Ok(findmerge_text(alloc, rows, view, path, branch)?)
}
