//! The query for an element's tree of versions.

ghost use Rattle.std.specs.Prelude.{◌≡◌, ◌+◌, ◌<◌, ◌++◌, ℕ, IfOk, OnOk, map};
ghost use Rattle.base_model.specs.Changes.{tree};
ghost use Rattle.legal_history.specs.Queries.ElementTexts.{branch_lines, branches_leaving, in_brackets, lsvtree_text};
ghost use Rattle.legal_history.specs.Queries.QueryLines.{lsvtree};
ghost use Rattle.legal_history.specs.Queries.VersionNames.{at_version, branch_name, line, version_name};
ghost use Rattle.vob_history.specs.LabelSets.{labels_at};
ghost use Rattle.view_lookup.specs.Answering.{AnswersAs};
ghost use Rattle.vob_history.specs.VersionTrees.{TableHasLabels, left_lines, part_lines, steps_left, steps_of};
ghost use Rattle.vob_history.specs.declared.version_trees.Part.TheVariants as parts;

use crate::bracketed::push_brackets;
use crate::found::find_selected;
use crate::lines::push_path_at_version;
use crate::version_labels::{VersionLabels, labels_of, labels_on};
use cc_names::memory::{NoMemory, Or};
use cc_names::names::Name;
use cc_names::paths::Path;
use cc_names::refusals::Refusal;
use cc_names::texts::Text;
use std::alloc::Global;
use view_lookup::{FirstRows, branch_name, branches_leaving, push_at_version, version_numbered};

/// A part of a tree of versions that is left to tell, in which no branch lies deeper than this.
#[derive(Clone, Copy)]
enum Part {
    /// A branch with its versions.
    Branch {
        depth: u64,
        branch: u64,
    },
    /// The versions on a branch from a number on.
    Versions {
        depth: u64,
        branch: u64,
        number: u64,
    },
}

/// Adds the labels on a version in brackets, and nothing where there are none.
fn push_labels_on(
    alloc: Global,
    text: &mut Vec<u8>,
    labels: &VersionLabels,
    version: u64,
) -> Result<(), NoMemory>
    ensures { OnOk result
        (text.new.items ≡ text.old.items ++ in_brackets (labels_at labels.now version)) }
{
    let own = labels_on(alloc, labels, version)?;
    push_brackets(text, &own)
}

/// Adds the line of a version, with the labels on it.
fn push_version(
    alloc: Global,
    text: &mut Vec<u8>,
    rows: &FirstRows<'_>,
    path: &Path,
    labels: &VersionLabels,
    version: u64,
) -> Result<(), NoMemory>
    ensures { OnOk result
        (text.new.items
        ≡ text.old.items
        ++ line
        (at_version path.now (version_name rows.now version)
        ++ in_brackets (labels_at labels.now version))) }
{
    push_path_at_version(alloc, text, rows, path.as_bytes(), version)?;
    push_labels_on(alloc, text, labels, version)?;
    text.push(b'\n')?;
    Ok(())
}

/// Leaves the branches to tell that leave a version, the oldest first.
fn leave_branches(
    alloc: Global,
    left: &mut Vec<Part>,
    rows: &FirstRows<'_>,
    depth: u64,
    version: u64,
) -> Result<(), NoMemory>
    ensures { OnOk result
        (left.new.items
        ≡ left.old.items
        ++ map (parts.Branch depth) (branches_leaving version (tree rows.now))) }
{
    let branches = branches_leaving(alloc, rows, version)?;
    for branch in &branches {
        left.push(Part::Branch {
            depth,
            branch: *branch,
        })?;
    }
    Ok(())
}

/// Adds the line of a branch, and leaves its versions to tell.
fn tell_branch(
    alloc: Global,
    text: &mut Vec<u8>,
    left: &mut Vec<Part>,
    rows: &FirstRows<'_>,
    path: &Path,
    depth: u64,
    branch: u64,
) -> Result<(), NoMemory>
    ensures reported { (e : ℕ) → OnOk result
        (text.new.items ++ left_lines rows.now path.now e left.new.items
        ≡ text.old.items
        ++ (branch_lines depth rows.now path.now e branch
        ++ left_lines rows.now path.now e left.old.items)) }
    ensures fewer { OnOk result
        (steps_left rows.now left.new.items
        < steps_of rows.now (parts.Branch depth branch) + steps_left rows.now left.old.items) }
{
    if depth == 0 {
        return Ok(());
    }
    let name = branch_name(alloc, rows, branch)?;
    push_at_version(text, path.as_bytes(), &name)?;
    text.push(b'\n')?;
    left.push(Part::Versions {
        depth: depth - 1,
        branch,
        number: 0,
    })?;
    Ok(())
}

/// Adds the line of the version of a number on a branch, and leaves to tell the branches that leave it and the versions after
/// it.
fn tell_version(
    alloc: Global,
    text: &mut Vec<u8>,
    left: &mut Vec<Part>,
    rows: &FirstRows<'_>,
    path: &Path,
    labels: &VersionLabels,
    depth: u64,
    branch: u64,
    number: u64,
) -> Result<(), NoMemory>
    ensures reported { (e : ℕ) → TableHasLabels labels.now rows.now e
        → OnOk result
        (text.new.items ++ left_lines rows.now path.now e left.new.items
        ≡ text.old.items
        ++ (part_lines rows.now path.now e (parts.Versions depth branch number)
        ++ left_lines rows.now path.now e left.old.items)) }
    ensures fewer { OnOk result
        (steps_left rows.now left.new.items
        < steps_of rows.now (parts.Versions depth branch number)
        + steps_left rows.now left.old.items) }
{
    rows.size();
    match version_numbered(rows, branch, number) {
        None => Ok(()),
        Some(version) => {
            push_version(alloc, text, rows, path, labels, version)?;
            left.push(Part::Versions {
                depth,
                branch,
                number: number + 1,
            })?;
            leave_branches(alloc, left, rows, depth, version)?;
            Ok(())
        }
    }
}

/// Tells of a part what stands first in it, and leaves the rest of it to tell.
fn tell(
    alloc: Global,
    text: &mut Vec<u8>,
    left: &mut Vec<Part>,
    rows: &FirstRows<'_>,
    path: &Path,
    labels: &VersionLabels,
    part: Part,
) -> Result<(), NoMemory>
    ensures reported { (e : ℕ) → TableHasLabels labels.now rows.now e
        → OnOk result
        (text.new.items ++ left_lines rows.now path.now e left.new.items
        ≡ text.old.items
        ++ (part_lines rows.now path.now e part
        ++ left_lines rows.now path.now e left.old.items)) }
    ensures fewer { OnOk result
        (steps_left rows.now left.new.items
        < steps_of rows.now part + steps_left rows.now left.old.items) }
{
    match part {
        Part::Branch { depth, branch } => {
            tell_branch(alloc, text, left, rows, path, depth, branch)?;
            Ok(())
        }
        Part::Versions {
            depth,
            branch,
            number,
        } => {
            tell_version(alloc, text, left, rows, path, labels, depth, branch, number)?;
            Ok(())
        }
    }
}

/// The tree of versions of an element. No branch lies deeper than there are rows.
fn tree_text(
    alloc: Global,
    rows: &FirstRows<'_>,
    path: &Path,
    element: u64,
) -> Result<Text, NoMemory>
    ensures { IfOk result (λ text. text ≡ lsvtree_text rows.now path.now element) }
{
    let labels = labels_of(alloc, rows, element)?;
    let mut text = Vec::new(alloc);
    let mut left = Vec::new(alloc);
    left.push(Part::Branch {
        depth: rows.size(),
        branch: element,
    })?;
    loop {
        match left.pop() {
            None => return Ok(Text::of(text)),
            Some(part) => tell(alloc, &mut text, &mut left, rows, path, &labels, part)?,
        }
    }
}

/// The text of `lsvtree V P`, the element's versions branch by branch with their labels, or its first refusal. Takes the time of
/// `at`, time linear in the element's history and in the text, and for each version that of its name.
pub fn lsvtree(
    alloc: Global,
    rows: &FirstRows<'_>,
    view: &Name,
    path: &Path,
) -> Result<Text, Or<Refusal>>
    ensures { AnswersAs result (lsvtree rows.now view.now path.now) }
{
    let (element, _) = find_selected(alloc, rows, view, path)?;
    Ok(tree_text(alloc, rows, path, element)?)
}
