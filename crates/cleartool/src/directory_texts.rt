//! The query for the names of a directory.

ghost use Rattle.std.specs.Prelude.{◌≡◌, ◌++◌, true, None, Some, IfOk, OnOk};
ghost use Rattle.cc_names.specs.Names.{IsName};
ghost use Rattle.cc_names.specs.Paths.{join_of};
ghost use Rattle.cc_names.specs.References.{held_at};
ghost use Rattle.base_model.specs.Changes.{objects_held};
ghost use Rattle.base_model.specs.Seen.{at};
ghost use Rattle.legal_history.specs.Queries.DirectoryTexts.{by_rule, ls_text, path_of_entry, picked_line};
ghost use Rattle.legal_history.specs.Queries.QueryLines.{ls};
ghost use Rattle.legal_history.specs.Queries.VersionNames.{line};
ghost use Rattle.view_lookup.specs.Answering.{AnswersAs};
ghost use Rattle.cleartool.specs.Listed.{FindsDirectory, SeesDirectory, line_at, seen_line_where, object_line_where};

use crate::lines::push_object;
use crate::listed_names::names_in;
use cc_names::memory::{NoMemory, Or};
use cc_names::names::Name;
use cc_names::numbers::push_number;
use cc_names::paths::{Path, parts_join};
use cc_names::refusals::Refusal;
use cc_names::selection::{Picked, Seen};
use cc_names::texts::Text;
use std::alloc::Global;
use view_lookup::{
    FirstRows, at, held_object, is_directory_element, origin_name, push_at_version, version_name,
    view_row,
};

/// Adds the line of a name and words after it.
fn push_name_with_words(text: &mut Vec<u8>, name: &[u8], words: &[u8]) -> Result<(), NoMemory>
    ensures { OnOk result (text.new.items ≡ text.old.items ++ line (name.now ++ words.now)) }
{
    text.extend_from_slice(name)?;
    text.extend_from_slice(words)?;
    text.push(b'\n')?;
    Ok(())
}

/// Adds the number of the rule that picks, and ends the line.
fn push_rule(alloc: Global, text: &mut Vec<u8>, number: u32) -> Result<(), NoMemory>
    ensures { OnOk result (text.new.items ≡ text.old.items ++ line (by_rule number)) }
{
    text.extend_from_slice(b" rule ")?;
    push_number(alloc, text, u64::from(number))?;
    text.push(b'\n')?;
    Ok(())
}

/// Adds the line of a name whose element the view has out.
fn push_checked_out(
    alloc: Global,
    text: &mut Vec<u8>,
    rows: &FirstRows<'_>,
    view: &Name,
    name: &[u8],
    element: u64,
    picked: Picked,
) -> Result<(), NoMemory>
    ensures { OnOk result
        (text.new.items
        ≡ text.old.items ++ line (picked_line rows.now view.now name.now element picked true)) }
{
    let origin = origin_name(alloc, rows, view, element)?;
    text.extend_from_slice(name)?;
    text.extend_from_slice(b" checkedout from ")?;
    text.extend_from_slice(origin.as_bytes())?;
    push_rule(alloc, text, picked.line)?;
    Ok(())
}

/// Adds the line of a name whose element is selected, by a version or by the view's checkout.
fn push_picked(
    alloc: Global,
    text: &mut Vec<u8>,
    rows: &FirstRows<'_>,
    view: &Name,
    name: &[u8],
    element: u64,
    picked: Picked,
) -> Result<(), NoMemory>
    ensures { OnOk result
        (text.new.items
        ≡ text.old.items
        ++ line (picked_line rows.now view.now name.now element picked picked.out)) }
{
    if picked.out {
        push_checked_out(alloc, text, rows, view, name, element, picked)
    } else {
        let version = version_name(alloc, rows, picked.row)?;
        push_at_version(text, name, version.as_bytes())?;
        push_rule(alloc, text, picked.line)?;
        Ok(())
    }
}

/// Adds the line of a name with the object that the view holds at its path; nothing where it holds none.
fn push_held_at_name(
    alloc: Global,
    text: &mut Vec<u8>,
    rows: &FirstRows<'_>,
    view: &Name,
    name: &[u8],
    path: &Path,
) -> Result<(), NoMemory>
    ensures { OnOk result
        (text.new.items
        ≡ text.old.items
        ++ object_line_where name.now (held_at (objects_held rows.now) view.now path.now)) }
{
    match held_object(rows, view, path) {
        None => Ok(()),
        Some(object) => {
            push_object(alloc, text, name, object)?;
            text.extend_from_slice(b" object\n")?;
            Ok(())
        }
    }
}

/// Adds the line of a name in a directory with what stands at its path, where anything does.
fn push_seen(
    alloc: Global,
    text: &mut Vec<u8>,
    rows: &FirstRows<'_>,
    view: &Name,
    directory: &Path,
    name: &[u8],
    path: &Path,
) -> Result<(), NoMemory>
    ensures { path.now ≡ path_of_entry directory.now name.now
        → OnOk result
        (text.new.items
        ≡ text.old.items
        ++ seen_line_where rows.now view.now directory.now name.now (at rows.now view.now path.now)
        (held_at (objects_held rows.now) view.now path.now)) }
{
    match at(rows, view, path) {
        Seen::Private(_) => {
            push_name_with_words(text, name, b" private")?;
            Ok(())
        }
        Seen::Element(element, picked) => {
            push_picked(alloc, text, rows, view, name, element, picked)?;
            Ok(())
        }
        Seen::Unselected(_) => {
            push_name_with_words(text, name, b" no version selected")?;
            Ok(())
        }
        Seen::Nothing => {
            push_held_at_name(alloc, text, rows, view, name, path)?;
            Ok(())
        }
    }
}

/// Adds the line of a name in a directory, where anything stands at its path. A path that is too long to be seen has none.
fn push_name(
    alloc: Global,
    text: &mut Vec<u8>,
    rows: &FirstRows<'_>,
    view: &Name,
    directory: &Path,
    name: &Name,
) -> Result<(), NoMemory>
    ensures line { OnOk result
        (text.new.items
        ≡ text.old.items
        ++ line_at rows.now view.now directory.now name.now (join_of directory.now name.now)) }
    ensures name { IsName name.now }
{
    let bytes = name.as_bytes();
    match directory.join(alloc, name) {
        Ok(path) => {
            push_seen(alloc, text, rows, view, directory, bytes, &path)?;
            Ok(())
        }
        Err(Or::Is(_)) => Ok(()),
        Err(Or::NoMemory) => Err(NoMemory),
    }
}

/// The names of a directory that the view sees.
fn ls_text(
    alloc: Global,
    rows: &FirstRows<'_>,
    view: &Name,
    directory: &Path,
    element: u64,
) -> Result<Text, NoMemory>
    ensures { SeesDirectory rows.now view.now directory.now element
        → IfOk result (λ text. text ≡ ls_text rows.now view.now directory.now) }
{
    rows.size();
    parts_join();
    let names = names_in(alloc, rows, view, directory, element)?;
    let mut text = Vec::new(alloc);
    for name in &names {
        push_name(alloc, &mut text, rows, view, directory, name)?;
    }
    Ok(Text::of(text))
}

/// The directory that the view sees at a path, or the first refusal of a query for its names.
fn find_directory(
    alloc: Global,
    rows: &FirstRows<'_>,
    view: &Name,
    path: &Path,
) -> Result<u64, Or<Refusal>>
    ensures { FindsDirectory rows.now view.now path.now result }
{
    if view_row(rows, view).is_none() {
        return Err(Or::Is(Refusal::NoView));
    }
    match at(rows, view, path) {
        Seen::Element(element, _) => {
            if is_directory_element(rows, element) {
                Ok(element)
            } else {
                Err(Or::Is(Refusal::NotDirectory(path.copy(alloc)?)))
            }
        }
        Seen::Private(_) => Err(Or::Is(Refusal::NotDirectory(path.copy(alloc)?))),
        Seen::Unselected(_) => Err(Or::Is(Refusal::NoPath(path.copy(alloc)?))),
        Seen::Nothing => Err(Or::Is(Refusal::NoPath(path.copy(alloc)?))),
    }
}

/// The text of `ls V P`, or its first refusal.
fn ls_at(alloc: Global, rows: &FirstRows<'_>, view: &Name, path: &Path) -> Result<Text, Or<Refusal>>
    ensures { AnswersAs result (ls rows.now view.now (Some path.now)) }
{
    let element = find_directory(alloc, rows, view, path)?;
    Ok(ls_text(alloc, rows, view, path, element)?)
}

/// The text of `ls V`, the names of the root, or its first refusal.
fn ls_root(alloc: Global, rows: &FirstRows<'_>, view: &Name) -> Result<Text, Or<Refusal>>
    ensures { AnswersAs result (ls rows.now view.now None) }
{
    let root = Path::root();
    ls_at(alloc, rows, view, &root)
}

/// The text of `ls V [P]`, or its first refusal: each name in the directory P, or in the root, with what the view sees
/// there. Takes the time of `at` for each name that was ever given in the directory and for each path below it where
/// the view ever had a private file or an object, and time linear in the rows that gave the view any.
pub fn ls(
    alloc: Global,
    rows: &FirstRows<'_>,
    view: &Name,
    path: &Option<Path>,
) -> Result<Text, Or<Refusal>>
    ensures { AnswersAs result (ls rows.now view.now path.now) }
{
    match path {
        None => ls_root(alloc, rows, view),
        Some(path) => ls_at(alloc, rows, view, path),
    }
}
