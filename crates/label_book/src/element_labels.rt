//! The labels of each element, and those of them that stand on versions.

ghost use Rattle.std.specs.Prelude.{◌≡◌, ◌++◌, true, OnOk, map};
ghost use Rattle.label_book.specs.Listed.{has_listed, labels_listed, KeepsListed};
ghost use Rattle.label_book.specs.Standings.{placed_at, plain};

use cc_names::memory::NoMemory;
use cc_names::names::Name;
use indexmap::IndexMap;
use std::alloc::Global;
use std::hash::RandomState;

/// A label and the version on which it stands.
#[derive(Clone, Copy, Debug)]
pub struct Standing<'a> {
    pub label: &'a Name,
    pub version: u64,
}

/// The labels of each element that has any, by their places among the labels of a book.
pub type ElementLabels = IndexMap<u64, Vec<usize>, RandomState>;

/// The labels of an element, by their places. Takes constant time.
pub fn labels_listed(lists: &ElementLabels, element: u64) -> &[usize]
    ensures { result.now ≡ labels_listed lists.now.entries element }
{
    match lists.get(&element) {
        None => &[],
        Some(labels) => labels.as_slice(),
    }
}

/// Adds a label, by its place, to those of an element. Takes constant time; a list that is full is doubled, in time linear in it.
pub fn list_label(
    alloc: Global,
    lists: &mut ElementLabels,
    element: u64,
    label: usize,
) -> Result<(), NoMemory>
    ensures kept { KeepsListed lists.old.entries lists.new.entries }
    ensures listed { OnOk result (has_listed lists.new.entries element label ≡ true) }
{
    if let Some(place) = lists.get_index_of(&element) {
        let labels = &mut lists[place];
        labels.push(label)?;
        return Ok(());
    }
    let mut labels = Vec::with_capacity(alloc, 1)?;
    labels.push_reserved(label);
    lists.insert(element, labels)?;
    Ok(())
}

/// Adds a label, where it stands on a version. Takes constant time; a list that is full is doubled, in time linear in it.
pub fn add_standing<'a>(
    found: &mut Vec<Standing<'a>>,
    label: &'a Name,
    version: Option<u64>,
) -> Result<(), NoMemory>
    ensures { OnOk result
        (map plain found.new.items ≡ map plain found.old.items ++ placed_at label.now version) }
{
    if let Some(version) = version {
        found.push(Standing { label, version })?;
    }
    Ok(())
}
