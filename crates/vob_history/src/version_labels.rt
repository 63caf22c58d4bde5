//! The labels that stand on the versions of an element.

ghost use Rattle.std.specs.Prelude.{◌≡◌, ◌==◌, ℕ, [], IfOk, OnOk, map};
ghost use Rattle.label_book.specs.Standings.{plain};
ghost use Rattle.legal_history.specs.Queries.ElementTexts.{labels_on};
ghost use Rattle.vob_history.specs.LabelSets.{labels_at, with_label_if, with_standing};

use cc_names::memory::NoMemory;
use cc_names::names::Name;
use cc_names::texts::Text;
use label_book::Standing;
use std::alloc::Global;
use std::collections::{BTreeSet, HashMap};
use view_lookup::{FirstRows, standing_labels};

/// The labels of an element by the versions on which they stand, in byte order on each.
pub(crate) type VersionLabels = HashMap<u64, BTreeSet<Text>>;

/// Adds a label to those of a version.
fn add_to(
    alloc: Global,
    labels: &mut VersionLabels,
    version: u64,
    label: &Name,
) -> Result<(), NoMemory>
    ensures { OnOk result
        ((other : ℕ)
        → labels_at labels.new other
        ≡ with_label_if (other == version) label.now (labels_at labels.old other)) }
{
    let mut own = match labels.remove(&version) {
        Some(own) => own,
        None => BTreeSet::new(alloc),
    };
    own.insert(Text::from_bytes(alloc, label.as_bytes())?)?;
    labels.insert(version, own)?;
    Ok(())
}

/// These labels, by the versions on which they stand. Takes for each time logarithmic in those on its version.
fn by_versions(alloc: Global, standing: &[Standing<'_>]) -> Result<VersionLabels, NoMemory>
    ensures { IfOk result
        (λ labels. (version : ℕ)
        → labels_at labels version ≡ with_standing version (map plain standing.now) []) }
{
    let mut labels = HashMap::new(alloc);
    for one in standing {
        add_to(alloc, &mut labels, one.version, one.label)?;
    }
    Ok(labels)
}

/// The labels that stand on versions of the element. Takes the time of `standing_labels`, and for each of them time logarithmic
/// in those on its version.
pub(crate) fn labels_of(
    alloc: Global,
    rows: &FirstRows<'_>,
    element: u64,
) -> Result<VersionLabels, NoMemory>
    ensures { IfOk result
        (λ labels. (version : ℕ)
        → labels_at labels version ≡ labels_on rows.now element version) }
{
    rows.are_base();
    let standing = standing_labels(alloc, rows, element)?;
    Ok(by_versions(alloc, &standing)?)
}

/// The labels on one of these versions, in byte order. Takes time linear in them.
pub(crate) fn labels_on<'a>(
    alloc: Global,
    labels: &'a VersionLabels,
    version: u64,
) -> Result<Vec<&'a Text>, NoMemory>
    ensures { IfOk result
        (λ found. map (λ label. label.now) found.items ≡ labels_at labels.now version) }
{
    match labels.get(&version) {
        None => Ok(Vec::new(alloc)),
        Some(own) => Ok(own.iter().collect(alloc)?),
    }
}
