//! The elements that a view selects at a path and below it.

ghost use Rattle.std.specs.Prelude.{◌≡◌, List, ℕ, None, IfOk, OnOk};
ghost use Rattle.std.specs.BTreeMap.{get};
ghost use Rattle.std.specs.Cmp.Lexicographic.{slice_cmp};
ghost use Rattle.std.specs.Ordering.{nat_cmp};
ghost use Rattle.cc_names.specs.Names.{IsName};
ghost use Rattle.cc_names.specs.Paths.{join_of};
ghost use Rattle.base_model.specs.Rows.{size};
ghost use Rattle.vob_history.specs.ElementsBelow.{lies_below, lies_below_joined, seen_where};

use cc_names::memory::{NoMemory, Or};
use cc_names::names::Name;
use cc_names::paths::Path;
use cc_names::selection::Seen;
use std::alloc::Global;
use std::collections::BTreeMap;
use view_lookup::{FirstRows, at, names_given};

/// Adds the elements below a name in a directory, in so many levels. A path that is too long to be seen has none.
#[cycle(below)]
fn add_named(
    alloc: Global,
    rows: &FirstRows<'_>,
    view: &Name,
    found: &mut BTreeMap<Path, Seen>,
    depth: u64,
    directory: &Path,
    name: &Name,
) -> Result<(), NoMemory>
    ensures found { OnOk result
        ((q : List ℕ)
        → get (slice_cmp nat_cmp) found.new q
        ≡ seen_where
        (lies_below_joined depth rows.now view.now (join_of directory.now name.now) q)
        rows.now view.now q (get (slice_cmp nat_cmp) found.old q)) }
    ensures name { IsName name.now }
{
    name.as_bytes();
    match directory.join(alloc, name) {
        Ok(path) => add_elements(alloc, rows, view, found, depth, &path),
        Err(Or::Is(_)) => Ok(()),
        Err(Or::NoMemory) => Err(NoMemory),
    }
}

/// Adds the elements at a path and below it, in so many levels: the one there, and those below each name that was ever given in
/// it.
#[cycle(below)]
fn add_elements(
    alloc: Global,
    rows: &FirstRows<'_>,
    view: &Name,
    found: &mut BTreeMap<Path, Seen>,
    depth: u64,
    path: &Path,
) -> Result<(), NoMemory>
    ensures { OnOk result
        ((q : List ℕ)
        → get (slice_cmp nat_cmp) found.new q
        ≡ seen_where (lies_below depth rows.now view.now path.now q) rows.now view.now q
        (get (slice_cmp nat_cmp) found.old q)) }
{
    if depth == 0 {
        return Ok(());
    }
    let seen = at(rows, view, path);
    let Seen::Element(element, _) = seen else {
        return Ok(());
    };
    rows.are_base();
    found.insert(path.copy(alloc)?, seen)?;
    let names = names_given(alloc, rows, element)?;
    for name in &names {
        add_named(alloc, rows, view, found, depth - 1, path, name)?;
    }
    Ok(())
}

/// The elements that a view selects at a path and below it, by their paths. No directory lies deeper than there are rows. Takes
/// for each of them the time of `at`, for each directory that of `names_given`, and for each name there the time of `at`.
pub(crate) fn elements_below(
    alloc: Global,
    rows: &FirstRows<'_>,
    view: &Name,
    path: &Path,
) -> Result<BTreeMap<Path, Seen>, NoMemory>
    ensures { IfOk result
        (λ found. (q : List ℕ)
        → get (slice_cmp nat_cmp) found q
        ≡ seen_where (lies_below (size rows.now) rows.now view.now path.now q) rows.now view.now q
        None) }
{
    let mut found = BTreeMap::new(alloc);
    add_elements(alloc, rows, view, &mut found, rows.size(), path)?;
    Ok(found)
}
