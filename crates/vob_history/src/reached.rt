//! Whether one version reaches another, found by a walk back from the other.

ghost use Rattle.std.specs.Prelude.{◌≡◌, IfOk};
ghost use Rattle.base_model.specs.Changes.{tree};
ghost use Rattle.legal_history.specs.Queries.Merges.{reaches};
ghost use Rattle.vob_history.specs.Reached.{predecessor, arrow_source_at};

use cc_names::memory::NoMemory;
use cc_names::rows::Deed;
use legal_history::laws::bases::reaching_is_by_a_walk;
use std::alloc::Global;
use std::collections::BTreeSet;
use view_lookup::{FirstRows, arrows_into, origin_of, row_at, version_id_of, version_numbered};

/// The version before another one on its branch. Takes time logarithmic in the changes.
fn predecessor(rows: &FirstRows<'_>, version: u64) -> Option<u64>
    ensures { result ≡ predecessor (tree rows.now) version }
{
    let version_id = version_id_of(rows, version)?;
    if version_id.number == 0 {
        return None;
    }
    version_numbered(rows, version_id.branch, version_id.number - 1)
}

/// The version from which the arrow leads that a row made.
fn arrow_source_at(rows: &FirstRows<'_>, number: u64) -> Option<u64>
    ensures { result ≡ arrow_source_at rows.now number }
{
    let row = row_at(rows, number)?;
    match row.deed() {
        Deed::Arrow { tail, .. } => Some(*tail),
        _ => None,
    }
}

/// A walk back from a version.
#[derive(Drop)]
struct Walk {
    /// The versions to which it came: all of them reach the version.
    seen: BTreeSet<u64>,
    /// Those of them from which it is still to go on.
    left: Vec<u64>,
}

impl Walk {
    ghost use Rattle.std.specs.Prelude.{OnOk};
    ghost use Rattle.cc_names.specs.Versions.{is_number};
    ghost use Rattle.legal_history.specs.Queries.Merges.{follows, is_arrow_between};
    ghost use Rattle.vob_history.specs.Reached.{AddsVersions};

    /// Comes to a version, where there is one.
    fn take(&mut self, version: Option<u64>) -> Result<(), NoMemory>
        ensures { OnOk result (AddsVersions (λ n. is_number n version) self.old self.new) }
    {
        match version {
            None => Ok(()),
            Some(version) => {
                if self.seen.insert(version)? {
                    self.left.push(version)?;
                }
                Ok(())
            }
        }
    }

    /// Comes to the versions from which arrows lead into a version.
    fn add_arrow_sources(
        &mut self,
        alloc: Global,
        rows: &FirstRows<'_>,
        version: u64,
    ) -> Result<(), NoMemory>
        ensures { OnOk result
            (AddsVersions (λ n. is_arrow_between rows.now n version) self.old self.new) }
    {
        let arrows = arrows_into(alloc, rows, version)?;
        for arrow in &arrows {
            self.take(arrow_source_at(rows, *arrow))?;
        }
        Ok(())
    }

    /// Comes to the versions that a version follows: the one before it on its branch, the one at which its branch leaves, where
    /// it begins one, and those from which arrows lead into it.
    fn go_on(&mut self, alloc: Global, rows: &FirstRows<'_>, version: u64) -> Result<(), NoMemory>
        ensures { OnOk result (AddsVersions (λ n. follows rows.now n version) self.old self.new) }
    {
        self.take(predecessor(rows, version))?;
        self.take(origin_of(rows, version))?;
        self.add_arrow_sources(alloc, rows, version)?;
        Ok(())
    }
}

/// Whether one version reaches another. Walks back from the other until it comes to the one, and goes on from each version once.
/// Takes for each of them time linear in the arrows into it, and for each version that it follows time logarithmic in the
/// changes.
pub(crate) fn reaches(
    alloc: Global,
    rows: &FirstRows<'_>,
    source: u64,
    target: u64,
) -> Result<bool, NoMemory>
    ensures { IfOk result (λ is. is ≡ reaches rows.now source target) }
{
    rows.are_base();
    reaching_is_by_a_walk();
    let mut walk = Walk {
        seen: BTreeSet::new(alloc),
        left: Vec::new(alloc),
    };
    walk.take(Some(target))?;
    while let Some(version) = walk.left.pop() {
        if version == source {
            return Ok(true);
        }
        walk.go_on(alloc, rows, version)?;
    }
    Ok(false)
}
