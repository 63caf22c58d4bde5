//! The keys for which the next row is marked.

ghost use Rattle.std.specs.Prelude.{◌≡◌, ◌++◌, map, IfOk, OnOk};
ghost use Rattle.base_rows.specs.Subjects.{key, keys_of, subjects};

use crate::bases::FirstRows;
use crate::catalog_keys::catalog_keys;
use crate::subjects::{named_targets, reserved_branch, subject_at};
use cc_names::memory::NoMemory;
use cc_names::paths::Path;
use cc_names::rows::Deed;
use std::alloc::Global;
use std::hash::RandomState;

/// Adds the key of each subject on which a deed bears that makes the row of a number, where the object that it names has these
/// targets and its checkout reserves this branch.
fn push_subjects(
    hashing: RandomState,
    keys: &mut Vec<u64>,
    number: u64,
    targets: &[Path],
    branch: Option<u64>,
    deed: &Deed,
) -> Result<(), NoMemory>
    ensures { OnOk result
        (keys.new.items
        ≡ keys.old.items
        ++ map (key hashing) (subjects number targets.now branch deed.now)) }
{
    let mut index = 0;
    while let Some(subject) = subject_at(number, targets, branch, deed, index) {
        keys.push(subject.key(hashing))?;
        index += 1;
    }
    Ok(())
}

/// The keys of all on which the next row bears, where it is of this deed. Takes the time of `catalog_keys`, and time linear in
/// the names that the deed has and in the targets of the object that it names.
#[tactic(auto, using(crate::proofs::KeysAdded::keys_parted))]
pub(crate) fn keys_of(
    alloc: Global,
    hashing: RandomState,
    rows: &FirstRows<'_>,
    deed: &Deed,
) -> Result<Vec<u64>, NoMemory>
    ensures { IfOk result (λ keys. keys.items ≡ keys_of hashing rows.now deed.now) }
{
    let mut keys = catalog_keys(alloc, hashing, rows, deed)?;
    let branch = reserved_branch(rows, deed);
    let targets = named_targets(rows, deed);
    push_subjects(hashing, &mut keys, rows.size(), targets, branch, deed)?;
    Ok(keys)
}
