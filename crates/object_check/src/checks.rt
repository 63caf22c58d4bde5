//! An object beside what its record gives.

ghost use Rattle.std.specs.Prelude.{◌≡◌, ◌<◌, ◌==◌, ◌&&◌, ℕ, suc, cond, true, not, Some, None, IfOk, OnOk, bytes_eq, is_some, nat_eq};
ghost use Rattle.std.specs.BTreeMap as ordered;
ghost use Rattle.std.specs.BTreeSet.{contains};
ghost use Rattle.std.specs.Cmp.Lexicographic.{slice_cmp};
ghost use Rattle.std.specs.HashMap.{get};
ghost use Rattle.std.specs.List.{list_all};
ghost use Rattle.std.specs.Ordering.{nat_cmp};
ghost use Rattle.build_script.specs.Ended.{ran_of};
ghost use Rattle.base_model.specs.Rows.{only_where};
ghost use Rattle.legal_history.specs.Builds.Values.{are_stored, is_true, outputs_of_result, run_of_deed};
ghost use Rattle.base_model.specs.Objects.{are_same_paths};
ghost use Rattle.object_check.specs.Checks.{IsChecked};
ghost use Rattle.object_check.specs.Kept.{texts_kept, KeepsBelow};
ghost use Rattle.object_check.specs.Needed.{IsClosed};

use crate::entry_files::{EntryRows, rows_by_path};
use crate::reruns::rerun;
use crate::values::{Outputs, Values};
use build_script::outcomes::{Ended, Written};
use cc_names::memory::NoMemory;
use cc_names::paths::Path;
use cc_names::rows::{Deed, Row};
use cc_names::texts::Text;
use std::alloc::Global;
use std::collections::BTreeSet;
use std::hash::RandomState;
use view_lookup::{FirstRows, row_at};

/// What an object was found to be.
#[derive(Drop)]
pub(crate) struct Checked {
    /// Whether it has the outputs of its run as stored ones, and an entry for each path that the run asked for.
    pub(crate) is_true: bool,
    /// The outputs of its run, where they are not the stored ones.
    pub(crate) value: Option<Outputs>,
}

/// Whether two texts are the same.
fn are_same_texts(one: &Text, other: &Text) -> bool
    ensures { result ≡ bytes_eq one.now other.now }
{
    one.as_bytes() == other.as_bytes()
}

/// Whether two lists have the same texts in the same order.
fn are_same(one: &[Text], other: &[Text]) -> bool
    ensures { result ≡ are_same_paths one.now other.now }
{
    if one.len() != other.len() {
        return false;
    }
    for index in 0..one.len() {
        if !are_same_texts(&one[index], &other[index]) {
            return false;
        }
    }
    true
}

/// Whether outputs are the stored ones; none are not.
fn are_stored(stored: &[Text], outputs: &Outputs) -> bool
    ensures { result ≡ are_stored stored.now outputs.now }
{
    match outputs {
        None => false,
        Some(others) => are_same(stored, others.as_slice()),
    }
}

/// Whether each path has a row in a record.
fn has_rows(entries: &EntryRows, reads: &[Path]) -> bool
    ensures { result
        ≡ list_all (λ path. is_some (ordered.get (slice_cmp nat_cmp) entries.now path)) reads.now }
{
    reads.iter().all(|path| entries.contains_key(path))
}

/// The outputs of a run that succeeded.
fn outputs_of(ended: Ended) -> Outputs
    ensures { result ≡ outputs_of_result (ran_of ended).result }
{
    let Ended { result, reads: _ } = ended;
    match result {
        Ok(written) => {
            let Written { outputs } = written;
            Some(outputs)
        }
        Err(_) => None,
    }
}

/// What the run of a record with these stored outputs and entries says of the object.
fn compare(stored: &[Text], entries: &EntryRows, ended: Ended) -> Checked
    ensures is_true { result.is_true
        ≡ (are_stored stored.now (outputs_of_result (ran_of ended).result)
        && list_all (λ path. is_some (ordered.get (slice_cmp nat_cmp) entries.now path))
        (ran_of ended).reads) }
    ensures value { result.value
        ≡ only_where (not (are_stored stored.now (outputs_of_result (ran_of ended).result)))
        (Some (outputs_of_result (ran_of ended).result)) }
{
    let has_entries = has_rows(entries, ended.reads.as_slice());
    let outputs = outputs_of(ended);
    let is_stored = are_stored(stored, &outputs);
    Checked {
        is_true: is_stored && has_entries,
        value: if is_stored { None } else { Some(outputs) },
    }
}

/// Runs the record of a row again, by the values of the objects that it names. A row that is no object is not true.
fn check_row(
    alloc: Global,
    hashing: RandomState,
    rows: &FirstRows<'_>,
    values: &Values,
    row: &Row,
) -> Result<Checked, NoMemory>
    ensures { IfOk result
        (λ checked. IsChecked
        (run_of_deed (texts_kept rows.now (get nat_eq values.now)) row.now.deed)
        (Some row.now.deed) checked) }
{
    match row.deed() {
        Deed::Publish {
            targets,
            script,
            entries,
            outputs,
            ..
        } => {
            let entries = rows_by_path(alloc, entries.as_slice())?;
            let targets = targets.as_slice();
            let ended = rerun(alloc, hashing, rows, values, &entries, script, targets)?;
            Ok(compare(outputs.as_slice(), &entries, ended))
        }
        _ => Ok(Checked {
            is_true: false,
            value: None,
        }),
    }
}

/// Keeps the value of an object, where it is not the stored one.
fn keep(values: &mut Values, id: u64, value: Option<Outputs>) -> Result<(), NoMemory>
    requires { get nat_eq values.old id ≡ None }
    ensures { OnOk result
        ((other : ℕ) → get nat_eq values.new other
        ≡ cond (id == other) value (get nat_eq values.old other)) }
{
    match value {
        None => Ok(()),
        Some(outputs) => {
            values.insert(id, outputs)?;
            Ok(())
        }
    }
}

/// Runs the record of the next needed object again, where the values of those before it are kept, and keeps its own. Answers
/// whether the object is true. Takes the time of its run and of its entries' texts.
pub(crate) fn check(
    alloc: Global,
    hashing: RandomState,
    rows: &FirstRows<'_>,
    needed: &BTreeSet<u64>,
    values: &mut Values,
    id: u64,
) -> Result<bool, NoMemory>
    requires is_needed { contains nat_cmp needed.now id ≡ true }
    requires closed { IsClosed rows.now (contains nat_cmp needed.now) }
    requires keeps { KeepsBelow id (contains nat_cmp needed.now) rows.now (get nat_eq values.old) }
    ensures is_true { IfOk result (λ verdict. verdict ≡ is_true rows.now id) }
    ensures keeps { OnOk result
        (KeepsBelow (suc id) (contains nat_cmp needed.now) rows.now (get nat_eq values.new)) }
{
    rows.are_base();
    match row_at(rows, id) {
        None => Ok(false),
        Some(row) => {
            let checked = check_row(alloc, hashing, rows, values, row)?;
            keep(values, id, checked.value)?;
            Ok(checked.is_true)
        }
    }
}
