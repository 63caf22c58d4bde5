//! The marks that rows leave for the keys of what they affect: links, each of which names the next older one of its key, and one
//! further back.

ghost use Rattle.std.specs.Prelude.{◌≡◌, ◌+◌, ◌-◌, ◌<◌, ◌≤◌, OnOk, nat_eq, length, vec_len, vec_capacity};
ghost use Rattle.std.specs.HashMap.{get, spare};
ghost use Rattle.base_rows.specs.MarkSteps.{MarksRow, MarksAll};
ghost use Rattle.base_rows.specs.Marked.{IsChained};

use crate::skips::link_to;
use cc_names::memory::NoMemory;
use std::collections::HashMap;

/// A row that affects something with a key, the place of the next older one of the key, that of one to which it skips, and how
/// many older ones there are.
#[derive(Clone, Copy)]
pub(crate) struct Link {
    pub(crate) row: u64,
    pub(crate) older: Option<usize>,
    pub(crate) skip: Option<usize>,
    pub(crate) depth: u64,
}

/// Makes room for so many marks. A list that is full is doubled, in time linear in it.
pub(crate) fn reserve_marks(
    links: &mut Vec<Link>,
    newest: &mut HashMap<u64, usize>,
    count: usize,
) -> Result<(), NoMemory>
    ensures links { links.new.items ≡ links.old.items }
    ensures newest { get nat_eq newest.new ≡ get nat_eq newest.old }
    ensures room { OnOk result (count ≤ vec_capacity links.new - vec_len links.new) }
    ensures spare { OnOk result (count ≤ spare newest.new) }
{
    links.reserve(count)?;
    newest.reserve(count)?;
    Ok(())
}

/// Marks a row for a key. Takes constant time and no memory.
fn mark(links: &mut Vec<Link>, newest: &mut HashMap<u64, usize>, row: u64, key: u64)
    requires links { vec_len links.old < vec_capacity links.old }
    requires newest { 0 < spare newest.old }
    requires chained { IsChained links.old.items (get nat_eq newest.old) }
    ensures marks { MarksRow row key links.old.items (get nat_eq newest.old) links.new.items
        (get nat_eq newest.new) }
    ensures len { vec_len links.new ≡ vec_len links.old + 1 }
    ensures capacity { vec_capacity links.old ≤ vec_capacity links.new }
    ensures spare { spare newest.old ≤ spare newest.new + 1 }
{
    let older = newest.get(&key).copied();
    let place = links.len();
    let link = link_to(links.as_slice(), row, older);
    links.push_reserved(link);
    match newest.insert(key, place) {
        Ok(_) => {}
        Err(_) => unreachable!(),
    }
}

/// Marks a row for each of these keys. Takes time linear in them, and no memory.
pub(crate) fn mark_keys(
    links: &mut Vec<Link>,
    newest: &mut HashMap<u64, usize>,
    row: u64,
    keys: &[u64],
)
    requires links { vec_len links.old + length keys.now ≤ vec_capacity links.old }
    requires newest { length keys.now ≤ spare newest.old }
    requires chained { IsChained links.old.items (get nat_eq newest.old) }
    ensures marks { MarksAll row keys.now links.old.items (get nat_eq newest.old) links.new.items
        (get nat_eq newest.new) }
    ensures len { vec_len links.new ≡ vec_len links.old + length keys.now }
    ensures capacity { vec_capacity links.old ≤ vec_capacity links.new }
    ensures spare { spare newest.old ≤ spare newest.new + length keys.now }
{
    for key in keys {
        mark(links, newest, row, *key);
    }
}
