//! The lists of a row.

ghost use Rattle.std.specs.Prelude.{◌≡◌, ◌&&◌, IfOk, List, ℕ, length};
ghost use Rattle.std.specs.declared.cmp.Ordering.{Ordering as Compared};
ghost use Rattle.std.specs.Ordering.{nat_cmp, is_lt};
ghost use Rattle.row_form.specs.Answers.{Answers};
ghost use Rattle.row_form.specs.Readers.{read_list, value_if, reader_of_some};
ghost use Rattle.row_form.specs.FieldReaders.{ascends, are_distinct, are_targets, is_some_list, entry_cmp, placed_cmp, read_targets, read_entries, read_objects, read_places};

use crate::cursor::{Cursor, Unread};
use crate::fields::Field;
use crate::writing::form_of;
use cc_names::lists::List;
use cc_names::memory::{NoMemory, Or};
use cc_names::paths::Path;
use cc_names::rows::{Placed, ReadOf};
use std::alloc::Global;
use std::collections::HashSet;
use std::hash::RandomState;

/// A list. Takes memory as its members are read, and none by its count.
impl<M: Field> Field for List<M> {
    ghost reader = { read_list M.reader };

    fn read(alloc: Global, cursor: &mut Cursor<'_>) -> Result<List<M>, Or<Unread>> {
        let count = cursor.word()?;
        let mut members = Vec::new(alloc);
        for _member in 0..count {
            let member = M::read(alloc, cursor)?;
            members.push(member)?;
        }
        Ok(List::of(members))
    }
}

/// A member of a list that ascends.
pub(crate) trait Ordered {
    ghost cmp: { Self → Self → Compared };

    fn is_below(&self, next: &Self) -> bool
        ensures { result ≡ is_lt (cmp self.now next.now) };
}

impl Ordered for u64 {
    ghost cmp = { nat_cmp };

    fn is_below(&self, next: &u64) -> bool {
        *self < *next
    }
}

impl Ordered for ReadOf {
    ghost cmp = { entry_cmp };

    fn is_below(&self, next: &ReadOf) -> bool {
        self.path < next.path
    }
}

impl Ordered for Placed {
    ghost cmp = { placed_cmp };

    fn is_below(&self, next: &Placed) -> bool {
        self.element < next.element
    }
}

/// Whether each member is below the next.
fn ascend<M: Ordered>(members: &[M]) -> bool
    ensures { result ≡ ascends M.cmp members.now }
{
    let mut rest = members;
    while let [member, others @ ..] = rest {
        if let [next, ..] = others {
            if !member.is_below(next) {
                return false;
            }
        }
        rest = others;
    }
    true
}

/// Whether no target occurs twice, in time linear in them.
fn are_distinct(alloc: Global, hashing: RandomState, targets: &[Path]) -> Result<bool, NoMemory>
    ensures { IfOk result (λ are. are ≡ are_distinct targets.now) }
{
    let mut seen = HashSet::with_capacity_and_hasher(alloc, targets.len(), hashing)?;
    for target in targets {
        if !seen.insert(target.as_bytes())? {
            return Ok(false);
        }
    }
    Ok(true)
}

fn are_targets(
    alloc: Global,
    hashing: RandomState,
    form: u8,
    targets: &[Path],
) -> Result<bool, NoMemory>
    ensures { IfOk result (λ are. are ≡ are_targets form targets.now) }
{
    if targets.is_empty() || form_of(targets) != form {
        return Ok(false);
    }
    are_distinct(alloc, hashing, targets)
}

/// The targets of a publish whose first byte is this.
pub(crate) fn read_targets(
    alloc: Global,
    hashing: RandomState,
    cursor: &mut Cursor<'_>,
    form: u8,
) -> Result<List<Path>, Or<Unread>>
    ensures { Answers result (read_targets form cursor.old.rest.now) cursor.new.rest.now }
{
    let here = cursor.unread();
    let targets: List<Path> = Field::read(alloc, cursor)?;
    if are_targets(alloc, hashing, form, targets.as_slice())? {
        return Ok(targets);
    }
    Err(Or::Is(here))
}

/// The reads of a record.
pub(crate) fn read_entries(
    alloc: Global,
    cursor: &mut Cursor<'_>,
) -> Result<List<ReadOf>, Or<Unread>>
    ensures { Answers result (read_entries cursor.old.rest.now) cursor.new.rest.now }
{
    let here = cursor.unread();
    let entries: List<ReadOf> = Field::read(alloc, cursor)?;
    if ascend(entries.as_slice()) {
        return Ok(entries);
    }
    Err(Or::Is(here))
}

/// Whether there are members, and each is below the next.
fn are_ascending<M: Ordered>(members: &[M]) -> bool
    ensures { result ≡ is_some_list members.now && ascends M.cmp members.now }
{
    !members.is_empty() && ascend(members)
}

/// The objects of a scrub.
pub(crate) fn read_objects(alloc: Global, cursor: &mut Cursor<'_>) -> Result<List<u64>, Or<Unread>>
    ensures { Answers result (read_objects cursor.old.rest.now) cursor.new.rest.now }
{
    let here = cursor.unread();
    let objects: List<u64> = Field::read(alloc, cursor)?;
    if are_ascending(objects.as_slice()) {
        return Ok(objects);
    }
    Err(Or::Is(here))
}

/// The versions on which a label is placed.
pub(crate) fn read_places(
    alloc: Global,
    cursor: &mut Cursor<'_>,
) -> Result<List<Placed>, Or<Unread>>
    ensures { Answers result (read_places cursor.old.rest.now) cursor.new.rest.now }
{
    let here = cursor.unread();
    let placed: List<Placed> = Field::read(alloc, cursor)?;
    if are_ascending(placed.as_slice()) {
        return Ok(placed);
    }
    Err(Or::Is(here))
}
