//! The operations that a site knows.

ghost use Rattle.std.specs.Prelude.{◌≡◌, ◌++◌, ◌∷◌, [], ◌+◌, ◌-◌, ◌≤◌, take, true, not, None, if◌then◌else◌, List, Ok, IfOk, IfErr, OnOk, OnErr, length};
ghost use Rattle.cc_names.specs.Answers.{FaultIs};
ghost use Rattle.vob_replica.specs.Logs.{IsGap, HasNextNumber, TakesNews, TakesWhole, IsLog, IsWhole};
ghost use Rattle.vob_replica.specs.Tables.{first_gap, holds, number_in, with_operation, table_of, IsWithin};
ghost use Rattle.vob_replica.specs.Replicas.{above, operations_after_import};
ghost use Rattle.vob_replica.specs.declared.events.Identity.{Identity};
ghost use Rattle.vob_replica.specs.declared.operations.Operation.{Operation};

use crate::events::Identity;
use crate::shared::Shared;
use crate::tables::Table;
use cc_names::memory::{NoMemory, Or};
use cc_names::names::Name;
use std::alloc::Global;
use std::marker::Model;

/// The operations that a site knows, in the order in which it came to know them, shared with the sites that know them too, and
/// their epoch table. Contracts see the operations.
#[derive(Drop)]
pub struct Log {
    operations: Vec<Shared>,
    table: Table,
}

impl Model for Log {
    ghost use Rattle.std.specs.Prelude.{List};
    ghost use Rattle.vob_replica.specs.declared.operations.Operation.{Operation};
    ghost use Rattle.vob_replica.specs.Logs.{IsLog};

    ghost Value = { List Operation };

    ghost view = { λ log. log.operations.items };

    ghost invariant = { λ log. IsLog log.table log.operations.items };
}

/// Puts one operation more after others, and into their table.
fn push_shared(
    alloc: Global,
    operations: &mut Vec<Shared>,
    table: &mut Table,
    operation: Shared,
) -> Result<(), NoMemory>
    ensures next { OnOk result (HasNextNumber operation) }
    ensures pushed { OnOk result
        (operations.new.items ≡ operations.old.items ++ operation ∷ []) }
    ensures raised { OnOk result (table.new ≡ with_operation table.old operation.identity) }
    ensures kept { OnErr result (operations.new.items ≡ operations.old.items) }
    ensures same { OnErr result (table.new ≡ table.old) }
{
    operations.reserve(1)?;
    table.raise(alloc, &operation.operation().identity)?;
    operations.push_reserved(operation);
    Ok(())
}

/// Whether an operation is new to a site that knows what a table holds. It is taken into the table then, unless it needs an
/// operation that is missing. `near` is where its site may stand in the table.
fn take_one(
    alloc: Global,
    table: &mut Table,
    near: &mut usize,
    operation: &Shared,
) -> Result<bool, Or<Identity>>
    ensures next { HasNextNumber operation.now }
    ensures known { IfOk result (λ new. holds table.old operation.now.identity ≡ not new) }
    ensures whole { IfOk result
        (λ new. new ≡ true → first_gap operation.now.needs table.old ≡ None) }
    ensures taken { IfOk result
        (λ new. table.new
        ≡ (if new then with_operation table.old operation.now.identity else table.old)) }
    ensures gap { IfErr result (λ fault. IsGap fault operation.now table.old) }
{
    let operation = operation.operation();
    if table.holds_near(near, &operation.identity) {
        return Ok(false);
    }
    let needs = operation.needs.table(alloc)?;
    if let Some(gap) = table.first_gap(alloc, needs.entries())? {
        return Err(Or::Is(gap));
    }
    table.raise(alloc, &operation.identity)?;
    Ok(true)
}

/// Those of some operations that are new to a site that knows what a table holds, in order, which are taken into the table; or
/// the first operation that is missing.
fn news_of(
    alloc: Global,
    table: &mut Table,
    operations: &[Shared],
) -> Result<Vec<Shared>, Or<Identity>>
    ensures { (known : List Operation)
        → IsLog table.old known
        → TakesNews result known operations.now table.new }
{
    let mut news = Vec::new(alloc);
    let mut near = 0;
    for operation in operations {
        if !take_one(alloc, table, &mut near, operation)? {
            continue;
        }
        news.push(operation.copy()?)?;
    }
    Ok(news)
}

/// Those of some operations that are new to a site that knows what a table holds, in order, which are taken into the table. They
/// need nothing that the table, or an operation before them, lacks.
fn news_of_whole(
    alloc: Global,
    table: &mut Table,
    operations: &[Shared],
) -> Result<Vec<Shared>, NoMemory>
    ensures { (known : List Operation)
        → (floor : List Identity)
        → IsLog table.old known
        → IsWhole floor operations.now
        → IsWithin floor table.old
        → TakesWhole result known operations.now table.new }
{
    let mut news = Vec::new(alloc);
    for operation in operations {
        let new = table.take(alloc, &operation.operation().identity)?;
        if !new {
            continue;
        }
        news.push(operation.copy()?)?;
    }
    Ok(news)
}

/// The new operations of a packet, as `news_of` gives them. They need nothing that a floor, or an operation before them, lacks, so
/// no need is looked up where the table holds the floor.
fn news_above(
    alloc: Global,
    table: &mut Table,
    floor: &Table,
    operations: &[Shared],
) -> Result<Vec<Shared>, Or<Identity>>
    requires { IsWhole floor.now operations.now }
    ensures { (known : List Operation)
        → IsLog table.old known
        → TakesNews result known operations.now table.new }
{
    if table.covers(floor.entries()) {
        return Ok(news_of_whole(alloc, table, operations)?);
    }
    news_of(alloc, table, operations)
}

/// Those of some operations that a table does not hold.
fn not_held(alloc: Global, operations: &[Shared], table: &Table) -> Result<Vec<Shared>, NoMemory>
    ensures { IfOk result
        (λ shared. shared.items ≡ above table.now operations.now) }
{
    let mut shared = Vec::new(alloc);
    let mut near = 0;
    for operation in operations {
        if table.holds_near(&mut near, &operation.operation().identity) {
            continue;
        }
        shared.push(operation.copy()?)?;
    }
    Ok(shared)
}

impl Log {
    /// The log of no operations. Takes no memory.
    pub fn new(alloc: Global) -> Log
        ensures { result ≡ [] }
    {
        Log {
            operations: Vec::new(alloc),
            table: Table::new(alloc),
        }
    }

    /// The epoch table of the operations.
    pub fn table(&self) -> &Table
        ensures table { result.now ≡ table_of self.now }
        ensures all { above (table_of self.now) self.now ≡ [] }
    {
        &self.table
    }

    /// The operations.
    pub fn operations(&self) -> &[Shared]
        ensures { result.now ≡ self.now }
    {
        self.operations.as_slice()
    }

    /// The operations that a table does not hold, in order, where it holds the first `from` ones. Takes time linear in those
    /// after them, and for each whose site is not that of the one before also logarithmic in the sites.
    pub fn above(&self, alloc: Global, from: usize, table: &Table) -> Result<Vec<Shared>, NoMemory>
        requires within { from ≤ length self.now }
        requires first { above table.now (take from self.now) ≡ [] }
        ensures above { IfOk result (λ shared. shared.items ≡ above table.now self.now) }
        ensures whole { IfOk result (λ shared. IsWhole table.now shared.items) }
    {
        table.is_in_order();
        not_held(alloc, &self.operations[from..], table)
    }

    /// The number of a site's next operation. Takes time logarithmic in the sites.
    pub fn next_number(&self, site: &Name) -> u64
        ensures { result ≡ number_in (table_of self.now) site.now + 1 }
    {
        self.table.number(site) + 1
    }

    /// Puts one operation more, of which all needs are known, after the others. Takes the time of `Table::raise`. An
    /// `Err` changes nothing.
    pub fn push(&mut self, alloc: Global, operation: Shared) -> Result<(), NoMemory>
        requires { first_gap operation.needs (table_of self.old) ≡ None }
        ensures ok { OnOk result (self.new ≡ self.old ++ operation ∷ []) }
        ensures err { OnErr result (self.new ≡ self.old) }
    {
        push_shared(alloc, &mut self.operations, &mut self.table, operation)
    }

    /// Takes in the operations of a packet that are not known yet, and answers how many; or answers the first operation that is
    /// missing. They need nothing that the floor, or an operation before them, lacks. An `Err` changes nothing. Where the floor
    /// is known, takes time linear in the operations, and in the sites for each whose site is not that of the one before. Else
    /// each new one also takes the time of `first_gap`.
    pub fn import_operations(
        &mut self,
        alloc: Global,
        floor: &Table,
        operations: &[Shared],
    ) -> Result<u64, Or<Identity>>
        requires { IsWhole floor.now operations.now }
        ensures ok { OnOk result (operations_after_import self.old operations.now ≡ Ok self.new) }
        ensures count { IfOk result (λ count. count ≡ length self.new - length self.old) }
        ensures err { OnErr result (self.new ≡ self.old) }
        ensures gap { IfErr result
            (λ fault. FaultIs fault (operations_after_import self.old operations.now)) }
    {
        let mut table = self.table.copy(alloc)?;
        let mut news = news_above(alloc, &mut table, floor, operations)?;
        let count = news.len() as u64;
        self.operations.append(&mut news)?;
        self.table = table;
        Ok(count)
    }
}
