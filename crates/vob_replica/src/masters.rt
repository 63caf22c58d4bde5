//! The operations that gave the mastership of a branch away.

ghost use Rattle.std.specs.Prelude.{◌≡◌, ◌++◌, ◌∷◌, ◌||◌, ◌&&◌, [], true, find, option_copied, OnOk, OnErr};
ghost use Rattle.vob_replica.specs.Logs.{HaveNextNumbers};
ghost use Rattle.vob_replica.specs.Masters.{follows, follows_last, is_chain};
ghost use Rattle.vob_replica.specs.Tables.{holds};
ghost use Rattle.vob_replica.specs.Trees.{is_same_identity, needs_all_others};

use crate::events::is_same_identity;
use crate::operations::Operation;
use crate::shared::Shared;
use cc_names::memory::NoMemory;
use std::alloc::Global;
use std::marker::Model;

/// The operations that gave the mastership of a branch away, in the order in which they came to be known. Contracts see them.
#[derive(Drop)]
pub struct Masters {
    operations: Vec<Shared>,
    /// Whether each follows the one before it. The sites of a world make no others: who gives the mastership away knows how it
    /// came to have it.
    in_turn: bool,
}

impl Model for Masters {
    ghost use Rattle.std.specs.Prelude.{◌≡◌, List};
    ghost use Rattle.vob_replica.specs.Logs.{HaveNextNumbers};
    ghost use Rattle.vob_replica.specs.Masters.{is_chain};
    ghost use Rattle.vob_replica.specs.declared.operations.Operation.{Operation};

    ghost Value = { List Operation };

    ghost view = { λ masters. masters.operations.items };

    ghost invariant = { λ masters.
        (masters.in_turn ≡ is_chain masters.operations.items)
        × HaveNextNumbers masters.operations.items };
}

/// Whether an operation needs another, and all that this needs. Takes time linear in the sites.
fn follows(operation: &Operation, other: &Operation) -> bool
    ensures { result ≡ follows operation.now other.now }
{
    operation.needs.holds(&other.identity) && operation.needs.covers(&other.needs)
}

/// Whether an operation follows the last of some, where there is one.
fn follows_last(operations: &[Shared], operation: &Operation) -> bool
    ensures { result ≡ follows_last operations.now operation.now }
{
    match operations.last() {
        None => true,
        Some(last) => follows(operation, last.operation()),
    }
}

/// The operation that needs all others of some, where each follows the one before it: the last one.
fn last_in_turn(operations: &[Shared]) -> Option<&Operation>
    requires chain { is_chain operations.now ≡ true }
    requires next { HaveNextNumbers operations.now }
    ensures { option_copied result ≡ find (needs_all_others operations.now) operations.now }
{
    match operations.last() {
        None => None,
        Some(last) => Some(last.operation()),
    }
}

/// Whether an operation is another or needs it.
fn is_or_needs(operation: &Operation, other: &Operation) -> bool
    ensures { result
        ≡ (is_same_identity other.now.identity operation.now.identity
        || holds operation.now.needs other.now.identity) }
{
    is_same_identity(&other.identity, &operation.identity) || operation.needs.holds(&other.identity)
}

/// Whether an operation needs all others of some. The last one is looked at first, since most operations lack it.
fn needs_all_others(operations: &[Shared], operation: &Operation) -> bool
    ensures { result ≡ needs_all_others operations.now operation.now }
{
    if let Some(last) = operations.last()
        && !is_or_needs(operation, last.operation())
    {
        return false;
    }
    for other in operations {
        if !is_or_needs(operation, other.operation()) {
            return false;
        }
    }
    true
}

/// The operation that needs all others of some. Takes time quadratic in them, and linear in the sites for each two.
fn last_out_of_turn(operations: &[Shared]) -> Option<&Operation>
    ensures { option_copied result ≡ find (needs_all_others operations.now) operations.now }
{
    for operation in operations {
        if needs_all_others(operations, operation.operation()) {
            return Some(operation.operation());
        }
    }
    None
}

impl Masters {
    /// No operations. Takes no memory.
    pub(crate) fn new(alloc: Global) -> Masters
        ensures { result ≡ [] }
    {
        Masters {
            operations: Vec::new(alloc),
            in_turn: true,
        }
    }

    /// Whether each follows the one before it with one more. Takes time linear in the sites.
    fn stays_in_turn(&self, operation: &Operation) -> bool
        ensures { result ≡ is_chain (self.now ++ operation.now ∷ []) }
    {
        self.in_turn && follows_last(&self.operations, operation)
    }

    /// The operation that needs all others. Takes constant time where each follows the one before it, as at all sites of a world;
    /// else time quadratic in them.
    pub(crate) fn last(&self) -> Option<&Operation>
        ensures { option_copied result ≡ find (needs_all_others self.now) self.now }
    {
        if self.in_turn {
            last_in_turn(&self.operations)
        } else {
            last_out_of_turn(&self.operations)
        }
    }

    /// Puts one operation more after the others. Takes time linear in the sites.
    pub(crate) fn push(&mut self, operation: Shared) -> Result<(), NoMemory>
        ensures ok { OnOk result (self.new ≡ self.old ++ operation ∷ []) }
        ensures err { OnErr result (self.new ≡ self.old) }
    {
        let in_turn = self.stays_in_turn(operation.operation());
        self.operations.push(operation)?;
        self.in_turn = in_turn;
        Ok(())
    }
}
