//! What a lock keeps true: two words, the tickets drawn and the tickets served, and one slot for the value.
use crate::story::Storied;
use atomic_table::{Seat, Shared, Table, TableRule};
use std::alloc::Global;
use std::collections::LinkedList;
use std::marker::PhantomData;
use std::snapshot::Snapshot;

/// The word that counts the tickets drawn.
pub(crate) const DRAWN: usize = 0;

/// The word that counts the tickets served, which is the ticket whose turn it is.
pub(crate) const SERVED: usize = 1;

/// The slot of the value.
pub(crate) const VALUE: usize = 0;

/// How far a pass has come. No value of it is made.
pub enum Stage<D> {
    Idle,
    /// It has just joined another pass, which had seen the shorter story.
    Joined(LinkedList<D>),
    /// It has drawn this ticket.
    Waits(u64),
    /// It is this ticket's turn, and the value taken had this story.
    Turn(u64, LinkedList<D>),
}

/// What is known of a pass: its stage, the story that it has seen, and its weight. No value of it is made.
pub struct View<D> {
    pub stage: Stage<D>,
    pub seen: LinkedList<D>,
    pub weight: u64,
}

/// What a lock is opened with: the weight of all passes together, and the value.
#[derive(Drop)]
pub struct Opening<T> {
    pub whole: u64,
    pub value: Snapshot<T>,
}

/// The rule of a lock.
pub struct Turns<T> {
    value: PhantomData<T>,
}

impl<T: Storied> TableRule<Option<T>, View<T::Step>, Opening<T>> for Turns<T> {
    ghost use Rattle.turn_lock.specs.Stages.{idle};
    ghost use Rattle.turn_lock.specs.Rule.{LockRule};

    ghost holds = { λ key. LockRule T.story key.whole };

    ghost first = { λ key. idle (T.story key.value.value) key.whole };
}

/// The words and the slot of a lock, with their memory.
pub(crate) type TurnTable<T> = Table<
    Option<T>,
    View<<T as Storied>::Step>,
    Opening<T>,
    Turns<T>,
    Global,
>;

/// The same as threads share it.
pub(crate) type SharedTable<T> = Shared<
    Option<T>,
    View<<T as Storied>::Step>,
    Opening<T>,
    Turns<T>,
>;

/// What a pass steps with.
pub(crate) type TurnSeat<T> = Seat<Option<T>, View<<T as Storied>::Step>>;
