//! What each move on a lock tells the thread that makes it.
ghost use Rattle.turn_lock.specs.Stages.{greater_half, lesser_half, joined, spent};
ghost use Rattle.turn_lock.specs.Moves.{drew, looked, gave, settled};

use crate::rule::View;
use crate::story::Storied;
use atomic_table::{Join, Play, Split};
use std::marker::PhantomData;

/// Draws a ticket.
pub(crate) struct Draw;

impl<T, D> Play<Option<T>, View<D>> for Draw {
    ghost then = { drew };
}

/// Looks whether it is the ticket's turn, and then takes the value.
pub(crate) struct Look<T> {
    value: PhantomData<T>,
}

impl<T: Storied> Play<Option<T>, View<T::Step>> for Look<T> {
    ghost then = { looked T.story };
}

/// Gives the value back, and lets the next ticket have its turn.
pub(crate) struct Give<T> {
    value: PhantomData<T>,
}

impl<T: Storied> Play<Option<T>, View<T::Step>> for Give<T> {
    ghost then = { gave T.story };
}

/// Cuts a pass in two halves, of which the first is the greater.
pub(crate) struct Halve;

impl<D> Split<View<D>> for Halve {
    ghost left = { greater_half };

    ghost right = { lesser_half };
}

/// Takes in another pass.
pub(crate) struct Unite;

impl<D> Join<View<D>> for Unite {
    ghost both = { joined };

    ghost spent = { spent };
}

/// Learns, after another pass was joined, that the shorter story begins the longer.
pub(crate) struct Settle;

impl<T, D> Play<Option<T>, View<D>> for Settle {
    ghost then = { settled };
}
