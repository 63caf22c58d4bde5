//! Where the threads that wait for their turn sleep.
use std::alloc::{AllocError, Global};
use std::sync::Wait;
use std::sync::atomic::{AtomicU64, Ordering};

/// How many places there are. Threads whose tickets differ by a multiple of it sleep at the same one, and are woken together.
const PLACES: u64 = 256;

/// The threads that wait, each at the place of its ticket: so a turn need not wake all.
#[derive(Drop)]
pub(crate) struct Sleepers {
    // How often the threads of a place were called.
    calls: Vec<AtomicU64>,
    // How many threads sleep, or are about to.
    count: AtomicU64,
}

impl Sleepers {
    /// Of a lock that nobody waits for.
    pub(crate) fn new(alloc: Global) -> Result<Sleepers, AllocError> {
        let mut calls = Vec::with_capacity(alloc, PLACES as usize)?;
        for _ in 0..PLACES {
            calls.push(AtomicU64::new(0))?;
        }
        Ok(Sleepers {
            calls,
            count: AtomicU64::new(0),
        })
    }

    /// The place of a ticket.
    fn place(&self, ticket: u64) -> Option<&AtomicU64> {
        self.calls.get((ticket % PLACES) as usize)
    }

    /// How often the place of a ticket was called.
    pub(crate) fn calls(&self, ticket: u64) -> u64 {
        match self.place(ticket) {
            Some(place) => place.load(Ordering::SeqCst),
            None => 0,
        }
    }

    /// Counts in a thread that is about to sleep. It looks once more then: whoever serves its ticket afterwards calls it.
    pub(crate) fn enter(&self) {
        self.count.fetch_add(1, Ordering::SeqCst);
    }

    /// Counts out a thread that sleeps no more.
    pub(crate) fn leave(&self) {
        self.count.fetch_sub(1, Ordering::SeqCst);
    }

    /// Sleeps unless the place of a ticket was called more often than this, until it is called. It may also return for no
    /// reason.
    pub(crate) fn sleep<R: Wait>(&self, rt: &R, ticket: u64, calls: u64) {
        if let Some(place) = self.place(ticket) {
            place.park(rt, (calls & 0xffff_ffff) as u32);
        }
    }

    /// Calls the thread with a ticket, where threads sleep.
    pub(crate) fn call(&self, ticket: u64) {
        if self.count.load(Ordering::SeqCst) == 0 {
            return;
        }
        if let Some(place) = self.place(ticket) {
            place.fetch_add(1, Ordering::SeqCst);
            place.wake_all();
        }
    }
}
