//! A lock, and the passes by which threads take turns at its value.
//!
//! A ticket lock: who wants the value draws a number, and has its turn when the number is served. No call but `new`
//! takes memory.
ghost use Rattle.std.specs.Prelude.{◌≡◌, ℕ, ◌+◌, ◌-◌, ◌/◌, ◌%◌, ◌^◌, ◌<◌, ◌≤◌, [], ◌∷◌, IfOk, IfErr, Some, None};
ghost use Rattle.std.specs.Bool.{OnTrue, OnFalse};
ghost use mathlib.Core.List.{IsPrefix};
ghost use Rattle.turn_lock.specs.declared.rule.Stage.TheVariants.{Idle, Waits};
ghost use Rattle.turn_lock.specs.PassState.{IsLongerOf};
ghost use Rattle.turn_lock.specs.Rule.{in_word};
ghost use Rattle.turn_lock.specs.Moves.{HasTaken};

use crate::moves::{Draw, Give, Halve, Look, Settle, Unite};
use crate::rule::{DRAWN, Opening, SERVED, SharedTable, TurnSeat, TurnTable, VALUE};
use crate::sleepers::Sleepers;
use crate::story::Storied;
use atomic_table::{Refused, Table};
use std::alloc::Global;
use std::marker::Model;
use std::snapshot::Snapshot;
use std::sync::Wait;
use std::thread;

// How often the thread whose turn is next looks for it before it sleeps: for some hundredths of a millisecond where nothing
// else runs on its processor. To be woken takes long beside a short turn; beside a long one, each look burns a processor.
const LOOKS: u32 = 50;

/// A lock round one value, which its passes take in turns.
///
/// Contracts see which lock it is, and the weight of all its passes together. Threads share it by reference, and only
/// `close` ends it. Each story of the value begins with all earlier ones. Not promised: that a thread is ever served,
/// that threads are served in any order, or any time. A thread that keeps the value keeps all others waiting.
pub struct TurnLock<T: Storied> {
    table: TurnTable<T>,
    sleepers: Sleepers,
}

impl<T: Storied> Model for TurnLock<T> {
    ghost use Rattle.std.specs.Prelude.{◌≡◌};
    ghost use Rattle.turn_lock.specs.PassState.{Identity};

    ghost Value = { Identity };

    ghost view = { λ l. record { id = l.table.shared.table_id; whole = l.table.shared.key.whole } };

    ghost invariant = { λ l.
        (l.table.shared.table_id.words ≡ 2) × (l.table.shared.table_id.slots ≡ 1) };
}

/// The right to take turns at the value of one lock, and what its bearer has seen of the value's story. It has no bytes.
///
/// Contracts see its lock, the story seen and its weight. A pass that is let go takes its weight with it, so that its
/// lock can no longer be closed.
#[derive(Drop)]
pub struct Pass<T: Storied> {
    seat: TurnSeat<T>,
}

impl<T: Storied> Model for Pass<T> {
    ghost use Rattle.std.specs.Prelude.{◌≡◌, ◌<◌, []};
    ghost use Rattle.turn_lock.specs.PassState.{PassState};
    ghost use Rattle.turn_lock.specs.declared.rule.Stage.TheVariants.{Idle};

    ghost Value = { PassState T.Step };

    ghost view = { λ p.
        record { lock = p.seat.table_id; seen = p.seat.me.0.seen; weight = p.seat.me.0.weight } };

    ghost invariant = { λ p.
        (p.seat.me.0.stage ≡ Idle) × (p.seat.me.1 ≡ []) × (0 < p.seat.me.0.weight) };
}

/// A pass whose bearer has taken the value. It has no bytes, and cannot be let go: only `give` ends it.
///
/// Contracts see its lock, the story that the value had when it was taken, and its weight.
pub struct Held<T: Storied> {
    seat: TurnSeat<T>,
}

impl<T: Storied> Model for Held<T> {
    ghost use Rattle.std.specs.Prelude.{◌≡◌, ℕ, ◌<◌, [], ◌∷◌, None};
    ghost use Rattle.turn_lock.specs.PassState.{Hold};
    ghost use Rattle.turn_lock.specs.Stages.{noted_of};
    ghost use Rattle.turn_lock.specs.declared.rule.Stage.TheVariants.{Turn};

    ghost Value = { Hold T.Step };

    ghost view = { λ h.
        record {
          lock = h.seat.table_id;
          story = noted_of h.seat.me.0.stage;
          weight = h.seat.me.0.weight;
        } };

    ghost invariant = { λ h.
        ((ticket : ℕ) × (h.seat.me.0.stage ≡ Turn ticket (noted_of h.seat.me.0.stage)))
        × (h.seat.me.1 ≡ (0, None) ∷ []) × (0 < h.seat.me.0.weight) };
}

impl<T: Storied> TurnLock<T> {
    /// A lock round the value, and one pass with the whole weight, which has seen the value's story.
    ///
    /// For want of memory alone the value comes back. The lock keeps one block with room for the value, one of two words, and
    /// one of 256 words for those that wait.
    pub fn new(alloc: Global, value: T, weight: u64) -> Result<(TurnLock<T>, Pass<T>), T>
        requires { 1 ≤ weight }
        ensures ok { IfOk result
            (λ r.
            (r.1.lock ≡ r.0.id) × (r.0.whole ≡ weight) × (r.1.seen ≡ T.story value)
            × (r.1.weight ≡ weight)) }
        ensures err { IfErr result (λ back. back ≡ value) }
    {
        let opening = Opening {
            whole: weight,
            value: Snapshot::of(&value),
        };
        let Ok(mut slots) = Vec::with_capacity(alloc, 1) else {
            return Err(value);
        };
        let Ok(sleepers) = Sleepers::new(alloc) else {
            slots.destroy_empty();
            return Err(value);
        };
        slots.push_reserved(Some(value));
        match Table::new(alloc, &[0, 0], slots, &opening) {
            Ok((table, seat)) => { Ok((TurnLock { table, sleepers }, Pass { seat })) }
            Err(Refused { slots }) => Err(only(slots)),
        }
    }

    /// Two passes for one: the first has the greater half of the weight, and both have seen the same story.
    ///
    /// It waits for nobody, and costs one atomic load.
    pub fn split(&self, pass: Pass<T>) -> (Pass<T>, Pass<T>)
        requires own { pass.lock ≡ self.now.id }
        requires weight { 2 ≤ pass.weight }
        ensures own { (result.0.lock ≡ pass.lock) × (result.1.lock ≡ pass.lock) }
        ensures weight { (result.0.weight ≡ pass.weight - pass.weight / 2)
            × (result.1.weight ≡ pass.weight / 2) }
        ensures seen { (result.0.seen ≡ pass.seen) × (result.1.seen ≡ pass.seen) }
    {
        let Pass { mut seat } = pass;
        let other = self.table.shared.split_seat::<Halve>(&mut seat);
        (Pass { seat }, Pass { seat: other })
    }

    /// One pass for two, with the weight of both. It has seen the longer of their two stories, of which the one begins
    /// the other.
    ///
    /// It waits for nobody, and costs two atomic loads.
    pub fn join(&self, one: Pass<T>, two: Pass<T>) -> Pass<T>
        requires own { (one.lock ≡ self.now.id) × (two.lock ≡ self.now.id) }
        ensures own { result.lock ≡ one.lock }
        ensures weight { result.weight ≡ one.weight + two.weight }
        ensures seen { IsLongerOf one.seen two.seen result.seen }
    {
        let Pass { mut seat } = one;
        let Pass { seat: other } = two;
        let shared = &self.table.shared;
        shared.join_seat::<Unite>(&mut seat, other);
        shared.load::<Settle>(&mut seat, DRAWN);
        Pass { seat }
    }

    /// Waits for the pass's turn, and takes the value. Its story begins with all that the pass has seen.
    ///
    /// It need not return: no turn is promised, nor any order of turns. Uncontended it costs one atomic addition and some
    /// loads. A thread that waits sleeps until it is next, looks then for its turn fifty times, and sleeps again if it
    /// has not come.
    pub fn take<R: Wait>(&self, rt: &R, pass: Pass<T>) -> (Held<T>, T)
        requires own { pass.lock ≡ self.now.id }
        ensures own { result.0.lock ≡ pass.lock }
        ensures weight { result.0.weight ≡ pass.weight }
        ensures taken { result.0.story ≡ T.story result.1 }
        ensures seen { IsPrefix pass.seen (T.story result.1) }
    {
        let Pass { mut seat } = pass;
        let shared = &self.table.shared;
        let ticket = shared.fetch_add::<Draw>(&mut seat, DRAWN, 1);
        wait_for(rt, shared, &self.sleepers, &mut seat, ticket);
        let value = shared.exchange(&mut seat, VALUE, None).unwrap();
        (Held { seat }, value)
    }

    /// Gives the value back, with a story that begins with the one taken, and wakes the thread whose turn it is, and the one
    /// that is next then. The pass has then seen the given story whole.
    ///
    /// It waits for nobody. It costs one atomic addition and two loads; where threads sleep it also wakes those at two places.
    pub fn give(&self, held: Held<T>, value: T) -> Pass<T>
        requires own { held.lock ≡ self.now.id }
        requires story { IsPrefix held.story (T.story value) }
        ensures own { result.lock ≡ held.lock }
        ensures weight { result.weight ≡ held.weight }
        ensures seen { result.seen ≡ T.story value }
    {
        let Held { mut seat } = held;
        let shared = &self.table.shared;
        let taken = shared.exchange(&mut seat, VALUE, Some(value));
        let None = taken else { unreachable!() };
        let served = shared.fetch_add::<Give<T>>(&mut seat, SERVED, 1);
        self.sleepers.call(served.wrapping_add(1));
        self.sleepers.call(served.wrapping_add(2));
        Pass { seat }
    }

    /// The value, for the pass that has the whole weight. Its story is just what that pass has seen, so nothing that was
    /// given back is lost, and nothing is added. The lock's memory is freed.
    pub fn close(self, pass: Pass<T>) -> T
        requires own { pass.lock ≡ self.id }
        requires whole { pass.weight ≡ self.whole }
        ensures { T.story result ≡ pass.seen }
    {
        let TurnLock { table, sleepers: _ } = self;
        let Pass { seat } = pass;
        let mut closed = table.close_with(seat);
        let value = closed.take(VALUE);
        closed.free();
        value.unwrap()
    }
}

// Looks for a while whether it is the ticket's turn, where the turn before it has begun. Other threads may run meanwhile, the
// one that has the value among them.
fn look_ahead<T: Storied>(shared: &SharedTable<T>, ticket: u64)
    requires { shared.now.table_id.words ≡ 2 }
{
    for _ in 0..LOOKS {
        let served = shared.peek(SERVED);
        if ticket == served || ticket.wrapping_sub(served) > 1 {
            return;
        }
        thread::yield_now();
    }
}

// Looks whether it is the ticket's turn, and then has the value in hand.
fn has_turn<T: Storied>(shared: &SharedTable<T>, seat: &mut TurnSeat<T>, ticket: u64) -> bool
    requires own { (seat.old.table_id ≡ shared.now.table_id) × (shared.now.table_id.words ≡ 2) }
    requires waits { (t : ℕ) × (seat.old.me.0.stage ≡ Waits t) × (ticket ≡ in_word t) }
    requires empty { seat.old.me.1 ≡ [] }
    ensures own { seat.new.table_id ≡ seat.old.table_id }
    ensures taken { OnTrue result (HasTaken T.story seat.old.me seat.new.me) }
    ensures same { OnFalse result (seat.new.me ≡ seat.old.me) }
{
    let served = shared.load::<Look<T>>(seat, SERVED);
    served == ticket
}

// Waits until it is the ticket's turn, and then has the value in hand. It is counted as a sleeper before it looks for the last
// time, so whoever serves its ticket afterwards calls it; and it does not sleep where it was called since its round began.
fn wait_for<T: Storied, R: Wait>(
    rt: &R,
    shared: &SharedTable<T>,
    sleepers: &Sleepers,
    seat: &mut TurnSeat<T>,
    ticket: u64,
)
    requires own { (seat.old.table_id ≡ shared.now.table_id) × (shared.now.table_id.words ≡ 2) }
    requires waits { (t : ℕ) × (seat.old.me.0.stage ≡ Waits t) × (ticket ≡ in_word t) }
    requires empty { seat.old.me.1 ≡ [] }
    ensures own { seat.new.table_id ≡ seat.old.table_id }
    ensures taken { HasTaken T.story seat.old.me seat.new.me }
{
    for _ in rt.forever() {
        let calls = sleepers.calls(ticket);
        look_ahead(shared, ticket);
        if has_turn(shared, seat, ticket) {
            return;
        }
        sleepers.enter();
        if has_turn(shared, seat, ticket) {
            sleepers.leave();
            return;
        }
        sleepers.sleep(rt, ticket, calls);
        sleepers.leave();
    }
    unreachable!()
}

// The value in the one slot that a table gave back.
fn only<T>(mut slots: Vec<Option<T>>) -> T
    requires { (value : T) × (slots.items ≡ Some value ∷ []) }
    ensures { slots.items ≡ Some result ∷ [] }
{
    let slot = slots.pop().unwrap();
    slots.destroy_empty();
    slot.unwrap()
}
