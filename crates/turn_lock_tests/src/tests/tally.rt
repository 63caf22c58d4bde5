//! A tally that several lanes write, each note in a turn of its own.
ghost use Rattle.std.specs.Prelude.{◌≡◌, ℕ, ◌+◌, ◌^◌, ◌<◌, ◌≤◌, map};
ghost use Rattle.std.specs.Bool.{OnTrue};
ghost use Rattle.std.specs.List.{range_with_len};
ghost use mathlib.Core.List.{Sublist};
ghost use Rattle.std.specs.Thread.{IsSync};

use std::sync::Wait;
use std::thread::{Threads, join};
use turn_lock::{Pass, Storied, TurnLock};

/// The lane that wrote it, and how many notes the lane wrote before.
#[derive(Clone, Copy)]
pub struct Note {
    pub lane: u32,
    pub number: u32,
}

/// What was noted, in order.
#[derive(Drop)]
pub struct Tally {
    pub notes: Vec<Note>,
}

impl Storied for Tally {
    type Step = Note;

    ghost story = { λ tally. tally.notes.items };
}

/// Writes the notes of one lane. They then stand in the story in their order, unless memory ran out, which is false.
pub fn write_notes<R: Wait>(
    rt: &R,
    lock: &TurnLock<Tally>,
    pass: Pass<Tally>,
    lane: u32,
    count: u32,
) -> (Pass<Tally>, bool)
    requires { pass.lock ≡ lock.now.id }
    ensures own { (result.0.lock ≡ pass.lock) × (result.0.weight ≡ pass.weight) }
    ensures noted { OnTrue result.1
        (Sublist (map (λ n. record { lane = lane; number = n }) (range_with_len 0 count))
        result.0.seen) }
{
    let mut pass = pass;
    for number in 0..count {
        let (held, mut tally) = lock.take(rt, pass);
        let noted = tally.notes.push(Note { lane, number }).is_ok();
        pass = lock.give(held, tally);
        if !noted {
            return (pass, false);
        }
    }
    (pass, true)
}

/// The same for each of the lanes from the first on, half of them in another thread.
pub fn run_lanes<R: Threads + Wait + Sync>(
    rt: &R,
    lock: &TurnLock<Tally>,
    pass: Pass<Tally>,
    first: u32,
    lanes: u32,
    count: u32,
) -> (Pass<Tally>, bool)
    requires own { pass.lock ≡ lock.now.id }
    requires lanes { (1 ≤ lanes) × (lanes ≤ pass.weight) × (first + lanes < 2 ^ 32) }
    ensures own { (result.0.lock ≡ pass.lock) × (result.0.weight ≡ pass.weight) }
    ensures noted { OnTrue result.1
        ((lane : ℕ)
        → first ≤ lane
        → lane < first + lanes
        → Sublist (map (λ n. record { lane = lane; number = n }) (range_with_len 0 count))
        result.0.seen) }
{
    if lanes == 1 {
        return write_notes(rt, lock, pass, first, count);
    }
    let others = lanes / 2;
    let here = lanes - others;
    let next = first + here;
    let (one, two) = lock.split(pass);
    let ((one, noted), (two, others_noted)) = join(
        rt,
        || -> (Pass<Tally>, bool)
            requires { IsSync R.row × (one.lock ≡ lock.now.id) × (1 ≤ here) × (here ≤ one.weight)
                × (first + here < 2 ^ 32) }
            ensures own { (result.0.lock ≡ one.lock) × (result.0.weight ≡ one.weight) }
            ensures noted { OnTrue result.1
                ((lane : ℕ)
                → first ≤ lane
                → lane < first + here
                → Sublist
                (map (λ n. record { lane = lane; number = n }) (range_with_len 0 count))
                result.0.seen) }
        { run_lanes(rt, lock, one, first, here, count) },
        || -> (Pass<Tally>, bool)
            requires { IsSync R.row × (two.lock ≡ lock.now.id) × (1 ≤ others)
                × (others ≤ two.weight) × (next + others < 2 ^ 32) }
            ensures own { (result.0.lock ≡ two.lock) × (result.0.weight ≡ two.weight) }
            ensures noted { OnTrue result.1
                ((lane : ℕ)
                → next ≤ lane
                → lane < next + others
                → Sublist
                (map (λ n. record { lane = lane; number = n }) (range_with_len 0 count))
                result.0.seen) }
        { run_lanes(rt, lock, two, next, others, count) },
    );
    (lock.join(one, two), noted && others_noted)
}
