//! Each lane's notes stand in the story of a closed tally in their order, and a value that no lock was made round comes back.
ghost use Rattle.std.specs.Prelude.{◌≡◌, ℕ, ◌^◌, ◌<◌, ◌≤◌, map, IfSome};
ghost use Rattle.std.specs.List.{range_with_len};
ghost use mathlib.Core.List.{Sublist};

use std::alloc::{AllocError, Global};
use std::process::Abort;
use std::sync::Wait;
use std::test::Fail;
use std::thread::Threads;
use tally::{Note, Tally, run_lanes};
use turn_lock::TurnLock;

mod tally;

// The tally of so many lanes, each with so many notes. None for want of memory.
fn noted_by_lanes<R: Threads + Wait + Sync>(
    rt: &R,
    alloc: Global,
    lanes: u32,
    count: u32,
) -> Option<Tally>
    requires { (1 ≤ lanes) × (lanes < 2 ^ 16) }
    ensures { IfSome result
        (λ tally.
        (lane : ℕ)
        → lane < lanes
        → Sublist (map (λ n. record { lane = lane; number = n }) (range_with_len 0 count))
        tally.notes.items) }
{
    let empty = Tally {
        notes: Vec::new(alloc),
    };
    let (lock, pass) = TurnLock::new(alloc, empty, 65536).ok()?;
    let (pass, noted) = run_lanes(rt, &lock, pass, 0, lanes, count);
    let tally = lock.close(pass);
    if noted { Some(tally) } else { None }
}

// Each lane's notes stand in the tally in their order, and nothing else does.
fn check_order<R: Abort>(
    rt: &R,
    alloc: Global,
    tally: &Tally,
    lanes: usize,
    count: u32,
) -> Result<(), AllocError> {
    let mut next = vec![in alloc; 0u32; lanes]?;
    for note in tally.notes.iter() {
        let Some(expected) = next.get_mut(note.lane as usize) else {
            panic!(rt; "a note of lane {}", note.lane);
        };
        assert_eq!(rt; note.number, *expected, "lane {}", note.lane);
        *expected = expected.wrapping_add(1);
    }
    assert!(rt;
        next.iter().all(|written| *written == count),
        "a note is missing"
    );
    Ok(())
}

#[test]
fn two_threads_of_many_turns(rt: HostRuntime) -> Result<(), Fail> {
    let tally = noted_by_lanes(&rt, rt.alloc(), 2, 20000).ok_or("no memory")?;
    check_order(&rt, rt.alloc(), &tally, 2, 20000)?;
    Ok(())
}

#[test]
fn nine_lanes_forked_by_halving(rt: HostRuntime) -> Result<(), Fail> {
    let tally = noted_by_lanes(&rt, rt.alloc(), 9, 300).ok_or("no memory")?;
    check_order(&rt, rt.alloc(), &tally, 9, 300)?;
    Ok(())
}

// It is also run with each allocation refused in turn: the value comes back either way.
#[test]
fn the_value_comes_back(rt: HostRuntime) -> Result<(), Fail> {
    let mut notes = Vec::new(rt.alloc());
    notes.push(Note { lane: 3, number: 7 })?;
    let back = match TurnLock::new(rt.alloc(), Tally { notes }, 1) {
        Ok((lock, pass)) => lock.close(pass),
        Err(back) => back,
    };
    assert_eq!(rt; back.notes.len(), 1);
    assert_eq!(rt; (back.notes[0].lane, back.notes[0].number), (3, 7));
    Ok(())
}
