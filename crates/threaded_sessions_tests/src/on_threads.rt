//! Lanes and builders on threads: scripts of several lanes and of one build run at once and outside the lock, and what they come
//! to is what it is in any order.

mod counts;
mod meetings;
mod runs_held_up;

use crate::hooks::{Hold, Holds};
use crate::sessions::{Preamble, Runtime, is_as_wanted, outcome_at, parts_of};
use cc_outside::Hook;
use std::alloc::Global;
use std::test::Fail;

// A session after a front comes to what its case says, where its runs ask this gate.
fn assert_session_at<G: Hook + Sync>(
    rt: &impl Runtime,
    alloc: Global,
    hook: &G,
    preamble: Preamble,
    case: &str,
) -> Result<(), Fail> {
    let (session, wanted) = parts_of(case);
    let session = format!(in alloc; "{}{session}", preamble.asked)?;
    let outcome = outcome_at(rt, alloc, hook, &[], session.as_str())?;
    let reported = outcome.reported.as_str().strip_prefix(preamble.reported);
    assert!(rt;
        reported.is_some_and(|reported| is_as_wanted(reported, wanted)),
        "{reported:?} of {session:?}"
    );
    Ok(())
}

// The same, and each hold ends because the run that it waits for has come.
fn assert_held(
    rt: &impl Runtime,
    alloc: Global,
    holds: &[Hold],
    preamble: Preamble,
    case: &str,
) -> Result<(), Fail> {
    let hook = Holds(holds);
    assert_session_at(rt, alloc, &hook, preamble, case)?;
    assert!(rt; hook.were_met(), "no run came to another in {case:?}");
    Ok(())
}
