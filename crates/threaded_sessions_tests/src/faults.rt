//! Disks that fail under a build of several builders.

ghost use Rattle.std.specs.Prelude.{IfOk};
ghost use Rattle.disk_model.specs.MemoryDisks.{ghost_state_of};
ghost use Rattle.session_run.specs.Faults.Stopped.{IsHandedIn};

use crate::hooks::Late;
use crate::sessions::{Runtime, outside_of, parts_of, report_of, run_on};
use cc_names::memory::NoMemory;
use disk_model::MemoryDisk;
use std::alloc::Global;
use std::test::Fail;

// The first three rows are made by the calls 4 to 15, and the five of the first build by the calls 16 to 35, where none fails.
const BUILT_AGAIN: &str = "\
phase
lane a
mkview v
save v Makefile
|sum: a b c d
|\tcat a b c d > sum
|a: in
|\tcat in > a
|b: in
|\tcat in > b
|c: in
|\tcat in > c
|d: in
|\tcat in > d
save v in
|hi
clearmake v -J 4
clearmake v -J 4
----
phase 1
lane a
1 mkview ok
2 save ok
3 save ok
4 clearmake disk fault
5 clearmake ok
  a built 3 98ea6e4f216f2fb4b69fff9b3a44842c38686ca685f3f55dc48c5d3fb1107be4
  b built 3 98ea6e4f216f2fb4b69fff9b3a44842c38686ca685f3f55dc48c5d3fb1107be4
  c built 3 98ea6e4f216f2fb4b69fff9b3a44842c38686ca685f3f55dc48c5d3fb1107be4
  d built 3 98ea6e4f216f2fb4b69fff9b3a44842c38686ca685f3f55dc48c5d3fb1107be4
  sum built 12 ac93540fa2a8e3c23c8cb38a466c918827e4b1ac6a5d996ca381266e0f876f61
status 7, 8 rows
";

// An empty disk, of which this call fails.
fn failing_disk(alloc: Global, call: u64) -> Result<MemoryDisk, NoMemory>
    ensures { IfOk result (λ disk. IsHandedIn (ghost_state_of disk)) }
{
    MemoryDisk::new(alloc, &[], &[], &[call])
}

// The first build is told of the fault. The next one keeps what had been published before, and makes the rest.
fn assert_built_again(rt: &impl Runtime, alloc: Global, call: u64) -> Result<(), Fail> {
    let (session, wanted) = parts_of(BUILT_AGAIN);
    let mut outside = outside_of(alloc, session)?;
    let disk = failing_disk(alloc, call)?;
    let ended = run_on(rt, alloc, &Late::new("d"), disk, &mut outside)?;
    let reported = report_of(alloc, outside.sink.bytes(), &ended)?;
    let published = call.saturating_sub(16) / 4;
    assert_eq!(rt;
        reported.as_str().matches(" kept ").count() as u64,
        published,
        "at {call}"
    );
    let reported = reported.as_str().replace(alloc, " kept ", " built ")?;
    assert_eq!(rt; reported.as_str(), wanted, "at {call}");
    Ok(())
}

/// Each call of a build fails in turn, while other builders are at their scripts. The run of `d` reads once another one has
/// ended, so it comes upon the fault where that is under the first publish.
#[test]
fn a_build_of_four_builders_ends_with_its_disk(rt: HostRuntime) -> Result<(), Fail> {
    for call in 16..=35 {
        assert_built_again(&rt, rt.alloc(), call)?;
    }
    Ok(())
}
