//! How often each script is run and asks the gate.

use super::assert_session_at;
use crate::hooks::{Counting, Runs};
use crate::sessions::{ALONE, Runtime};
use std::alloc::Global;
use std::test::Fail;

// A first build, and the same build once more.
const BUILT_TWICE: &str = "\
phase
lane a
mkview v
save v Makefile
|out: in
|\tcat in > out
save v in
|hi
clearmake v out
clearmake v out
----
phase 1
lane a
1 mkview ok
2 save ok
3 save ok
4 clearmake ok
  out built 3 98ea6e4f216f2fb4b69fff9b3a44842c38686ca685f3f55dc48c5d3fb1107be4
5 clearmake ok
  out kept 3 98ea6e4f216f2fb4b69fff9b3a44842c38686ca685f3f55dc48c5d3fb1107be4
status 0, 4 rows
";

// Each of these units is run once, with so many reads.
fn assert_counts(
    rt: &impl Runtime,
    alloc: Global,
    runs: &[Runs],
    reads: &[u64],
    case: &str,
) -> Result<(), Fail> {
    let hook = Counting::new(runs);
    assert_session_at(rt, alloc, &hook, ALONE, case)?;
    assert!(rt; !hook.was_astray(), "in {case:?}");
    for (runs, reads) in runs.iter().zip(reads) {
        assert_eq!(rt; runs.counts(), (1, *reads, 1), "in {case:?}");
    }
    Ok(())
}

/// A script is run once where its unit is built, and not where the unit is kept.
#[test]
fn a_unit_that_is_kept_runs_nothing(rt: HostRuntime) -> Result<(), Fail> {
    assert_counts(&rt, rt.alloc(), &[Runs::new("out")], &[1], BUILT_TWICE)
}

// A build in one view, and the same build in another one, which sees the same versions.
const BUILT_IN_TWO_VIEWS: &str = "\
phase
lane a
mkview v
checkout v .
mkelem v Makefile
save v Makefile
|out: in
|\tcat in > out
checkin v Makefile
mkelem v in
save v in
|hi
checkin v in
checkin v .
mkview w
clearmake v
clearmake w
----
phase 1
lane a
1 mkview ok
2 checkout ok /main/0
3 mkelem ok
4 save ok
5 checkin ok /main/1
6 mkelem ok
7 save ok
8 checkin ok /main/1
9 checkin ok /main/1
10 mkview ok
11 clearmake ok
  out built 3 98ea6e4f216f2fb4b69fff9b3a44842c38686ca685f3f55dc48c5d3fb1107be4
12 clearmake ok
  out winked 3 98ea6e4f216f2fb4b69fff9b3a44842c38686ca685f3f55dc48c5d3fb1107be4
status 0, 12 rows
";

/// Nor is it run where an object is winked in for the unit.
#[test]
fn a_unit_that_is_winked_in_runs_nothing(rt: HostRuntime) -> Result<(), Fail> {
    assert_counts(
        &rt,
        rt.alloc(),
        &[Runs::new("out")],
        &[1],
        BUILT_IN_TWO_VIEWS,
    )
}

// A script that reads two files, and one that includes another.
const OF_FOUR_FILES: &str = "\
phase
lane a
mkview v
save v Makefile
|out:
|\tcat x y > out
|\tpp a.c >> out
save v x
|foo
save v y
|bar
save v a.c
|hello
|#include \"h\"
save v h
|hi
clearmake v
----
phase 1
lane a
1 mkview ok
2 save ok
3 save ok
4 save ok
5 save ok
6 save ok
7 clearmake ok
  out built 17 33626dbb0dc2ad2b8fcf99655f8690a841ac91b8e7fce42734898634925735f3
status 0, 7 rows
";

#[test]
fn each_read_asks_the_hook(rt: HostRuntime) -> Result<(), Fail> {
    assert_counts(&rt, rt.alloc(), &[Runs::new("out")], &[4], OF_FOUR_FILES)
}

// Eight parts that four builders share, and what is made of them.
const OF_EIGHT_PARTS: &str = "\
phase
lane a
mkview v
save v Makefile
|sum: u0 u1 u2 u3 u4 u5 u6 u7
|\tcat u0 u1 u2 u3 u4 u5 u6 u7 > sum
|u0: in
|\tcat in > u0
|u1: in
|\tcat in > u1
|u2: in
|\tcat in > u2
|u3: in
|\tcat in > u3
|u4: in
|\tcat in > u4
|u5: in
|\tcat in > u5
|u6: in
|\tcat in > u6
|u7: in
|\tcat in > u7
save v in
|hi
clearmake v -J 4
----
phase 1
lane a
1 mkview ok
2 save ok
3 save ok
4 clearmake ok
  u0 built 3 98ea6e4f216f2fb4b69fff9b3a44842c38686ca685f3f55dc48c5d3fb1107be4
  u1 built 3 98ea6e4f216f2fb4b69fff9b3a44842c38686ca685f3f55dc48c5d3fb1107be4
  u2 built 3 98ea6e4f216f2fb4b69fff9b3a44842c38686ca685f3f55dc48c5d3fb1107be4
  u3 built 3 98ea6e4f216f2fb4b69fff9b3a44842c38686ca685f3f55dc48c5d3fb1107be4
  u4 built 3 98ea6e4f216f2fb4b69fff9b3a44842c38686ca685f3f55dc48c5d3fb1107be4
  u5 built 3 98ea6e4f216f2fb4b69fff9b3a44842c38686ca685f3f55dc48c5d3fb1107be4
  u6 built 3 98ea6e4f216f2fb4b69fff9b3a44842c38686ca685f3f55dc48c5d3fb1107be4
  u7 built 3 98ea6e4f216f2fb4b69fff9b3a44842c38686ca685f3f55dc48c5d3fb1107be4
  sum built 24 b895f43c13b0e4d1f17dfb7237872bb2b0c5e1994c9650475d56a54795c8a83c
status 0, 12 rows
";

/// Each run that begins ends, and no script is run by two builders.
#[test]
fn each_unit_is_run_by_one_builder(rt: HostRuntime) -> Result<(), Fail> {
    let runs = [
        Runs::new("u0"),
        Runs::new("u1"),
        Runs::new("u2"),
        Runs::new("u3"),
        Runs::new("u4"),
        Runs::new("u5"),
        Runs::new("u6"),
        Runs::new("u7"),
        Runs::new("sum"),
    ];
    let reads = [1, 1, 1, 1, 1, 1, 1, 1, 8];
    assert_counts(&rt, rt.alloc(), &runs, &reads, OF_EIGHT_PARTS)
}
