//! Scripts that meet: of two lanes and of one build, where a builder steals, and where a unit is released or laid twice.

use super::assert_held;
use crate::hooks::{About, Hold, HookPoint};
use crate::sessions::{ALONE, Preamble};
use std::test::Fail;

// A makefile and its source in the base, seen by two views: `in` is of row 8.
const ONE_FILE: Preamble = Preamble {
    asked: "\
phase
lane a
mkview v
checkout v .
mkelem v Makefile
save v Makefile
|out: in
|\tcat in > out
checkin v Makefile
mkelem v in
save v in
|hi
checkin v in
checkin v .
mkview w
",
    reported: "\
phase 1
lane a
1 mkview ok
2 checkout ok /main/0
3 mkelem ok
4 save ok
5 checkin ok /main/1
6 mkelem ok
7 save ok
8 checkin ok /main/1
9 checkin ok /main/1
10 mkview ok
",
};

// Two lanes that build the same. Both scripts run, and the second looks once more.
const TWO_LANES: &str = "\
phase
lane a
clearmake v
lane b
clearmake w
----
phase 2
lane a
1 clearmake ok
  out shared 3 98ea6e4f216f2fb4b69fff9b3a44842c38686ca685f3f55dc48c5d3fb1107be4
lane b
1 clearmake ok
  out shared 3 98ea6e4f216f2fb4b69fff9b3a44842c38686ca685f3f55dc48c5d3fb1107be4
status 0, 12 rows
";

/// No run goes on with its first read before the other has come to its own. Where lanes ran in one thread, or scripts inside
/// the lock, they would never meet.
#[test]
fn scripts_of_two_lanes_meet_at_their_reads(rt: HostRuntime) -> Result<(), Fail> {
    let holds = [
        Hold::new(
            HookPoint::new(1, "out", About::Read),
            HookPoint::new(2, "out", About::Read),
        ),
        Hold::new(
            HookPoint::new(2, "out", About::Read),
            HookPoint::new(1, "out", About::Read),
        ),
    ];
    assert_held(&rt, rt.alloc(), &holds, ONE_FILE, TWO_LANES)
}

// A program of two sources by a suffix rule, built by two builders, and a source as a goal. The saves are rows 2 to 5.
const PROGRAM_OF_TWO: &str = "\
phase
lane a
mkview v
save v main.c
|#include \"util.h\"
save v util.h
|foo
save v util.c
|bar
save v Makefile
|# program
|OBJS = main.o util.o
|prog: $(OBJS)
|\t@cat $(OBJS) >$@
|.c.o:
|\tpp $< > $@
clearmake v -J 2 -k
clearmake v main.c
----
phase 1
lane a
1 mkview ok
2 save ok
3 save ok
4 save ok
5 save ok
6 clearmake ok
  main.o built 4 b5bb9d8014a0f9b1d61e21e796d78dccdf1352f23cd32812f4850b878ae4944c
  util.o built 4 7d865e959b2466918c9863afca942d0fb89d7c9ac0c99bafc3749504ded97730
  prog built 8 d78931fcf2660108eec0d6674ecb4e02401b5256a6b5ee82527766ef6d198c67
7 clearmake ok
status 0, 8 rows
";

#[test]
fn scripts_of_one_build_meet_at_their_reads(rt: HostRuntime) -> Result<(), Fail> {
    let holds = [
        Hold::new(
            HookPoint::new(1, "main.o", About::Read),
            HookPoint::new(1, "util.o", About::Read),
        ),
        Hold::new(
            HookPoint::new(1, "util.o", About::Read),
            HookPoint::new(1, "main.o", About::Read),
        ),
    ];
    assert_held(&rt, rt.alloc(), &holds, ALONE, PROGRAM_OF_TWO)
}

#[test]
fn scripts_of_one_build_are_inside_at_once(rt: HostRuntime) -> Result<(), Fail> {
    let holds = [
        Hold::new(
            HookPoint::new(1, "main.o", About::Enter),
            HookPoint::new(1, "util.o", About::Enter),
        ),
        Hold::new(
            HookPoint::new(1, "util.o", About::Enter),
            HookPoint::new(1, "main.o", About::Enter),
        ),
    ];
    assert_held(&rt, rt.alloc(), &holds, ALONE, PROGRAM_OF_TWO)
}

// The first of two builders is dealt all three, and none of them stands on another.
const STOLEN: &str = "\
phase
lane a
mkview v
save v Makefile
|a:
|\techo hi > a
|b:
|\techo foo > b
|c:
|\techo bar > c
clearmake v -J 2 a b c
----
phase 1
lane a
1 mkview ok
2 save ok
3 clearmake ok
  a built 3 98ea6e4f216f2fb4b69fff9b3a44842c38686ca685f3f55dc48c5d3fb1107be4
  b built 4 b5bb9d8014a0f9b1d61e21e796d78dccdf1352f23cd32812f4850b878ae4944c
  c built 4 7d865e959b2466918c9863afca942d0fb89d7c9ac0c99bafc3749504ded97730
status 0, 5 rows
";

/// Whoever runs `a` is held there until the other has stolen `c`.
#[test]
fn a_builder_without_tasks_steals_one(rt: HostRuntime) -> Result<(), Fail> {
    let holds = [Hold::new(
        HookPoint::new(1, "a", About::Enter),
        HookPoint::new(1, "c", About::Enter),
    )];
    assert_held(&rt, rt.alloc(), &holds, ALONE, STOLEN)
}

// The first of two builders is dealt `a`, `b`, `c` and `d`; `b` and `d` need `a`.
const RELEASED: &str = "\
phase
lane a
mkview v
save v Makefile
|a:
|\techo hi > a
|b: a
|\tcat a > b
|c:
|\techo foo > c
|d: a
|\tcat a > d
clearmake v -J 2 a b c d
----
phase 1
lane a
1 mkview ok
2 save ok
3 clearmake ok
  a built 3 98ea6e4f216f2fb4b69fff9b3a44842c38686ca685f3f55dc48c5d3fb1107be4
  b built 3 98ea6e4f216f2fb4b69fff9b3a44842c38686ca685f3f55dc48c5d3fb1107be4
  c built 4 b5bb9d8014a0f9b1d61e21e796d78dccdf1352f23cd32812f4850b878ae4944c
  d built 3 98ea6e4f216f2fb4b69fff9b3a44842c38686ca685f3f55dc48c5d3fb1107be4
status 0, 6 rows
";

/// The run of `a` lasts until `c` begins, by when the second builder has stolen `b` and tried it in vain. So builders come to
/// it only as `a` releases it; what no builder runs is run by one thread, where it would never meet `d`.
#[test]
fn a_unit_is_driven_once_it_is_released(rt: HostRuntime) -> Result<(), Fail> {
    let holds = [
        Hold::new(
            HookPoint::new(1, "a", About::Enter),
            HookPoint::new(1, "c", About::Enter),
        ),
        Hold::new(
            HookPoint::new(1, "b", About::Enter),
            HookPoint::new(1, "d", About::Enter),
        ),
        Hold::new(
            HookPoint::new(1, "d", About::Enter),
            HookPoint::new(1, "b", About::Enter),
        ),
    ];
    assert_held(&rt, rt.alloc(), &holds, ALONE, RELEASED)
}

// The first of two builders is dealt `a`, `b`, `c`, which needs `b`, and `all`.
const RELEASED_BESIDE: &str = "\
phase
lane a
mkview v
save v Makefile
|all: a c
|a:
|\techo hi > a
|b:
|\techo foo > b
|c: b
|\tcat b > c
clearmake v -J 2
----
phase 1
lane a
1 mkview ok
2 save ok
3 clearmake ok
  a built 3 98ea6e4f216f2fb4b69fff9b3a44842c38686ca685f3f55dc48c5d3fb1107be4
  b built 4 b5bb9d8014a0f9b1d61e21e796d78dccdf1352f23cd32812f4850b878ae4944c
  c built 4 b5bb9d8014a0f9b1d61e21e796d78dccdf1352f23cd32812f4850b878ae4944c
  all made
status 0, 5 rows
";

/// The run of `a` lasts until `c` begins, which needs `b`: were `c` left until the units dealt before it have ended, they would
/// never meet.
#[test]
fn a_unit_is_released_while_another_runs(rt: HostRuntime) -> Result<(), Fail> {
    let holds = [Hold::new(
        HookPoint::new(1, "a", About::Enter),
        HookPoint::new(1, "c", About::Enter),
    )];
    assert_held(&rt, rt.alloc(), &holds, ALONE, RELEASED_BESIDE)
}

// The first of two builders is dealt `a`, `x`, `f`, which needs `x`, and `d`, which needs `a`.
const LAID_TWICE: &str = "\
phase
lane a
mkview v
save v Makefile
|a:
|\techo hi > a
|x:
|\techo hi > x
|f: x
|\tcat x > f
|d: a
|\tcat a > d
clearmake v -J 2 a f d
----
phase 1
lane a
1 mkview ok
2 save ok
3 clearmake ok
  a built 3 98ea6e4f216f2fb4b69fff9b3a44842c38686ca685f3f55dc48c5d3fb1107be4
  x built 3 98ea6e4f216f2fb4b69fff9b3a44842c38686ca685f3f55dc48c5d3fb1107be4
  f built 3 98ea6e4f216f2fb4b69fff9b3a44842c38686ca685f3f55dc48c5d3fb1107be4
  d built 3 98ea6e4f216f2fb4b69fff9b3a44842c38686ca685f3f55dc48c5d3fb1107be4
status 0, 6 rows
";

/// As the first builder comes to `x`, `d` lies in its deque twice, since `a` has released it. The second one steals `f`, which
/// it tries in vain, and `d`, whose run lets that of `x` go on and lasts until `f` begins. The first builder comes to the other
/// `d` before `f`, which `x` has released by then: if it ran `d` as well, nobody would come to `f`.
#[test]
fn a_unit_that_is_laid_twice_is_run_once(rt: HostRuntime) -> Result<(), Fail> {
    let holds = [
        Hold::new(
            HookPoint::new(1, "x", About::Enter),
            HookPoint::new(1, "d", About::Enter),
        ),
        Hold::new(
            HookPoint::new(1, "d", About::Enter),
            HookPoint::new(1, "f", About::Enter),
        ),
    ];
    assert_held(&rt, rt.alloc(), &holds, ALONE, LAID_TWICE)
}
