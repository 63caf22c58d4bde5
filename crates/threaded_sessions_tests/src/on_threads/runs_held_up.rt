//! Builds that are held while another lane goes on: what they read is what it was as they began, and their views are left alone.

use super::assert_held;
use crate::hooks::{About, Hold, HookPoint};
use crate::sessions::Preamble;
use std::test::Fail;

// The versions of `in` are rows 8 and 13, and the label stands on the first. View `w` selects by the label, `v` and `v2` the
// latest.
const LABELLED: Preamble = Preamble {
    asked: "\
phase
lane a
mkview v
checkout v .
mkelem v Makefile
save v Makefile
|out: in
|\tcat in > out
|pre:
|\techo hi > pre
checkin v Makefile
mkelem v in
save v in
|foo
checkin v in
mklbtype REL
mklabel v REL in
checkout v in
save v in
|bar
checkin v in
checkin v .
mkview w
setcs w
|element in REL
|element * CHECKEDOUT
|element * /main/LATEST
mkview v2
",
    reported: "\
phase 1
lane a
1 mkview ok
2 checkout ok /main/0
3 mkelem ok
4 save ok
5 checkin ok /main/1
6 mkelem ok
7 save ok
8 checkin ok /main/1
9 mklbtype ok
10 mklabel ok
11 checkout ok /main/1
12 save ok
13 checkin ok /main/2
14 checkin ok /main/1
15 mkview ok
16 setcs ok
17 mkview ok
",
};

// Lane b's run of `pre` goes on once lane a runs `out`, and that once lane b runs `out`: so what lane b does between its builds
// comes while lane a's run is held.
fn holds_between_builds() -> [Hold; 2] {
    [
        Hold::new(
            HookPoint::new(2, "pre", About::Enter),
            HookPoint::new(1, "out", About::Enter),
        ),
        Hold::new(
            HookPoint::new(1, "out", About::Enter),
            HookPoint::new(2, "out", About::Enter),
        ),
    ]
}

// The label moves while lane a's build goes on, which sees it where it was. Its next build sees it moved, and winks in what
// lane b built.
const LABEL_MOVED: &str = "\
phase
lane a
clearmake w out
lane b
clearmake v pre
mklabel v -replace REL in
clearmake v out
phase
lane a
clearmake w out
----
phase 2
lane a
1 clearmake ok
  out built 4 b5bb9d8014a0f9b1d61e21e796d78dccdf1352f23cd32812f4850b878ae4944c
lane b
1 clearmake ok
  pre built 3 98ea6e4f216f2fb4b69fff9b3a44842c38686ca685f3f55dc48c5d3fb1107be4
2 mklabel ok
3 clearmake ok
  out built 4 7d865e959b2466918c9863afca942d0fb89d7c9ac0c99bafc3749504ded97730
phase 3
lane a
1 clearmake ok
  out winked 4 7d865e959b2466918c9863afca942d0fb89d7c9ac0c99bafc3749504ded97730
status 0, 22 rows
";

#[test]
fn a_build_sees_a_label_where_it_was(rt: HostRuntime) -> Result<(), Fail> {
    assert_held(
        &rt,
        rt.alloc(),
        &holds_between_builds(),
        LABELLED,
        LABEL_MOVED,
    )
}

// The same of a version: lane b brings a third one in while lane a's run is held, which then reads the second.
const VERSION_MADE: &str = "\
phase
lane a
clearmake v2 out
clearmake v2 out
lane b
clearmake v pre
checkout v in
save v in
|hello
checkin v in
clearmake v out
----
phase 2
lane a
1 clearmake ok
  out built 4 7d865e959b2466918c9863afca942d0fb89d7c9ac0c99bafc3749504ded97730
2 clearmake ok
  out shared 6 5891b5b522d5df086d0ff0b110fbd9d21bb4fc7163af34d08286a2e846f6be03
lane b
1 clearmake ok
  pre built 3 98ea6e4f216f2fb4b69fff9b3a44842c38686ca685f3f55dc48c5d3fb1107be4
2 checkout ok /main/2
3 save ok
4 checkin ok /main/3
5 clearmake ok
  out shared 6 5891b5b522d5df086d0ff0b110fbd9d21bb4fc7163af34d08286a2e846f6be03
status 0, 24 rows
";

#[test]
fn a_run_reads_what_its_build_began_with(rt: HostRuntime) -> Result<(), Fail> {
    assert_held(
        &rt,
        rt.alloc(),
        &holds_between_builds(),
        LABELLED,
        VERSION_MADE,
    )
}

// While lane a builds in a view nobody else changes it or builds there, by whichever command. The versions stay as they are, so
// view `w` keeps what lane b built in it by the label.
const VIEW_BUSY: &str = "\
phase
lane a
clearmake v2 out
lane b
clearmake v pre
save v2 note
clearmake w out
phase
lane a
clearmake w out
----
phase 2
lane a
1 clearmake ok
  out built 4 7d865e959b2466918c9863afca942d0fb89d7c9ac0c99bafc3749504ded97730
lane b
1 clearmake ok
  pre built 3 98ea6e4f216f2fb4b69fff9b3a44842c38686ca685f3f55dc48c5d3fb1107be4
2 save refused C18 Building a 1
3 clearmake ok
  out built 4 b5bb9d8014a0f9b1d61e21e796d78dccdf1352f23cd32812f4850b878ae4944c
phase 3
lane a
1 clearmake ok
  out kept 4 b5bb9d8014a0f9b1d61e21e796d78dccdf1352f23cd32812f4850b878ae4944c
status 1, 20 rows
====
phase
lane a
catcs v2
clearmake v2 out
lane b
clearmake v pre
clearmake v2 pre
clearmake w out
----
phase 2
lane a
1 catcs ok
|element * CHECKEDOUT
|element * /main/LATEST
2 clearmake ok
  out built 4 7d865e959b2466918c9863afca942d0fb89d7c9ac0c99bafc3749504ded97730
lane b
1 clearmake ok
  pre built 3 98ea6e4f216f2fb4b69fff9b3a44842c38686ca685f3f55dc48c5d3fb1107be4
2 clearmake refused C18 Building a 2
3 clearmake ok
  out built 4 b5bb9d8014a0f9b1d61e21e796d78dccdf1352f23cd32812f4850b878ae4944c
status 1, 20 rows
====
phase
lane a
clearmake v2 out
lane b
clearmake v pre
rmview v2
rmview -force v2
setcs v2
|element * /main/LATEST
mkelem v2 new
mkdir v2 d
checkout v2 in
mkbranch v2 fix in
save v2 note
|text
rm v2 note
checkin v2 in
uncheckout v2 in
rmname v2 in
mv v2 in input
rmdo v2 out
clearmake v2 pre
clearmake w out
----
phase 2
lane a
1 clearmake ok
  out built 4 7d865e959b2466918c9863afca942d0fb89d7c9ac0c99bafc3749504ded97730
lane b
1 clearmake ok
  pre built 3 98ea6e4f216f2fb4b69fff9b3a44842c38686ca685f3f55dc48c5d3fb1107be4
2 rmview refused C18 Building a 1
3 rmview refused C18 Building a 1
4 setcs refused C18 Building a 1
5 mkelem refused C18 Building a 1
6 mkdir refused C18 Building a 1
7 checkout refused C18 Building a 1
8 mkbranch refused C18 Building a 1
9 save refused C18 Building a 1
10 rm refused C18 Building a 1
11 checkin refused C18 Building a 1
12 uncheckout refused C18 Building a 1
13 rmname refused C18 Building a 1
14 mv refused C18 Building a 1
15 rmdo refused C18 Building a 1
16 clearmake refused C18 Building a 1
17 clearmake ok
  out built 4 b5bb9d8014a0f9b1d61e21e796d78dccdf1352f23cd32812f4850b878ae4944c
status 1, 20 rows
";

#[test]
fn a_view_that_builds_is_left_alone(rt: HostRuntime) -> Result<(), Fail> {
    for case in VIEW_BUSY.split("====\n") {
        assert_held(&rt, rt.alloc(), &holds_between_builds(), LABELLED, case)?;
    }
    Ok(())
}
