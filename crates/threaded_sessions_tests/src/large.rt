//! The large session of a seed and a size, read and run.

use crate::sessions::{ALONE, is_as_wanted, outcome_on};
use large_session::make_session;
use std::test::Fail;

// The seven lanes of phase 2 build the same at once, each in a view of its own.

// Of the seed 1 and the size 1, with rows 1 to 16 in phase 1 and 17 to 23 in phase 2: `w774` twice, and then `changed` twice.
const OF_ONE: &str = "\
phase 1
lane a
1 mkview ok
2 checkout ok /main/0
3 mkelem ok
4 save ok
5 checkin ok /main/1
6 mkelem ok
7 save ok
8 checkin ok /main/1
9 checkin ok /main/1
10 mkview ok
11 mkview ok
12 mkview ok
13 mkview ok
14 mkview ok
15 mkview ok
16 mkview ok
phase 2
lane b1
1 clearmake ok
  o1 shared 10 e8d262f3310e91506694a74f0433649a072733e6d8a8ddcc9ed185333106be3d
  all made
lane b2
1 clearmake ok
  o1 shared 10 e8d262f3310e91506694a74f0433649a072733e6d8a8ddcc9ed185333106be3d
  all made
lane b3
1 clearmake ok
  o1 shared 10 e8d262f3310e91506694a74f0433649a072733e6d8a8ddcc9ed185333106be3d
  all made
lane b4
1 clearmake ok
  o1 shared 10 e8d262f3310e91506694a74f0433649a072733e6d8a8ddcc9ed185333106be3d
  all made
lane b5
1 clearmake ok
  o1 shared 10 e8d262f3310e91506694a74f0433649a072733e6d8a8ddcc9ed185333106be3d
  all made
lane b6
1 clearmake ok
  o1 shared 10 e8d262f3310e91506694a74f0433649a072733e6d8a8ddcc9ed185333106be3d
  all made
lane b7
1 clearmake ok
  o1 shared 10 e8d262f3310e91506694a74f0433649a072733e6d8a8ddcc9ed185333106be3d
  all made
phase 3
lane a
1 checkout ok /main/1
2 save ok
3 checkin ok /main/2
4 clearmake ok
  o1 built 16 015de62d07ff46f2a8eb984a14292c51f165950656dd37ace55e55a6504c9f81
  all made
status 0, 27 rows
";

// Of the seed 7 and the size 2, with rows 1 to 19 in phase 1 and 20 to 33 in phase 2: `o1` is `w278` and `w753`, and then
// `changed` and `w753`; `o2` is `w753` twice, and reads nothing of what is changed.
const OF_TWO: &str = "\
phase 1
lane a
1 mkview ok
2 checkout ok /main/0
3 mkelem ok
4 save ok
5 checkin ok /main/1
6 mkelem ok
7 save ok
8 checkin ok /main/1
9 mkelem ok
10 save ok
11 checkin ok /main/1
12 checkin ok /main/1
13 mkview ok
14 mkview ok
15 mkview ok
16 mkview ok
17 mkview ok
18 mkview ok
19 mkview ok
phase 2
lane b1
1 clearmake ok
  o1 shared 10 ad6b896f9006af3e7a4d736e3c2249bf6ab9130744690d51ba88d0dc4cf7768d
  o2 shared 10 c5b0363078c7b601b8e4ed86c960f1f2379bcf690ea0a18a2cc4ca3077d27c63
  all made
lane b2
1 clearmake ok
  o1 shared 10 ad6b896f9006af3e7a4d736e3c2249bf6ab9130744690d51ba88d0dc4cf7768d
  o2 shared 10 c5b0363078c7b601b8e4ed86c960f1f2379bcf690ea0a18a2cc4ca3077d27c63
  all made
lane b3
1 clearmake ok
  o1 shared 10 ad6b896f9006af3e7a4d736e3c2249bf6ab9130744690d51ba88d0dc4cf7768d
  o2 shared 10 c5b0363078c7b601b8e4ed86c960f1f2379bcf690ea0a18a2cc4ca3077d27c63
  all made
lane b4
1 clearmake ok
  o1 shared 10 ad6b896f9006af3e7a4d736e3c2249bf6ab9130744690d51ba88d0dc4cf7768d
  o2 shared 10 c5b0363078c7b601b8e4ed86c960f1f2379bcf690ea0a18a2cc4ca3077d27c63
  all made
lane b5
1 clearmake ok
  o1 shared 10 ad6b896f9006af3e7a4d736e3c2249bf6ab9130744690d51ba88d0dc4cf7768d
  o2 shared 10 c5b0363078c7b601b8e4ed86c960f1f2379bcf690ea0a18a2cc4ca3077d27c63
  all made
lane b6
1 clearmake ok
  o1 shared 10 ad6b896f9006af3e7a4d736e3c2249bf6ab9130744690d51ba88d0dc4cf7768d
  o2 shared 10 c5b0363078c7b601b8e4ed86c960f1f2379bcf690ea0a18a2cc4ca3077d27c63
  all made
lane b7
1 clearmake ok
  o1 shared 10 ad6b896f9006af3e7a4d736e3c2249bf6ab9130744690d51ba88d0dc4cf7768d
  o2 shared 10 c5b0363078c7b601b8e4ed86c960f1f2379bcf690ea0a18a2cc4ca3077d27c63
  all made
phase 3
lane a
1 checkout ok /main/1
2 save ok
3 checkin ok /main/2
4 clearmake ok
  o1 built 13 e2c2cc82066642d02fb37e8c7d7f20450be3d266539e4df167a4d9ee7facbc7b
  o2 kept 10 c5b0363078c7b601b8e4ed86c960f1f2379bcf690ea0a18a2cc4ca3077d27c63
  all made
status 0, 37 rows
";

#[test]
fn large_sessions_are_run(rt: HostRuntime) -> Result<(), Fail> {
    let cases: [(u64, u32, &str); 2] = [(1, 1, OF_ONE), (7, 2, OF_TWO)];
    for (seed, size, wanted) in cases {
        let text = make_session(rt.alloc(), seed, size)?;
        let session = format!(in rt.alloc(); "{text}")?;
        let reported = outcome_on(&rt, rt.alloc(), &[], ALONE, session.as_str())?.reported;
        assert!(rt;
            is_as_wanted(reported.as_str(), wanted),
            "{reported:?} of the seed {seed} and the size {size}"
        );
    }
    Ok(())
}

// No contract says that there is memory for it.
#[test]
fn the_greatest_session_is_made(rt: HostRuntime) -> Result<(), Fail> {
    let text = make_session(rt.alloc(), 7, 1000)?;
    assert_eq!(rt; text.as_bytes().len(), 94292);
    Ok(())
}
