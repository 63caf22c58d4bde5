//! Texts of sites and their replies.

use cc_names::memory::Or;
use std::alloc::{AllocError, Global};
use std::hash::RandomState;
use std::test::Fail;
use vob_replica::runs::run;

// Cases, each behind a line that begins with `=`: lines of a text, and behind `=>` the reply to the line, or `>` and a line of
// it.
const CASES: &str = "
\
= a mastership goes from one site to another, which then makes a version
site a => 1 site ok
site b => 2 site ok
mkelem a => 3 mkelem ok a:1
export a b p => 4 export ok 1
import b p => 5 import ok 1
checkin b a:1 foo => 6 checkin refused V5 NotMaster a
chmaster a a:1 b => 7 chmaster ok a:2
export a b q => 8 export ok 1
import b q => 9 import ok 1
checkin b a:1 foo => 10 checkin ok b:1
import b p => 11 import ok 0
export b a r => 12 export ok 1
import a r => 13 import ok 1
show a => 14 show ok
> |epoch a 2
> |epoch b 1
> |branch a:1 main master b
> |version 0
> |version 1 b:1 foo
show b => 15 show ok
> |epoch a 2
> |epoch b 1
> |branch a:1 main master b
> |version 0
> |version 1 b:1 foo
= a packet is lost, until the sender forgets what it thinks that the other knows
site a => 1 site ok
site b => 2 site ok
mkelem a => 3 mkelem ok a:1
export a b p => 4 export ok 1
chmaster a a:1 b => 5 chmaster ok a:2
export a b q => 6 export ok 1
import b q => 7 import refused V10 Gap a:1
recover a b => 8 recover ok
export a b r => 9 export ok 2
import b r => 10 import ok 2
= each refusal at each line
site a => 1 site ok
site a => 2 site refused V1 SiteExists a
mkelem b => 3 mkelem refused V3 NoSite b
mkbranch b a:1 0 fix => 4 mkbranch refused V3 NoSite b
checkin b a:1 foo => 5 checkin refused V3 NoSite b
chmaster b a:1 c => 6 chmaster refused V3 NoSite b
chmaster a a:1 c => 7 chmaster refused V3 NoSite c
export b c p => 8 export refused V3 NoSite b
export a c p => 9 export refused V3 NoSite c
import b p => 10 import refused V3 NoSite b
recover b c => 11 recover refused V3 NoSite b
recover a c => 12 recover refused V3 NoSite c
show b => 13 show refused V3 NoSite b
mkbranch a a:1 0 fix => 14 mkbranch refused V4 NoBranch a:1
checkin a a:0 foo => 15 checkin refused V4 NoBranch a:0
chmaster a a:7 a => 16 chmaster refused V4 NoBranch a:7
import a p => 17 import refused V9 NoPacket p
mkelem a => 18 mkelem ok a:1
mkbranch a a:1 1 main => 19 mkbranch refused V6 NoVersion 1
mkbranch a a:1 0 main => 20 mkbranch refused V7 BranchExists a:1
mkbranch a a:1 0 fix => 21 mkbranch ok a:2
mkbranch a a:2 0 fix => 22 mkbranch refused V7 BranchExists a:2
export a a p => 23 export ok 2
export a a p => 24 export refused V8 PacketExists p
export b a p => 25 export refused V3 NoSite b
site b => 26 site ok
import b p => 27 import ok 2
mkbranch b a:2 9 fix => 28 mkbranch refused V5 NotMaster a
checkin b a:2 foo => 29 checkin refused V5 NotMaster a
chmaster b a:2 b => 30 chmaster refused V5 NotMaster a
chmaster a a:2 b => 31 chmaster ok a:3
checkin a a:2 foo => 32 checkin refused V5 NotMaster b
mkbranch a a:2 0 more => 33 mkbranch ok a:4
export a b r => 34 export ok 4
import b r => 35 import ok 2
checkin b a:2 foo => 36 checkin ok b:1
checkin b a:2 foo => 37 checkin ok b:2
show b => 38 show ok
> |epoch a 4
> |epoch b 2
> |branch a:1 main master a
> |version 0
> |branch a:2 fix master b
> |version 0
> |version 1 b:1 foo
> |version 2 b:2 foo
> |branch a:4 more master a
> |version 0
= which refusal comes first
site a => 1 site ok
site b => 2 site ok
mkelem a => 3 mkelem ok a:1
mkbranch a a:1 0 fix => 4 mkbranch ok a:2
export a b p => 5 export ok 2
export a c p => 6 export refused V3 NoSite c
import b p => 7 import ok 2
chmaster b a:1 c => 8 chmaster refused V3 NoSite c
chmaster a a:2 b => 9 chmaster ok a:3
export a b q => 10 export ok 1
import b q => 11 import ok 1
checkin b a:2 foo => 12 checkin ok b:1
mkbranch b a:2 9 main => 13 mkbranch refused V5 NotMaster a
= a site that knows nothing
site a => 1 site ok
show a => 2 show ok
= hostile words
# a comment
site a => 1 site ok
mkelem a => 2 mkelem ok a:1
checkin a a:1 |branch => 3 checkin ok a:2
checkin a a:1 # => 4 checkin ok a:3
checkin a a:18446744073709551615 x => 5 checkin refused V4 NoBranch a:18446744073709551615
show a => 6 show ok
> |epoch a 3
> |branch a:1 main master a
> |version 0
> |version 1 a:2 |branch
> |version 2 a:3 #
";

// Texts that cannot be read, with the line of the fault and its cause.
const BAD: &str = "\
site => 1 BadWord
site 1a => 1 BadWord
site a b => 1 BadWord
sites a => 1 UnknownCommand
checkin a a1 foo => 1 BadWord
checkin a a:01 foo => 1 BadWord
checkin a a:18446744073709551616 foo => 1 BadWord
mkbranch a a:1 x fix => 1 BadWord
mkbranch a a:1 0 -fix => 1 BadWord
export a b => 1 BadWord
|epoch a 1 => 1 UnknownCommand
";

// What a text comes to.
fn said(alloc: Global, hashing: RandomState, text: &[u8]) -> Result<String, AllocError> {
    if text.len() > 1_000_000 {
        return format!(in alloc; "too long");
    }
    match run(alloc, hashing, text) {
        Ok(replies) => format!(in alloc; "{}", replies.text),
        Err(Or::Is(error)) => format!(in alloc; "{} {:?}", error.line, error.cause),
        Err(Or::NoMemory) => format!(in alloc; "no memory"),
    }
}

// The lines of a case, and the replies to them.
fn parts_of(alloc: Global, case: &str) -> Result<(String, String), AllocError> {
    let mut text = String::new(alloc);
    let mut replies = String::new(alloc);
    for line in case.lines() {
        if let Some(shown) = line.strip_prefix("> ") {
            replies.push_str(shown)?;
            replies.push('\n')?;
            continue;
        }
        match line.split_once(" => ") {
            Some((said, reply)) => {
                text.push_str(said)?;
                replies.push_str(reply)?;
                replies.push('\n')?;
            }
            None => text.push_str(line)?,
        }
        text.push('\n')?;
    }
    Ok((text, replies))
}

#[test]
fn texts_have_their_replies(rt: HostRuntime) -> Result<(), Fail> {
    for case in CASES.split("\n= ") {
        let Some((name, lines)) = case.split_once('\n') else {
            continue;
        };
        let (text, replies) = parts_of(rt.alloc(), lines)?;
        let said = said(rt.alloc(), RandomState::new(&rt)?, text.as_bytes())?;
        assert_eq!(rt; said.as_str(), replies.as_str(), "{name}");
    }
    for case in BAD.lines() {
        let (text, fault) = case.split_once(" => ").unwrap_or((case, ""));
        let said = said(rt.alloc(), RandomState::new(&rt)?, text.as_bytes())?;
        assert_eq!(rt; said.as_str(), fault, "{text}");
    }
    Ok(())
}

// Three sites, and packets p0 to p6 for z. Most carry only what is newer than the packet before.
const PACKETS: &str = "\
site a
site b
site z
mkelem a
checkin a a:1 one
export a z p0
checkin a a:1 two
export a z p1
recover a z
chmaster a a:1 b
export a z p2
export a b q
import b q
checkin b a:1 three
export b z p3
mkbranch b a:1 1 fix
checkin b b:2 four
export b z p4
mkelem b
export b z p5
export b a r
import a r
mkelem a
export a z p6
";

// The next of a sequence of pseudo-random numbers.
fn next_number(number: u32) -> u32 {
    number.wrapping_mul(1_664_525).wrapping_add(1_013_904_223)
}

// Imports of 16 packets by a seed: in any order, some not at all and some again. Packets that come too early are refused.
fn random_imports(alloc: Global, seed: u32) -> Result<String, AllocError> {
    let mut text = String::new(alloc);
    let mut number = seed;
    for _ in 0..16u32 {
        number = next_number(number);
        let packet = number / 65_536 % 7;
        text.push_str(format!(in alloc; "import z p{packet}\n")?.as_str())?;
    }
    Ok(text)
}

// Random imports, then each packet once in the order in which they were made, and what z shows then.
fn in_order(alloc: Global, seed: u32) -> Result<String, AllocError> {
    let mut text = String::new(alloc);
    text.push_str(PACKETS)?;
    text.push_str(random_imports(alloc, seed)?.as_str())?;
    for packet in 0..7u32 {
        text.push_str(format!(in alloc; "import z p{packet}\n")?.as_str())?;
    }
    text.push_str("show z\n")?;
    Ok(text)
}

#[test]
fn the_order_of_packets_does_not_matter(rt: HostRuntime) -> Result<(), Fail> {
    let alloc = rt.alloc();
    for seed in 0..20u32 {
        let text = in_order(alloc, seed)?;
        let said = said(alloc, RandomState::new(&rt)?, text.as_bytes())?;
        let shown = said.as_str().split_once(" show ok\n").map(|parts| parts.1);
        assert_eq!(rt; shown, Some(SHOWN), "seed {seed}");
    }
    Ok(())
}

// What z shows at last.
const SHOWN: &str = "\
|epoch a 5
|epoch b 4
|branch a:1 main master b
|version 0
|version 1 a:2 one
|version 2 a:3 two
|version 3 b:1 three
|branch a:5 main master a
|version 0
|branch b:2 fix master b
|version 0
|version 1 b:3 four
|branch b:4 main master b
|version 0
";

#[test]
fn there_are_64_sites_at_most(rt: HostRuntime) -> Result<(), Fail> {
    let alloc = rt.alloc();
    let mut text = String::new(alloc);
    for i in 0..65u32 {
        text.push_str(format!(in alloc; "site s{i}\n")?.as_str())?;
    }
    text.push_str("site s0\nshow s64\n")?;
    let said = said(alloc, RandomState::new(&rt)?, text.as_bytes())?;
    let tail =
        "\n64 site ok\n65 site refused V2 TooManySites\n66 site refused V1 SiteExists s0\n67 show refused V3 NoSite s64\n";
    assert!(rt; said.as_str().ends_with(tail));
    Ok(())
}
