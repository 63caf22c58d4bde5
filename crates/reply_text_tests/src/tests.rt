//! The printed lines of the replies that no session is answered.

use cc_names::commands::{LaneWords, PhaseWords};
use cc_names::lists::List;
use cc_names::names::Name;
use cc_names::refusals::Refusal;
use cc_names::replies::Reply;
use cc_names::texts::Text;
use reply_text::render;
use std::alloc::Global;
use std::process::Abort;
use std::test::Fail;

// The phase with the lane `a`, which has one command, a `mkview`.
fn phase(alloc: Global) -> Result<PhaseWords, Fail> {
    let mut words = Vec::new(alloc);
    words.push(Text::from_bytes(alloc, b"mkview")?)?;
    let mut lanes = Vec::new(alloc);
    lanes.push(LaneWords {
        name: Name::read(alloc, b"a")?,
        words: List::of(words),
    })?;
    Ok(PhaseWords {
        lanes: List::of(lanes),
    })
}

// What the command prints for this reply, after its word.
fn assert_reply(rt: &impl Abort, alloc: Global, reply: Reply, words: &str) -> Result<(), Fail> {
    let phase = phase(alloc)?;
    let replies = [reply];
    let lines = format!(in alloc; "lane a\n1 mkview {words}\n")?;
    let text = render(alloc, &phase, 1, &replies)?;
    assert_eq!(rt; text.as_bytes(), lines.as_bytes(), "{words}");
    Ok(())
}

// A base of 4,000,000 rows is more than a session makes.
#[test]
fn the_refusal_of_a_full_base_is_printed(rt: HostRuntime) -> Result<(), Fail> {
    let refusal = Refusal::Full(4_000_000);
    assert_reply(
        &rt,
        rt.alloc(),
        Reply::Refused(refusal),
        "refused C23 Full 4000000",
    )
}

// Each text that a session has ends with a newline.
#[test]
fn a_last_line_that_lacks_its_newline_is_a_line(rt: HostRuntime) -> Result<(), Fail> {
    let answer = Text::from_bytes(rt.alloc(), b"foo\n\nbar")?;
    assert_reply(&rt, rt.alloc(), Reply::Answer(answer), "ok\n|foo\n|\n|bar")
}
