//! A session of the greatest size.

use crate::places::read_bytes;
use cc_names::commands::{Change, Command};
use session_text::CommandsLeft;
use std::alloc::Global;
use std::hash::RandomState;
use std::test::Fail;

// A save of a text of 16,515,009 bytes: its line makes 64 bytes with those above it.
const ABOVE: &[u8] = b"#23456789 123456789 123456789 12\nphase\nlane a\nsave v inputs.txt\n";

// Bytes, and 262,143 lines after them of 63 bytes and a newline where `bar` is one byte. The bytes between bar and newline are
// all the same, each byte but a newline in its turn.
fn lines_behind(alloc: Global, above: &[u8], bar: &[u8]) -> Result<Vec<u8>, Fail> {
    let mut text = above.to_vec(alloc)?;
    let mut byte = 0u8;
    for _ in 0..262_143 {
        byte = byte.wrapping_add(if byte == 9 { 2 } else { 1 });
        text.extend_from_slice(bar)?;
        text.extend_from_slice(&[byte; 62])?;
        text.push(b'\n')?;
    }
    Ok(text)
}

// The commands of the first lane of a text.
fn first_lane(
    alloc: Global,
    hashing: RandomState,
    text: &[u8],
) -> Result<Option<CommandsLeft>, Fail> {
    if text.len() > 16_777_216 {
        return Err(Fail::new("a long text"));
    }
    let mut phases = read_bytes(alloc, hashing, text)?.into_phases();
    let Some(phase) = phases.next()? else {
        return Ok(None);
    };
    let mut lanes = phase.lanes()?;
    let Some(lane) = lanes.next(alloc)? else {
        return Ok(None);
    };
    let (_name, left) = lane.into_parts();
    Ok(Some(left))
}

// Whether a command saves this text.
fn saves(command: &Command, wanted: &[u8]) -> bool {
    match command {
        Command::Change(Change::Save { text, .. }) => text.as_bytes() == wanted,
        _ => false,
    }
}

// Whether the first command of the commands that are left saves this text.
fn is_saved_first(alloc: Global, left: &CommandsLeft, wanted: &[u8]) -> Result<bool, Fail> {
    let command = left.peek(alloc)?;
    Ok(matches!(&command, Some(command) if saves(command, wanted)))
}

// Whether a text is a session whose first command saves this text.
fn is_saved(alloc: Global, hashing: RandomState, text: &[u8], wanted: &[u8]) -> Result<bool, Fail> {
    match first_lane(alloc, hashing, text)? {
        Some(left) => is_saved_first(alloc, &left, wanted),
        None => Ok(false),
    }
}

#[test]
fn the_largest_text_is_read_byte_by_byte(rt: HostRuntime) -> Result<(), Fail> {
    let text = lines_behind(rt.alloc(), ABOVE, b"|")?;
    let wanted = lines_behind(rt.alloc(), b"", b"")?;
    assert_eq!(rt; (text.len(), wanted.len()), (16_777_216, 16_515_009));
    let hashing = RandomState::new(&rt)?;
    assert!(rt; is_saved(rt.alloc(), hashing, text.as_slice(), wanted.as_slice())?);
    Ok(())
}
