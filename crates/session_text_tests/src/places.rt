//! Each byte at each place of a line.

ghost use Rattle.std.specs.Prelude.{◌<◌, ◌^◌, length};

use cc_names::memory::Or;
use cc_names::refusals::SessionCause::{BadWord, NoBody, UnknownCommand};
use cc_names::refusals::SessionError;
use cc_names::texts::Text;
use session_text::{SessionText, read};
use std::alloc::Global;
use std::hash::RandomState;
use std::test::Fail;

/// Reads these bytes as a session.
pub(crate) fn read_bytes(
    alloc: Global,
    hashing: RandomState,
    text: &[u8],
) -> Result<SessionText, Or<SessionError>>
    requires { length text.now < 2 ^ 32 }
{
    let text = Text::from_bytes(alloc, text)?;
    read(alloc, hashing, text)
}

// Lines in which `@` stands for a byte, the last ones of their sessions, without a newline after them. Before each stands what
// it comes to, byte by byte in the order of `class_of`: `.` where it is read, else the first letter of its cause, `BadWord`,
// `NoBody` or `UnknownCommand`.
const PLACES: &str = "\
.U.NUUU @
...NUUU @mkview v
B.UUUUU mkview@ v
..BB.BB mkview v@
..BB.BB lane b@
..UUUUU phase@
......B clearmake v A=@";

// A newline, a blank or a tab, `#`, `|`, another byte of names, another byte of words, or any other byte.
fn class_of(byte: u8) -> usize {
    match byte {
        b'\n' => 0,
        b' ' | b'\t' => 1,
        b'#' => 2,
        b'|' => 3,
        b'A'..=b'Z' | b'a'..=b'z' | b'0'..=b'9' | b'_' | b'-' | b'.' | b'+' => 4,
        33..=126 => 5,
        _ => 6,
    }
}

// What a line comes to that is the third of its text.
fn sign_of(error: SessionError) -> u8 {
    match (error.line, error.cause) {
        (3, BadWord) => b'B',
        (3, NoBody) => b'N',
        (3, UnknownCommand) => b'U',
        _ => b'?',
    }
}

// A session of one lane with this line, a byte in the place of its `@`.
fn with_byte(alloc: Global, line: &str, byte: u8) -> Result<Vec<u8>, Fail> {
    let mut text = b"phase\nlane a\n".to_vec(alloc)?;
    let (before, behind) = line.split_once('@').unwrap_or((line, ""));
    text.extend_from_slice(before.as_bytes())?;
    text.push(byte)?;
    text.extend_from_slice(behind.as_bytes())?;
    Ok(text)
}

// What it comes to.
fn sign_with(alloc: Global, hashing: RandomState, line: &str, byte: u8) -> Result<u8, Fail> {
    let text = with_byte(alloc, line, byte)?;
    if text.len() > 10_000 {
        return Err(Fail::new("a long line"));
    }
    match read_bytes(alloc, hashing, text.as_slice()) {
        Ok(_session) => Ok(b'.'),
        Err(Or::Is(error)) => Ok(sign_of(error)),
        Err(Or::NoMemory) => Err(Fail::new("no memory")),
    }
}

// The first byte with which a line comes to something else than the signs of its place say.
fn first_unlike(alloc: Global, hashing: RandomState, place: &str) -> Result<Option<u8>, Fail> {
    let (signs, line) = place.split_once(' ').unwrap_or((place, ""));
    for byte in 0..=255u8 {
        let sign = sign_with(alloc, hashing, line, byte)?;
        if signs.as_bytes().get(class_of(byte)) != Some(&sign) {
            return Ok(Some(byte));
        }
    }
    Ok(None)
}

#[test]
fn each_byte_counts_by_its_class(rt: HostRuntime) -> Result<(), Fail> {
    for place in PLACES.lines() {
        let unlike = first_unlike(rt.alloc(), RandomState::new(&rt)?, place)?;
        assert_eq!(rt; unlike, None, "in {place}");
    }
    Ok(())
}
