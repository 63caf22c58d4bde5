//! Rows that are spelled by hand, each read and spelled again and cut at each of its bytes, and bytes with a field that is wrong.

mod extents;
mod faults;
mod rows;

use cc_names::memory::{NoMemory, Or};
use cc_names::texts::Text;
use extents::EXTENTS;
use faults::FAULTS;
use row_form::{Extent, NotARow, Row, plain_row, read, spell, spell_at};
use rows::ROWS;
use std::alloc::Global;
use std::hash::RandomState;
use std::test::Fail;

// Phase 1, lane 2 and command 3, at the last moment that a row may have, the end of the year 9999.
const TAG_AND_MOMENT: &str = "01000000 02000000 03000000 7f41f4ff3a000000";

// The digits of bytes, with the tag and the moment in place of a `T`.
fn digits_of(alloc: Global, line: &str) -> Result<String, Fail> {
    let tag = TAG_AND_MOMENT;
    match line.split_once(" T ") {
        Some((first, rest)) => Ok(format!(in alloc; "{first} {tag} {rest}")?),
        None => Ok(String::from_str(alloc, line)?),
    }
}

// The value of a hexadecimal digit; none of any other sign.
fn value_of(sign: u8) -> Option<u8> {
    match sign {
        b'0'..=b'9' => Some(sign.wrapping_sub(b'0')),
        b'a'..=b'f' => Some(sign.wrapping_sub(b'a').wrapping_add(10)),
        _ => None,
    }
}

// The names `a` of a path, 511 of them, each with its slash.
fn put_names(bytes: &mut Vec<u8>) -> Result<(), Fail> {
    for _ in 0..511 {
        bytes.extend_from_slice(b"a/")?;
    }
    Ok(())
}

// So many letters `a`.
fn put_letters(bytes: &mut Vec<u8>, count: u32) -> Result<(), Fail> {
    for _ in 0..count {
        bytes.push(b'a')?;
    }
    Ok(())
}

// The bytes that a sign other than a digit stands for: none for a blank.
fn put_sign(bytes: &mut Vec<u8>, sign: u8) -> Result<(), Fail> {
    match sign {
        b'P' => put_names(bytes),
        b'S' => put_letters(bytes, 4_095),
        b'L' => put_letters(bytes, 4_096),
        b'M' => put_letters(bytes, 1_048_576),
        _ => Ok(()),
    }
}

// The bytes that digits stand for, two for each; `P` stands for a path's 511 names, `S`, `L` and `M` for letters.
fn bytes_of(alloc: Global, digits: &str) -> Result<Vec<u8>, Fail> {
    let mut bytes = Vec::new(alloc);
    let mut high = None;
    for sign in digits.as_bytes() {
        match (high, value_of(*sign)) {
            (_, None) => put_sign(&mut bytes, *sign)?,
            (None, Some(first)) => high = Some(first),
            (Some(first), Some(second)) => {
                bytes.push(first.wrapping_mul(16).wrapping_add(second))?;
                high = None;
            }
        }
    }
    Ok(bytes)
}

// For each of the bytes the place of its field: there a row fails that is cut before it.
fn places_of(alloc: Global, digits: &str) -> Result<Vec<u64>, Fail> {
    let mut places = Vec::new(alloc);
    for field in digits.split(' ') {
        let place = places.len() as u64;
        let bytes = bytes_of(alloc, field)?;
        for _ in 0..bytes.len() {
            places.push(place)?;
        }
    }
    Ok(places)
}

// The spelling of a row that is let go.
fn spelled(alloc: Global, row: Row) -> Result<Text, NoMemory> {
    spell(alloc, &row)
}

// The spelling of the row that bytes spell.
fn respelled(alloc: Global, hashing: RandomState, bytes: &[u8]) -> Result<Text, Or<NotARow>> {
    let row = read(alloc, hashing, bytes)?;
    Ok(spelled(alloc, row)?)
}

// Whether bytes are no row, and fail at this place.
fn fails_at(alloc: Global, hashing: RandomState, bytes: &[u8], place: u64) -> bool {
    match respelled(alloc, hashing, bytes) {
        Err(Or::Is(NotARow(found))) => found == place,
        Err(Or::NoMemory) => false,
        Ok(_text) => false,
    }
}

// Whether the row that bytes spell is spelled by them.
fn is_spelled_again(alloc: Global, hashing: RandomState, bytes: &[u8]) -> bool {
    match respelled(alloc, hashing, bytes) {
        Ok(text) => text.as_bytes() == bytes,
        Err(_fault) => false,
    }
}

// Whether bytes fail at these places, where they are cut to none, to one and so on.
fn fails_where_cut(alloc: Global, hashing: RandomState, bytes: &[u8], places: &[u64]) -> bool {
    for length in 0..bytes.len() {
        match places.get(length) {
            Some(place) if fails_at(alloc, hashing, &bytes[..length], *place) => {}
            _ => return false,
        }
    }
    true
}

// Whether the row of a line is read and spelled again, and fails wherever it is cut.
fn is_row(alloc: Global, hashing: RandomState, line: &str) -> Result<bool, Fail> {
    let digits = digits_of(alloc, line)?;
    let bytes = bytes_of(alloc, digits.as_str())?;
    let places = places_of(alloc, digits.as_str())?;
    Ok(
        is_spelled_again(alloc, hashing, bytes.as_slice())
            && fails_where_cut(alloc, hashing, bytes.as_slice(), places.as_slice()),
    )
}

// Whether the bytes of a line fail at its place.
fn is_fault(alloc: Global, hashing: RandomState, line: &str) -> Result<bool, Fail> {
    let (place, line) = line.split_once(": ").unwrap_or(("", line));
    let digits = digits_of(alloc, line)?;
    let bytes = bytes_of(alloc, digits.as_str())?;
    match place.parse::<u64>() {
        Ok(place) => Ok(fails_at(alloc, hashing, bytes.as_slice(), place)),
        Err(_) => Ok(false),
    }
}

// The extents of a text: the place and the length of each.
fn extents_of(alloc: Global, text: &str) -> Result<Vec<Extent>, Fail> {
    let mut extents = Vec::new(alloc);
    for word in text.split(' ') {
        if let Some((place, length)) = word.split_once('+') {
            extents.push(Extent {
                place: place.parse::<u64>().unwrap_or(0),
                length: length.parse::<u64>().unwrap_or(0),
            })?;
        }
    }
    Ok(extents)
}

// The spelling of the row that bytes spell, with its large outputs at extents.
fn respelled_at(
    alloc: Global,
    hashing: RandomState,
    bytes: &[u8],
    extents: &[Extent],
) -> Result<Text, Or<NotARow>> {
    let row = read(alloc, hashing, bytes)?;
    Ok(spell_at(alloc, &row, extents)?)
}

// The spelling of the row of the base that the row of these bytes gives.
fn plainly_spelled(alloc: Global, hashing: RandomState, bytes: &[u8]) -> Result<Text, Or<NotARow>> {
    let row = plain_row(alloc, read(alloc, hashing, bytes)?)?;
    Ok(spelled(alloc, row)?)
}

// Whether a text was made, and it has the bytes of these digits.
fn is_text_of(alloc: Global, text: &Result<Text, Or<NotARow>>, line: &str) -> Result<bool, Fail> {
    let digits = digits_of(alloc, line)?;
    let bytes = bytes_of(alloc, digits.as_str())?;
    match text {
        Ok(text) => Ok(text.as_bytes() == bytes.as_slice()),
        Err(_) => Ok(false),
    }
}

// Whether a row has this frame where its large outputs are at these extents.
fn is_frame(
    alloc: Global,
    hashing: RandomState,
    row: &str,
    extents: &str,
    frame: &str,
) -> Result<bool, Fail> {
    let digits = digits_of(alloc, row)?;
    let bytes = bytes_of(alloc, digits.as_str())?;
    let extents = extents_of(alloc, extents)?;
    let text = respelled_at(alloc, hashing, bytes.as_slice(), extents.as_slice());
    is_text_of(alloc, &text, frame)
}

// Whether a frame gives this row of the base.
fn is_base_row(alloc: Global, hashing: RandomState, frame: &str, row: &str) -> Result<bool, Fail> {
    let digits = digits_of(alloc, frame)?;
    let bytes = bytes_of(alloc, digits.as_str())?;
    let text = plainly_spelled(alloc, hashing, bytes.as_slice());
    is_text_of(alloc, &text, row)
}

// The four parts of a line of `EXTENTS`.
fn parts_of(line: &str) -> Option<(&str, &str, &str, &str)> {
    let (row, rest) = line.split_once("=>")?;
    let (extents, rest) = rest.split_once("=>")?;
    let (frame, base) = rest.split_once("=>")?;
    Some((row.trim(), extents.trim(), frame.trim(), base.trim()))
}

// Whether a row with large outputs is spelled and read as its line says.
fn is_at_extents(alloc: Global, hashing: RandomState, line: &str) -> Result<bool, Fail> {
    let Some((row, extents, frame, base)) = parts_of(line) else {
        return Ok(false);
    };
    let is_spelled = is_frame(alloc, hashing, row, extents, frame)?;
    Ok(is_spelled && is_base_row(alloc, hashing, frame, base)?)
}

#[test]
fn each_row_is_spelled_as_it_was_read(rt: HostRuntime) -> Result<(), Fail> {
    for line in ROWS.lines() {
        assert!(rt; is_row(rt.alloc(), RandomState::new(&rt)?, line)?, "{line}");
    }
    Ok(())
}

#[test]
fn a_wrong_field_is_named_by_its_place(rt: HostRuntime) -> Result<(), Fail> {
    for line in FAULTS.lines() {
        assert!(rt;
            is_fault(rt.alloc(), RandomState::new(&rt)?, line)?,
            "{line}"
        );
    }
    Ok(())
}

#[test]
fn large_outputs_are_at_extents(rt: HostRuntime) -> Result<(), Fail> {
    for line in EXTENTS.lines() {
        assert!(rt;
            is_at_extents(rt.alloc(), RandomState::new(&rt)?, line)?,
            "{line}"
        );
    }
    Ok(())
}
