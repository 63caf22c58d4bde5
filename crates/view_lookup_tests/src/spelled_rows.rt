//! Rows that are written as lines of words.
//!
//! The first word of a line names the deed, and its fields follow in the order of the spelling of a row. `#7` is the number of a
//! row, `*2` the count of the members that follow, and `:1` one byte: a kind (1 a file or a label, 2 a directory or a branch),
//! whether there is a checkout and whether it is reserved (0 no, 1 yes), or where an output stands (0 here, 1 elsewhere). Any
//! other word is a text, in which `_` is a blank and `;` ends a line.

use row_form::{Row, read};
use std::alloc::Global;
use std::hash::RandomState;
use std::test::Fail;

// Phase 1, lane 1 and command 1, at the moment 1,700,000,000.
const TAG_AND_MOMENT: &[u8] = b"\x01\0\0\0\x01\0\0\0\x01\0\0\0\x00\xf1\x53\x65\0\0\0\0";

// The deeds in the order of their codes, which are counted from 1.
const DEEDS: &str =
    "mkview rmview setcs mkelem checkout branch save checkin uncheckout rmname mv put rm mktype label unlabel \
publish wink drop scrub labels arrow publishat";

fn code_of(deed: &str) -> u8 {
    let mut code: u8 = 1;
    for known in DEEDS.split(' ') {
        if known == deed {
            return code;
        }
        code = code.saturating_add(1);
    }
    0
}

// The first byte of a row. Each publish of a table has two targets.
fn first_byte(deed: &str) -> u8 {
    if deed.starts_with("publish") { 2 } else { 1 }
}

/// The number that a word is.
pub(crate) fn number_of(word: &str) -> Result<u64, Fail> {
    match word.parse::<u64>() {
        Ok(number) => Ok(number),
        Err(_) => Err(Fail::new("no number")),
    }
}

fn put_long(bytes: &mut Vec<u8>, word: &str) -> Result<(), Fail> {
    bytes.extend_from_slice(&number_of(word)?.to_le_bytes())?;
    Ok(())
}

fn put_word(bytes: &mut Vec<u8>, number: u64) -> Result<(), Fail> {
    match u32::try_from(number) {
        Ok(number) => bytes.extend_from_slice(&number.to_le_bytes())?,
        Err(_) => return Err(Fail::new("a long number")),
    }
    Ok(())
}

fn put_byte(bytes: &mut Vec<u8>, word: &str) -> Result<(), Fail> {
    match word.parse::<u8>() {
        Ok(byte) => bytes.push(byte)?,
        Err(_) => return Err(Fail::new("no byte")),
    }
    Ok(())
}

fn put_text(bytes: &mut Vec<u8>, word: &str) -> Result<(), Fail> {
    put_word(bytes, word.len() as u64)?;
    for byte in word.as_bytes() {
        bytes.push(match *byte {
            b'_' => b' ',
            b';' => b'\n',
            other => other,
        })?;
    }
    Ok(())
}

fn put_field(bytes: &mut Vec<u8>, word: &str) -> Result<(), Fail> {
    if let Some(number) = word.strip_prefix('#') {
        return put_long(bytes, number);
    }
    if let Some(count) = word.strip_prefix('*') {
        return put_word(bytes, number_of(count)?);
    }
    match word.strip_prefix(':') {
        Some(byte) => put_byte(bytes, byte),
        None => put_text(bytes, word),
    }
}

fn begun(alloc: Global, deed: &str) -> Result<Vec<u8>, Fail> {
    let mut bytes = Vec::new(alloc);
    bytes.push(first_byte(deed))?;
    bytes.extend_from_slice(TAG_AND_MOMENT)?;
    bytes.push(code_of(deed))?;
    Ok(bytes)
}

fn spelling_of(alloc: Global, line: &str) -> Result<Vec<u8>, Fail> {
    let (deed, fields) = line.split_once(' ').unwrap_or((line, ""));
    let mut bytes = begun(alloc, deed)?;
    for word in fields.split(' ') {
        put_field(&mut bytes, word)?;
    }
    Ok(bytes)
}

/// The row of a line.
pub(crate) fn row_of(alloc: Global, hashing: RandomState, line: &str) -> Result<Row, Fail> {
    let bytes = spelling_of(alloc, line)?;
    match read(alloc, hashing, bytes.as_slice()) {
        Ok(row) => Ok(row),
        Err(_) => Err(Fail::new("no row")),
    }
}
