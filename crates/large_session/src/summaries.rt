//! The summary of the transcripts of a session.

ghost use Rattle.std.specs.Prelude.{◌≡◌, ◌++◌, ◌+◌, ◌<◌, ◌^◌, [], IfOk, OnOk, codes};
ghost use Rattle.std.specs.List.{flat_map};
ghost use Rattle.cc_names.specs.Cuts.{lines_of, words_of};
ghost use Rattle.cc_names.specs.References.{one_where};
ghost use Rattle.hex.specs.Hex.{encode_lower};
ghost use Rattle.sha2.specs.Sha256.{sha256};
ghost use Rattle.large_session.specs.LargeSession.{line};
ghost use Rattle.large_session.specs.Summaries.{count_of, digested, digested_text, is_object_word, is_refused_line, is_reply_line, is_unit_line, length_told, lengths_of, said_made, spaced, summary, total};

use cc_names::cuts::{Lines, Words};
use cc_names::memory::NoMemory;
use cc_names::numbers::number;
use cc_names::texts::Text;
use sha2::{Digest, Sha256};
use std::alloc::Global;

/// What was found in the lines of transcripts so far: how many are those of replies, of refused commands and of units, the sum
/// of the lengths that these tell, and what the digest takes of them.
#[derive(Drop)]
struct Tally {
    commands: u64,
    refused: u64,
    units: u64,
    bytes: u128,
    digested: Vec<u8>,
}

/// Whether a line begins with the number of a command.
fn is_reply_line(bytes: &[u8]) -> bool
    ensures { result ≡ is_reply_line bytes.now }
{
    match bytes {
        [] => false,
        [first, ..] => first.is_ascii_digit(),
    }
}

/// Whether a line is that of a refused command.
fn is_refused_line(bytes: &[u8]) -> bool
    ensures { result ≡ is_refused_line bytes.now }
{
    let mut words = Words::of(bytes);
    match (words.next(), words.next(), words.next()) {
        (Some(_number), Some(_command), Some(reply)) => is_reply_line(bytes)
            && reply == b"refused".as_slice(),
        _ => false,
    }
}

/// Whether a line begins with two spaces.
fn is_unit_line(bytes: &[u8]) -> bool
    ensures { result ≡ is_unit_line bytes.now }
{
    match bytes {
        [first, second, ..] => *first == b' ' && *second == b' ',
        _ => false,
    }
}

fn is_object_word(word: &[u8]) -> bool
    ensures { result ≡ is_object_word word.now }
{
    word == b"kept".as_slice() || word == b"winked".as_slice() || word == b"built".as_slice()
}

/// The length of the object that a line tells of, 0 where it tells of none.
fn length_told(bytes: &[u8]) -> u64
    ensures { result ≡ length_told bytes.now }
{
    if !is_unit_line(bytes) {
        return 0;
    }
    let mut words = Words::of(bytes);
    match (words.next(), words.next(), words.next()) {
        (Some(_path), Some(word), Some(length)) if is_object_word(word) => number(length).unwrap_or(
            0,
        ),
        _ => 0,
    }
}

fn push_line(text: &mut Vec<u8>, bytes: &[u8]) -> Result<(), NoMemory>
    ensures { OnOk result (text.new.items ≡ text.old.items ++ line bytes.now) }
{
    text.extend_from_slice(bytes)?;
    text.push(b'\n')?;
    Ok(())
}

/// Writes words, each after a space.
fn push_words(text: &mut Vec<u8>, words: Words<'_>) -> Result<(), NoMemory>
    ensures { OnOk result (text.new.items ≡ text.old.items ++ flat_map spaced words.entry) }
{
    let mut words = words;
    while let Some(word) = words.next() {
        text.push(b' ')?;
        text.extend_from_slice(word)?;
    }
    Ok(())
}

/// Writes the line of a unit, with `made` where it says how the unit came to its object.
fn push_made(text: &mut Vec<u8>, bytes: &[u8]) -> Result<(), NoMemory>
    ensures { OnOk result
        (text.new.items ≡ text.old.items ++ said_made bytes.now (words_of bytes.now)) }
{
    let mut words = Words::of(bytes);
    match (words.next(), words.next()) {
        (Some(path), Some(word)) if is_object_word(word) => {
            text.extend_from_slice(b"  ")?;
            text.extend_from_slice(path)?;
            text.extend_from_slice(b" made")?;
            push_words(text, words)?;
            push_line(text, b"")
        }
        _ => push_line(text, bytes),
    }
}

fn push_digested(text: &mut Vec<u8>, bytes: &[u8]) -> Result<(), NoMemory>
    ensures { OnOk result (text.new.items ≡ text.old.items ++ digested bytes.now) }
{
    if is_unit_line(bytes) {
        push_made(text, bytes)?;
    }
    Ok(())
}

impl Tally {
    /// Nothing yet.
    fn none(alloc: Global) -> Tally
        ensures counts { (result.commands ≡ 0) × (result.refused ≡ 0) × (result.units ≡ 0) }
        ensures bytes { result.bytes ≡ 0 }
        ensures digested { result.digested.items ≡ [] }
    {
        Tally {
            commands: 0,
            refused: 0,
            units: 0,
            bytes: 0,
            digested: Vec::new(alloc),
        }
    }

    /// Adds a line.
    fn add(&mut self, bytes: &[u8]) -> Result<(), NoMemory>
        requires commands { self.old.commands + 1 < 2 ^ 64 }
        requires refused { self.old.refused + 1 < 2 ^ 64 }
        requires units { self.old.units + 1 < 2 ^ 64 }
        requires bytes { self.old.bytes + 2 ^ 64 < 2 ^ 128 }
        ensures commands { OnOk result
            (self.new.commands ≡ self.old.commands + one_where (is_reply_line bytes.now)) }
        ensures refused { OnOk result
            (self.new.refused ≡ self.old.refused + one_where (is_refused_line bytes.now)) }
        ensures units { OnOk result
            (self.new.units ≡ self.old.units + one_where (is_unit_line bytes.now)) }
        ensures bytes { OnOk result (self.new.bytes ≡ self.old.bytes + length_told bytes.now) }
        ensures digested { OnOk result
            (self.new.digested.items ≡ self.old.digested.items ++ digested bytes.now) }
    {
        self.commands += u64::from(is_reply_line(bytes));
        self.refused += u64::from(is_refused_line(bytes));
        self.units += u64::from(is_unit_line(bytes));
        self.bytes += u128::from(length_told(bytes));
        push_digested(&mut self.digested, bytes)
    }
}

/// What is found in all lines of transcripts.
fn count_lines(alloc: Global, transcripts: &[u8]) -> Result<Tally, NoMemory>
    ensures commands { IfOk result
        (λ tally. tally.commands ≡ count_of is_reply_line (lines_of transcripts.now)) }
    ensures refused { IfOk result
        (λ tally. tally.refused ≡ count_of is_refused_line (lines_of transcripts.now)) }
    ensures units { IfOk result
        (λ tally. tally.units ≡ count_of is_unit_line (lines_of transcripts.now)) }
    ensures bytes { IfOk result
        (λ tally. tally.bytes ≡ lengths_of (lines_of transcripts.now)) }
    ensures digested { IfOk result
        (λ tally. tally.digested.items ≡ digested_text (lines_of transcripts.now)) }
{
    let mut tally = Tally::none(alloc);
    let mut lines = Lines::of(transcripts);
    while let Some(bytes) = lines.next() {
        tally.add(bytes)?;
    }
    Ok(tally)
}

/// Writes the first four lines of a summary.
fn push_totals(alloc: Global, text: &mut Vec<u8>, tally: &Tally) -> Result<(), NoMemory>
    ensures { OnOk result
        (text.new.items
        ≡ text.old.items
        ++ (total (codes "commands ") tally.now.commands
        ++ (total (codes "refused ") tally.now.refused
        ++ (total (codes "units ") tally.now.units
        ++ total (codes "bytes ") tally.now.bytes)))) }
{
    let (commands, refused) = (tally.commands, tally.refused);
    let (units, bytes) = (tally.units, tally.bytes);
    let lines = format!(in alloc;
        "commands {commands}\nrefused {refused}\nunits {units}\nbytes {bytes}\n"
    )?;
    text.extend_from_slice(lines.as_bytes())?;
    Ok(())
}

/// Writes the last line of a summary.
fn push_digest(alloc: Global, text: &mut Vec<u8>, digested: &[u8]) -> Result<(), NoMemory>
    ensures { OnOk result
        (text.new.items
        ≡ text.old.items
        ++ line (codes "digest " ++ encode_lower (sha256 digested.now))) }
{
    let mut hasher = Sha256::new();
    hasher.update(digested);
    let digits = hex::encode(alloc, hasher.finalize().as_slice())?;
    text.extend_from_slice(b"digest ")?;
    push_line(text, digits.as_bytes())
}

/// The summary of the transcripts of a session, in five lines: how many commands were replied, how many of them were refused,
/// how many lines of units there are, the sum of the lengths that these tell, and their SHA-256, where `kept`, `winked` and
/// `built` are written `made`.
///
/// Answers NoMemory alone. Takes time and memory linear in the transcripts.
pub fn summary(alloc: Global, transcripts: &[u8]) -> Result<Text, NoMemory>
    ensures { IfOk result (λ text. text ≡ summary transcripts.now) }
{
    let tally = count_lines(alloc, transcripts)?;
    let mut text = Vec::new(alloc);
    push_totals(alloc, &mut text, &tally)?;
    push_digest(alloc, &mut text, tally.digested.as_slice())?;
    Ok(Text::of(text))
}
