//! Replies and the lines of a lane.

ghost use Rattle.std.specs.Prelude.{◌≡◌, ◌++◌, ◌∷◌, [], OnOk, IfOk, Some};
ghost use Rattle.std.specs.List.{flat_map, list_all};
ghost use Rattle.reply_text.specs.Words.{spaced_words};
ghost use Rattle.reply_text.specs.Replies.{digest_words, unit_words, unit_line, is_made, is_made_line, build_word, reply_words, lines_of_reply, command_lines, lines_from, lane_lines, render_words};

use crate::pieces::{push_bytes, push_newline, push_number_word, push_shown, push_word};
use crate::refusals::{lane_words_at, push_fault, push_refusal};
use cc_names::commands::{LaneWords, PhaseWords};
use cc_names::memory::NoMemory;
use cc_names::numbers::push_number;
use cc_names::replies::{Digest, Reply, UnitLine, UnitWord};
use cc_names::texts::Text;
use std::alloc::Global;

fn push_digest(
    alloc: Global,
    text: &mut Vec<u8>,
    word: &[u8],
    digest: &Digest,
) -> Result<(), NoMemory>
    ensures { OnOk result
        (text.new.items ≡ text.old.items ++ spaced_words (word.now ∷ digest_words digest.now)) }
{
    push_word(text, word)?;
    push_number_word(alloc, text, digest.length)?;
    let digits = hex::encode(alloc, digest.sha256.as_slice())?;
    push_word(text, digits.as_bytes())
}

fn push_unit_word(alloc: Global, text: &mut Vec<u8>, word: &UnitWord) -> Result<(), NoMemory>
    ensures { OnOk result (text.new.items ≡ text.old.items ++ spaced_words (unit_words word.now)) }
{
    match word {
        UnitWord::Kept(digest) => push_digest(alloc, text, b"kept", digest),
        UnitWord::Winked(digest) => push_digest(alloc, text, b"winked", digest),
        UnitWord::Made(digest) => push_digest(alloc, text, b"built", digest),
        UnitWord::Bare => push_word(text, b"made"),
        UnitWord::Failed(fault) => {
            push_word(text, b"failed")?;
            push_fault(alloc, text, fault)
        }
        UnitWord::Blocked(path) => {
            push_word(text, b"blocked")?;
            push_word(text, path.as_bytes())
        }
    }
}

fn push_unit(alloc: Global, text: &mut Vec<u8>, unit: &UnitLine) -> Result<(), NoMemory>
    ensures { OnOk result (text.new.items ≡ text.old.items ++ unit_line unit.now) }
{
    push_bytes(text, b"  ")?;
    push_bytes(text, unit.path.as_bytes())?;
    push_unit_word(alloc, text, &unit.word)?;
    push_newline(text)
}

fn push_units(alloc: Global, text: &mut Vec<u8>, units: &[UnitLine]) -> Result<(), NoMemory>
    ensures { OnOk result (text.new.items ≡ text.old.items ++ flat_map unit_line units.now) }
{
    let mut rest = units;
    while let Some((unit, more)) = rest.split_first() {
        push_unit(alloc, text, unit)?;
        rest = more;
    }
    Ok(())
}

fn is_made(word: &UnitWord) -> bool
    ensures { result ≡ is_made word.now }
{
    match word {
        UnitWord::Kept(_) | UnitWord::Winked(_) | UnitWord::Made(_) | UnitWord::Bare => true,
        UnitWord::Failed(_) | UnitWord::Blocked(_) => false,
    }
}

fn are_made(units: &[UnitLine]) -> bool
    ensures { result ≡ list_all is_made_line units.now }
{
    units.iter().all(|unit| is_made(&unit.word))
}

fn build_word(units: &[UnitLine]) -> &'static [u8]
    ensures { result.now ≡ build_word units.now }
{
    if are_made(units) { b"ok" } else { b"failed" }
}

fn push_reply(
    alloc: Global,
    text: &mut Vec<u8>,
    phase: &PhaseWords,
    reply: &Reply,
) -> Result<(), NoMemory>
    ensures { OnOk result
        (text.new.items ≡ text.old.items ++ spaced_words (reply_words phase.now reply.now)) }
{
    match reply {
        Reply::Good | Reply::Answer(_) => push_word(text, b"ok"),
        Reply::Version(name) => {
            push_word(text, b"ok")?;
            push_word(text, name.as_bytes())
        }
        Reply::Count(number) => {
            push_word(text, b"ok")?;
            push_number_word(alloc, text, *number)
        }
        Reply::Refused(refusal) => {
            push_word(text, b"refused")?;
            push_refusal(alloc, text, phase, refusal)
        }
        Reply::DiskFault => push_word(text, b"disk fault"),
        Reply::Built(units) => push_word(text, build_word(units.as_slice())),
    }
}

fn push_lines_behind(alloc: Global, text: &mut Vec<u8>, reply: &Reply) -> Result<(), NoMemory>
    ensures { OnOk result (text.new.items ≡ text.old.items ++ lines_of_reply reply.now) }
{
    match reply {
        Reply::Answer(answer) => push_shown(text, answer.as_bytes()),
        Reply::Built(units) => push_units(alloc, text, units.as_slice()),
        _ => Ok(()),
    }
}

fn push_command(
    alloc: Global,
    text: &mut Vec<u8>,
    phase: &PhaseWords,
    number: u64,
    word: &Text,
    reply: &Reply,
) -> Result<(), NoMemory>
    ensures { OnOk result
        (text.new.items ≡ text.old.items ++ command_lines phase.now number word.now reply.now) }
{
    push_number(alloc, text, number)?;
    push_word(text, word.as_bytes())?;
    push_reply(alloc, text, phase, reply)?;
    push_newline(text)?;
    push_lines_behind(alloc, text, reply)
}

fn push_commands(
    alloc: Global,
    text: &mut Vec<u8>,
    phase: &PhaseWords,
    words: &[Text],
    replies: &[Reply],
) -> Result<(), NoMemory>
    ensures { OnOk result
        (text.new.items ≡ text.old.items ++ lines_from phase.now 1 words.now replies.now) }
{
    let (mut left, mut answers) = (words, replies);
    let mut number = 1u64;
    while let (Some((word, behind)), Some((reply, more))) = (
        left.split_first(),
        answers.split_first(),
    ) {
        push_command(alloc, text, phase, number, word, reply)?;
        left = behind;
        answers = more;
        number += 1;
    }
    Ok(())
}

fn push_lane_replies(
    alloc: Global,
    text: &mut Vec<u8>,
    phase: &PhaseWords,
    lane: &LaneWords,
    replies: &[Reply],
) -> Result<(), NoMemory>
    ensures { OnOk result
        (text.new.items ≡ text.old.items ++ lane_lines phase.now (Some lane.now) replies.now) }
{
    push_bytes(text, b"lane ")?;
    push_bytes(text, lane.name.as_bytes())?;
    push_newline(text)?;
    push_commands(alloc, text, phase, lane.words.as_slice(), replies)
}

/// The lines of the lane of a phase with this number, from 1: the line of the lane, and for each command of the lane
/// that has a reply its line and what follows it. Takes time linear in the lines.
pub fn render(
    alloc: Global,
    phase: &PhaseWords,
    lane: u32,
    replies: &[Reply],
) -> Result<Text, NoMemory>
    ensures { IfOk result (λ text. text ≡ render_words phase.now lane replies.now) }
{
    let mut text = Vec::new(alloc);
    let Some(lane) = lane_words_at(phase, lane) else {
        return Ok(Text::of(text));
    };
    push_lane_replies(alloc, &mut text, phase, lane, replies)?;
    Ok(Text::of(text))
}
