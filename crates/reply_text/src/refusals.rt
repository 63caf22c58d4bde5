//! Refusals and faults, as words after others.

ghost use Rattle.std.specs.Prelude.{◌≡◌, ◌++◌, ◌∷◌, [], OnOk, MatchOption, Some, None};
ghost use Rattle.std.specs.Fmt.{decimal};
ghost use Rattle.reply_text.specs.Words.{spaced_words, lane_words_at};
ghost use Rattle.reply_text.specs.Refusals.{refusal_arguments, refusal_words, script_words, fault_words, name_of_lane};

use crate::names::{make_cause, refusal_name, spec_cause};
use crate::pieces::{push_number_word, push_word};
use cc_names::commands::{LaneWords, PhaseWords};
use cc_names::memory::NoMemory;
use cc_names::refusals::{Refusal, ScriptFault, UnitFault};
use std::alloc::Global;

/// The lane of a phase with this number, from 1.
pub(crate) fn lane_words_at(phase: &PhaseWords, number: u32) -> Option<&LaneWords>
    ensures { MatchOption result (lane_words_at phase.now number ≡ None)
        (λ lane. lane_words_at phase.now number ≡ Some lane.now) }
{
    let index = number.checked_sub(1)?;
    phase.lanes.as_slice().get(index as usize)
}

fn lane_name(phase: &PhaseWords, number: u32) -> &[u8]
    ensures { result.now ≡ name_of_lane (lane_words_at phase.now number) }
{
    match lane_words_at(phase, number) {
        Some(lane) => lane.name.as_bytes(),
        None => &[],
    }
}

fn push_arguments(
    alloc: Global,
    text: &mut Vec<u8>,
    phase: &PhaseWords,
    refusal: &Refusal,
) -> Result<(), NoMemory>
    ensures { OnOk result
        (text.new.items
        ≡ text.old.items ++ spaced_words (refusal_arguments phase.now refusal.now)) }
{
    match refusal {
        Refusal::NoView | Refusal::ViewExists => Ok(()),
        Refusal::NoPath(path)
        | Refusal::NotDirectory(path)
        | Refusal::NameTaken(path)
        | Refusal::NotElement(path)
        | Refusal::NotCheckedOut(path)
        | Refusal::ParentNotOut(path)
        | Refusal::IsDerived(path)
        | Refusal::NoObject(path)
        | Refusal::NoLabel(path)
        | Refusal::IsDirectory(path)
        | Refusal::NotVersion(path)
        | Refusal::NoVersion(path)
        | Refusal::NoMakefile(path)
        | Refusal::NoGoal(path)
        | Refusal::Cycle(path)
        | Refusal::TargetIsSource(path) => push_word(text, path.as_bytes()),
        Refusal::Reserved(name) | Refusal::NoType(name) | Refusal::TypeExists(name) => push_word(
            text,
            name.as_bytes(),
        ),
        Refusal::AlreadyOut(row)
        | Refusal::NotLatest(row)
        | Refusal::Identical(row)
        | Refusal::BranchExists(row)
        | Refusal::LabelElsewhere(row)
        | Refusal::HasCheckouts(row)
        | Refusal::Full(row)
        | Refusal::ArrowExists(row)
        | Refusal::SameVersion(row) => push_number_word(alloc, text, *row),
        Refusal::NoCheckoutRule(line) => push_number_word(alloc, text, u64::from(*line)),
        Refusal::Building(tag) => {
            push_word(text, lane_name(phase, tag.lane))?;
            push_number_word(alloc, text, u64::from(tag.command))
        }
        Refusal::BadSpec(line, cause) => {
            push_number_word(alloc, text, u64::from(*line))?;
            push_word(text, spec_cause(*cause))
        }
        Refusal::MakeError(file, line, cause) => {
            push_word(text, file.as_bytes())?;
            push_number_word(alloc, text, u64::from(*line))?;
            push_word(text, make_cause(*cause))
        }
    }
}

/// Writes a refusal after a word: its code and name, and its arguments.
pub(crate) fn push_refusal(
    alloc: Global,
    text: &mut Vec<u8>,
    phase: &PhaseWords,
    refusal: &Refusal,
) -> Result<(), NoMemory>
    ensures { OnOk result
        (text.new.items ≡ text.old.items ++ spaced_words (refusal_words phase.now refusal.now)) }
{
    push_word(text, refusal_name(refusal))?;
    push_arguments(alloc, text, phase, refusal)
}

fn push_named(text: &mut Vec<u8>, name: &[u8], argument: &[u8]) -> Result<(), NoMemory>
    ensures { OnOk result
        (text.new.items ≡ text.old.items ++ spaced_words (name.now ∷ argument.now ∷ [])) }
{
    push_word(text, name)?;
    push_word(text, argument)
}

fn push_numbered(
    alloc: Global,
    text: &mut Vec<u8>,
    name: &[u8],
    number: u32,
) -> Result<(), NoMemory>
    ensures { OnOk result
        (text.new.items ≡ text.old.items ++ spaced_words (name.now ∷ decimal number ∷ [])) }
{
    push_word(text, name)?;
    push_number_word(alloc, text, u64::from(number))
}

fn push_script_fault(alloc: Global, text: &mut Vec<u8>, fault: &ScriptFault) -> Result<(), NoMemory>
    ensures { OnOk result
        (text.new.items ≡ text.old.items ++ spaced_words (script_words fault.now)) }
{
    match fault {
        ScriptFault::Absent(path) => push_named(text, b"X1 Absent", path.as_bytes()),
        ScriptFault::BadLine(line) => push_numbered(alloc, text, b"X2 BadLine", *line),
        ScriptFault::TooBig(path) => push_named(text, b"X3 TooBig", path.as_bytes()),
        ScriptFault::IncludeDepth(path) => push_named(text, b"X4 IncludeDepth", path.as_bytes()),
        ScriptFault::Failed(line) => push_numbered(alloc, text, b"X5 Failed", *line),
        ScriptFault::StrayWrite(path) => push_named(text, b"X6 StrayWrite", path.as_bytes()),
        ScriptFault::NotWritten(path) => push_named(text, b"X7 NotWritten", path.as_bytes()),
    }
}

/// Writes the fault of a unit after a word.
pub(crate) fn push_fault(
    alloc: Global,
    text: &mut Vec<u8>,
    fault: &UnitFault,
) -> Result<(), NoMemory>
    ensures { OnOk result
        (text.new.items ≡ text.old.items ++ spaced_words (fault_words fault.now)) }
{
    match fault {
        UnitFault::NoRule(path) => push_named(text, b"U1 NoRule", path.as_bytes()),
        UnitFault::NoDirectory(path) => push_named(text, b"U2 NoDirectory", path.as_bytes()),
        UnitFault::ScriptTooLong(path) => push_named(text, b"U3 ScriptTooLong", path.as_bytes()),
        UnitFault::Script(fault) => push_script_fault(alloc, text, fault),
    }
}
