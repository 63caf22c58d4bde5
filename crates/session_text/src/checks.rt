//! Whether each line of a text stands right, below the lines above it.

ghost use Rattle.std.specs.Prelude.{◌≡◌, ◌<◌, ◌^◌, [], None, Ok, OnOk, IfErr, length};
ghost use Rattle.std.specs.List.{list_any};
ghost use Rattle.std.specs.Str.{bytes_eq};
ghost use Rattle.cc_names.specs.Answers.{Gives};
ghost use Rattle.session_text.specs.Commands.{command_of};
ghost use Rattle.session_text.specs.Kinds.{kinds_of};
ghost use Rattle.session_text.specs.Reading.{IsWrong, fault_of_line};
ghost use Rattle.session_text.specs.Sessions.{error_in, is_empty, is_taken, lane_of};

use crate::commands::{command_of, let_go, takes_body};
use crate::kinds::{Bytes, Kind, Rest};
use crate::shapes::view;
use cc_names::commands::Command;
use cc_names::cuts::Words;
use cc_names::memory::Or;
use cc_names::names::Name;
use cc_names::refusals::{SessionCause, SessionError};
use std::alloc::Global;
use std::hash::RandomState;
use std::marker::Model;

// The most lanes of a phase.
const MOST_LANES: usize = 64;

/// The error of the line with this number.
fn error_at(number: u32, cause: SessionCause) -> SessionError
    ensures { result ≡ record { line = number; cause = cause } }
{
    SessionError {
        line: number,
        cause,
    }
}

/// A fault of the line with this number.
fn fault_of_line(number: u32, fault: Or<SessionCause>) -> Or<SessionError>
    ensures { result ≡ fault_of_line number fault }
{
    match fault {
        Or::NoMemory => Or::NoMemory,
        Or::Is(cause) => Or::Is(error_at(number, cause)),
    }
}

fn has_lane(lanes: &[Name], name: &[u8]) -> bool
    ensures { result ≡ list_any (bytes_eq name.now) lanes.now }
{
    let mut rest = lanes;
    while let Some((lane, more)) = rest.split_first() {
        if name == lane.as_bytes() {
            return true;
        }
        rest = more;
    }
    false
}

fn is_empty(lanes: &[Name]) -> bool
    ensures { result ≡ is_empty lanes.now }
{
    matches!(lanes, [])
}

fn is_taken(lanes: &[Name], words: &Words<'_>) -> bool
    ensures { result ≡ is_taken lanes.now words.now }
{
    match words.again().next() {
        None => false,
        Some(name) => has_lane(lanes, name),
    }
}

/// The name of a lane below these.
fn lane_of(alloc: Global, lanes: &[Name], words: Words<'_>) -> Result<Name, Or<SessionCause>>
    ensures { Gives result (lane_of lanes.now words.entry) }
{
    if is_taken(lanes, &words) {
        return Err(Or::Is(SessionCause::TwoLanes));
    }
    if lanes.len() >= MOST_LANES {
        return Err(Or::Is(SessionCause::TooManyLanes));
    }
    view(alloc, words)
}

/// The command that a line says where no body lines stand after it.
fn said_without_body(
    alloc: Global,
    hashing: RandomState,
    word: &[u8],
    words: Words<'_>,
) -> Result<Command, Or<SessionCause>>
    ensures { Gives result (command_of word.now words.entry []) }
{
    command_of(alloc, hashing, word, words, &Rest::of(&[]))
}

/// What stands above a line: whether a phase has begun, the names of its lanes so far, and whether the last line that is not
/// skipped, body lines aside, takes a body.
#[derive(Drop)]
struct Above {
    in_phase: bool,
    lanes: Vec<Name>,
    takes_body: bool,
}

impl Model for Above {
    ghost use Rattle.session_text.specs.Sessions.{Above};

    ghost Value = { Above };

    ghost view = { λ s.
        record { in_phase = s.in_phase; lanes = s.lanes.items; takes_body = s.takes_body } };
}

impl Above {
    ghost use Rattle.std.specs.Prelude.{◌≡◌};
    ghost use Rattle.session_text.specs.declared.kinds.Kind.TheVariants as kinds;
    ghost use Rattle.session_text.specs.Reading.{StandsRight};
    ghost use Rattle.session_text.specs.Sessions.{nothing};

    fn nothing(alloc: Global) -> Above
        ensures { result ≡ nothing }
    {
        Above {
            in_phase: false,
            lanes: Vec::new(alloc),
            takes_body: false,
        }
    }

    fn take_body(&mut self) -> Result<(), Or<SessionCause>>
        ensures { StandsRight result self.old (kinds.Body []) [] self.new }
    {
        if !self.in_phase {
            return Err(Or::Is(SessionCause::NoPhase));
        }
        if self.lanes.is_empty() {
            return Err(Or::Is(SessionCause::NoLane));
        }
        if !self.takes_body {
            return Err(Or::Is(SessionCause::NoBody));
        }
        Ok(())
    }

    fn take_phase(&mut self, mut words: Words<'_>) -> Result<(), Or<SessionCause>>
        ensures { StandsRight result self.old (kinds.Phase words.entry) [] self.new }
    {
        if words.next().is_some() {
            return Err(Or::Is(SessionCause::BadWord));
        }
        self.in_phase = true;
        self.lanes.clear();
        self.takes_body = false;
        Ok(())
    }

    fn take_lane(&mut self, alloc: Global, words: Words<'_>) -> Result<(), Or<SessionCause>>
        ensures { StandsRight result self.old (kinds.Lane words.entry) [] self.new }
    {
        if !self.in_phase {
            return Err(Or::Is(SessionCause::NoPhase));
        }
        let name = lane_of(alloc, self.lanes.as_slice(), words)?;
        self.lanes.push(name)?;
        self.takes_body = false;
        Ok(())
    }

    /// Takes in the line of a command. Its body is not read, since whether the line says a command does not depend on it.
    fn take_command(
        &mut self,
        alloc: Global,
        hashing: RandomState,
        word: &Bytes<'_>,
        words: Words<'_>,
    ) -> Result<(), Or<SessionCause>>
        ensures { StandsRight result self.old (kinds.Command word.now words.entry) [] self.new }
    {
        if !self.in_phase {
            return Err(Or::Is(SessionCause::NoPhase));
        }
        if is_empty(self.lanes.as_slice()) {
            return Err(Or::Is(SessionCause::NoLane));
        }
        match said_without_body(alloc, hashing, word.as_slice(), words) {
            Ok(command) => {
                self.takes_body = takes_body(&command);
                let_go(command);
                Ok(())
            }
            Err(fault) => Err(fault),
        }
    }

    /// Takes in a line that stands right, as it does with any body lines after it.
    fn take(
        &mut self,
        alloc: Global,
        hashing: RandomState,
        kind: Kind<'_>,
    ) -> Result<(), Or<SessionCause>>
        ensures { StandsRight result self.old kind.entry [] self.new }
    {
        match kind {
            Kind::Skipped => Ok(()),
            Kind::Body(_bytes) => self.take_body(),
            Kind::Phase(words) => self.take_phase(words),
            Kind::Lane(words) => self.take_lane(alloc, words),
            Kind::Command(word, words) => self.take_command(alloc, hashing, &word, words),
        }
    }
}

/// Finds the first line of a text that stands wrong. Takes time linear in the text, and for each lane in those of its phase above
/// it; and memory for one command line.
pub(crate) fn check_lines(
    alloc: Global,
    hashing: RandomState,
    text: &[u8],
) -> Result<(), Or<SessionError>>
    requires { length text.now < 2 ^ 32 }
    ensures right { OnOk result (error_in (kinds_of text.now) ≡ None) }
    ensures wrong { IfErr result (λ fault. IsWrong fault (error_in (kinds_of text.now))) }
{
    let mut above = Above::nothing(alloc);
    let mut rest = Rest::of(text);
    'lines: while let Some(kind) = rest.next() {
        match above.take(alloc, hashing, kind) {
            Ok(()) => {}
            Err(fault) => return Err(fault_of_line(rest.number(), fault)),
        }
    }
    Ok(())
}
