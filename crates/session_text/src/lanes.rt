//! A lane, kept as its text, and its commands.

ghost use Rattle.std.specs.Prelude.{◌≡◌, Ok, IfOk, slice_get};
ghost use Rattle.session_text.specs.Ahead.{ahead_by, ahead_of};
ghost use Rattle.session_text.specs.Commands.{command_of};
ghost use Rattle.session_text.specs.Kinds.{kinds_of};
ghost use Rattle.session_text.specs.Reading.{Says, lines_at};
ghost use Rattle.session_text.specs.Sessions.{body_of, commands_of};

use crate::commands::command_of;
use crate::finding::{find_command, pass_command};
use crate::kinds::{Bytes, Rest};
use crate::places::Place;
use cc_names::commands::{Command, LaneWords};
use cc_names::cuts::Words;
use cc_names::lists::List;
use cc_names::memory::{NoMemory, Or};
use cc_names::names::Name;
use cc_names::texts::Text;
use std::alloc::Global;
use std::hash::RandomState;
use std::marker::Model;

/// A lane, its commands kept as their text. Contracts see it as the lane.
#[derive(Drop)]
pub struct LaneText {
    name: Name,
    commands: CommandsLeft,
}

impl Model for LaneText {
    ghost use Rattle.cc_names.specs.declared.commands.Lane.{Lane};

    ghost Value = { Lane };

    ghost view = { λ s. record { name = s.name; commands = s.commands } };
}

impl LaneText {
    ghost use Rattle.std.specs.Prelude.{◌≡◌, IfOk};
    ghost use Rattle.session_text.specs.CommandWords.{lane_words};
    ghost use Rattle.session_text.specs.Reading.{lines_at};
    ghost use Rattle.session_text.specs.Sessions.{commands_of};

    /// The lane of this name whose line ends before this place. Takes time linear in its first command's line and those before
    /// it.
    pub(crate) fn of(name: Name, place: Place) -> LaneText
        ensures { result ≡ record { name = name; commands = commands_of (lines_at place) } }
    {
        LaneText {
            name,
            commands: CommandsLeft::at(place),
        }
    }

    /// Its name, and its commands from the first on. Takes no memory.
    pub fn into_parts(self) -> (Name, CommandsLeft)
        ensures { (result.0 ≡ self.name) × (result.1 ≡ self.commands) }
    {
        let LaneText { name, commands } = self;
        (name, commands)
    }

    /// Its name and the words of its commands. Takes time linear in its text, and memory for each word.
    pub fn words(self, alloc: Global) -> Result<LaneWords, NoMemory>
        ensures { IfOk result (λ words. words ≡ lane_words self) }
    {
        let (name, commands) = self.into_parts();
        let words = commands.words(alloc)?;
        Ok(LaneWords { name, words })
    }
}

/// The commands of a lane that are left, kept as their text, with what the next of them asks for, since that is asked again and
/// again while it builds. Contracts see them as a list.
#[derive(Drop)]
pub struct CommandsLeft {
    place: Place,
    ahead: Ahead,
}

impl Model for CommandsLeft {
    ghost use Rattle.std.specs.Prelude.{◌≡◌, List, slice_get};
    ghost use Rattle.cc_names.specs.declared.commands.Command.{Command};
    ghost use Rattle.session_text.specs.Ahead.{ahead_of};
    ghost use Rattle.session_text.specs.Reading.{lines_at};
    ghost use Rattle.session_text.specs.Sessions.{commands_of};

    ghost Value = { List Command };

    ghost view = { λ s. commands_of (lines_at s.place) };

    ghost invariant = { λ s. s.ahead ≡ ahead_of (slice_get (commands_of (lines_at s.place)) 0) };
}

/// The command of a line that stands right.
fn command_said(
    alloc: Global,
    hashing: RandomState,
    word: Bytes<'_>,
    words: Words<'_>,
    behind: &Rest<'_>,
) -> Result<Command, NoMemory>
    requires { Says word words (kinds_of behind.now.bytes) }
    ensures { IfOk result
        (λ command.
        command_of word.entry words.entry (body_of (kinds_of behind.now.bytes)) ≡ Ok command) }
{
    match command_of(alloc, hashing, word.as_slice(), words, behind) {
        Ok(command) => Ok(command),
        Err(Or::NoMemory) => Err(NoMemory),
        Err(Or::Is(_)) => unreachable!(),
    }
}

/// What the next of some commands asks for.
#[derive(Clone, Copy, Debug, PartialEq, Eq)]
pub enum Ahead {
    /// There is no command.
    Nothing,
    /// To be carried out at once.
    Act,
    /// To build.
    Build,
}

/// What the command of this word asks for.
fn ahead_by(word: &[u8]) -> Ahead
    ensures { result ≡ ahead_by word.now }
{
    if word == b"clearmake".as_slice() {
        return Ahead::Build;
    }
    Ahead::Act
}

/// What the first command from a place on asks for. Takes time linear in its line and those before it.
fn ahead_at(place: &Place) -> Ahead
    ensures { result ≡ ahead_of (slice_get (commands_of (lines_at place.now)) 0) }
{
    let mut rest = place.rest();
    match find_command(&mut rest) {
        None => Ahead::Nothing,
        Some((word, _words)) => ahead_by(word.as_slice()),
    }
}

impl CommandsLeft {
    ghost use Rattle.std.specs.Prelude.{◌≡◌, IfOk, drop, length, map, slice_get};
    ghost use Rattle.session_text.specs.CommandWords.{word_of};
    ghost use Rattle.session_text.specs.Ahead.{ahead_of};
    ghost use Rattle.session_text.specs.Reading.{lines_at};
    ghost use Rattle.session_text.specs.Sessions.{commands_of};

    /// The commands of a lane from a place on.
    fn at(place: Place) -> CommandsLeft
        ensures { result ≡ commands_of (lines_at place) }
    {
        let ahead = ahead_at(&place);
        CommandsLeft { place, ahead }
    }

    /// What the next command asks for. Takes constant time, and no memory.
    pub fn ahead(&self) -> Ahead
        ensures { result ≡ ahead_of (slice_get self.now 0) }
    {
        self.ahead
    }

    /// The next command, which is left. Takes time linear in its lines, those before the first one included, and memory for it.
    pub fn peek(&self, alloc: Global) -> Result<Option<Command>, NoMemory>
        ensures { IfOk result (λ next. next ≡ slice_get self.now 0) }
    {
        let mut rest = self.place.rest();
        let Some((word, words)) = find_command(&mut rest) else {
            return Ok(None);
        };
        let command = command_said(alloc, self.place.hashing(), word, words, &rest)?;
        Ok(Some(command))
    }

    /// Leaves the next command out, where there is one. Takes time linear in its lines, the line of the one after it and those
    /// between, and no memory.
    pub fn skip(&mut self)
        ensures { self.new ≡ drop 1 self.old }
    {
        let mut rest = self.place.rest();
        if !pass_command(&mut rest) {
            return;
        }
        let left = rest.bytes_left();
        drop(rest);
        self.place.go_to(left);
        self.ahead = ahead_at(&self.place);
    }

    /// How many commands are left. Takes time linear in their text.
    pub fn count(&self) -> usize
        ensures { result ≡ length self.now }
    {
        let mut rest = self.place.rest();
        let mut count = 0usize;
        'commands: while let Some(_found) = find_command(&mut rest) {
            count += 1;
        }
        count
    }

    /// The words of the commands that are left. Takes time linear in their text, and memory for each word.
    fn words(&self, alloc: Global) -> Result<List<Text>, NoMemory>
        ensures { IfOk result (λ words. words ≡ map word_of self.now) }
    {
        let mut rest = self.place.rest();
        let mut words = Vec::new(alloc);
        'commands: while let Some((word, _words)) = find_command(&mut rest) {
            let word = Text::from_bytes(alloc, word.as_slice())?;
            words.push(word)?;
        }
        Ok(List::of(words))
    }
}
