//! A phase, kept as its text, and its lanes.

ghost use Rattle.std.specs.Prelude.{◌≡◌, Ok, IfOk};
ghost use Rattle.session_text.specs.Reading.{LaneNames};
ghost use Rattle.session_text.specs.Shapes.{view};

use crate::finding::find_lane;
use crate::lanes::LaneText;
use crate::places::Place;
use crate::shapes::view;
use cc_names::commands::PhaseWords;
use cc_names::cuts::Words;
use cc_names::lists::List;
use cc_names::memory::{NoMemory, Or};
use cc_names::names::Name;
use std::alloc::Global;
use std::marker::Model;

/// A phase, kept as its text. Contracts see it as the phase.
#[derive(Drop)]
pub struct PhaseText {
    place: Place,
}

impl Model for PhaseText {
    ghost use Rattle.cc_names.specs.declared.commands.Phase.{Phase};
    ghost use Rattle.session_text.specs.Reading.{lines_at};
    ghost use Rattle.session_text.specs.Sessions.{lanes_of};

    ghost Value = { Phase };

    ghost view = { λ s. record { lanes = lanes_of (lines_at s.place) } };
}

impl PhaseText {
    ghost use Rattle.std.specs.Prelude.{◌≡◌, IfOk};
    ghost use Rattle.session_text.specs.CommandWords.{words_of_command};
    ghost use Rattle.session_text.specs.Reading.{lines_at};
    ghost use Rattle.session_text.specs.Sessions.{lanes_of};

    /// The phase whose line ends before this place.
    pub(crate) fn of(place: Place) -> PhaseText
        ensures { result ≡ record { lanes = lanes_of (lines_at place) } }
    {
        PhaseText { place }
    }

    /// Its lanes, from the first on. Takes no memory; it fails only where the text has too many holders.
    pub fn lanes(&self) -> Result<LanesLeft, NoMemory>
        ensures { IfOk result (λ lanes. lanes ≡ self.now.lanes) }
    {
        let place = self.place.again()?;
        Ok(LanesLeft { place })
    }

    /// The names of its lanes and the words of their commands. Takes time linear in its text, and memory for each name and word.
    pub fn words(&self, alloc: Global) -> Result<PhaseWords, NoMemory>
        ensures { IfOk result (λ words. words ≡ words_of_command self.now) }
    {
        let mut left = self.lanes()?;
        let mut lanes = Vec::new(alloc);
        'lanes: while let Some(lane) = left.next(alloc)? {
            lanes.push(lane.words(alloc)?)?;
        }
        Ok(PhaseWords {
            lanes: List::of(lanes),
        })
    }
}

/// The lanes of a phase that are left, kept as their text. Contracts see them as a list.
#[derive(Drop)]
pub struct LanesLeft {
    place: Place,
}

impl Model for LanesLeft {
    ghost use Rattle.std.specs.Prelude.{List};
    ghost use Rattle.cc_names.specs.declared.commands.Lane.{Lane};
    ghost use Rattle.session_text.specs.Reading.{lines_at};
    ghost use Rattle.session_text.specs.Sessions.{lanes_of};

    ghost Value = { List Lane };

    ghost view = { λ s. lanes_of (lines_at s.place) };
}

/// The name that the words after `lane` say, where they say one.
fn name_said(alloc: Global, words: Words<'_>) -> Result<Name, NoMemory>
    requires { LaneNames words }
    ensures { IfOk result (λ name. view words.entry ≡ Ok name) }
{
    match view(alloc, words) {
        Ok(name) => Ok(name),
        Err(Or::NoMemory) => Err(NoMemory),
        Err(Or::Is(_)) => unreachable!(),
    }
}

impl LanesLeft {
    ghost use Rattle.std.specs.Prelude.{◌≡◌, [], ◌∷◌, OnErr, IfOk, MatchOption};

    /// The next lane. Takes time linear in the lines before it and those up to its first command, and memory for its name. An
    /// `Err`
    /// changes nothing.
    pub fn next(&mut self, alloc: Global) -> Result<Option<LaneText>, NoMemory>
        ensures ok { IfOk result
            (λ next. MatchOption next ((self.old ≡ []) × (self.new ≡ []))
            (λ lane. self.old ≡ lane ∷ self.new)) }
        ensures err { OnErr result (self.new ≡ self.old) }
    {
        let mut rest = self.place.rest();
        let Some(words) = find_lane(&mut rest) else {
            return Ok(None);
        };
        let name = name_said(alloc, words)?;
        let left = rest.bytes_left();
        drop(rest);
        let mut place = self.place.again()?;
        place.go_to(left);
        self.place.go_to(left);
        Ok(Some(LaneText::of(name, place)))
    }
}
