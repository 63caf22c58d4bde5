//! Sessions, read from text and kept as it.

ghost use Rattle.std.specs.Prelude.{◌≡◌, ◌<◌, ◌^◌, IfOk, length};
ghost use Rattle.cc_names.specs.Answers.{Gives};
ghost use Rattle.session_text.specs.Formed.{IsFormedSession};
ghost use Rattle.session_text.specs.Sessions.{session_of};

use crate::checks::check_lines;
use crate::finding::find_phase;
use crate::phases::PhaseText;
use crate::places::Place;
use cc_names::memory::{NoMemory, Or};
use cc_names::refusals::SessionError;
use cc_names::texts::Text;
use std::alloc::Global;
use std::hash::RandomState;
use std::marker::Model;

/// A session, kept as its text. Contracts see it as the session.
#[derive(Drop)]
pub struct SessionText {
    place: Place,
}

impl Model for SessionText {
    ghost use Rattle.cc_names.specs.declared.commands.Session.{Session};
    ghost use Rattle.session_text.specs.Reading.{lines_at};
    ghost use Rattle.session_text.specs.Sessions.{phases_of};

    ghost Value = { Session };

    ghost view = { λ s. record { phases = phases_of (lines_at s.place) } };
}

impl SessionText {
    ghost use Rattle.std.specs.Prelude.{◌≡◌};

    /// Its phases, from the first on. Takes no memory.
    pub fn into_phases(self) -> PhasesLeft
        ensures { result ≡ self.phases }
    {
        let SessionText { place } = self;
        PhasesLeft { place }
    }
}

/// The phases of a session that are left, kept as their text. Contracts see them as a list.
#[derive(Drop)]
pub struct PhasesLeft {
    place: Place,
}

impl Model for PhasesLeft {
    ghost use Rattle.std.specs.Prelude.{List};
    ghost use Rattle.cc_names.specs.declared.commands.Phase.{Phase};
    ghost use Rattle.session_text.specs.Reading.{lines_at};
    ghost use Rattle.session_text.specs.Sessions.{phases_of};

    ghost Value = { List Phase };

    ghost view = { λ s. phases_of (lines_at s.place) };
}

impl PhasesLeft {
    ghost use Rattle.std.specs.Prelude.{◌≡◌, [], ◌∷◌, OnErr, IfOk, MatchOption};

    /// The next phase. Takes time linear in the lines before it, and no memory; an `Err`, which changes nothing, comes only where
    /// the text has too many holders.
    pub fn next(&mut self) -> Result<Option<PhaseText>, NoMemory>
        ensures ok { IfOk result
            (λ next. MatchOption next ((self.old ≡ []) × (self.new ≡ []))
            (λ phase. self.old ≡ phase ∷ self.new)) }
        ensures err { OnErr result (self.new ≡ self.old) }
    {
        let mut rest = self.place.rest();
        if find_phase(&mut rest).is_none() {
            return Ok(None);
        }
        let left = rest.bytes_left();
        drop(rest);
        let mut place = self.place.again()?;
        place.go_to(left);
        self.place.go_to(left);
        Ok(Some(PhaseText::of(place)))
    }

    /// The phases that are left, each kept as its text. Takes time linear in their text, and sixteen bytes for each.
    pub fn into_vec(mut self, alloc: Global) -> Result<Vec<PhaseText>, NoMemory>
        ensures { IfOk result (λ phases. phases.items ≡ self) }
    {
        let mut phases = Vec::new(alloc);
        'phases: while let Some(phase) = self.next()? {
            phases.push(phase)?;
        }
        Ok(phases)
    }
}

/// Reads a text as a session, or answers its first line that stands wrong. The macros of a command line are found by hashing
/// their names so. Takes time linear in the text, and beside the text memory for one command line at a time: no body is copied.
pub fn read(
    alloc: Global,
    hashing: RandomState,
    text: Text,
) -> Result<SessionText, Or<SessionError>>
    requires { length text < 2 ^ 32 }
    ensures session { Gives result (session_of text) }
    ensures formed { IfOk result (IsFormedSession (length text)) }
{
    check_lines(alloc, hashing, text.as_bytes())?;
    let place = Place::first(alloc, hashing, text)?;
    Ok(SessionText { place })
}
