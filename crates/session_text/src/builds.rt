//! What the words of `clearmake V ..` say, in any order.

ghost use Rattle.std.specs.Prelude.{◌≡◌, ◌<◌, [], OnOk, IfSome, IfOk, None, length};
ghost use Rattle.std.specs.List.{list_all, position};
ghost use Rattle.cc_names.specs.Answers.{Gives};
ghost use Rattle.session_text.specs.Clearmake.{is_macro_byte, is_word_byte, is_equals, is_macro_name, with_macro, nothing_asked, with_goal, with_asked_macro, with_word, with_one, with_jobs, with_file, is_option, with_option, asked_by, build_of, clearmake};

use crate::shapes::read_first_name;
use crate::words::{jobs_word, path_word};
use cc_names::commands::{Clearmake, Macro};
use cc_names::cuts::Words;
use cc_names::lists::List;
use cc_names::memory::{NoMemory, Or};
use cc_names::names::Name;
use cc_names::paths::Path;
use cc_names::refusals::SessionCause;
use cc_names::texts::Text;
use indexmap::IndexMap;
use std::alloc::Global;
use std::hash::RandomState;
use std::marker::Model;

fn first_equals(word: &[u8]) -> Option<usize>
    ensures place { result ≡ position is_equals word.now }
    ensures within { IfSome result (λ place. place < length word.now) }
{
    word.iter().position(|byte| *byte == b'=')
}

fn is_macro_byte(byte: u8) -> bool
    ensures { result ≡ is_macro_byte byte }
{
    byte.is_ascii_alphanumeric() || matches!(byte, b'_' | b'.')
}

fn is_word_byte(byte: u8) -> bool
    ensures { result ≡ is_word_byte byte }
{
    matches!(byte, 33..=126)
}

fn are_macro_bytes(name: &[u8]) -> bool
    ensures { result ≡ list_all is_macro_byte name.now }
{
    name.iter().all(|byte| is_macro_byte(*byte))
}

fn is_macro_name(name: &[u8]) -> bool
    ensures { result ≡ is_macro_name name.now }
{
    !name.is_empty() && are_macro_bytes(name)
}

fn is_macro_text(text: &[u8]) -> bool
    ensures { result ≡ list_all is_word_byte text.now }
{
    text.iter().all(|byte| is_word_byte(*byte))
}

/// The macros of a command line, in the order of their first places. Contracts see them as a list.
#[derive(Drop)]
struct Macros {
    entries: IndexMap<Vec<u8>, Text, RandomState>,
}

impl Model for Macros {
    ghost use Rattle.std.specs.Prelude.{List, map};
    ghost use Rattle.cc_names.specs.declared.commands.Macro.{Macro};

    ghost Value = { List Macro };

    ghost view = { λ macros.
        map (λ entry. record { name = entry.0.items; value = entry.1 }) macros.entries.entries };
}

impl Macros {
    fn none(alloc: Global, hashing: RandomState) -> Macros
        ensures { result ≡ [] }
    {
        Macros {
            entries: IndexMap::with_hasher(alloc, hashing),
        }
    }

    /// Takes in a macro. Takes time linear in its bytes, however many there are.
    fn define(&mut self, alloc: Global, name: &[u8], text: &[u8]) -> Result<(), NoMemory>
        ensures { OnOk result (self.new ≡ with_macro self.old name.now text.now) }
    {
        let name = Vec::from_slice(alloc, name)?;
        let text = Text::from_bytes(alloc, text)?;
        self.entries.insert(name, text)?;
        Ok(())
    }

    fn into_list(self, alloc: Global) -> Result<List<Macro>, NoMemory>
        ensures { IfOk result (λ list. list ≡ self) }
    {
        let mut macros = Vec::new(alloc);
        for (name, value) in self.entries {
            let name = Text::of(name);
            macros.push(Macro { name, value })?;
        }
        Ok(List::of(macros))
    }
}

/// What was asked so far.
#[derive(Drop)]
struct Asked {
    file: Option<Path>,
    own_only: bool,
    rebuild: bool,
    jobs: Option<u32>,
    macros: Macros,
    goals: Vec<Path>,
}

impl Model for Asked {
    ghost use Rattle.session_text.specs.Clearmake.{Asked};

    ghost Value = { Asked };

    ghost view = { λ s.
        record {
          file = s.file;
          own_only = s.own_only;
          rebuild = s.rebuild;
          jobs = s.jobs;
          macros = s.macros;
          goals = s.goals.items;
        } };
}

impl Asked {
    ghost use Rattle.session_text.specs.Taken.{Takes};

    fn nothing(alloc: Global, hashing: RandomState) -> Asked
        ensures { result ≡ nothing_asked }
    {
        Asked {
            file: None,
            own_only: false,
            rebuild: false,
            jobs: None,
            macros: Macros::none(alloc, hashing),
            goals: Vec::new(alloc),
        }
    }

    fn define(&mut self, alloc: Global, name: &[u8], text: &[u8]) -> Result<(), Or<SessionCause>>
        ensures { Takes result (with_asked_macro self.old name.now text.now) self.new }
    {
        if !is_macro_name(name) || !is_macro_text(text) {
            return Err(Or::Is(SessionCause::BadWord));
        }
        self.macros.define(alloc, name, text)?;
        Ok(())
    }

    fn add_goal(&mut self, alloc: Global, word: &[u8]) -> Result<(), Or<SessionCause>>
        ensures { Takes result (with_word self.old word.now None) self.new }
    {
        let goal = path_word(alloc, word)?;
        self.goals.push(goal)?;
        Ok(())
    }

    /// Takes in a macro or a goal.
    fn add_word(&mut self, alloc: Global, word: &[u8]) -> Result<(), Or<SessionCause>>
        ensures { Takes result (with_word self.old word.now (position is_equals word.now))
            self.new }
    {
        match first_equals(word) {
            Some(place) => self.define(alloc, &word[..place], &word[place + 1..]),
            None => self.add_goal(alloc, word),
        }
    }

    /// Takes in a word that takes no other with it.
    fn add_one(&mut self, alloc: Global, word: &[u8]) -> Result<(), Or<SessionCause>>
        ensures { Takes result (with_one self.old word.now) self.new }
    {
        match word {
            b"-V" => self.own_only = true,
            b"-u" => self.rebuild = true,
            b"-k" => {}
            _ => return self.add_word(alloc, word),
        }
        Ok(())
    }

    fn set_jobs(&mut self, word: &[u8]) -> Result<(), Or<SessionCause>>
        ensures { Takes result (with_jobs self.old word.now) self.new }
    {
        if self.jobs.is_some() {
            return Err(Or::Is(SessionCause::BadWord));
        }
        match jobs_word(word) {
            Ok(jobs) => {
                self.jobs = Some(jobs);
                Ok(())
            }
            Err(cause) => Err(Or::Is(cause)),
        }
    }

    fn set_file(&mut self, alloc: Global, word: &[u8]) -> Result<(), Or<SessionCause>>
        ensures { Takes result (with_file self.old word.now) self.new }
    {
        if self.file.is_some() {
            return Err(Or::Is(SessionCause::BadWord));
        }
        let file = path_word(alloc, word)?;
        self.file = Some(file);
        Ok(())
    }

    /// Takes in an option and the word after it.
    fn add_option(
        &mut self,
        alloc: Global,
        word: &[u8],
        next: &[u8],
    ) -> Result<(), Or<SessionCause>>
        ensures { Takes result (with_option self.old word.now next.now) self.new }
    {
        if word == b"-J".as_slice() {
            return self.set_jobs(next);
        }
        self.set_file(alloc, next)
    }

    /// The build of this view.
    fn build_of(self, alloc: Global, view: Name) -> Result<Clearmake, NoMemory>
        ensures { IfOk result (λ asked. asked ≡ build_of view self) }
    {
        let macros = self.macros.into_list(alloc)?;
        Ok(Clearmake {
            view,
            file: self.file,
            own_only: self.own_only,
            rebuild: self.rebuild,
            jobs: self.jobs.unwrap_or(1),
            macros,
            goals: List::of(self.goals),
        })
    }
}

fn is_option(word: &[u8]) -> bool
    ensures { result ≡ is_option word.now }
{
    matches!(word, b"-J" | b"-f")
}

fn asked_by(
    alloc: Global,
    hashing: RandomState,
    mut words: Words<'_>,
) -> Result<Asked, Or<SessionCause>>
    ensures { Gives result (asked_by words.entry nothing_asked) }
{
    let mut asked = Asked::nothing(alloc, hashing);
    while let Some(word) = words.next() {
        if !is_option(word) {
            asked.add_one(alloc, word)?;
            continue;
        }
        let Some(next) = words.next() else {
            return Err(Or::Is(SessionCause::BadWord));
        };
        asked.add_option(alloc, word, next)?;
    }
    Ok(asked)
}

/// `clearmake V ..`
pub(crate) fn clearmake(
    alloc: Global,
    hashing: RandomState,
    mut words: Words<'_>,
) -> Result<Clearmake, Or<SessionCause>>
    ensures { Gives result (clearmake words.entry) }
{
    let view = read_first_name(alloc, &mut words)?;
    let asked = asked_by(alloc, hashing, words)?;
    Ok(asked.build_of(alloc, view)?)
}
