//! A makefile that is being read, and the lines that include no file.

ghost use Rattle.std.specs.Prelude.{◌≡◌, ℕ, List, Err, IfOk, OnOk, Some, true};
ghost use Rattle.cc_names.specs.Answers.{Gives};
ghost use Rattle.make_grammar.specs.Grammar.{nothing_read, with_overrides};
ghost use Rattle.make_grammar.specs.Macros.{is_among};
ghost use Rattle.make_text.specs.ReadingSteps.{LeavesReading, counted_line, counted_file};
ghost use Rattle.make_text.specs.RuleLines.{AreSaid};
ghost use Rattle.make_text.specs.Readers.{KeepsScripted, older_of, open_rule, script_tested, OpensInclude};
ghost use Rattle.make_grammar.specs.Statements.{assignment, override, has_twice, is_scripted, is_second_script, rule_line, script_line, with_rule, within_limits};

use crate::line_cache::RuleLine;
use crate::pieces::has_bad_dollar;
use crate::readings::{Reading, reading_fault};
use crate::special_targets::{has_some, put_paths};
use crate::words::is_blank_line;
use cc_names::commands::Macro;
use cc_names::lists::List;
use cc_names::memory::{NoMemory, Or};
use cc_names::paths::Path;
use cc_names::refusals::{MakeCause, MakeError};
use indexmap::IndexSet;
use make_grammar::rule_lines::RuleWords;
use std::alloc::Global;
use std::hash::RandomState;
use std::marker::Model;
use std::rc::Rc;

/// A makefile that is being read. Contracts see it as what was read. Calls take it and give it by value: after a fault or want
/// of memory there is none, since the targets that have scripts need not be those of what was read then.
#[derive(Drop)]
pub(crate) struct Reader {
    reading: Reading,
    /// The targets that have a script of a rule line older than the newest.
    scripted: IndexSet<Path, RandomState>,
    hashing: RandomState,
}

impl Model for Reader {
    ghost use Rattle.make_grammar.specs.Statements.{Reading};
    ghost use Rattle.make_text.specs.Readers.{KeepsScripted};

    ghost Value = { Reading };

    ghost view = { λ r. r.reading };

    ghost invariant = { λ r. KeepsScripted r.scripted.keys r.reading.rules };
}

/// Whether a path is twice among these. Takes time linear in them.
fn has_twice(alloc: Global, hashing: RandomState, paths: &[Path]) -> Result<bool, NoMemory>
    ensures { IfOk result (λ twice. twice ≡ has_twice paths.now) }
{
    let mut seen = IndexSet::with_hasher(alloc, hashing);
    for path in paths {
        if seen.contains(path) {
            return Ok(true);
        }
        seen.insert(path.copy(alloc)?)?;
    }
    Ok(false)
}

/// Puts the targets of the newest rule line among those that have scripts, if it has one.
fn set_aside(
    alloc: Global,
    scripted: &mut IndexSet<Path, RandomState>,
    reading: &Reading,
) -> Result<(), NoMemory>
    requires { KeepsScripted scripted.old.keys reading.now.rules }
    ensures { OnOk result
        ((target : List ℕ)
        → is_among scripted.new.keys target ≡ is_scripted reading.now.rules target) }
{
    match reading.newest() {
        Some(rule) if rule.has_script() => put_paths(alloc, scripted, rule.targets()),
        _ => Ok(()),
    }
}

impl Reader {
    /// A makefile of which nothing was read.
    pub(crate) fn new(alloc: Global, hashing: RandomState) -> Result<Reader, NoMemory>
        ensures { IfOk result (λ reader. reader ≡ nothing_read) }
    {
        Ok(Reader {
            reading: Reading::new(alloc, hashing)?,
            scripted: IndexSet::with_hasher(alloc, hashing),
            hashing,
        })
    }

    /// Takes a macro of the command line.
    fn fix(mut self, alloc: Global, file: &Rc<Path>, fixed: &Macro) -> Result<Reader, Or<MakeError>>
        ensures { Gives result (override file.now.value self fixed.now) }
    {
        match self.reading.fix(alloc, file, fixed) {
            Ok(()) => Ok(self),
            Err(fault) => Err(fault),
        }
    }

    /// Takes the macros of the command line.
    pub(crate) fn fix_all(
        self,
        alloc: Global,
        file: &Rc<Path>,
        overrides: &[Macro],
    ) -> Result<Reader, Or<MakeError>>
        ensures { Gives result (with_overrides file.now.value overrides.now self) }
    {
        let mut reader = self;
        for fixed in overrides {
            reader = match reader.fix(alloc, file, fixed) {
                Ok(reader) => reader,
                Err(fault) => return Err(fault),
            };
        }
        Ok(reader)
    }

    /// Ends the reading by a fault.
    pub(crate) fn refuse(self, fault: Or<MakeError>) -> Result<Reader, Or<MakeError>>
        ensures { result ≡ Err fault }
    {
        Err(fault)
    }

    /// What was read.
    pub(crate) fn into_reading(self) -> Reading
        ensures { result ≡ self }
    {
        let Reader {
            reading,
            scripted: _scripted,
            hashing: _,
        } = self;
        reading
    }

    /// Counts a logical line.
    pub(crate) fn count_line(mut self) -> Result<Reader, NoMemory>
        ensures { IfOk result (λ reader. reader ≡ counted_line self) }
    {
        self.reading.count_line()?;
        Ok(self)
    }

    /// Reads a line `NAME = VALUE`.
    pub(crate) fn assign(
        mut self,
        alloc: Global,
        file: &Rc<Path>,
        line: u32,
        name: &[u8],
        value: &[u8],
    ) -> Result<Reader, Or<MakeError>>
        ensures { Gives result (assignment file.now.value line name.now value.now self) }
    {
        match self.reading.assign(alloc, file, line, name, value) {
            Ok(()) => Ok(self),
            Err(fault) => Err(fault),
        }
    }

    /// Takes a rule line of these words.
    fn add_rule(
        self,
        alloc: Global,
        file: &Rc<Path>,
        line: u32,
        words: RuleWords,
    ) -> Result<Reader, NoMemory>
        requires { AreSaid words }
        ensures { IfOk result (λ reader. reader ≡ with_rule file.now.value line words self) }
    {
        let Reader {
            mut reading,
            mut scripted,
            hashing,
        } = self;
        set_aside(alloc, &mut scripted, &reading)?;
        reading.add_rule(alloc, hashing, file, line, words)?;
        Ok(Reader {
            reading,
            scripted,
            hashing,
        })
    }

    /// Reads a line `TARGET .. : PREREQUISITE ..`.
    pub(crate) fn rule_line(
        mut self,
        alloc: Global,
        file: &Rc<Path>,
        line: u32,
        before: &[u8],
        behind: &[u8],
    ) -> Result<Reader, Or<MakeError>>
        ensures { Gives result (rule_line file.now.value line before.now behind.now self) }
    {
        match self.reading.rule_words(alloc, before, behind) {
            Ok(words) => Ok(self.add_rule(alloc, file, line, words)?),
            Err(Or::Is(cause)) => Err(reading_fault(alloc, file, line, cause)),
            Err(Or::NoMemory) => Err(Or::NoMemory),
        }
    }

    /// Whether a script of the newest rule line is the second one of a target. One that is there already is not.
    fn is_second_script(&self, alloc: Global, rule: &RuleLine) -> Result<bool, NoMemory>
        requires { open_rule true self.now.rules ≡ Some rule.now }
        ensures { IfOk result
            (λ second. second ≡ is_second_script rule.now (older_of self.now.rules)) }
    {
        let scripted = &self.scripted;
        if rule.has_script() {
            return Ok(false);
        }
        let targets = rule.targets();
        Ok(has_twice(alloc, self.hashing, targets)? || has_some(scripted, targets))
    }

    /// Tests a line of the script of the newest rule line.
    fn test_script_line(
        &self,
        alloc: Global,
        file: &Path,
        line: u32,
        rule: &RuleLine,
        bytes: &[u8],
    ) -> Result<(), Or<MakeError>>
        requires { open_rule true self.now.rules ≡ Some rule.now }
        ensures { LeavesReading result self.now
            (script_tested file.now line bytes.now rule.now (older_of self.now.rules) self.now) }
    {
        if self.is_second_script(alloc, rule)? {
            let (file, line) = rule.place();
            return Err(reading_fault(alloc, file, line, MakeCause::TwoScripts));
        }
        if rule.is_special() {
            return Err(reading_fault(alloc, file, line, MakeCause::BadLine));
        }
        if has_bad_dollar(bytes) {
            return Err(reading_fault(alloc, file, line, MakeCause::BadMacro));
        }
        Ok(())
    }

    /// Reads a line after a tab.
    pub(crate) fn script_line(
        mut self,
        alloc: Global,
        file: &Path,
        line: u32,
        bytes: &[u8],
    ) -> Result<Reader, Or<MakeError>>
        ensures { Gives result
            (script_line file.now line bytes.now self.takes_script self.rules self) }
    {
        let Some(rule) = self.reading.open_rule() else {
            return Err(reading_fault(alloc, file, line, MakeCause::BadLine));
        };
        if is_blank_line(bytes) {
            return Ok(self);
        }
        match self.test_script_line(alloc, file, line, rule, bytes) {
            Ok(()) => {
                self.reading.add_script_line(alloc, bytes)?;
                Ok(self)
            }
            Err(fault) => Err(fault),
        }
    }

    /// Tests that there is no more than there may be.
    pub(crate) fn within_limits(
        self,
        alloc: Global,
        file: &Path,
        line: u32,
    ) -> Result<Reader, Or<MakeError>>
        ensures { Gives result (within_limits file.now line self) }
    {
        match self.reading.within_limits(alloc, file, line) {
            Ok(()) => Ok(self),
            Err(fault) => Err(fault),
        }
    }

    /// Counts a file that a line includes.
    pub(crate) fn open_file(
        mut self,
        alloc: Global,
        file: &Path,
        line: u32,
    ) -> Result<Reader, Or<MakeError>>
        ensures { Gives result (within_limits file.now line (counted_file self)) }
    {
        self.reading.count_file()?;
        self.within_limits(alloc, file, line)
    }

    /// The paths of an include line, which ends the rule above it, once the counts were tested.
    pub(crate) fn open_include(
        mut self,
        alloc: Global,
        file: &Path,
        line: u32,
        behind: &[u8],
    ) -> Result<(Reader, List<Path>), Or<MakeError>>
        ensures { OpensInclude file.now line behind.now self result }
    {
        match self.reading.include_words(alloc, behind) {
            Ok(paths) => {
                self.reading.end_rule();
                match self.within_limits(alloc, file, line) {
                    Ok(reader) => Ok((reader, paths)),
                    Err(fault) => Err(fault),
                }
            }
            Err(Or::Is(cause)) => Err(reading_fault(alloc, file, line, cause)),
            Err(Or::NoMemory) => Err(Or::NoMemory),
        }
    }
}
