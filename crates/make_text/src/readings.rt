//! What was read so far of a makefile and the files that it includes.

ghost use Rattle.std.specs.Prelude.{◌≡◌, ◌+◌, IfOk, OnOk, option_copied, reverse, slice_get};
ghost use Rattle.cc_names.specs.Answers.{FaultIs, Gives};
ghost use Rattle.make_grammar.specs.Grammar.{nothing_read};
ghost use Rattle.make_text.specs.MacroEntries.{definition_in};
ghost use Rattle.make_text.specs.Readers.{open_rule};
ghost use Rattle.make_text.specs.RuleLines.{AreSaid};
ghost use Rattle.make_text.specs.ReadingSteps.{LeavesReading, counted_line, counted_file, with_defined, ended_rule, with_special, with_newest_line, rule_line_of_words, with_next_rule};
ghost use Rattle.make_grammar.specs.Statements.{reading_fault, assignment, include_words, macros_of, override, rule_words, with_rule, within_limits};

use crate::expanded_macros::ExpandedMacros;
use crate::line_cache::RuleLine;
use crate::macros::{Defined, MacroTable};
use crate::rule_lines::{macro_fault, read_include_line, read_rule_line};
use crate::special_targets::{has_special_target, is_target_named, plain_targets, put_paths};
use crate::suffixes::Suffixes;
use cc_names::commands::Macro;
use cc_names::lists::List;
use cc_names::memory::{NoMemory, Or};
use cc_names::paths::Path;
use cc_names::refusals::{MakeCause, MakeError};
use cc_names::texts::Text;
use indexmap::IndexSet;
use make_grammar::rule_lines::RuleWords;
use std::alloc::Global;
use std::hash::RandomState;
use std::marker::Model;
use std::rc::Rc;

/// The most logical lines, targets of rule lines and included files.
const LINE_LIMIT: u64 = 100_000;

const TARGET_LIMIT: u64 = 10_000;

const FILE_LIMIT: u64 = 1_000;

/// What was read so far. Contracts see the rule lines with the newest first.
#[derive(Drop)]
pub(crate) struct Reading {
    lines: u64,
    targets: u64,
    files: u64,
    macros: ExpandedMacros,
    suffixes: Suffixes,
    phony: IndexSet<Path, RandomState>,
    rules: Vec<RuleLine>,
    takes_script: bool,
}

impl Model for Reading {
    ghost use Rattle.std.specs.Prelude.{reverse};
    ghost use Rattle.make_grammar.specs.Statements.{Reading};

    ghost Value = { Reading };

    ghost view = { λ r.
        record {
          lines = r.lines;
          targets = r.targets;
          files = r.files;
          macros = r.macros;
          suffixes = r.suffixes;
          phony = r.phony.keys;
          rules = reverse r.rules.items;
          takes_script = r.takes_script;
        } };
}

/// What was read, in its parts, with the oldest rule line first.
#[derive(Drop)]
pub(crate) struct Parts {
    pub(crate) macros: MacroTable,
    pub(crate) suffixes: Suffixes,
    pub(crate) phony: IndexSet<Path, RandomState>,
    pub(crate) lines: Vec<RuleLine>,
}

/// The fault of this cause at a line of a file.
pub(crate) fn reading_fault(
    alloc: Global,
    file: &Path,
    line: u32,
    cause: MakeCause,
) -> Or<MakeError>
    ensures { FaultIs result (reading_fault file.now line cause) }
{
    match file.copy(alloc) {
        Ok(file) => Or::Is(MakeError { file, line, cause }),
        Err(NoMemory) => Or::NoMemory,
    }
}

/// A count with so many more. There is no memory for as many things as pass its range.
fn more(count: u64, by: usize) -> Result<u64, NoMemory>
    ensures { IfOk result (λ sum. sum ≡ count + by) }
{
    match count.checked_add(by as u64) {
        Some(sum) => Ok(sum),
        None => Err(NoMemory),
    }
}

/// The rule line of these words, without a script.
fn rule_line_of_words(
    alloc: Global,
    hashing: RandomState,
    file: &Rc<Path>,
    line: u32,
    words: RuleWords,
) -> Result<RuleLine, NoMemory>
    ensures { IfOk result (λ rule. rule ≡ rule_line_of_words file.now.value line words) }
{
    let RuleWords {
        is_group,
        targets,
        prerequisites,
    } = words;
    let is_special = has_special_target(targets.as_slice());
    let prerequisites = Rc::new(alloc, prerequisites)?;
    let targets = plain_targets(alloc, hashing, is_group, targets)?;
    RuleLine::of(file, line, targets, prerequisites, is_group, is_special)
}

impl Reading {
    /// Nothing read.
    pub(crate) fn new(alloc: Global, hashing: RandomState) -> Result<Reading, NoMemory>
        ensures { IfOk result (λ reading. reading ≡ nothing_read) }
    {
        Ok(Reading {
            lines: 0,
            targets: 0,
            files: 0,
            macros: ExpandedMacros::new(alloc, hashing),
            suffixes: Suffixes::first(alloc, hashing)?,
            phony: IndexSet::with_hasher(alloc, hashing),
            rules: Vec::new(alloc),
            takes_script: false,
        })
    }

    /// The macros.
    pub(crate) fn macros(&self) -> &MacroTable
        ensures { result.now ≡ self.now.macros }
    {
        self.macros.table()
    }

    /// The words of a rule line, by what stands before its `:` and after it; or why it is refused.
    pub(crate) fn rule_words(
        &mut self,
        alloc: Global,
        before: &[u8],
        behind: &[u8],
    ) -> Result<RuleWords, Or<MakeCause>>
        ensures same { self.new ≡ self.old }
        ensures words { Gives result
            (rule_words (macros_of self.old.macros) before.now behind.now) }
    {
        read_rule_line(alloc, &mut self.macros, before, behind)
    }

    /// The paths after `include`, or why the line is refused.
    pub(crate) fn include_words(
        &mut self,
        alloc: Global,
        behind: &[u8],
    ) -> Result<List<Path>, Or<MakeCause>>
        ensures same { self.new ≡ self.old }
        ensures paths { Gives result (include_words (macros_of self.old.macros) behind.now) }
    {
        read_include_line(alloc, &mut self.macros, behind)
    }

    /// The phony targets.
    pub(crate) fn phony(&self) -> &IndexSet<Path, RandomState>
        ensures { result.now.keys ≡ self.now.phony }
    {
        &self.phony
    }

    /// The rule lines, the oldest first.
    pub(crate) fn lines(&self) -> &[RuleLine]
        ensures { result.now ≡ reverse self.now.rules }
    {
        self.rules.as_slice()
    }

    /// Its parts.
    pub(crate) fn into_parts(self) -> Parts
        ensures macros { result.macros ≡ self.macros }
        ensures suffixes { result.suffixes ≡ self.suffixes }
        ensures phony { result.phony.keys ≡ self.phony }
        ensures lines { result.lines.items ≡ reverse self.rules }
    {
        let Reading {
            lines: _,
            targets: _,
            files: _,
            macros,
            suffixes,
            phony,
            rules: lines,
            takes_script: _,
        } = self;
        Parts {
            macros: macros.into_table(),
            suffixes,
            phony,
            lines,
        }
    }

    /// The newest rule line.
    pub(crate) fn newest(&self) -> Option<&RuleLine>
        ensures { option_copied result ≡ slice_get self.now.rules 0 }
    {
        self.rules.last()
    }

    /// The rule line that a script line which comes next belongs to.
    pub(crate) fn open_rule(&self) -> Option<&RuleLine>
        ensures { option_copied result ≡ open_rule self.now.takes_script self.now.rules }
    {
        if self.takes_script {
            self.newest()
        } else {
            None
        }
    }

    /// Counts a logical line.
    pub(crate) fn count_line(&mut self) -> Result<(), NoMemory>
        ensures { OnOk result (self.new ≡ counted_line self.old) }
    {
        self.lines = more(self.lines, 1)?;
        Ok(())
    }

    /// Counts an included file.
    pub(crate) fn count_file(&mut self) -> Result<(), NoMemory>
        ensures { OnOk result (self.new ≡ counted_file self.old) }
    {
        self.files = more(self.files, 1)?;
        Ok(())
    }

    /// Tests that there is no more than there may be.
    pub(crate) fn within_limits(
        &self,
        alloc: Global,
        file: &Path,
        line: u32,
    ) -> Result<(), Or<MakeError>>
        ensures { LeavesReading result self.now (within_limits file.now line self.now) }
    {
        if self.lines > LINE_LIMIT || self.targets > TARGET_LIMIT || self.files > FILE_LIMIT {
            return Err(reading_fault(alloc, file, line, MakeCause::TooMany));
        }
        Ok(())
    }

    /// Ends the rule that takes a script.
    pub(crate) fn end_rule(&mut self)
        ensures { self.new ≡ ended_rule self.old }
    {
        self.takes_script = false;
    }

    /// Defines a macro of this name.
    fn define(&mut self, alloc: Global, name: &[u8], defined: Defined) -> Result<(), NoMemory>
        ensures { OnOk result
            (self.new ≡ with_defined (definition_in (name.now, defined)) self.old) }
    {
        self.macros
            .define(alloc, Text::from_bytes(alloc, name)?, defined)?;
        Ok(())
    }

    /// Reads a line `NAME = VALUE` of a file.
    pub(crate) fn assign(
        &mut self,
        alloc: Global,
        file: &Rc<Path>,
        line: u32,
        name: &[u8],
        value: &[u8],
    ) -> Result<(), Or<MakeError>>
        ensures { LeavesReading result self.new
            (assignment file.now.value line name.now value.now self.old) }
    {
        if let Some(cause) = macro_fault(name, value) {
            return Err(reading_fault(alloc, file, line, cause));
        }
        let defined = Defined::at(alloc, file, line, value, false)?;
        self.define(alloc, name, defined)?;
        self.takes_script = false;
        Ok(())
    }

    /// Takes a macro of the command line, which stands at line 0 of the makefile.
    pub(crate) fn fix(
        &mut self,
        alloc: Global,
        file: &Rc<Path>,
        fixed: &Macro,
    ) -> Result<(), Or<MakeError>>
        ensures { LeavesReading result self.new (override file.now.value self.old fixed.now) }
    {
        let (name, value) = (fixed.name.as_bytes(), fixed.value.as_bytes());
        if let Some(cause) = macro_fault(name, value) {
            return Err(reading_fault(alloc, file, 0, cause));
        }
        let defined = Defined::at(alloc, file, 0, value, true)?;
        self.define(alloc, name, defined)?;
        Ok(())
    }

    /// Takes what the special targets of a rule line say.
    fn take_special(&mut self, alloc: Global, words: &RuleWords) -> Result<(), NoMemory>
        requires { AreSaid words.now }
        ensures { OnOk result (self.new ≡ with_special words.now self.old) }
    {
        let (targets, prerequisites) = (words.targets.as_slice(), words.prerequisites.as_slice());
        if is_target_named(targets, b".SUFFIXES") {
            self.suffixes.take(alloc, prerequisites)?;
        }
        if is_target_named(targets, b".PHONY") {
            put_paths(alloc, &mut self.phony, prerequisites)?;
        }
        Ok(())
    }

    /// Takes a rule line of these words.
    pub(crate) fn add_rule(
        &mut self,
        alloc: Global,
        hashing: RandomState,
        file: &Rc<Path>,
        line: u32,
        words: RuleWords,
    ) -> Result<(), NoMemory>
        requires { AreSaid words }
        ensures { OnOk result (self.new ≡ with_rule file.now.value line words self.old) }
    {
        self.take_special(alloc, &words)?;
        self.put_rule(rule_line_of_words(alloc, hashing, file, line, words)?)
    }

    /// Puts a rule line after the others.
    fn put_rule(&mut self, rule: RuleLine) -> Result<(), NoMemory>
        ensures { OnOk result (self.new ≡ with_next_rule rule self.old) }
    {
        self.targets = more(self.targets, rule.targets().len())?;
        self.rules.push(rule)?;
        self.takes_script = true;
        Ok(())
    }

    /// Puts a line of a script below the newest rule line, without its tab and with its newline.
    pub(crate) fn add_script_line(&mut self, alloc: Global, line: &[u8]) -> Result<(), NoMemory>
        ensures { OnOk result (self.new ≡ with_newest_line line.now self.old) }
    {
        let Some(mut rule) = self.rules.pop() else {
            return Ok(());
        };
        rule.add_script_line(alloc, line)?;
        self.rules.push(rule)?;
        Ok(())
    }
}
