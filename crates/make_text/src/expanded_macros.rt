//! The macros of a makefile that is being read, with what those expand to that lines refer to.

ghost use Rattle.std.specs.Prelude.{◌≡◌, ◌≤◌, IfOk, OnOk, [], drop, false, length, true};
ghost use Rattle.make_text.specs.MacroEntries.{definition_in};
ghost use Rattle.make_text.specs.Runs.{AreResults, HasNamesApart};
ghost use Rattle.make_text.specs.Steps.{IsExpandedText};
ghost use Rattle.make_grammar.specs.Statements.{expanded_by, macros_of, with_definition};

use crate::expansions::{
    Automatic, EXPANSION_LIMIT, ExpandedText, Expanding, Step, plain_outcome, unless_too_long,
};
use crate::macro_checks::RESULTS_LIMIT;
use crate::macros::{Defined, MacroTable};
use crate::pieces::first_dollar;
use crate::states::States;
use cc_names::memory::NoMemory;
use cc_names::texts::Text;
use std::alloc::Global;
use std::hash::RandomState;
use std::marker::Model;
use std::mem;

/// What is known of macros outside scripts: the results of those whose expansion came to an end stand in what was written.
#[derive(Drop)]
pub(crate) struct Results {
    states: States,
    written: Vec<u8>,
}

/// The macros of a makefile that is being read. Contracts see them as their list; in memory there are also the results of
/// those that lines referred to since one was last defined, so that none is expanded anew for each line.
#[derive(Drop)]
pub(crate) struct ExpandedMacros {
    table: MacroTable,
    results: Results,
}

impl Model for ExpandedMacros {
    ghost use Rattle.std.specs.Prelude.{List};
    ghost use Rattle.make_grammar.specs.Statements.{Definition, macros_of};
    ghost use Rattle.make_text.specs.Runs.{AreResults};

    ghost Value = { List Definition };

    ghost view = { λ macros. macros.table };

    ghost invariant = { λ macros.
        AreResults (macros_of macros.table) macros.results.written.items macros.results.states };
}

/// What a text expands to, and what is known of macros then.
#[derive(Drop)]
struct Ran {
    outcome: ExpandedText,
    results: Results,
}

/// No results. Takes no memory.
fn no_results(alloc: Global, macros: &MacroTable) -> Results
    ensures results { AreResults (macros_of macros.now) result.written.items result.states }
    ensures apart { HasNamesApart (macros_of macros.now) }
{
    let count = macros.len();
    let states = States::none_touched(alloc, count);
    let written = Vec::new(alloc);
    Results { states, written }
}

/// Takes results out, unless they are too much; then there are none.
fn take_results(alloc: Global, macros: &MacroTable, results: &mut Results) -> Results
    requires { AreResults (macros_of macros.now) results.old.written.items results.old.states }
    ensures taken { AreResults (macros_of macros.now) result.written.items result.states }
    ensures left { AreResults (macros_of macros.now) results.new.written.items
        results.new.states }
    ensures apart { HasNamesApart (macros_of macros.now) }
{
    let taken = mem::replace(results, no_results(alloc, macros));
    if taken.written.len() > RESULTS_LIMIT {
        return no_results(alloc, macros);
    }
    taken
}

/// What was written after so many bytes, unless it is too much; a loop may have ended it.
fn outcome_behind(
    alloc: Global,
    written: &[u8],
    start: usize,
    loops: bool,
) -> Result<ExpandedText, NoMemory>
    requires { start ≤ length written.now }
    ensures { IfOk result
        (λ outcome.
        IsExpandedText (record { bytes = drop start written.now; loops = loops }) outcome) }
{
    let part = Vec::from_slice(alloc, &written[start..])?;
    Ok(unless_too_long(part, loops))
}

/// An outcome after which no results are known.
fn outcome_without_results(alloc: Global, macros: &MacroTable, outcome: ExpandedText) -> Ran
    ensures outcome { result.outcome ≡ outcome }
    ensures results { AreResults (macros_of macros.now) result.results.written.items
        result.results.states }
{
    Ran {
        outcome,
        results: no_results(alloc, macros),
    }
}

/// The outcome of an expansion that came to its end, by what was written after so many bytes, and what is known then.
fn expansion_ended(alloc: Global, expanding: Expanding<'_>, start: usize) -> Result<Ran, NoMemory>
    requires { start ≤ length expanding.written.items }
    ensures outcome { IfOk result
        (λ ran.
        IsExpandedText
        (record { bytes = drop start expanding.entry.written.items; loops = false }) ran.outcome) }
    ensures results { IfOk result
        (λ ran.
        ran.results
        ≡ record { states = expanding.entry.states; written = expanding.entry.written }) }
{
    let outcome = outcome_behind(alloc, expanding.written.as_slice(), start, false)?;
    let (states, written) = expanding.into_parts();
    let results = Results { states, written };
    Ok(Ran { outcome, results })
}

/// The outcome of an expansion that met a loop, by what was written after so many bytes.
fn expansion_looped(
    alloc: Global,
    macros: &MacroTable,
    written: &[u8],
    start: usize,
) -> Result<Ran, NoMemory>
    requires { start ≤ length written.now }
    ensures outcome { IfOk result
        (λ ran.
        IsExpandedText (record { bytes = drop start written.now; loops = true }) ran.outcome) }
    ensures results { IfOk result
        (λ ran.
        AreResults (macros_of macros.now) ran.results.written.items ran.results.states) }
{
    let outcome = outcome_behind(alloc, written, start, true)?;
    Ok(outcome_without_results(alloc, macros, outcome))
}

/// Expands a text outside scripts after the results that are known.
fn run_behind<'a>(
    alloc: Global,
    macros: &'a MacroTable,
    results: Results,
    text: &'a [u8],
) -> Result<Ran, NoMemory>
    requires apart { HasNamesApart (macros_of macros.now) }
    requires results { AreResults (macros_of macros.now) results.written.items results.states }
    ensures outcome { IfOk result
        (λ ran. IsExpandedText (expanded_by (macros_of macros.now) text.now) ran.outcome) }
    ensures results { IfOk result
        (λ ran.
        AreResults (macros_of macros.now) ran.results.written.items ran.results.states) }
{
    let automatic = Automatic {
        target: &[],
        first: None,
        stem: &[],
    };
    let Results { states, written } = results;
    let start = written.len();
    let mut expanding = Expanding::behind(alloc, states, written, text);
    'steps: loop {
        match expanding.step(alloc, macros, &automatic)? {
            Step::Goes => {}
            Step::Ends => return expansion_ended(alloc, expanding, start),
            Step::Loops => return expansion_looped(
                alloc,
                macros,
                expanding.written.as_slice(),
                start,
            ),
        }
        if expanding.written_behind(start) > EXPANSION_LIMIT {
            return Ok(outcome_without_results(alloc, macros, ExpandedText::TooLong));
        }
    }
}

impl ExpandedMacros {
    /// No macros. Takes no memory.
    pub(crate) fn new(alloc: Global, hashing: RandomState) -> ExpandedMacros
        ensures { result ≡ [] }
    {
        let table = MacroTable::new(alloc, hashing);
        let results = no_results(alloc, &table);
        ExpandedMacros { table, results }
    }

    /// The macros by their names.
    pub(crate) fn table(&self) -> &MacroTable
        ensures { result.now ≡ self.now }
    {
        &self.table
    }

    /// The macros alone.
    pub(crate) fn into_table(self) -> MacroTable
        ensures { result ≡ self }
    {
        let ExpandedMacros {
            table,
            results: _results,
        } = self;
        table
    }

    /// Defines a macro, as `MacroTable::define`. Then no results are known.
    pub(crate) fn define(
        &mut self,
        alloc: Global,
        name: Text,
        defined: Defined,
    ) -> Result<(), NoMemory>
        ensures { OnOk result
            (self.new ≡ with_definition (definition_in (name, defined)) self.old) }
    {
        let done = self.table.define(name, defined);
        self.results = no_results(alloc, &self.table);
        done
    }

    /// Expands a text outside scripts. Takes time linear in the text, in the values of the macros that it is the first to
    /// reach since one was last defined, and in what it expands to, up to the most bytes of a line, times a logarithm for
    /// each reference; and memory for as many bytes, and for one state for each of these macros.
    pub(crate) fn expand(&mut self, alloc: Global, text: &[u8]) -> Result<ExpandedText, NoMemory>
        ensures same { self.new ≡ self.old }
        ensures outcome { IfOk result
            (λ outcome. IsExpandedText (expanded_by (macros_of self.old) text.now) outcome) }
    {
        if first_dollar(text).is_none() {
            return plain_outcome(alloc, text);
        }
        let results = take_results(alloc, &self.table, &mut self.results);
        let Ran { outcome, results } = run_behind(alloc, &self.table, results, text)?;
        self.results = results;
        Ok(outcome)
    }
}
