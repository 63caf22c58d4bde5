//! What is tested of each macro after the last line: whether its expansion is too long, or meets itself.

ghost use Rattle.std.specs.Prelude.{◌≡◌, ◌<◌, ◌-◌, [], IfOk, length};
ghost use Rattle.make_grammar.specs.Grammar.{macros_fault};
ghost use Rattle.make_text.specs.MacroChecks.{AtEndUnless, RunsTo, FindsFault, macro_fault_of};
ghost use Rattle.make_grammar.specs.Macros.{Expansion};
ghost use Rattle.make_text.specs.Runs.{HasNamesApart, macro_at};
ghost use Rattle.make_grammar.specs.Statements.{macros_of, expansion_fault};
ghost use Rattle.make_text.specs.Steps.{automatic_of, IsAtEnd, IsExpanding, IsSomeRun};

use crate::expansions::{Automatic, EXPANSION_LIMIT, Expanding, Step};
use crate::macros::MacroTable;
use crate::readings::reading_fault;
use cc_names::memory::{NoMemory, Or};
use cc_names::refusals::{MakeCause, MakeError};
use std::alloc::Global;

/// The most bytes of results after which they are forgotten, so that memory stays bounded; no result is longer than a line.
pub(crate) const RESULTS_LIMIT: usize = 16_777_216;

/// The fault of an expansion of so many bytes, which a loop may have ended.
fn fault_of_expansion(len: usize, loops: bool) -> Option<MakeCause>
    ensures { (total : Expansion)
        → length total.bytes ≡ len
        → total.loops ≡ loops
        → result ≡ expansion_fault total }
{
    if len > EXPANSION_LIMIT {
        return Some(MakeCause::LineTooLong);
    }
    if loops {
        Some(MakeCause::MacroLoop)
    } else {
        None
    }
}

impl<'a> Expanding<'a> {
    /// Goes on to the end of a macro, which was begun after so many bytes, and tells its fault.
    fn run(
        &mut self,
        alloc: Global,
        macros: &'a MacroTable,
        automatic: &Automatic<'a>,
        start: usize,
    ) -> Result<Option<MakeCause>, NoMemory>
        requires apart { HasNamesApart (macros_of macros.now) }
        requires runs { IsSomeRun (macros_of macros.now) (automatic_of automatic.now) self.old }
        ensures { IfOk result
            (λ cause.
            (total : Expansion)
            → IsExpanding (macros_of macros.now) (automatic_of automatic.now) total [] self.old
            → RunsTo (macros_of macros.now) (automatic_of automatic.now) total start cause
            self.new) }
    {
        'steps: loop {
            match self.step(alloc, macros, automatic)? {
                Step::Goes => {}
                Step::Ends => return Ok(fault_of_expansion(self.written_behind(start), false)),
                Step::Loops => return Ok(fault_of_expansion(self.written_behind(start), true)),
            }
            if self.written_behind(start) > EXPANSION_LIMIT {
                return Ok(Some(MakeCause::LineTooLong));
            }
        }
    }

    /// Tells the fault of the macro at an index, by its name: a reference to it is expanded after what was written, unless
    /// its result is known. Takes time linear in the values of the macros that were not expanded yet, and in what it then
    /// expands to; constant time where the result is known.
    fn test(
        &mut self,
        alloc: Global,
        macros: &'a MacroTable,
        automatic: &Automatic<'a>,
        index: usize,
        name: &[u8],
    ) -> Result<Option<MakeCause>, NoMemory>
        requires within { index < length (macros_of macros.now) }
        requires named { (macro_at (macros_of macros.now) index).name ≡ name.now }
        requires apart { HasNamesApart (macros_of macros.now) }
        requires ended { IsAtEnd (macros_of macros.now) (automatic_of automatic.now) self.old }
        ensures fault { IfOk result
            (λ cause.
            cause
            ≡ macro_fault_of (macros_of macros.now) (automatic_of automatic.now) name.now) }
        ensures ended { IfOk result
            (λ cause.
            AtEndUnless (macros_of macros.now) (automatic_of automatic.now) cause self.new) }
    {
        if let Some(len) = self.known_len(index) {
            return Ok(fault_of_expansion(len, false));
        }
        let start = self.written.len();
        match self.refer(alloc, macros, name)? {
            Step::Loops => Ok(fault_of_expansion(self.written_behind(start), true)),
            _ => self.run(alloc, macros, automatic, start),
        }
    }
}

/// An expansion at its end, without its results where they are too many.
fn without_many_results<'a>(
    alloc: Global,
    macros: &'a MacroTable,
    automatic: &Automatic<'a>,
    expanding: Expanding<'a>,
) -> Expanding<'a>
    requires { IsAtEnd (macros_of macros.now) (automatic_of automatic.now) expanding }
    ensures { IsAtEnd (macros_of macros.now) (automatic_of automatic.now) result }
{
    if expanding.written.len() <= RESULTS_LIMIT {
        return expanding;
    }
    new_expansion(alloc, macros, automatic)
}

/// An expansion at its end, of which nothing was done.
fn new_expansion<'a>(
    alloc: Global,
    macros: &'a MacroTable,
    _automatic: &Automatic<'a>,
) -> Expanding<'a>
    ensures { IsAtEnd (macros_of macros.now) (automatic_of _automatic.now) result }
{
    Expanding::of(alloc, macros.len(), &[])
}

/// Tests each macro, in the order of first definition. Takes time linear in their values and in what they expand to.
pub(crate) fn test_macros(alloc: Global, macros: &MacroTable) -> Result<(), Or<MakeError>>
    ensures { FindsFault result (macros_fault (macros_of macros.now) macros.now) }
{
    let automatic = Automatic {
        target: &[],
        first: None,
        stem: &[],
    };
    let mut expanding = new_expansion(alloc, macros, &automatic);
    for index in 0..macros.len() {
        expanding = without_many_results(alloc, macros, &automatic, expanding);
        let (name, file, line) = macros.definition(index);
        if let Some(cause) = expanding.test(alloc, macros, &automatic, index, name)? {
            return Err(reading_fault(alloc, file, line, cause));
        }
    }
    Ok(())
}
