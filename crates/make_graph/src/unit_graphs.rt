//! The graph of a build over any makefile.

ghost use Rattle.std.specs.Prelude.{◌≡◌, ◌<◌, ◌^◌, ℕ, IfOk, Some, length};
ghost use Rattle.std.specs.List.{list_all};
ghost use Rattle.cc_names.specs.Answers.{Gives};
ghost use Rattle.make_grammar.specs.Graphs.{graph_of};
ghost use Rattle.make_grammar.specs.Numbers.{number_from};
ghost use Rattle.make_grammar.specs.UnitLaws.{made_by_unit};
ghost use Rattle.make_graph.specs.Waits.{closure_of, dependants_of, is_done, is_in, is_marked, is_ready, makers_of, prerequisites_at};

use crate::cached_closures::cached_closures;
use crate::closures::{Closure, of_unit};
use crate::dependants::{Dependants, all_dependants};
use crate::goals::Exists;
use crate::makers::all_makers;
use crate::number_sets::NumberSet;
use crate::numbers::{Numbers, number, number_all};
use crate::units::units_of_build;
use cc_names::lists::List;
use cc_names::memory::{NoMemory, Or};
use cc_names::paths::Path;
use cc_names::refusals::GraphFault;
use cc_names::units::Unit;
use make_text::contents::Makefile;
use std::alloc::Global;
use std::hash::RandomState;
use std::marker::Model;

/// The units of a build, prerequisites first, each found by any of its targets. Contracts see it as the list of them.
#[derive(Drop)]
pub struct Graph {
    units: Vec<Unit>,
    numbers: Numbers,
    makers: Vec<List<u32>>,
    dependants: Vec<Dependants>,
    /// The closures of the units, or of the first of them where there are too many.
    closures: Vec<NumberSet>,
}

impl Model for Graph {
    ghost use Rattle.std.specs.Prelude.{List};
    ghost use Rattle.cc_names.specs.declared.units.Unit.{Unit};
    ghost use Rattle.make_graph.specs.UnitNumbers.{KnowsAll};

    ghost Value = { List Unit };

    ghost view = { λ graph. graph.units.items };

    ghost invariant = { λ graph.
        KnowsAll graph.numbers graph.units.items graph.makers.items
        graph.dependants.items graph.closures.items };
}

/// The most units of a graph.
const UNIT_LIMIT: usize = 0x7fff_ffff;

/// The graph of these units. There is no memory for 2^31 of them.
fn with_numbers(alloc: Global, hashing: RandomState, units: Vec<Unit>) -> Result<Graph, NoMemory>
    ensures { IfOk result (λ graph. graph ≡ units.items) }
{
    if units.len() > UNIT_LIMIT {
        return Err(NoMemory);
    }
    let numbers = number_all(alloc, hashing, units.as_slice())?;
    let makers = all_makers(alloc, &numbers, units.as_slice())?;
    let dependants = all_dependants(alloc, units.as_slice(), makers.as_slice())?;
    let closures = cached_closures(alloc, units.as_slice(), makers.as_slice())?;
    Ok(Graph {
        units,
        numbers,
        makers,
        dependants,
        closures,
    })
}

/// Whether the unit of this number, if there is one, is done.
fn is_done(number: u32, done: &[bool]) -> bool
    ensures { result ≡ is_done done.now (Some number) }
{
    done.get(number as usize).copied().unwrap_or(true)
}

/// Whether the units of these numbers are done.
fn are_units_done(numbers: &[u32], done: &[bool]) -> bool
    ensures { result ≡ list_all (λ number. is_done done.now (Some number)) numbers.now }
{
    for number in numbers {
        if !is_done(*number, done) {
            return false;
        }
    }
    true
}

impl Graph {
    /// The units of a build of these goals, or the fault in their place: the first goal that is neither a unit nor a file,
    /// with the root where no goal is named and no default exists (G1); then the path by which a unit on the walk over the
    /// goals is met again (G2); then the first target of a unit with a script that is a file (G3). Fails also where memory
    /// runs out.
    ///
    /// Takes time linear in the rules, the goals and the bytes of the units, and in the suffix rules for the suffix of each path
    /// without a script; asks `files` about each goal, each target of a unit with a script, and each source that a suffix rule
    /// may have.
    pub fn of<E: Exists>(
        alloc: Global,
        hashing: RandomState,
        make: &Makefile,
        goals: &[Path],
        files: &E,
    ) -> Result<Graph, Or<GraphFault>>
        ensures { Gives result (graph_of make.now goals.now (E.is_file files.now)) }
    {
        let units = units_of_build(alloc, hashing, make, goals, files)?;
        Ok(with_numbers(alloc, hashing, units)?)
    }

    /// The units, in order, in constant time.
    pub fn units(&self) -> &[Unit]
        ensures units { result.now ≡ self.now }
        ensures few { length result.now < 2 ^ 31 }
    {
        self.units.as_slice()
    }

    /// The number of the unit that makes a path, if one does, in constant time.
    pub fn unit_of(&self, path: &Path) -> Option<u32>
        ensures { result ≡ number_from made_by_unit 0 path.now self.now }
    {
        number(&self.numbers, path)
    }

    /// The units that make a unit's prerequisites, by their numbers, in the order of these, in constant time.
    pub fn makers(&self, unit: u32) -> &[u32]
        requires { unit < length self.now }
        ensures { result.now ≡ makers_of self.now (prerequisites_at self.now unit) }
    {
        self.makers[unit as usize].as_slice()
    }

    /// The units one of whose prerequisites a unit makes, by their numbers, in order and each once, in constant time.
    pub fn dependants(&self, unit: u32) -> &[u32]
        requires { unit < length self.now }
        ensures { result.now ≡ dependants_of self.now unit }
    {
        self.dependants[unit as usize].as_slice()
    }

    /// The units that a unit stands on: those that make its prerequisites, and those that these stand on. Fails only where
    /// memory runs out.
    ///
    /// Takes memory and time linear in the units before it, 64 of them at once. Of a unit after the first 16,384 it takes time
    /// linear in the prerequisites of the units that it stands on too.
    pub fn closure(&self, alloc: Global, unit: u32) -> Result<Closure, NoMemory>
        requires { unit < length self.now }
        ensures { IfOk result
            (λ closure. (n : ℕ) → is_marked closure n ≡ is_in (closure_of self.now unit) n) }
    {
        match self.closures.get(unit as usize) {
            Some(marks) => Closure::cached_copy(alloc, marks),
            None => of_unit(self, alloc, unit),
        }
    }

    /// Whether the units that make a unit's prerequisites are done; `done` has a member for each unit. Takes time linear in
    /// the prerequisites that units make.
    pub fn ready(&self, unit: u32, done: &[bool]) -> bool
        requires unit { unit < length self.now }
        requires done { length done.now ≡ length self.now }
        ensures { result ≡ is_ready self.now unit done.now }
    {
        are_units_done(self.makers(unit), done)
    }
}
