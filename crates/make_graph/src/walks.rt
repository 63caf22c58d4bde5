//! The walk over the goals of a build, which keeps its own stack.

ghost use Rattle.std.specs.Prelude.{◌≡◌, ◌≤◌, ◌+◌, ◌<◌, ◌++◌, [], ◌∷◌, ℕ, OnOk, IfOk, IfSome, ◌^◌, length, slice_get, slice_set, option_copied, suc, replicate, Ok};
ghost use Rattle.cc_names.specs.Answers.{Gives};
ghost use Rattle.make_grammar.specs.Walks.{number_of, prerequisites_at, with_done_unit, take_path, walk_of};
ghost use Rattle.make_grammar.specs.declared.walks.Mark.TheVariants.{New};
ghost use Rattle.make_graph.specs.Visits.{KnowsUnits, meeting, visit_of_unit, past_next, next_of, resume, WalkGoes, news};

use crate::numbers::{Numbers, number};
use crate::serving::Serving;
use cc_names::lists::List;
use cc_names::memory::{NoMemory, Or};
use cc_names::paths::Path;
use make_grammar::walks::Mark;
use std::alloc::Global;
use std::hash::RandomState;
use std::marker::Model;

/// How far a walk has come: with each unit, and the order of those that are done.
#[derive(Drop)]
pub(crate) struct Walk {
    marks: Vec<Mark>,
    order: Vec<u32>,
}

impl Model for Walk {
    ghost use Rattle.make_grammar.specs.Walks.{Walk};

    ghost Value = { Walk };

    ghost view = { λ walk. record { marks = walk.marks.items; order = walk.order.items } };
}

/// A unit that is open, its prerequisites, and the number of the one that comes next.
#[derive(Drop)]
pub(crate) struct Visit {
    unit: u32,
    paths: List<Path>,
    next: usize,
}

/// What a walk does about a path.
#[derive(Clone, Copy, Drop)]
pub(crate) enum Meeting {
    /// No unit makes it, or one that is done.
    Past,
    /// Its unit is open.
    Again,
    /// Its unit, of this number, is new.
    Enter(u32),
}

/// What a walk does about a path, in constant time.
fn meet(walk: &Walk, numbers: &Numbers, units: &[Serving], path: &Path) -> Meeting
    requires { KnowsUnits numbers.now units.now }
    ensures { result ≡ meeting walk.now.marks (number_of units.now path.now) }
{
    let _units = units;
    let Some(number) = number(numbers, path) else {
        return Meeting::Past;
    };
    match walk.marks.as_slice().get(number as usize) {
        None | Some(Mark::Done) => Meeting::Past,
        Some(Mark::Open) => Meeting::Again,
        Some(Mark::New) => Meeting::Enter(number),
    }
}

/// The prerequisites of a unit, if there is one.
fn prerequisites(
    alloc: Global,
    hashing: RandomState,
    units: &[Serving],
    number: u32,
) -> Result<List<Path>, NoMemory>
    ensures { IfOk result (λ paths. paths ≡ prerequisites_at (slice_get units.now number)) }
{
    match units.get(number as usize) {
        Some(unit) => Ok(unit.prerequisites(alloc, hashing)?),
        None => Ok(List::empty(alloc)),
    }
}

/// A unit that is entered.
fn visit_of_unit(
    alloc: Global,
    hashing: RandomState,
    units: &[Serving],
    unit: u32,
) -> Result<Visit, NoMemory>
    ensures { IfOk result (λ visit. visit ≡ visit_of_unit units.now unit) }
{
    Ok(Visit {
        unit,
        paths: prerequisites(alloc, hashing, units, unit)?,
        next: 0,
    })
}

/// The prerequisite that comes next.
fn next_path(visit: &Visit) -> Option<&Path>
    ensures path { option_copied result ≡ next_of visit.now }
    ensures within { IfSome result (λ _. visit.now.next < 2 ^ 63) }
{
    visit.paths.as_slice().get(visit.next)
}

/// A visit whose next prerequisite is past.
fn past_next(visit: Visit) -> Visit
    requires { visit.next < 2 ^ 63 }
    ensures { result ≡ past_next visit }
{
    let Visit { unit, paths, next } = visit;
    Visit {
        unit,
        paths,
        next: next + 1,
    }
}

impl Walk {
    /// Marks a unit.
    fn mark(&mut self, unit: u32, mark: Mark)
        ensures { self.new
            ≡ record { marks = slice_set self.old.marks unit mark; order = self.old.order } }
    {
        if (unit as usize) < self.marks.len() {
            self.marks[unit as usize] = mark;
        }
    }

    /// Is done with a unit.
    fn close(&mut self, unit: u32) -> Result<(), NoMemory>
        ensures { OnOk result (self.new ≡ with_done_unit unit self.old) }
    {
        self.order.push(unit)?;
        self.mark(unit, Mark::Done);
        Ok(())
    }
}

/// Takes the next prerequisite of the unit at the top of the stack, or closes the unit.
fn advance(
    alloc: Global,
    hashing: RandomState,
    units: &[Serving],
    numbers: &Numbers,
    walk: &mut Walk,
    stack: &mut Vec<Visit>,
    top: Visit,
) -> Result<(), Or<Path>>
    requires known { KnowsUnits numbers.now units.now }
    requires room { length stack.old.items + 1 + news walk.old.marks ≤ length units.now }
    ensures goes { WalkGoes result (resume units.now 0 (stack.old.items ++ top ∷ []) walk.old)
        (resume units.now 0 stack.new.items walk.new) }
    ensures room { OnOk result (length stack.new.items + news walk.new.marks ≤ length units.now) }
    ensures size { OnOk result (length walk.new.marks ≡ length walk.old.marks) }
{
    let Some(path) = next_path(&top) else {
        walk.close(top.unit)?;
        return Ok(());
    };
    match meet(walk, numbers, units, path) {
        Meeting::Past => stack.push(past_next(top))?,
        Meeting::Again => return Err(Or::Is(path.copy(alloc)?)),
        Meeting::Enter(unit) => {
            let visit = visit_of_unit(alloc, hashing, units, unit)?;
            stack.push(past_next(top))?;
            stack.push(visit)?;
            walk.mark(unit, Mark::Open);
        }
    }
    Ok(())
}

/// Walks until the units on the stack are closed.
fn run(
    alloc: Global,
    hashing: RandomState,
    units: &[Serving],
    numbers: &Numbers,
    walk: &mut Walk,
    first: Visit,
) -> Result<(), Or<Path>>
    requires known { KnowsUnits numbers.now units.now }
    requires room { 1 + news walk.old.marks ≤ length units.now }
    ensures goes { WalkGoes result (resume units.now 0 (first ∷ []) walk.old) (Ok walk.new) }
    ensures size { OnOk result (length walk.new.marks ≡ length walk.old.marks) }
{
    let mut stack = Vec::new(alloc);
    stack.push(first)?;
    // A turn takes a prerequisite or closes a unit, so there is no end to memory before these turns end.
    for _turn in 0..u64::MAX {
        let Some(top) = stack.pop() else {
            return Ok(());
        };
        advance(alloc, hashing, units, numbers, walk, &mut stack, top)?;
    }
    Err(Or::NoMemory)
}

/// Takes a goal, unless a path is met again.
fn take_goal(
    alloc: Global,
    hashing: RandomState,
    units: &[Serving],
    numbers: &Numbers,
    walk: &mut Walk,
    path: &Path,
) -> Result<(), Or<Path>>
    requires known { KnowsUnits numbers.now units.now }
    requires size { length walk.old.marks ≡ length units.now }
    ensures goes { WalkGoes result (take_path (suc (length units.now)) units.now path.now walk.old)
        (Ok walk.new) }
    ensures size { OnOk result (length walk.new.marks ≡ length units.now) }
{
    match meet(walk, numbers, units, path) {
        Meeting::Past => Ok(()),
        Meeting::Again => Err(Or::Is(path.copy(alloc)?)),
        Meeting::Enter(unit) => {
            let first = visit_of_unit(alloc, hashing, units, unit)?;
            walk.mark(unit, Mark::Open);
            run(alloc, hashing, units, numbers, walk, first)
        }
    }
}

fn new_walk(alloc: Global, units: usize) -> Result<Walk, NoMemory>
    ensures { IfOk result (λ walk. walk ≡ record { marks = replicate units New; order = [] }) }
{
    Ok(Walk {
        marks: vec![in alloc; Mark::New; units]?,
        order: Vec::new(alloc),
    })
}

/// The walk over goals, or the path by which it meets a unit again.
pub(crate) fn walk_over(
    alloc: Global,
    hashing: RandomState,
    units: &[Serving],
    numbers: &Numbers,
    goals: &[Path],
) -> Result<Walk, Or<Path>>
    requires { KnowsUnits numbers.now units.now }
    ensures { Gives result (walk_of units.now goals.now) }
{
    let mut walk = new_walk(alloc, units.len())?;
    for goal in goals {
        take_goal(alloc, hashing, units, numbers, &mut walk, goal)?;
    }
    Ok(walk)
}

impl Walk {
    /// The order of the units that are done.
    pub(crate) fn order(&self) -> &[u32]
        ensures { result.now ≡ self.now.order }
    {
        self.order.as_slice()
    }
}
