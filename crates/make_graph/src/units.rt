//! The units that goals want, in their order.

ghost use Rattle.std.specs.Prelude.{◌≡◌, ◌<◌, ◌||◌, ◌∷◌, [], Ok, not, is_some, find, length, IfOk, option_copied, slice_get};
ghost use Rattle.cc_names.specs.Answers.{Gives};
ghost use Rattle.cc_names.specs.Paths.{root};
ghost use Rattle.make_grammar.specs.Contents.{expansion};
ghost use Rattle.make_grammar.specs.Graphs.{first_of, first_target, script_for, unit_of, units_walked, graph_by, graph_of, unless_cycle};
ghost use Rattle.make_graph.specs.Items.{result_items};
ghost use Rattle.make_grammar.specs.Serving.{servings};
ghost use Rattle.make_grammar.specs.Walks.{number_of, walk_of};
ghost use Rattle.make_grammar.specs.Units.{script_of_unit};
ghost use Rattle.make_graph.specs.Visits.{KnowsUnits, GivesWalk};
ghost use Rattle.make_graph.specs.Numbered.{KnowsRules};

use crate::goals::{Exists, default_goal, first_source};
use crate::numbers::{Numbers, number, number_all};
use crate::serving::{Serving, servings};
use crate::walks::{Walk, walk_over};
use cc_names::copies::push_copies;
use cc_names::lists::List;
use cc_names::memory::{NoMemory, Or};
use cc_names::paths::Path;
use cc_names::refusals::GraphFault;
use cc_names::units::{Unit, UnitScript};
use make_text::contents::{Expanded, Makefile};
use std::alloc::Global;
use std::hash::RandomState;

/// The first of these targets, or this other path, the root, where there is none.
fn first_target<'a>(targets: &'a [Path], other: &'a Path) -> &'a Path
    requires { other.now ≡ root }
    ensures { result.now ≡ first_target targets.now }
{
    match targets.first() {
        Some(target) => target,
        None => other,
    }
}

fn first_of(paths: &[Path]) -> Option<&Path>
    ensures { option_copied result ≡ first_of paths.now }
{
    paths.first()
}

/// A script expanded for what it serves, which has these prerequisites.
fn expand_for(
    alloc: Global,
    make: &Makefile,
    serving: &Serving,
    prerequisites: &[Path],
    script: &[u8],
) -> Result<Expanded, NoMemory>
    requires { prerequisites.now ≡ serving.now.prerequisites }
    ensures { IfOk result
        (λ expanded.
        expanded
        ≡ expansion make.now script.now (first_target serving.now.targets)
        (first_of serving.now.prerequisites) serving.now.stem) }
{
    let root = Path::root();
    let target = first_target(serving.targets(), &root);
    let first = first_of(prerequisites);
    Ok(make.expand(alloc, script, target, first, serving.stem())?)
}

fn script_of_unit(expanded: Expanded) -> UnitScript
    ensures { result ≡ script_of_unit expanded }
{
    match expanded {
        Expanded::TooLong => UnitScript::TooLong,
        Expanded::Lines(text) => UnitScript::Lines(text),
    }
}

/// The script of a unit that has these prerequisites.
fn script_for(
    alloc: Global,
    make: &Makefile,
    serving: &Serving,
    prerequisites: &[Path],
) -> Result<UnitScript, NoMemory>
    requires { prerequisites.now ≡ serving.now.prerequisites }
    ensures { IfOk result (λ script. script ≡ script_for make.now serving.now serving.now.script) }
{
    match serving.script() {
        Some(script) => {
            let expanded = expand_for(alloc, make, serving, prerequisites, script)?;
            Ok(script_of_unit(expanded))
        }
        None => Ok(UnitScript::Bare),
    }
}

/// A copy of paths, in time and memory linear in them.
fn copy_of_paths(alloc: Global, paths: &[Path]) -> Result<List<Path>, NoMemory>
    ensures { IfOk result (λ copy. copy ≡ paths.now) }
{
    let mut copies = Vec::new(alloc);
    push_copies(alloc, &mut copies, paths)?;
    Ok(List::of(copies))
}

fn unit_of(
    alloc: Global,
    hashing: RandomState,
    make: &Makefile,
    serving: &Serving,
) -> Result<Unit, NoMemory>
    ensures { IfOk result (λ unit. unit ≡ unit_of make.now serving.now) }
{
    let prerequisites = serving.prerequisites(alloc, hashing)?;
    let script = script_for(alloc, make, serving, prerequisites.as_slice())?;
    Ok(Unit {
        targets: copy_of_paths(alloc, serving.targets())?,
        prerequisites,
        script,
    })
}

fn serving_at(units: &[Serving], number: u32) -> Option<&Serving>
    ensures { option_copied result ≡ slice_get units.now number }
{
    units.get(number as usize)
}

/// The units that a walk was through with, in its order.
fn units_walked(
    alloc: Global,
    hashing: RandomState,
    make: &Makefile,
    units: &[Serving],
    order: &[u32],
) -> Result<Vec<Unit>, NoMemory>
    ensures { IfOk result (λ made. made.items ≡ units_walked make.now units.now order.now) }
{
    let mut made = Vec::new(alloc);
    for number in order {
        if let Some(serving) = serving_at(units, *number) {
            made.push(unit_of(alloc, hashing, make, serving)?)?;
        }
    }
    Ok(made)
}

fn is_known<E: Exists>(numbers: &Numbers, units: &[Serving], files: &E, goal: &Path) -> bool
    requires { KnowsUnits numbers.now units.now }
    ensures { result ≡ (is_some (number_of units.now goal.now) || E.is_file files.now goal.now) }
{
    let _units = units;
    number(numbers, goal).is_some() || files.exists(goal)
}

/// The first goal that is neither a unit nor a file.
fn missing<'a, E: Exists>(
    numbers: &Numbers,
    units: &[Serving],
    files: &E,
    goals: &'a [Path],
) -> Option<&'a Path>
    requires { KnowsUnits numbers.now units.now }
    ensures { option_copied result
        ≡ find (λ path. not (is_some (number_of units.now path) || E.is_file files.now path))
        goals.now }
{
    for goal in goals {
        if !is_known(numbers, units, files, goal) {
            return Some(goal);
        }
    }
    None
}

/// The numbers of what the rules make. There is no memory for more rules than numbers of four bytes count.
fn number_rules(alloc: Global, hashing: RandomState, make: &Makefile) -> Result<Numbers, NoMemory>
    ensures { IfOk result (λ rules. KnowsRules rules make.now) }
{
    let rules = make.rules();
    if rules.len() > u32::MAX as usize {
        return Err(NoMemory);
    }
    number_all(alloc, hashing, rules)
}

/// The numbers of what may serve, as for rules.
fn number_servings(
    alloc: Global,
    hashing: RandomState,
    units: &[Serving],
) -> Result<Numbers, NoMemory>
    ensures { IfOk result (λ numbers. KnowsUnits numbers units.now) }
{
    if units.len() > u32::MAX as usize {
        return Err(NoMemory);
    }
    number_all(alloc, hashing, units)
}

/// The order in which the walk over goals is through with their units.
fn order_of(
    alloc: Global,
    hashing: RandomState,
    units: &[Serving],
    numbers: &Numbers,
    goals: &[Path],
) -> Result<Walk, Or<GraphFault>>
    requires { KnowsUnits numbers.now units.now }
    ensures { GivesWalk result (walk_of units.now goals.now) }
{
    match walk_over(alloc, hashing, units, numbers, goals) {
        Ok(walk) => Ok(walk),
        Err(Or::Is(path)) => Err(Or::Is(GraphFault::Cycle(path))),
        Err(Or::NoMemory) => Err(Or::NoMemory),
    }
}

/// The units of goals that are there, unless one is a source.
fn units_by<E: Exists>(
    alloc: Global,
    hashing: RandomState,
    make: &Makefile,
    files: &E,
    units: &[Serving],
    walk: &Walk,
) -> Result<Vec<Unit>, Or<GraphFault>>
    ensures { Gives (result_items result)
        (unless_cycle make.now units.now (E.is_file files.now) (Ok walk.now)) }
{
    let made = units_walked(alloc, hashing, make, units, walk.order())?;
    if let Some(target) = first_source(files, made.as_slice()) {
        return Err(Or::Is(GraphFault::TargetIsSource(target.copy(alloc)?)));
    }
    Ok(made)
}

/// The units of goals, by all that may serve them.
fn units_of_servings<E: Exists>(
    alloc: Global,
    hashing: RandomState,
    make: &Makefile,
    files: &E,
    units: &[Serving],
    goals: &[Path],
) -> Result<Vec<Unit>, Or<GraphFault>>
    requires { 0 < length goals.now }
    ensures { Gives (result_items result)
        (graph_by make.now units.now (E.is_file files.now) goals.now) }
{
    let numbers = number_servings(alloc, hashing, units)?;
    if let Some(goal) = missing(&numbers, units, files, goals) {
        return Err(Or::Is(GraphFault::NoGoal(goal.copy(alloc)?)));
    }
    let walk = order_of(alloc, hashing, units, &numbers, goals)?;
    units_by(alloc, hashing, make, files, units, &walk)
}

/// The units of goals that are named.
fn units_of_goals<E: Exists>(
    alloc: Global,
    hashing: RandomState,
    make: &Makefile,
    files: &E,
    goals: &[Path],
) -> Result<Vec<Unit>, Or<GraphFault>>
    requires { 0 < length goals.now }
    ensures { Gives (result_items result)
        (graph_by make.now (servings make.now (E.is_file files.now) goals.now) (E.is_file files.now)
        goals.now) }
{
    let rules = number_rules(alloc, hashing, make)?;
    let units = servings(alloc, hashing, make, &rules, files, goals)?;
    units_of_servings(alloc, hashing, make, files, units.as_slice(), goals)
}

fn one_goal(alloc: Global, goal: &Path) -> Result<Vec<Path>, NoMemory>
    ensures { IfOk result (λ goals. goals.items ≡ goal.now ∷ []) }
{
    let mut goals = Vec::new(alloc);
    goals.push(goal.copy(alloc)?)?;
    Ok(goals)
}

/// The units of a build, or the fault in their place.
pub(crate) fn units_of_build<E: Exists>(
    alloc: Global,
    hashing: RandomState,
    make: &Makefile,
    goals: &[Path],
    files: &E,
) -> Result<Vec<Unit>, Or<GraphFault>>
    ensures { Gives (result_items result) (graph_of make.now goals.now (E.is_file files.now)) }
{
    if !goals.is_empty() {
        return units_of_goals(alloc, hashing, make, files, goals);
    }
    match default_goal(make.rules()) {
        Some(goal) => {
            units_of_goals(
                alloc,
                hashing,
                make,
                files,
                one_goal(alloc, goal)?.as_slice(),
            )
        }
        None => Err(Or::Is(GraphFault::NoGoal(Path::root()))),
    }
}
