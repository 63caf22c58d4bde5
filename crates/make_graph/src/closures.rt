//! The units that a unit stands on.

ghost use Rattle.std.specs.Prelude.{◌≡◌, ◌≤◌, ◌<◌, ◌∷◌, [], ℕ, length, IfOk};
ghost use Rattle.make_graph.specs.Waits.{is_in, is_marked, closure_of};
ghost use Rattle.make_graph.specs.Marks.{AddsMarks, IsEndBelow};

use crate::number_sets::NumberSet;
use crate::unit_graphs::Graph;
use cc_names::memory::NoMemory;
use std::alloc::Global;
use std::marker::Model;

/// The units that a unit stands on. Contracts see it as a mark for each unit up to the last that it may have.
#[derive(Drop)]
pub struct Closure {
    marks: NumberSet,
}

impl Model for Closure {
    ghost use Rattle.std.specs.Prelude.{List, Bool};

    ghost Value = { List Bool };

    ghost view = { λ closure. closure.marks };
}

impl Closure {
    /// Whether it has the unit of this number, in constant time.
    pub fn has(&self, unit: u32) -> bool
        ensures { result ≡ is_marked self.now unit }
    {
        self.marks.has(unit)
    }

    /// A copy of a closure that is kept. Takes time and memory linear in the words of its bits.
    pub(crate) fn cached_copy(alloc: Global, marks: &NumberSet) -> Result<Closure, NoMemory>
        ensures { IfOk result (λ closure. closure ≡ marks.now) }
    {
        Ok(Closure {
            marks: marks.copy(alloc)?,
        })
    }
}

/// One more than the greatest of these numbers that are below another, 0 where there is none.
fn end_below(numbers: &[u32], below: u32) -> u32
    ensures within { result ≤ below }
    ensures all { IsEndBelow below numbers.now result }
{
    let mut end = 0;
    for number in numbers {
        if *number < below && *number >= end {
            end = *number + 1;
        }
    }
    end
}

/// Marks a unit, if it is below a number.
fn mark(marks: &mut NumberSet, below: u32, number: u32)
    requires { below ≤ length marks.old }
    ensures length { length marks.new ≡ length marks.old }
    ensures marks { AddsMarks below (number ∷ []) marks.old marks.new }
{
    if number < below {
        marks.add(number);
    }
}

/// Marks those of these units that are below a number.
fn mark_all(marks: &mut NumberSet, below: u32, numbers: &[u32])
    requires { below ≤ length marks.old }
    ensures length { length marks.new ≡ length marks.old }
    ensures marks { AddsMarks below numbers.now marks.old marks.new }
{
    for number in numbers {
        mark(marks, below, *number);
    }
}

/// The units that a unit stands on: those that make its prerequisites, and those that these stand on. Fails only where memory
/// runs out.
///
/// Takes memory and time linear in the greatest number of a unit that makes one of its prerequisites, and time linear in the
/// prerequisites of the units that it stands on.
pub(crate) fn of_unit(graph: &Graph, alloc: Global, unit: u32) -> Result<Closure, NoMemory>
    requires { unit < length graph.now }
    ensures { IfOk result
        (λ closure. (n : ℕ) → is_marked closure n ≡ is_in (closure_of graph.now unit) n) }
{
    let wanted = graph.makers(unit);
    let mut number = end_below(wanted, unit);
    let mut marks = NumberSet::below(alloc, number as usize)?;
    mark_all(&mut marks, number, wanted);
    while number > 0 {
        number -= 1;
        if marks.has(number) {
            mark_all(&mut marks, number, graph.makers(number));
        }
    }
    Ok(Closure { marks })
}
