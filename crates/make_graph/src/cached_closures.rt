//! The closures of the first units of a build, each made of those of the units before it.

ghost use Rattle.std.specs.Prelude.{◌≡◌, ◌||◌, ℕ, length, map, IfOk};
ghost use Rattle.std.specs.List.{list_any};
ghost use Rattle.cc_names.specs.declared.units.Unit as units;
ghost use Rattle.make_graph.specs.NumberSets.{AreClosures, HaveRooms, brings_marked, room_below};
ghost use Rattle.make_graph.specs.Waits.{is_marked, makers_of};

use crate::number_sets::NumberSet;
use cc_names::lists::List;
use cc_names::memory::NoMemory;
use cc_names::units::Unit;
use std::alloc::Global;

/// The most units whose closures are kept: of a build that has more, those of the first units. They take 16 MiB at most; those
/// of all would take memory that grows with the square of the units, while suffix rules may serve as many units as a view has
/// files.
const CACHED_LIMIT: usize = 16_384;

/// Puts a unit that has a set, and what that has, into another set.
fn put_maker(set: &mut NumberSet, sets: &[NumberSet], maker: u32)
    requires rooms { HaveRooms sets.now }
    requires room { length set.old ≡ room_below (length sets.now) }
    ensures room { length set.new ≡ length set.old }
    ensures marks { (n : ℕ)
        → is_marked set.new n ≡ (is_marked set.old n || brings_marked sets.now n maker) }
{
    if let Some(other) = sets.get(maker as usize) {
        set.add(maker);
        set.add_all(other);
    }
}

/// The closure of the unit after these sets, which are those of the units before it. Takes time linear in the words of a set for
/// each unit that makes one of its prerequisites.
fn next_set(alloc: Global, makers: &[u32], sets: &[NumberSet]) -> Result<NumberSet, NoMemory>
    requires { HaveRooms sets.now }
    ensures room { IfOk result (λ set. length set ≡ room_below (length sets.now)) }
    ensures marks { IfOk result
        (λ set. (n : ℕ) → is_marked set n ≡ list_any (brings_marked sets.now n) makers.now) }
{
    let mut set = NumberSet::below(alloc, sets.len())?;
    for maker in makers {
        put_maker(&mut set, sets, *maker);
    }
    Ok(set)
}

/// The closures of these units, or of the first of them where there are too many. Takes time linear in the makers of the units
/// whose closures are kept times the words of a set.
pub(crate) fn cached_closures(
    alloc: Global,
    _units: &[Unit],
    makers: &[List<u32>],
) -> Result<Vec<NumberSet>, NoMemory>
    requires { makers.now
        ≡ map (λ (unit : units.Unit). makers_of _units.now unit.prerequisites) _units.now }
    ensures { IfOk result (λ sets. AreClosures _units.now sets.items) }
{
    let mut sets = Vec::new(alloc);
    for made_by in &makers[..makers.len().min(CACHED_LIMIT)] {
        let set = next_set(alloc, made_by.as_slice(), sets.as_slice())?;
        sets.push(set)?;
    }
    Ok(sets)
}
