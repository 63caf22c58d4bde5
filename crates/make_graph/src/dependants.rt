//! Which units wait for each unit.

ghost use Rattle.std.specs.Prelude.{◌≡◌, ◌==◌, ◌<◌, ◌^◌, [], ℕ, length, map, replicate, IfOk, OnOk};
ghost use Rattle.std.specs.List.{range_with_len};
ghost use Rattle.cc_names.specs.declared.units.Unit as units;
ghost use Rattle.make_graph.specs.Dependants.{NamesDependant, is_last, with_last};
ghost use Rattle.make_graph.specs.Waits.{dependants_of, is_in, makers_of};

use cc_names::lists::List;
use cc_names::memory::NoMemory;
use cc_names::units::Unit;
use std::alloc::Global;
use std::marker::Model;

/// The dependants of a unit, by their numbers. Contracts see it as the list of these.
#[derive(Drop)]
pub(crate) struct Dependants {
    numbers: Vec<u32>,
}

impl Model for Dependants {
    ghost use Rattle.std.specs.Prelude.{List, ℕ};

    ghost Value = { List ℕ };

    ghost view = { λ dependants. dependants.numbers.items };
}

fn is_last(numbers: &[u32], number: u32) -> bool
    ensures { result ≡ is_last number numbers.now }
{
    match numbers.last() {
        Some(last) => number == *last,
        None => false,
    }
}

impl Dependants {
    fn none(alloc: Global) -> Dependants
        ensures { result ≡ [] }
    {
        Dependants {
            numbers: Vec::new(alloc),
        }
    }

    /// Puts a number after the others, unless it is their last already. Takes constant time.
    fn put(&mut self, number: u32) -> Result<(), NoMemory>
        ensures { OnOk result (self.new ≡ with_last number self.old) }
    {
        if !is_last(self.numbers.as_slice(), number) {
            self.numbers.push(number)?;
        }
        Ok(())
    }

    /// The numbers, in order.
    pub(crate) fn as_slice(&self) -> &[u32]
        ensures { result.now ≡ self.now }
    {
        self.numbers.as_slice()
    }
}

/// Names a unit among the dependants of another, if there is that.
fn name(all: &mut [Dependants], maker: u32, unit: u32) -> Result<(), NoMemory>
    ensures { OnOk result (NamesDependant (λ m. m == maker) unit all.old all.new) }
{
    if (maker as usize) < all.len() {
        all[maker as usize].put(unit)?;
    }
    Ok(())
}

/// Names a unit among the dependants of those that make its prerequisites.
fn name_all(all: &mut [Dependants], makers: &[u32], unit: u32) -> Result<(), NoMemory>
    ensures { OnOk result (NamesDependant (is_in makers.now) unit all.old all.new) }
{
    for maker in makers {
        name(all, *maker, unit)?;
    }
    Ok(())
}

/// No dependants of so many units.
fn none_of(alloc: Global, units: usize) -> Result<Vec<Dependants>, NoMemory>
    ensures { IfOk result (λ all. all.items ≡ replicate units []) }
{
    let mut all = Vec::new(alloc);
    for _unit in 0..units {
        all.push(Dependants::none(alloc))?;
    }
    Ok(all)
}

/// The dependants of each of these units. Takes time linear in the makers of all units.
pub(crate) fn all_dependants(
    alloc: Global,
    _units: &[Unit],
    makers: &[List<u32>],
) -> Result<Vec<Dependants>, NoMemory>
    requires few { length makers.now < 2 ^ 31 }
    requires makers { makers.now
        ≡ map (λ (unit : units.Unit). makers_of _units.now unit.prerequisites) _units.now }
    ensures { IfOk result
        (λ all.
        all.items ≡ map (dependants_of _units.now) (range_with_len 0 (length _units.now))) }
{
    let mut all = none_of(alloc, makers.len())?;
    for (unit, made_by) in makers.iter().enumerate() {
        name_all(all.as_mut_slice(), made_by.as_slice(), unit as u32)?;
    }
    Ok(all)
}
