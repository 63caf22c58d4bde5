//! Which units a unit of an active build has released.

ghost use Rattle.std.specs.Prelude.{◌≡◌, ◌<◌, IfOk, filter, length};
ghost use Rattle.std.specs.List.{list_all, range_with_len};
ghost use Rattle.legal_history.specs.Builds.Active.{came_to, is_outcome};
ghost use Rattle.clearmake.specs.Calls.{is_released};
ghost use Rattle.build_core.specs.Releasing.{can_be_driven};

use crate::active::ActiveBuild;
use cc_names::memory::NoMemory;
use std::alloc::Global;

/// Whether these units have their outcomes. The last is looked at first: units come in the order of their prerequisites, so it is
/// most often the last to have one, and the others need no look before.
#[tactic(auto, using(crate::proofs::Waiting::one_is_not_over))]
fn are_over(build: &ActiveBuild, units: &[u32]) -> bool
    ensures { result ≡ list_all (λ n. is_outcome (came_to build.now n)) units.now }
{
    if let Some(unit) = units.last() {
        if !build.has_outcome(*unit) {
            return false;
        }
    }
    for unit in units {
        if !build.has_outcome(*unit) {
            return false;
        }
    }
    true
}

/// Whether a unit can be driven: it has no outcome, and is ready.
fn can_be_driven(build: &ActiveBuild, unit: u32) -> bool
    ensures { result ≡ can_be_driven build.now unit }
{
    if build.has_outcome(unit) {
        return false;
    }
    if unit as usize >= build.units().len() {
        return false;
    }
    are_over(build, build.makers(unit))
}

/// The units that a unit has released, by their numbers, in order: those that need it and can be driven. Fails only where
/// memory runs out.
///
/// Takes time linear in the unit's dependants and in their prerequisites, and looks up no path.
pub fn released_units(alloc: Global, build: &ActiveBuild, unit: u32) -> Result<Vec<u32>, NoMemory>
    requires { unit < length build.now.units }
    ensures { IfOk result
        (λ units.
        units.items
        ≡ filter (is_released build.now unit) (range_with_len 0 (length build.now.units))) }
{
    let dependants = build.dependants(unit);
    let mut released = Vec::new(alloc);
    for dependant in dependants {
        if can_be_driven(build, *dependant) {
            released.push(*dependant)?;
        }
    }
    Ok(released)
}
