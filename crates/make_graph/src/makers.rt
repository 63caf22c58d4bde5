//! Which units make the prerequisites of each unit.

ghost use Rattle.std.specs.Prelude.{◌≡◌, IfOk, map};
ghost use Rattle.std.specs.List.{filter_map};
ghost use Rattle.std.specs.HashMap.{get};
ghost use Rattle.std.specs.Str.{bytes_eq};

use crate::numbers::{Numbers, number};
use cc_names::lists::List;
use cc_names::memory::NoMemory;
use cc_names::paths::Path;
use cc_names::units::Unit;
use std::alloc::Global;

/// The numbers of what makes these paths, in the order of the paths.
fn makers(alloc: Global, numbers: &Numbers, paths: &[Path]) -> Result<List<u32>, NoMemory>
    ensures { IfOk result (λ made. made ≡ filter_map (get bytes_eq numbers.now) paths.now) }
{
    let mut made = Vec::new(alloc);
    for path in paths {
        if let Some(number) = number(numbers, path) {
            made.push(number)?;
        }
    }
    Ok(List::of(made))
}

/// The numbers of what makes each unit's prerequisites. Takes time linear in the prerequisites.
pub(crate) fn all_makers(
    alloc: Global,
    numbers: &Numbers,
    units: &[Unit],
) -> Result<Vec<List<u32>>, NoMemory>
    ensures { IfOk result
        (λ all.
        all.items
        ≡ map (λ unit. filter_map (get bytes_eq numbers.now) unit.prerequisites) units.now) }
{
    let mut all = Vec::new(alloc);
    for unit in units {
        all.push(makers(alloc, numbers, unit.prerequisites.as_slice())?)?;
    }
    Ok(all)
}
