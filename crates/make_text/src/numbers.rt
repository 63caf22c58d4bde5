//! What makes a path, by its number.

ghost use Rattle.std.specs.Prelude.{◌≡◌, ◌<◌, ◌^◌, ℕ, List, OnOk, IfOk, length};
ghost use Rattle.std.specs.HashMap.{get};
ghost use Rattle.std.specs.Str.{bytes_eq};
ghost use Rattle.make_text.specs.Joining.{made_together};
ghost use Rattle.make_grammar.specs.Numbers.{number_from};
ghost use Rattle.make_text.specs.Numbered.{with_number, with_numbers};

use crate::line_cache::RuleLine;
use crate::rules::MakeRule;
use cc_names::memory::NoMemory;
use cc_names::paths::Path;
use cc_names::units::Unit;
use std::alloc::Global;
use std::collections::HashMap;
use std::hash::RandomState;

/// The number of what makes each path.
pub type Numbers = HashMap<Path, u32, RandomState>;

/// What makes paths.
pub trait Makes {
    ghost targets: { Self → List (List ℕ) };

    /// The paths that it makes.
    fn targets(&self) -> &[Path]
        ensures { result.now ≡ targets self.now };
}

impl Makes for MakeRule {
    ghost targets = { λ rule. rule.targets };

    fn targets(&self) -> &[Path] {
        MakeRule::targets(self)
    }
}

impl Makes for Unit {
    ghost targets = { λ unit. unit.targets };

    fn targets(&self) -> &[Path] {
        self.targets.as_slice()
    }
}

impl Makes for RuleLine {
    ghost targets = { made_together };

    fn targets(&self) -> &[Path] {
        if self.is_made_together() {
            RuleLine::targets(self)
        } else {
            &[]
        }
    }
}

/// The number of what makes the path, in constant time.
pub fn number(numbers: &Numbers, path: &Path) -> Option<u32>
    ensures { result ≡ get bytes_eq numbers.now path.now }
{
    numbers.get(path).copied()
}

/// Numbers a path, unless it has a number.
fn number_path(
    alloc: Global,
    numbers: &mut Numbers,
    path: &Path,
    number: u32,
) -> Result<(), NoMemory>
    ensures { OnOk result
        ((other : List ℕ)
        → get bytes_eq numbers.new other
        ≡ with_number number path.now other (get bytes_eq numbers.old other)) }
{
    if !numbers.contains_key(path) {
        numbers.insert(path.copy(alloc)?, number)?;
    }
    Ok(())
}

/// Numbers paths, except those that have a number.
pub(crate) fn number_paths(
    alloc: Global,
    numbers: &mut Numbers,
    paths: &[Path],
    number: u32,
) -> Result<(), NoMemory>
    ensures { OnOk result
        ((other : List ℕ)
        → get bytes_eq numbers.new other
        ≡ with_numbers number paths.now other (get bytes_eq numbers.old other)) }
{
    for path in paths {
        number_path(alloc, numbers, path, number)?;
    }
    Ok(())
}

/// Numbers all that these make, from 0 on: of what more than one of them makes, the first counts. Takes time and memory
/// linear in the targets. Fails only where memory runs out.
pub fn number_all<X: Makes>(
    alloc: Global,
    hashing: RandomState,
    items: &[X],
) -> Result<Numbers, NoMemory>
    requires { length items.now < 2 ^ 32 }
    ensures { IfOk result
        (λ numbers.
        (path : List ℕ) → get bytes_eq numbers path ≡ number_from X.targets 0 path items.now) }
{
    let mut numbers = HashMap::with_hasher(alloc, hashing);
    for (index, item) in items.iter().enumerate() {
        number_paths(alloc, &mut numbers, item.targets(), index as u32)?;
    }
    Ok(numbers)
}
