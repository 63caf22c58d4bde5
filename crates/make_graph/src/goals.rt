//! The default goal of a build, and the targets of its units that are sources.

ghost use Rattle.std.specs.Prelude.{◌≡◌, ℕ, List, Bool, not, find, option_copied};
ghost use Rattle.std.specs.List.{flat_map};
ghost use Rattle.make_grammar.specs.WordPaths.{begins_with_period};
ghost use Rattle.make_grammar.specs.Units.{targets_of, made_by};

use cc_names::paths::Path;
use cc_names::units::{Unit, UnitScript};
use make_text::rules::MakeRule;

/// Which paths are files of the view.
pub trait Exists {
    ghost is_file: { Self → List ℕ → Bool };

    /// Whether the path is a file.
    fn exists(&self, path: &Path) -> bool
        ensures { result ≡ is_file self.now path.now };
}

fn begins_with_period(path: &Path) -> bool
    ensures { result ≡ begins_with_period path.now }
{
    matches!(path.as_bytes().first(), Some(b'.'))
}

/// The goal of a build that names none: the first target of a rule that does not begin with a period.
pub(crate) fn default_goal(rules: &[MakeRule]) -> Option<&Path>
    ensures { option_copied result
        ≡ find (λ target. not (begins_with_period target)) (flat_map targets_of rules.now) }
{
    rules
        .iter()
        .flat_map(|rule| rule.targets().iter())
        .find(|target| !begins_with_period(target))
}

/// What a unit with a script makes.
fn made_by(unit: &Unit) -> &[Path]
    ensures { result.now ≡ made_by unit.now }
{
    match &unit.script {
        UnitScript::Bare => &[],
        UnitScript::TooLong | UnitScript::Lines(_) => unit.targets.as_slice(),
    }
}

/// The first target of a unit with a script that is a file.
pub(crate) fn first_source<'a, E: Exists>(files: &E, units: &'a [Unit]) -> Option<&'a Path>
    ensures { option_copied result ≡ find (E.is_file files.now) (flat_map made_by units.now) }
{
    units
        .iter()
        .flat_map(|unit| made_by(unit).iter())
        .find(|target| files.exists(target))
}
