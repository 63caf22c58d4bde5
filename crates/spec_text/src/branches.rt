//! Branches of an element by the names that lead to them.

ghost use Rattle.std.specs.Prelude.{◌≡◌};
ghost use Rattle.cc_names.specs.Branches.{branch_above, branch_behind, if_above, branch_named};
ghost use Rattle.spec_text.specs.Children.{child};

use crate::selectable::Selectable;
use cc_names::names::Name;

/// The element's branch of a name that leaves this branch.
fn child<S: Selectable>(sources: &S, element: u64, branch: u64, name: &Name) -> Option<u64>
    ensures { result ≡ child (S.selectables sources.now).tree element branch name.now }
{
    let next = sources.branch_named(element, name)?;
    match sources.branch_above(next) {
        Some(above) if above == branch => Some(next),
        _ => None,
    }
}

/// The element's branch whose names after `main` are these.
pub(crate) fn branch_behind<S: Selectable>(sources: &S, element: u64, names: &[Name]) -> Option<u64>
    ensures { result ≡ branch_behind (S.selectables sources.now).tree element names.now }
{
    let mut branch = element;
    for name in names {
        match child(sources, element, branch, name) {
            Some(next) => branch = next,
            None => return None,
        }
    }
    Some(branch)
}
