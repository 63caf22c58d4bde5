//! The branches of an element by their names.

ghost use Rattle.std.specs.Prelude.{◌≡◌};
ghost use Rattle.cc_names.specs.Branches.{branch_named};
ghost use Rattle.base_model.specs.Changes.{tree};
ghost use Rattle.base_model.specs.Conditions.{has_branch};

use base_rows::bases::FirstRows;
use base_rows::look_ups::{Does, LookUp, only_if};
use base_rows::subjects::Subject;
use base_rows::views::same_name;
use cc_names::names::Name;
use cc_names::rows::Deed;

/// The element's branch of a name.
#[derive(Clone, Copy)]
struct BranchOf<'a> {
    element: u64,
    name: &'a Name,
}

impl LookUp for BranchOf<'_> {
    type Item = u64;

    ghost use Rattle.base_rows.specs.Laws.AffectedSubjects.{branch_named_affects};
    ghost use Rattle.base_rows.specs.Effects.{branch_named_effect};
    ghost use Rattle.base_rows.specs.Subjects as model;

    ghost effect = { λ it. branch_named_effect it.element it.name.now };

    ghost about = { λ it. model.BranchNamed it.element it.name.now };

    fn effect(&self, older: &FirstRows<'_>, deed: &Deed) -> Does<u64> {
        match deed {
            Deed::Branch { element, name, .. } => only_if(
                self.element == *element && same_name(name, self.name),
                Does::Sets(older.size()),
            ),
            _ => Does::Keeps,
        }
    }

    fn subject(&self) -> Subject<'_> {
        Subject::BranchNamed(self.element, self.name)
    }

    ghost affects = { λ it. branch_named_affects it.element it.name.now };
}

/// The element's branch of a name; `main` is no such branch. Takes the time of `newest`.
pub fn branch_named(rows: &FirstRows<'_>, element: u64, name: &Name) -> Option<u64>
    ensures { result ≡ branch_named (tree rows.now) element name.now }
{
    rows.last(&BranchOf { element, name })
}

/// Whether the element has a branch of the type. Takes the time of `branch_named`.
pub fn has_branch(rows: &FirstRows<'_>, element: u64, name: &Name) -> bool
    ensures { result ≡ has_branch rows.now element name.now }
{
    branch_named(rows, element, name).is_some()
}
