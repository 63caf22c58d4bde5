//! The types of labels and of branches.

ghost use Rattle.std.specs.Prelude.{◌≡◌};
ghost use Rattle.base_model.specs.Changes.{kind_of_type};
ghost use Rattle.base_model.specs.Conditions.{is_branch_type, is_label_type, is_reserved_name, is_type_taken};

use base_rows::bases::FirstRows;
use base_rows::look_ups::{Does, LookUp, only_if};
use base_rows::subjects::Subject;
use base_rows::views::same_name;
use cc_names::names::Name;
use cc_names::rows::{Deed, TypeKind};

/// What the type of a name is a type of.
#[derive(Clone, Copy)]
struct NamedOf<'a> {
    name: &'a Name,
}

impl LookUp for NamedOf<'_> {
    type Item = TypeKind;

    ghost use Rattle.base_rows.specs.Laws.AffectedSubjects.{named_affects};
    ghost use Rattle.base_rows.specs.Effects.{named_effect};
    ghost use Rattle.base_rows.specs.Subjects as model;

    ghost effect = { λ it. named_effect it.name.now };

    ghost about = { λ it. model.Named it.name.now };

    fn effect(&self, _older: &FirstRows<'_>, deed: &Deed) -> Does<TypeKind> {
        match deed {
            Deed::Mktype { kind, name } => only_if(same_name(self.name, name), Does::Sets(*kind)),
            _ => Does::Keeps,
        }
    }

    fn subject(&self) -> Subject<'_> {
        Subject::Named(self.name)
    }

    ghost affects = { λ it. named_affects it.name.now };
}

/// What the type of this name is a type of, where there is one. Takes the time of `newest`.
pub fn kind_of_type(rows: &FirstRows<'_>, name: &Name) -> Option<TypeKind>
    ensures { result ≡ kind_of_type rows.now name.now }
{
    rows.last(&NamedOf { name })
}

/// Whether no type may have this name: `main`, `LATEST` or `CHECKEDOUT`.
fn is_reserved_name(name: &Name) -> bool
    ensures { result ≡ is_reserved_name name.now }
{
    let bytes = name.as_bytes();
    bytes == b"main".as_slice()
        || bytes == b"LATEST".as_slice()
        || bytes == b"CHECKEDOUT".as_slice()
}

/// Whether a type of either kind has this name, or none may have it. Takes the time of `kind_of_type`.
pub fn is_type_taken(rows: &FirstRows<'_>, name: &Name) -> bool
    ensures { result ≡ is_type_taken rows.now name.now }
{
    kind_of_type(rows, name).is_some() || is_reserved_name(name)
}

/// Whether a type of labels has this name. Takes the time of `kind_of_type`.
pub fn is_label_type(rows: &FirstRows<'_>, name: &Name) -> bool
    ensures { result ≡ is_label_type rows.now name.now }
{
    matches!(kind_of_type(rows, name), Some(TypeKind::Label))
}

/// Whether a type of branches has this name; `main` is none. Takes the time of `kind_of_type`.
pub fn is_branch_type(rows: &FirstRows<'_>, name: &Name) -> bool
    ensures { result ≡ is_branch_type rows.now name.now }
{
    matches!(kind_of_type(rows, name), Some(TypeKind::Branch))
}
