//! The types of labels and of branches.

ghost use Rattle.std.specs.Prelude.{ℕ, Option, List};
ghost use Rattle.cc_names.specs.Formed.{IsTypeName};
ghost use Rattle.cc_names.specs.declared.rows.Tag.{Tag};
ghost use Rattle.legal_history.specs.Commands.Decisions.{Scene};
ghost use Rattle.legal_history.specs.Commands.LabelLines.{mktype};
ghost use Rattle.legal_history.specs.Commands.Tests.{needs_free_type};
ghost use Rattle.checkout_desk.specs.Deciding.{Sees, Decides, Tests};

use crate::room::needs_room;
use cc_names::memory::Or;
use cc_names::names::Name;
use cc_names::occasions::Occasion;
use cc_names::refusals::Refusal;
use cc_names::rows::{Deed, Row, TypeKind};
use std::alloc::Global;
use view_lookup::{FirstRows, is_type_taken};

/// No type has the name, and one may have it.
fn needs_free_type(alloc: Global, rows: &FirstRows<'_>, name: &Name) -> Result<(), Or<Refusal>>
    ensures { Tests result (needs_free_type rows.now name.now) }
{
    if is_type_taken(rows, name) {
        return Err(Or::Is(Refusal::TypeExists(name.copy(alloc)?)));
    }
    Ok(())
}

/// The row of `mklbtype L` or `mkbrtype B`, or its first refusal. Takes time linear in the name, however many rows there
/// are.
pub fn mktype(
    alloc: Global,
    rows: &FirstRows<'_>,
    kind: TypeKind,
    name: &Name,
    occasion: Occasion,
) -> Result<Row, Or<Refusal>>
    requires { IsTypeName name.now }
    ensures { (scene : Scene) (now : ℕ) (view : List ℕ) (busy : Option Tag)
        → Sees scene rows.now now view busy occasion.taken
        → Decides occasion.tag occasion.moment result (mktype scene kind name.now) }
{
    needs_free_type(alloc, rows, name)?;
    needs_room(occasion.taken)?;
    let name = name.copy(alloc)?;
    Ok(Row::of(occasion.tag, occasion.moment, Deed::Mktype { kind, name }))
}
