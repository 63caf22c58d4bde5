//! The query for the objects that a view holds.

ghost use Rattle.std.specs.Prelude.{◌≡◌, ◌++◌, IfOk, OnOk};
ghost use Rattle.legal_history.specs.Queries.DirectoryTexts.{lsdo_text};
ghost use Rattle.legal_history.specs.Queries.QueryLines.{lsdo};
ghost use Rattle.view_lookup.specs.Answering.{AnswersAs};
ghost use Rattle.cleartool.specs.HeldObjects.{AreHolders, held_line_at};

use crate::lines::push_object;
use crate::sets::holders::{Holders, kept_holders};
use crate::sets::owned_paths::paths_owned;
use cc_names::memory::{NoMemory, Or};
use cc_names::names::Name;
use cc_names::numbers::push_number;
use cc_names::paths::Path;
use cc_names::refusals::Refusal;
use cc_names::texts::Text;
use std::alloc::Global;
use std::collections::BTreeMap;
use view_lookup::{FirstRows, held_object, view_row};

/// Adds the line of the object that the view holds at a path, with the number of views that hold it; nothing where it holds none.
fn push_held_object(
    alloc: Global,
    text: &mut Vec<u8>,
    rows: &FirstRows<'_>,
    kept: &mut Holders,
    view: &Name,
    path: &Path,
) -> Result<(), NoMemory>
    requires { AreHolders rows.now kept.old }
    ensures line { OnOk result
        (text.new.items ≡ text.old.items ++ held_line_at rows.now view.now path.now) }
    ensures kept { OnOk result (AreHolders rows.now kept.new) }
{
    match held_object(rows, view, path) {
        None => Ok(()),
        Some(object) => {
            let holders = kept_holders(alloc, rows, kept, object)?;
            push_object(alloc, text, path.as_bytes(), object)?;
            text.extend_from_slice(b" references ")?;
            push_number(alloc, text, holders as u64)?;
            text.push(b'\n')?;
            Ok(())
        }
    }
}

/// The objects that a view holds, by their paths.
fn lsdo_text(alloc: Global, rows: &FirstRows<'_>, view: &Name) -> Result<Text, NoMemory>
    ensures { IfOk result (λ text. text ≡ lsdo_text rows.now view.now) }
{
    let paths = paths_owned(alloc, rows, view)?;
    let mut kept = BTreeMap::new(alloc);
    let mut text = Vec::new(alloc);
    for path in &paths {
        push_held_object(alloc, &mut text, rows, &mut kept, view, path)?;
    }
    Ok(Text::of(text))
}

/// The text of `lsdo V`, the objects that the view holds, each with the number of views that hold it, or its first refusal. Takes
/// time linear in the rows by which the view ever came to have something at a path, times logarithmic in the paths; for each path
/// the time of `held_object`; and for each object that it holds the time of `count_holders`.
pub fn lsdo(alloc: Global, rows: &FirstRows<'_>, view: &Name) -> Result<Text, Or<Refusal>>
    ensures { AnswersAs result (lsdo rows.now view.now) }
{
    if view_row(rows, view).is_none() {
        return Err(Or::Is(Refusal::NoView));
    }
    Ok(lsdo_text(alloc, rows, view)?)
}
