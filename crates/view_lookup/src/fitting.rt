//! When a row fits the rows before it.

ghost use Rattle.std.specs.Prelude.{◌≡◌, Some, true, IfErr, IfOk};
ghost use Rattle.std.specs.List.{list_all};
ghost use Rattle.cc_names.specs.Formed.{IsDeedFormed, IsText};
ghost use Rattle.cc_names.specs.declared.rows.Deed.TheVariants as deeds;
ghost use Rattle.base_model.specs.Conditions.{element_of_text, is_entry, is_some_file, makes_file_text, may_be_scrubbed};
ghost use Rattle.base_model.specs.Rows.{Base};
ghost use Rattle.base_model.specs.Fits.{deed_fits, fits};
ghost use Rattle.view_lookup.specs.Grouped.{sets_spec};

use crate::fitting_elements::{catalog_deed_fits, checkout_deed_fits, version_deed_fits};
use crate::scrubs::may_be_scrubbed;
use crate::seen::kind_of;
use crate::types::is_type_taken;
use base_rows::bases::{FirstRows, row_at};
use base_rows::objects::{has_target, held_object, live_row};
use base_rows::views::{private, view_row};
use cc_names::memory::{NoMemory, Or};
use cc_names::names::Name;
use cc_names::rows::{Deed, Kind, ReadOf, Row};
use cc_names::texts::Text;
use spec_text::read_rules;
use std::alloc::Global;

/// The most rows that a base may have, row 0 included.
pub const ROW_LIMIT: u64 = 4_000_000;

/// The element of which a row of this deed made a text.
fn element_of_text(row: u64, deed: &Deed) -> Option<u64>
    ensures { (b : Base) → result ≡ element_of_text b row deed.now }
{
    match deed {
        Deed::Mkelem { .. } => Some(row),
        Deed::Checkout { element, .. } => Some(*element),
        Deed::Branch { element, .. } => Some(*element),
        Deed::Save { element, .. } => Some(*element),
        Deed::Checkin { element, .. } => Some(*element),
        _ => None,
    }
}

/// Whether there is a file element.
fn is_some_file(rows: &FirstRows<'_>, element: Option<u64>) -> bool
    ensures { result ≡ is_some_file rows.now element }
{
    match element {
        None => false,
        Some(element) => matches!(kind_of(rows, element), Some(Kind::File)),
    }
}

/// Whether a row of this deed made the text of a file.
fn makes_file_text(rows: &FirstRows<'_>, row: u64, deed: &Deed) -> bool
    ensures { result ≡ makes_file_text rows.now row (Some deed.now) }
{
    match deed {
        Deed::Put { .. } => true,
        _ => is_some_file(rows, element_of_text(row, deed)),
    }
}

/// Whether an entry says that its path was absent, or names the text of a file or an output at its path. Takes time logarithmic
/// in the targets of an object.
fn is_entry(rows: &FirstRows<'_>, entry: &ReadOf) -> bool
    ensures { result ≡ is_entry rows.now entry.now }
{
    if entry.row == 0 {
        return true;
    }
    match row_at(rows, entry.row) {
        None => false,
        Some(row) => {
            makes_file_text(rows, entry.row, row.deed()) || has_target(rows, entry.row, &entry.path)
        }
    }
}

fn are_entries(rows: &FirstRows<'_>, entries: &[ReadOf]) -> bool
    ensures { result ≡ list_all (is_entry rows.now) entries.now }
{
    entries.iter().all(|entry| is_entry(rows, entry))
}

fn may_all_be_scrubbed(rows: &FirstRows<'_>, objects: &[u64]) -> bool
    ensures { result ≡ list_all (may_be_scrubbed rows.now) objects.now }
{
    objects.iter().all(|object| may_be_scrubbed(rows, *object))
}

/// Whether a row that sets a view's config spec fits: there is the view, and the text is a config spec. Takes time linear in the
/// text.
fn setcs_fits(
    alloc: Global,
    rows: &FirstRows<'_>,
    view: &Name,
    text: &Text,
) -> Result<bool, NoMemory>
    requires { IsText text.now }
    ensures fits { IfOk result (λ is. is ≡ deed_fits rows.now (deeds.Setcs view.now text.now)) }
    ensures memory { IfErr result (λ _. sets_spec (deeds.Setcs view.now text.now) ≡ true) }
{
    if view_row(rows, view).is_none() {
        return Ok(false);
    }
    match read_rules(alloc, text.as_bytes()) {
        Ok(_) => Ok(true),
        Err(Or::Is(_)) => Ok(false),
        Err(Or::NoMemory) => Err(NoMemory),
    }
}

/// Whether a row of this deed may be the next of a base that has room for it.
fn deed_fits(alloc: Global, rows: &FirstRows<'_>, deed: &Deed) -> Result<bool, NoMemory>
    requires { IsDeedFormed deed.now }
    ensures fits { IfOk result (λ is. is ≡ deed_fits rows.now deed.now) }
    ensures memory { IfErr result (λ _. sets_spec deed.now ≡ true) }
{
    match deed {
        Deed::Mkview { view } => Ok(view_row(rows, view).is_none()),
        Deed::Rmview { view } => Ok(view_row(rows, view).is_some()),
        Deed::Setcs { view, text } => setcs_fits(alloc, rows, view, text),
        Deed::Put { view, .. } => Ok(view_row(rows, view).is_some()),
        Deed::Rm { view, path } => Ok(private(rows, view, path).is_some()),
        Deed::Mktype { name, .. } => Ok(!is_type_taken(rows, name)),
        Deed::Publish { view, entries, .. } => {
            Ok(view_row(rows, view).is_some() && are_entries(rows, entries.as_slice()))
        }
        Deed::Wink { view, object } => {
            Ok(view_row(rows, view).is_some() && live_row(rows, *object).is_some())
        }
        Deed::Drop { view, path } => Ok(held_object(rows, view, path).is_some()),
        Deed::Scrub { objects } => Ok(may_all_be_scrubbed(rows, objects.as_slice())),
        Deed::Mkelem { .. } | Deed::Rmname { .. } | Deed::Mv { .. } => {
            Ok(catalog_deed_fits(rows, deed))
        }
        Deed::Checkout { .. }
        | Deed::Branch { .. }
        | Deed::Save { .. }
        | Deed::Checkin { .. }
        | Deed::Uncheckout { .. } => Ok(checkout_deed_fits(rows, deed)),
        Deed::Label { .. } | Deed::Unlabel { .. } | Deed::Labels { .. } | Deed::Arrow { .. } => {
            Ok(version_deed_fits(rows, deed))
        }
        Deed::PublishAt { .. } => Ok(false),
    }
}

/// Whether a row may be the next of a base. Takes time linear in the names and the texts of the row and in its entries, times the
/// logarithm of the targets of the objects that they name, and for each look-up the time of that. Memory is taken to read the
/// config spec of a `Deed::Setcs`, by no other deed: `NoMemory` says nothing of the row, which may be asked of again.
pub fn fits(alloc: Global, rows: &FirstRows<'_>, row: &Row) -> Result<bool, NoMemory>
    ensures fits { IfOk result (λ is. is ≡ fits rows.now row.now.deed) }
    ensures memory { IfErr result (λ _. sets_spec row.now.deed ≡ true) }
{
    if rows.size() < ROW_LIMIT {
        deed_fits(alloc, rows, row.deed())
    } else {
        Ok(false)
    }
}
