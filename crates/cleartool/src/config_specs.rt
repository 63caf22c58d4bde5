//! The query for a view's config spec.

ghost use Rattle.std.specs.Prelude.{◌≡◌};
ghost use Rattle.legal_history.specs.Queries.QueryLines.{catcs};
ghost use Rattle.view_lookup.specs.Answering.{AnswersAs};

use cc_names::memory::Or;
use cc_names::names::Name;
use cc_names::refusals::Refusal;
use cc_names::texts::Text;
use std::alloc::Global;
use view_lookup::{FirstRows, spec_text, view_row};

/// The text of `catcs V`, the view's config spec as it was set, or its first refusal. Takes time linear in the text,
/// however many rows there are.
pub fn catcs(alloc: Global, rows: &FirstRows<'_>, view: &Name) -> Result<Text, Or<Refusal>>
    ensures { AnswersAs result (catcs rows.now view.now) }
{
    if view_row(rows, view).is_none() {
        return Err(Or::Is(Refusal::NoView));
    }
    let text = match spec_text(rows, view) {
        Some(text) => text,
        None => &[],
    };
    Ok(Text::from_bytes(alloc, text)?)
}
