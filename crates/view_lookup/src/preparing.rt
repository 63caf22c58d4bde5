//! The next row made ready: the config spec that it gives to its view is read, and the rest is made from the rows.

ghost use Rattle.std.specs.Prelude.{◌≡◌, IfOk};
ghost use Rattle.base_rows.specs.Preparing.{IsPrepared};
ghost use Rattle.base_rows.specs.SetSpecs.{parsed_if_short, rules_set_if_short};

use base_rows::bases::Rows;
use base_rows::prepared::{Prepared, prepare_with};
use base_rows::view_specs::spec_made;
use cc_names::memory::{NoMemory, Or};
use cc_names::rows::Deed;
use cc_names::selection::Rules;
use spec_text::read_rules;
use std::alloc::Global;

/// The rules of a text of fewer than 2^32 bytes, where it can be read. Takes time linear in it.
fn read_short(alloc: Global, text: &[u8]) -> Result<Option<Rules>, NoMemory>
    ensures { IfOk result (λ spec. spec ≡ parsed_if_short text.now) }
{
    if text.len() > u32::MAX as usize {
        return Ok(None);
    }
    match read_rules(alloc, text) {
        Ok(spec) => Ok(Some(spec)),
        Err(Or::NoMemory) => Err(NoMemory),
        Err(Or::Is(_)) => Ok(None),
    }
}

/// The rules that a row of this deed gives to its view, where it gives any. Takes time linear in the config spec.
fn read_given(alloc: Global, deed: &Deed) -> Result<Option<Rules>, NoMemory>
    ensures { IfOk result (λ spec. spec ≡ rules_set_if_short deed.now) }
{
    match spec_made(deed) {
        Some(text) => read_short(alloc, text),
        None => Ok(None),
    }
}

/// What the next row of a base needs, where it is of this deed. Takes the time of `read_rules` for a config spec, and for each
/// object that it names, and none before, time linear in the records on which that rests, times the logarithm of what they list.
/// Takes time linear in what the operation names; for each row that changed names in a checkout that it ends, a few look-ups;
/// logarithmic in the branches.
pub fn prepare(alloc: Global, base: &Rows, deed: &Deed) -> Result<Prepared, NoMemory>
    ensures { IfOk result
        (λ prepared. IsPrepared prepared base.now.hashing base.now.base deed.now) }
{
    let rules = read_given(alloc, deed)?;
    prepare_with(alloc, base.hashing(), &base.all(), deed, rules)
}
