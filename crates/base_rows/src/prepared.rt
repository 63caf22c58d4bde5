//! What is at hand for the next row before it is added, so that to add it takes no memory.

ghost use Rattle.std.specs.Prelude.{◌≡◌, IfOk};
ghost use Rattle.base_rows.specs.Preparing.{IsPrepared};
ghost use Rattle.base_rows.specs.SetSpecs.{rules_set_if_short};

use crate::bases::FirstRows;
use crate::growth::{Growth, growth_of};
use crate::listings::{MadeListing, listings_made};
use crate::row_keys::keys_of;
use crate::target_orders::{Places, places_made};
use cc_names::memory::NoMemory;
use cc_names::rows::Deed;
use cc_names::selection::Rules;
use std::alloc::Global;
use std::hash::RandomState;

/// What a row of some deed needs before it is added to a base.
#[derive(Drop)]
pub struct Prepared {
    // The keys for which it is marked.
    pub(crate) keys: Vec<u64>,
    // What it adds to the trees.
    pub(crate) growth: Growth,
    // The rules that it gives to its view.
    pub(crate) rules: Option<Rules>,
    // What is to be kept of what objects list.
    pub(crate) listings: Vec<MadeListing>,
    // The places of its object's targets in byte order, where they are many.
    pub(crate) places: Option<Places>,
}

/// What the next row needs, where it is of this deed and gives these rules to its view. Takes time linear in what the operation
/// names, with many targets times their logarithm; for each object that the rules name, and no config spec before, linear in the
/// records on which it rests, times the logarithm of what they list; for each row that changed names in a checkout that it ends,
/// a few look-ups; logarithmic in the branches.
pub fn prepare_with(
    alloc: Global,
    hashing: RandomState,
    rows: &FirstRows<'_>,
    deed: &Deed,
    rules: Option<Rules>,
) -> Result<Prepared, NoMemory>
    requires { rules ≡ rules_set_if_short deed.now }
    ensures { IfOk result (λ prepared. IsPrepared prepared hashing rows.now deed.now) }
{
    let keys = keys_of(alloc, hashing, rows, deed)?;
    let growth = growth_of(alloc, rows, deed)?;
    let listings = listings_made(alloc, rows, deed, rules.as_ref())?;
    let places = places_made(alloc, deed)?;
    Ok(Prepared {
        keys,
        growth,
        rules,
        listings,
        places,
    })
}
