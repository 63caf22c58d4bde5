//! The places of targets in byte order, by which a target of a large group is found by halving.

ghost use Rattle.std.specs.Prelude.{◌≡◌, ◌<◌, ◌^◌, ℕ, All, Some, IfOk, IfSome, length, nat_eq};
ghost use Rattle.std.specs.Cmp.Lexicographic.{slice_cmp};
ghost use Rattle.std.specs.HashMap as hashed;
ghost use Rattle.std.specs.HashMap.{spare};
ghost use Rattle.std.specs.Ordering.{nat_cmp};
ghost use Rattle.base_rows.specs.TargetOrders.{AreOfDeed, AreOrdered, AreTheirPlaces, IsPlaceOf, target_at, with_order};

use cc_names::memory::NoMemory;
use cc_names::paths::Path;
use cc_names::rows::Deed;
use std::alloc::Global;
use std::cmp::Ordering;
use std::collections::HashMap;

/// Places of targets.
pub(crate) type Places = Vec<u32>;

/// The fewest targets whose places are kept. Fewer are as soon searched one after the other.
const FEWEST: usize = 16;

/// The bytes of the target at a place, none where no target is.
fn target_at(targets: &[Path], place: u32) -> &[u8]
    ensures { result.now ≡ target_at targets.now place }
{
    match targets.get(place as usize) {
        None => &[],
        Some(target) => target.as_bytes(),
    }
}

/// Which of the targets at two places comes first.
fn compare_at(targets: &[Path], one: u32, two: u32) -> Ordering
    ensures { result
        ≡ slice_cmp nat_cmp (target_at targets.now one) (target_at targets.now two) }
{
    target_at(targets, one).cmp(target_at(targets, two))
}

/// Whether the target at a place comes before a path, is it, or comes after it.
fn compare_with(targets: &[Path], place: u32, path: &Path) -> Ordering
    ensures { result ≡ slice_cmp nat_cmp (target_at targets.now place) path.now }
{
    target_at(targets, place).cmp(path.as_bytes())
}

/// The places of targets, in their own order. Takes time linear in them, and four bytes for each.
fn all_places(alloc: Global, targets: &[Path]) -> Result<Places, NoMemory>
    requires { length targets.now < 2 ^ 32 }
    ensures all { IfOk result (λ places. AreTheirPlaces targets.now places.items) }
    ensures within { IfOk result
        (λ places. All (λ place. place < length targets.now) places.items) }
{
    let mut places = Vec::with_capacity(alloc, targets.len())?;
    for place in 0..targets.len() as u32 {
        places.push(place)?;
    }
    Ok(places)
}

/// The places of targets, in byte order. Takes time linear in the targets, times their logarithm.
fn ordered_places(alloc: Global, targets: &[Path]) -> Result<Places, NoMemory>
    requires { length targets.now < 2 ^ 32 }
    ensures { IfOk result (λ places. AreOrdered targets.now places.items) }
{
    let mut places = all_places(alloc, targets)?;
    places.sort_unstable_by(|one, two| compare_at(targets, *one, *two));
    Ok(places)
}

/// The same, where the targets are many.
fn places_if_many(alloc: Global, targets: &[Path]) -> Result<Option<Places>, NoMemory>
    ensures { IfOk result
        (λ places. IfSome places (λ places. AreOrdered targets.now places.items)) }
{
    if targets.len() < FEWEST || targets.len() > u32::MAX as usize {
        return Ok(None);
    }
    Ok(Some(ordered_places(alloc, targets)?))
}

/// The places of the targets that a row of this deed has, in byte order, where they are many. Takes time linear in the targets,
/// times their logarithm.
pub(crate) fn places_made(alloc: Global, deed: &Deed) -> Result<Option<Places>, NoMemory>
    ensures { IfOk result (λ places. AreOfDeed places deed.now) }
{
    match deed {
        Deed::Publish { targets, .. } => places_if_many(alloc, targets.as_slice()),
        _ => Ok(None),
    }
}

/// Keeps the places of an object's targets, where they are made. Takes constant time and no memory.
pub(crate) fn keep_places(orders: &mut HashMap<u64, Places>, object: u64, places: Option<Places>)
    requires room { 0 < spare orders.old }
    ensures { (q : ℕ) → hashed.get nat_eq orders.new q
        ≡ with_order object places (hashed.get nat_eq orders.old) q }
{
    match places {
        None => {}
        Some(places) => match orders.insert(object, places) {
            Ok(_) => {}
            Err(_) => unreachable!(),
        },
    }
}

/// The place of a path among these targets, whose places are in byte order. Takes time logarithmic in them.
pub(crate) fn place_among(targets: &[Path], places: &[u32], path: &Path) -> Option<usize>
    requires { AreOrdered targets.now places.now }
    ensures { IsPlaceOf path.now targets.now result }
{
    match places.binary_search_by(|place| compare_with(targets, *place, path)) {
        Ok(index) => Some(places[index] as usize),
        Err(_) => None,
    }
}
