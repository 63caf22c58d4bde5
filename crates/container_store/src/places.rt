//! Looking for places among extents that are in order.

ghost use Rattle.std.specs.Prelude.{◌≡◌, ◌≤◌, ◌<◌, ◌^◌, ◌-◌, true, false, nat_le, nat_lt, length, take, drop, is_some, IfSome};
ghost use Rattle.std.specs.List.Sorted.{IsPartitionPoint};
ghost use Rattle.container_store.specs.Extents.{place_behind, is_free, end_of};
ghost use Rattle.container_store.specs.Places.{IsInPlace, last_behind, hole_before, FitsAt};
ghost use Rattle.container_store.specs.Walks.{IsEndOfWalk};

use cc_names::rows::Extent;

/// Whether an extent lies in a file of this size. Takes constant time.
pub(crate) fn is_within(extent: Extent, size: u64) -> bool
    ensures { result ≡ nat_le (place_behind extent) size }
{
    extent.length <= size && extent.place <= size - extent.length
}

/// How many extents begin below a place: these are the first ones. Takes time logarithmic in the extents.
pub(crate) fn count_extents_below(taken: &[Extent], place: u64) -> usize
    requires { IsInPlace 0 taken.now }
    ensures below { IsPartitionPoint (λ e. nat_lt e.place place ≡ true)
        (λ e. nat_lt e.place place ≡ false) taken.now result }
    ensures within { result ≤ length taken.now }
{
    taken.partition_point(|extent| extent.place < place)
}

/// The place after the first so many extents. Takes constant time.
pub(crate) fn last_behind(taken: &[Extent], count: usize) -> u64
    requires in_place { IsInPlace 0 taken.now }
    requires fits { end_of taken.now < 2 ^ 64 }
    requires within { count ≤ length taken.now }
    ensures { result ≡ last_behind 0 (take count taken.now) }
{
    if count == 0 {
        return 0;
    }
    let last = taken[count - 1];
    last.place + last.length
}

/// The length of the hole before an extent, 0 where it would be one after the last. Takes constant time.
pub(crate) fn hole_before(taken: &[Extent], at: usize) -> u64
    requires in_place { IsInPlace 0 taken.now }
    requires fits { end_of taken.now < 2 ^ 64 }
    requires within { at ≤ length taken.now }
    ensures { result ≡ hole_before (last_behind 0 (take at taken.now)) (drop at taken.now) }
{
    match taken.get(at) {
        Some(extent) => extent.place - last_behind(taken, at),
        None => 0,
    }
}

/// Where an extent would stand among those that are taken, if it is free. Takes time logarithmic in the extents.
pub(crate) fn find_free(taken: &[Extent], extent: Extent) -> Option<usize>
    requires in_place { IsInPlace 0 taken.now }
    requires fits { end_of taken.now < 2 ^ 64 }
    requires some { 1 ≤ extent.length }
    requires small { place_behind extent < 2 ^ 64 }
    ensures free { is_some result ≡ is_free taken.now extent }
    ensures at { IfSome result (λ at. FitsAt taken.now at extent) }
{
    let at = count_extents_below(taken, extent.place);
    if extent.place < last_behind(taken, at) {
        return None;
    }
    match taken.get(at) {
        Some(next) if next.place < extent.place + extent.length => None,
        _ => Some(at),
    }
}

/// Where a walk over all holes ended.
pub(crate) enum Walk {
    /// At the first hole that is long enough, before this extent.
    Found(usize),
    /// After the last extent, where no hole was long enough: none is longer than this.
    Missed(u64),
}

/// Walks over the holes, from the lowest one on, to the first of at least this length. Takes time linear in the extents up to
/// there.
pub(crate) fn first_hole(taken: &[Extent], length: u64) -> Walk
    requires in_place { IsInPlace 0 taken.now }
    requires fits { end_of taken.now < 2 ^ 64 }
    requires some { 1 ≤ length }
    ensures { IsEndOfWalk taken.now length result }
{
    let mut from = 0;
    let mut longest: u64 = 0;
    for (at, extent) in taken.iter().enumerate() {
        let hole = extent.place - from;
        if length <= hole {
            return Walk::Found(at);
        }
        longest = longest.max(hole);
        from = extent.place + extent.length;
    }
    Walk::Missed(longest)
}
