//! The store.

ghost use Rattle.std.specs.Prelude.{◌≡◌, ◌≤◌, ◌<◌, ◌+◌, ◌^◌, ◌&&◌, [], true, false, nat_le, Bool, IfOk, OnOk, IfSome, IsTrue, ◌↔◌, All, Contains, MatchBool, is_some};
ghost use Rattle.std.specs.List.Sorted.{IsPermutation};
ghost use Rattle.container_store.specs.Extents.{place_behind, is_free, end_of, may_take, IsFirstFit};
ghost use Rattle.container_store.specs.Places.{FitsAt, IsInPlace};
ghost use Rattle.container_store.specs.Spaces.{TakesExtent};
ghost use Rattle.container_store.specs.Walks.{IsFirstAt};

use crate::places::{
    Walk, count_extents_below, find_free, first_hole, hole_before, is_within, last_behind,
};
use cc_names::memory::NoMemory;
use cc_names::rows::Extent;
use std::alloc::Global;
use std::marker::Model;

/// The extents of the file of objects that are taken. Contracts see them, in order of their places, and for how many more there
/// is memory.
#[derive(Drop)]
pub struct Store {
    /// By place.
    taken: Vec<Extent>,
    /// No hole between them is longer, so a longer extent goes after them all at once.
    longest: u64,
}

impl Model for Store {
    ghost use Rattle.container_store.specs.Spaces.{Space};

    ghost Value = { Space };

    ghost use Rattle.container_store.specs.StoreFields.{space_of, IsKeptInside};

    ghost view = { space_of };

    ghost invariant = { IsKeptInside };
}

impl Store {
    /// That its extents are in order of their places and no two overlap, that each has a byte, and that their ends fit 64 bits.
    /// Does nothing.
    pub fn are_apart(&self)
        ensures in_place { IsInPlace 0 self.now.taken }
        ensures fits { end_of self.now.taken < 2 ^ 64 }
    {
        let _longest = self.longest;
    }

    /// A store with these extents, each of at least a byte, or None where one passes the file's length or two overlap. Takes
    /// time as `take` does for each of them.
    pub fn open(alloc: Global, length: u64, taken: &[Extent]) -> Result<Option<Store>, NoMemory>
        requires { All (λ e. 1 ≤ e.length) taken.now }
        ensures answer { IfOk result (λ found. is_some found ≡ may_take length [] taken.now) }
        ensures taken { IfOk result
            (λ found. IfSome found (λ store. IsPermutation taken.now store.taken)) }
    {
        let mut store = Store {
            taken: Vec::with_capacity(alloc, taken.len())?,
            longest: 0,
        };
        for extent in taken {
            if !store.take(length, *extent) {
                return Ok(None);
            }
        }
        Ok(Some(store))
    }

    /// Makes room for so many calls of `take` and `place` together. A list that is full grows to at least twice its length, in
    /// time linear in it.
    pub fn reserve(&mut self, count: u64) -> Result<(), NoMemory>
        ensures room { OnOk result (count ≤ self.new.room) }
        ensures kept { self.old.room ≤ self.new.room }
        ensures taken { self.new.taken ≡ self.old.taken }
    {
        self.taken.reserve(count as usize)?;
        Ok(())
    }

    /// Takes an extent of at least a byte, where it lies in a file of this size and overlaps none that is taken: whether that is
    /// so. Takes time logarithmic in the extents, and moves those after it.
    pub fn take(&mut self, size: u64, extent: Extent) -> bool
        requires some { 1 ≤ extent.length }
        requires room { 0 < self.old.room }
        ensures answer { result
            ≡ (nat_le (place_behind extent) size && is_free self.old.taken extent) }
        ensures taken { MatchBool result (TakesExtent extent self.old self.new)
            (self.new ≡ self.old) }
    {
        if !is_within(extent, size) {
            return false;
        }
        match find_free(self.taken.as_slice(), extent) {
            Some(at) => {
                self.put_in(at, extent);
                true
            }
            None => false,
        }
    }

    /// Takes the extent of this length that begins at the lowest place where so many bytes are free. Takes time linear in the
    /// extents, constant time where it is known that no hole is long enough.
    pub fn place(&mut self, length: u64) -> Extent
        requires some { 1 ≤ length }
        requires room { 0 < self.old.room }
        requires small { end_of self.old.taken + length < 2 ^ 63 }
        ensures first { IsFirstFit self.old.taken length result }
        ensures taken { TakesExtent result self.old self.new }
    {
        let at = self.first_fit(length);
        let place = last_behind(self.taken.as_slice(), at);
        let extent = Extent { place, length };
        self.put_in(at, extent);
        extent
    }

    /// Gives back an extent that is taken. What is free beside it is free with it. Takes time logarithmic in the extents, and
    /// moves those after it; it takes no memory.
    pub fn free(&mut self, extent: Extent)
        requires { Contains self.old.taken extent }
        ensures { TakesExtent extent self.new self.old }
    {
        let at = count_extents_below(self.taken.as_slice(), extent.place);
        self.taken.remove(at);
        self.longest = self.longest.max(hole_before(self.taken.as_slice(), at));
    }

    /// Whether this extent is taken. Takes time logarithmic in the extents.
    pub fn is_taken(&self, extent: Extent) -> bool
        ensures { IsTrue result ↔ Contains self.now.taken extent }
    {
        let at = count_extents_below(self.taken.as_slice(), extent.place);
        match self.taken.as_slice().get(at) {
            Some(found) => *found == extent,
            None => false,
        }
    }

    /// The place directly after the last extent, 0 where none is taken. Takes constant time.
    pub fn end(&self) -> u64
        ensures { result ≡ end_of self.now.taken }
    {
        last_behind(self.taken.as_slice(), self.taken.len())
    }

    // Before which extent the first hole stands that is long enough, or how many extents there are where none is.
    fn first_fit(&mut self, length: u64) -> usize
        requires { 1 ≤ length }
        ensures first { IsFirstAt self.old.taken length result }
        ensures kept { self.new ≡ self.old }
    {
        if self.longest < length {
            return self.taken.len();
        }
        match first_hole(self.taken.as_slice(), length) {
            Walk::Found(at) => at,
            Walk::Missed(longest) => {
                self.longest = longest;
                self.taken.len()
            }
        }
    }

    // Puts an extent before another, where it fits.
    fn put_in(&mut self, at: usize, extent: Extent)
        requires fits { FitsAt self.old.taken at extent }
        requires some { 1 ≤ extent.length }
        requires small { place_behind extent < 2 ^ 64 }
        requires room { 0 < self.old.room }
        ensures { TakesExtent extent self.old self.new }
    {
        self.taken.insert(at, extent).unwrap();
        self.longest = self.longest.max(hole_before(self.taken.as_slice(), at));
    }
}
