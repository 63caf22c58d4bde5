//! Epoch tables.

ghost use Rattle.std.specs.Prelude.{◌≡◌, [], ◌<◌, ◌≤◌, true, not, if◌then◌else◌, length, vec_len, insert, slice_index_or, slice_set, is_none, IsTrue, IfOk, OnOk, OnErr};
ghost use Rattle.vob_replica.specs.declared.events.Identity.{Identity};
ghost use Rattle.vob_replica.specs.Tables.{is_below, is_entry_at, higher_entry, entry_place_in, number_in, holds, with_operation, raised_by, first_gap, Ascends, FindsEntry, IsWithin};

use crate::events::Identity;
use cc_names::memory::NoMemory;
use cc_names::names::Name;
use std::alloc::Global;
use std::marker::Model;

/// An epoch table: of each site the highest number of its operations that is known. Contracts see its entries in byte order of
/// sites, without the sites of which none is known.
#[derive(Debug, Drop)]
pub struct Table {
    entries: Vec<Identity>,
    /// The place of the site that was raised last: the next one is often the same.
    near: usize,
}

impl Model for Table {
    ghost use Rattle.std.specs.Prelude.{List};
    ghost use Rattle.vob_replica.specs.declared.events.Identity.{Identity};
    ghost use Rattle.vob_replica.specs.Tables.{Ascends};

    ghost Value = { List Identity };

    ghost view = { λ table. table.entries.items };

    ghost invariant = { λ table. Ascends table.entries.items };
}

fn is_below(site: &Name, entry: &Identity) -> bool
    ensures { result ≡ is_below site.now entry.now }
{
    entry.site.cmp(site).is_lt()
}

/// How many entries have a site below a site: these are the first ones. Takes time logarithmic in them.
fn entry_place(entries: &[Identity], site: &Name) -> usize
    requires { Ascends entries.now }
    ensures place { result ≡ entry_place_in site.now entries.now }
    ensures within { result ≤ length entries.now }
{
    entries.partition_point(|entry| is_below(site, entry))
}

/// Whether the entry at a place is that of a site.
fn is_entry_at(entries: &[Identity], place: usize, site: &Name) -> bool
    ensures at { result ≡ is_entry_at entries.now place site.now }
    ensures within { IsTrue result → place < length entries.now }
{
    match entries.get(place) {
        Some(entry) => entry.site == *site,
        None => false,
    }
}

/// Where the entry of a site stands; or, as an `Err`, where it would. Takes constant time where it is at the place `near` or the
/// next one, else time logarithmic in the entries.
fn find_near(entries: &[Identity], near: usize, site: &Name) -> Result<usize, usize>
    requires { Ascends entries.now }
    ensures { FindsEntry result entries.now site.now }
{
    if is_entry_at(entries, near, site) {
        return Ok(near);
    }
    let next = near.saturating_add(1);
    if is_entry_at(entries, next, site) {
        return Ok(next);
    }
    let place = entry_place(entries, site);
    if is_entry_at(entries, place, site) {
        return Ok(place);
    }
    Err(place)
}

/// The place of a site. Takes the time of `find_near`.
fn place_near(entries: &[Identity], near: usize, site: &Name) -> usize
    requires { Ascends entries.now }
    ensures place { result ≡ entry_place_in site.now entries.now }
    ensures within { result ≤ length entries.now }
{
    match find_near(entries, near, site) {
        Ok(place) => place,
        Err(place) => place,
    }
}

/// The number of a site that has the entry at a place.
fn number_there(entries: &[Identity], place: usize, site: &Name) -> u64
    requires order { Ascends entries.now }
    requires there { is_entry_at entries.now place site.now ≡ true }
    requires within { place < length entries.now }
    ensures { result ≡ number_in entries.now site.now }
{
    entries[place].number
}

/// The number of a site. Takes the time of `find_near`. `near` becomes its place.
fn number_near(entries: &[Identity], near: &mut usize, site: &Name) -> u64
    requires { Ascends entries.now }
    ensures number { result ≡ number_in entries.now site.now }
    ensures place { near.new ≡ entry_place_in site.now entries.now }
{
    match find_near(entries, *near, site) {
        Ok(place) => {
            *near = place;
            number_there(entries, place, site)
        }
        Err(place) => {
            *near = place;
            0
        }
    }
}

/// Raises the number of the entry at a place, where it is lower.
fn raise_entry(entries: &mut Vec<Identity>, place: usize, number: u64)
    requires { place < vec_len entries.old }
    ensures { (d : Identity)
        → entries.new.items ≡ slice_set entries.old.items place
        (higher_entry (slice_index_or entries.old.items place d) number) }
{
    let entry = &mut entries[place];
    entry.number = entry.number.max(number);
}

/// Puts an entry at a place.
fn put_entry(
    alloc: Global,
    entries: &mut Vec<Identity>,
    place: usize,
    entry: &Identity,
) -> Result<(), NoMemory>
    requires { place ≤ vec_len entries.old }
    ensures ok { OnOk result (entries.new.items ≡ insert entries.old.items place entry.now) }
    ensures err { OnErr result (entries.new.items ≡ entries.old.items) }
{
    let entry = entry.copy(alloc)?;
    entries.insert(place, entry)?;
    Ok(())
}

/// Takes an operation in among entries, at the place of its site.
fn put_operation(
    alloc: Global,
    entries: &mut Vec<Identity>,
    place: usize,
    identity: &Identity,
) -> Result<(), NoMemory>
    requires place { place ≡ entry_place_in identity.now.site entries.old.items }
    requires within { place ≤ vec_len entries.old }
    ensures ok { OnOk result (entries.new.items ≡ with_operation entries.old.items identity.now) }
    ensures err { OnErr result (entries.new.items ≡ entries.old.items) }
{
    if is_entry_at(entries, place, &identity.site) {
        raise_entry(entries, place, identity.number);
        return Ok(());
    }
    put_entry(alloc, entries, place, identity)
}

/// Takes an operation in whose site has the entry at a place, unless it is known, and answers whether it was not.
fn take_at(entries: &mut Vec<Identity>, place: usize, identity: &Identity) -> bool
    requires order { Ascends entries.old.items }
    requires there { is_entry_at entries.old.items place identity.now.site ≡ true }
    requires within { place < vec_len entries.old }
    ensures known { holds entries.old.items identity.now ≡ not result }
    ensures taken { entries.new.items
        ≡ (if result then with_operation entries.old.items identity.now else entries.old.items) }
    ensures order { Ascends entries.new.items }
{
    let known = number_there(entries, place, &identity.site);
    let held = identity.number > 0 && identity.number <= known;
    if held {
        return false;
    }
    raise_entry(entries, place, identity.number);
    true
}

fn copies_of(alloc: Global, entries: &[Identity]) -> Result<Vec<Identity>, NoMemory>
    ensures { IfOk result (λ copies. copies.items ≡ entries.now) }
{
    let mut copies = Vec::new(alloc);
    for entry in entries {
        copies.push(entry.copy(alloc)?)?;
    }
    Ok(copies)
}

impl Table {
    /// The table of no operations. Takes no memory.
    pub fn new(alloc: Global) -> Table
        ensures { result ≡ [] }
    {
        Table {
            entries: Vec::new(alloc),
            near: 0,
        }
    }

    /// The entries, in byte order of sites.
    pub fn entries(&self) -> &[Identity]
        ensures entries { result.now ≡ self.now }
        ensures order { Ascends self.now }
    {
        self.entries.as_slice()
    }

    /// Promises that the entries are in byte order of sites.
    pub fn is_in_order(&self)
        ensures { Ascends self.now }
    {
        let _entries = self.entries.as_slice();
    }

    /// The number of a site; 0 where none of its operations is known. Takes constant time where the site is the one that was
    /// raised last or the next one, else time logarithmic in the sites.
    pub fn number(&self, site: &Name) -> u64
        ensures { result ≡ number_in self.now site.now }
    {
        let mut near = self.near;
        number_near(&self.entries, &mut near, site)
    }

    /// Whether an operation is among those of the table. Takes constant time where its site is at the place `near` or the next
    /// one, else time logarithmic in the sites. `near` becomes the place of its site.
    pub(crate) fn holds_near(&self, near: &mut usize, identity: &Identity) -> bool
        ensures held { result ≡ holds self.now identity.now }
        ensures place { near.new ≡ entry_place_in identity.now.site self.now }
    {
        let known = number_near(&self.entries, near, &identity.site);
        identity.number > 0 && identity.number <= known
    }

    /// Takes an operation in. Takes constant time where its site is the one that was raised last, else time logarithmic in the
    /// sites; a new site takes time linear in them, and memory.
    pub fn raise(&mut self, alloc: Global, identity: &Identity) -> Result<(), NoMemory>
        ensures ok { OnOk result (self.new ≡ with_operation self.old identity.now) }
        ensures risen { OnOk result (IsWithin self.old self.new) }
        ensures err { OnErr result (self.new ≡ self.old) }
    {
        let place = place_near(&self.entries, self.near, &identity.site);
        put_operation(alloc, &mut self.entries, place, identity)?;
        self.near = place;
        Ok(())
    }

    /// Takes an operation in unless it is known, and answers whether it was not. Takes constant time where its site is the one
    /// that was raised last, else time logarithmic in the sites; a new site takes time linear in them, and memory. An `Err`
    /// changes nothing.
    pub(crate) fn take(&mut self, alloc: Global, identity: &Identity) -> Result<bool, NoMemory>
        ensures known { IfOk result (λ new. holds self.old identity.now ≡ not new) }
        ensures taken { IfOk result
            (λ new. self.new
            ≡ (if new then with_operation self.old identity.now else self.old)) }
        ensures err { OnErr result (self.new ≡ self.old) }
    {
        if is_entry_at(&self.entries, self.near, &identity.site) {
            return Ok(take_at(&mut self.entries, self.near, identity));
        }
        let mut near = self.near;
        if self.holds_near(&mut near, identity) {
            self.near = near;
            return Ok(false);
        }
        self.raise(alloc, identity)?;
        Ok(true)
    }

    /// Takes the operations of another table in. An `Err` leaves it with some of them. Takes the time of `raise` for each.
    pub fn raise_all(&mut self, alloc: Global, others: &[Identity]) -> Result<(), NoMemory>
        ensures ok { OnOk result (self.new ≡ raised_by self.old others.now) }
        ensures risen { IsWithin self.old self.new }
        ensures err { OnErr result (IsWithin self.new (raised_by self.old others.now)) }
    {
        // Read here, so that the sites are known to ascend as the loop begins.
        let _ = &self.entries;
        for other in others {
            self.raise(alloc, other)?;
        }
        Ok(())
    }

    /// A copy, in time linear in it.
    pub fn copy(&self, alloc: Global) -> Result<Table, NoMemory>
        ensures { IfOk result (λ table. table ≡ self.now) }
    {
        let entries = copies_of(alloc, &self.entries)?;
        Ok(Table { entries, near: 0 })
    }

    /// Whether the table holds all that another does. Takes time linear in the sites of the other where they are those of this
    /// one, else also logarithmic in the sites for each.
    pub(crate) fn covers(&self, others: &[Identity]) -> bool
        ensures { result ≡ is_none (first_gap others.now self.now) }
    {
        let mut near = 0;
        for other in others {
            if number_near(&self.entries, &mut near, &other.site) < other.number {
                return false;
            }
        }
        true
    }

    /// The first operation that the table lacks of those that are needed. Takes time linear in the needs, and logarithmic in the
    /// sites for each.
    pub fn first_gap(&self, alloc: Global, needs: &[Identity]) -> Result<Option<Identity>, NoMemory>
        ensures { IfOk result (λ gap. gap ≡ first_gap needs.now self.now) }
    {
        for need in needs {
            let known = self.number(&need.site);
            if known < need.number {
                let site = need.site.copy(alloc)?;
                let number = known + 1;
                return Ok(Some(Identity { site, number }));
            }
        }
        Ok(None)
    }
}
