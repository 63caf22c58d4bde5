//! The rows of a base, with the marks by which those that affect a subject are found, with the trees of versions, with the
//! labels, with the config specs, with what the objects that these name list and with the places of objects' targets.

ghost use Rattle.std.specs.Prelude.{◌≡◌, ◌≤◌, ◌∷◌, [], ℕ, List, length, true, IfOk, IfSome, OnOk};
ghost use Rattle.std.specs.Option.{option_and_then, option_copied};
ghost use Rattle.cc_names.specs.Labels.{holder, labels_of_first_rows};
ghost use Rattle.cc_names.specs.Versions.{of_first_rows, version_id};
ghost use Rattle.base_model.specs.Changes.{labels, targets_of, tree};
ghost use Rattle.base_model.specs.Closures.{listing};
ghost use Rattle.base_model.specs.Rows.{deed_at, first_rows, row_at, size};
ghost use Rattle.base_model.specs.Seen.{file_at};
ghost use Rattle.base_model.specs.Fits.{fits, is_base, row_limit};
ghost use Rattle.base_rows.specs.Listings.{HasListing};
ghost use Rattle.base_rows.specs.LookUps.{from_row, last_of, newest, oldest};
ghost use Rattle.base_rows.specs.Order.{oldest_first};
ghost use Rattle.base_rows.specs.Preparing.{IsPrepared};
ghost use Rattle.base_rows.specs.SeenFiles.{AreSeen, IsSeenAs};
ghost use Rattle.base_rows.specs.SetSpecs.{rules_set};
ghost use Rattle.base_rows.specs.Shown.{HasRoom};
ghost use Rattle.base_rows.specs.TargetOrders.{AreOrdered};
ghost use Rattle.base_rows.specs.Walks.{updating_rows};

use crate::growth::{grow, reserve_growth};
use crate::labels::{relabel, reserve_labels};
use crate::listings::{Listings, Versions, keep_listings};
use crate::look_ups::{LookUp, left_by, set_at, update_at};
use crate::marks::{Link, mark_keys, reserve_marks};
use crate::prepared::Prepared;
use crate::seen_files::{SeenFiles, Views, put_seen, take_seen};
use crate::skips::first_below;
use crate::target_orders::{Places, keep_places};
use crate::view_specs::{Parsed, keep_spec, spec_of};
use crate::walks::add_updating_row;
use cc_names::changes::VersionId;
use cc_names::memory::NoMemory;
use cc_names::names::Name;
use cc_names::paths::Path;
use cc_names::rows::{Deed, Row};
use cc_names::selection::Rules;
use label_book::Book;
use std::alloc::Global;
use std::collections::HashMap;
use std::hash::RandomState;
use std::marker::Model;
use version_tree::Tree;

/// A base, what affects what, the trees of versions, the labels, the config specs, what the objects that these name list, and
/// where the targets of objects with many stand.
/// Contracts see the base as the model has it, its newest row first, and the room. That it is a base is part of the type.
#[derive(Drop)]
pub struct Rows {
    hashing: RandomState,
    alloc: Global,
    rows: Vec<Row>,
    links: Vec<Link>,
    newest: HashMap<u64, usize>,
    tree: Tree,
    labels: Book,
    specs: Vec<Parsed>,
    listings: Listings,
    orders: HashMap<u64, Places>,
    // Files that views were seen to have in some first rows.
    seen: Views,
}

impl Model for Rows {
    ghost use Rattle.base_rows.specs.Shown.{Shown};

    ghost Value = { Shown };

    ghost use Rattle.base_rows.specs.Indexed.{shown_of, IsIndexed};

    ghost view = { shown_of };

    ghost invariant = { IsIndexed };
}

impl Rows {
    /// A base with row 0 alone, in which names are found by hashing them so. Takes constant time.
    pub fn new(alloc: Global, hashing: RandomState) -> Result<Rows, NoMemory>
        ensures { IfOk result (λ rows. rows.base ≡ []) }
    {
        let tree = Tree::new(alloc)?;
        let labels = Book::new(alloc, hashing)?;
        Ok(Rows {
            hashing,
            alloc,
            rows: Vec::new(alloc),
            links: Vec::new(alloc),
            newest: HashMap::new(alloc),
            tree,
            labels,
            specs: Vec::new(alloc),
            listings: HashMap::new(alloc),
            orders: HashMap::new(alloc),
            seen: HashMap::with_hasher(alloc, hashing),
        })
    }

    /// The allocator of its lists. Takes constant time.
    pub fn alloc(&self) -> Global {
        self.alloc
    }

    /// By which hashing names are found. Takes constant time.
    pub fn hashing(&self) -> RandomState
        ensures { result ≡ self.now.hashing }
    {
        self.hashing
    }

    /// Makes room for one more row of this deed, for which this is at hand. Takes for each label that it changes on an element
    /// the time to find the label there and, where it is new there, to copy its name, and time logarithmic in the branches; a
    /// list that is full is doubled, in time linear in it.
    pub fn reserve(&mut self, deed: &Deed, prepared: &Prepared) -> Result<(), NoMemory>
        requires { IsPrepared prepared.now self.old.hashing self.old.base deed.now }
        ensures same { self.new.base ≡ self.old.base }
        ensures room { OnOk result (HasRoom self.new deed.now prepared.now) }
    {
        let count = prepared.keys.len().max(1);
        self.rows.reserve(count)?;
        reserve_marks(&mut self.links, &mut self.newest, count)?;
        reserve_growth(&mut self.tree, &prepared.growth)?;
        reserve_labels(self.alloc, &mut self.labels, deed)?;
        self.specs.reserve(1)?;
        self.listings.reserve(prepared.listings.len())?;
        self.orders.reserve(1)?;
        Ok(())
    }

    /// Adds a row that fits and is made ready. Takes time linear in its keys and in the objects that its config spec names, for
    /// each label that it changes on an element the time to find the label there, and time logarithmic in the branches; no
    /// memory.
    pub fn push(&mut self, row: Row, prepared: Prepared)
        requires fits { fits self.old.base row.deed ≡ true }
        requires room { HasRoom self.old row.deed prepared }
        ensures { self.new.base ≡ row ∷ self.old.base }
    {
        let Prepared {
            keys,
            growth,
            rules,
            listings,
            places,
        } = prepared;
        let number = self.rows.len() as u64 + 1;
        grow(&mut self.tree, number, row.moment(), growth);
        mark_keys(&mut self.links, &mut self.newest, number, keys.as_slice());
        relabel(&mut self.labels, number, row.deed());
        keep_spec(&mut self.specs, number, rules);
        keep_listings(&mut self.listings, listings);
        keep_places(&mut self.orders, number, places);
        self.rows.push_reserved(row);
    }

    /// Takes out what is kept of the files that a view was seen to have, so that more can be kept beside it. No answer changes.
    pub fn take_seen(&mut self, view: &Name) -> Option<(Name, SeenFiles)>
        ensures same { self.new ≡ self.old }
        ensures kept { IfSome result (λ it. IsSeenAs self.old.base view.now it) }
    {
        take_seen(&mut self.seen, view)
    }

    /// Keeps files that a view sees in some first rows, where there is memory for it. No answer changes.
    pub fn keep_seen(&mut self, seen: (Name, SeenFiles))
        requires { AreSeen self.old.base seen.0 seen.1 }
        ensures { self.new ≡ self.old }
    {
        put_seen(&mut self.seen, seen);
    }

    /// How many rows there are after row 0.
    pub fn len(&self) -> usize
        ensures { result ≡ length self.now.base }
    {
        self.rows.len()
    }

    /// All of them, as rows in which to look things up. Takes constant time.
    pub fn all(&self) -> FirstRows<'_>
        ensures { result ≡ self.now.base }
    {
        FirstRows {
            base: self,
            count: self.rows.len(),
        }
    }

    /// The rows alone, from row 1 on.
    pub fn into_vec(self) -> Vec<Row>
        ensures { result.items ≡ oldest_first self.base }
    {
        let Rows {
            hashing: _,
            alloc: _,
            rows,
            links: _,
            newest: _,
            tree: _,
            labels: _,
            specs: _,
            listings: _,
            orders: _,
            seen: _,
        } = self;
        rows
    }
}

/// The first rows of a base. Contracts see them as the model has them, the newest first; they are a base too.
#[derive(Drop)]
pub struct FirstRows<'a> {
    base: &'a Rows,
    count: usize,
}

impl<'a> Model for FirstRows<'a> {
    ghost use Rattle.base_model.specs.Rows.{Base, first_rows};
    ghost use Rattle.std.specs.Prelude.{suc};
    ghost use Rattle.base_rows.specs.BasePrefix.{IsBasePrefix};

    ghost Value = { Base };

    ghost view = { λ first. first_rows (suc first.count) first.base.now.base };

    ghost invariant = { λ first. IsBasePrefix first.count first.base.now.base };
}

/// The row of this number. Takes constant time.
pub fn row_at<'a>(rows: &FirstRows<'a>, number: u64) -> Option<&'a Row>
    ensures { option_copied result ≡ row_at rows.now number }
{
    let index = number.checked_sub(1)?;
    rows.as_slice().get(index as usize)
}

/// The first rows of a base, `count` of them with row 0. Takes constant time.
pub fn first_rows<'a>(rows: &FirstRows<'a>, count: u64) -> FirstRows<'a>
    ensures { result ≡ first_rows count rows.now }
{
    let behind_root = count.saturating_sub(1).min(rows.count as u64);
    FirstRows {
        base: rows.base,
        count: behind_root as usize,
    }
}

impl<'a> FirstRows<'a> {
    /// How many there are, row 0 included. They are a base, so there are at most 4,000,000.
    pub fn size(&self) -> u64
        ensures size { result ≡ size self.now }
        ensures base { is_base self.now ≡ true }
        ensures limit { result ≤ row_limit }
    {
        self.count as u64 + 1
    }

    /// The trees of all rows of the base, with what these rows made of them.
    pub(crate) fn tree(&self) -> &'a Tree
        ensures { of_first_rows (size self.now) result.now.changes ≡ tree self.now }
    {
        let _count = self.count;
        let base = self.base;
        &base.tree
    }

    /// The id of the version that a row made. Takes time logarithmic in the changes of the trees.
    pub(crate) fn version_id(&self, version: u64) -> Option<VersionId>
        ensures { result ≡ version_id (tree self.now) version }
    {
        if self.size() <= version {
            return None;
        }
        let base = self.base;
        base.tree.version_id(version)
    }

    /// The labels of all rows of the base, with what these rows made of them.
    pub(crate) fn labels(&self) -> &'a Book
        ensures { (l : List ℕ) (e : ℕ)
            → holder (labels_of_first_rows (size self.now) result.now.changes) l e
            ≡ holder (labels self.now) l e }
    {
        let _count = self.count;
        let base = self.base;
        &base.labels
    }

    /// The rules that the row of this number gave to its view, where it is one of these rows. Takes time logarithmic in the
    /// config specs.
    pub(crate) fn spec_given(&self, row: u64) -> Option<&'a Rules>
        ensures { option_copied result ≡ option_and_then rules_set (deed_at self.now row) }
    {
        if self.size() <= row {
            return None;
        }
        let base = self.base;
        spec_of(base.specs.as_slice(), row)
    }

    /// What the record of an object lists, where that is kept and it is one of these rows. Takes constant time.
    pub(crate) fn listing(&self, object: u64) -> Option<&'a Versions>
        ensures { IfSome (option_copied result)
            (λ versions. HasListing versions.entries (listing self.now object)) }
    {
        if self.size() <= object {
            return None;
        }
        let base = self.base;
        let listed = base.listings.get(&object)?;
        listed.as_ref()
    }

    /// Whether a config spec names the object of the row after these, which then has what it lists kept. Takes constant time.
    pub(crate) fn names_next(&self) -> bool {
        let base = self.base;
        base.listings.contains_key(&self.size())
    }

    /// The places of an object's targets in byte order, where they are kept and it is one of these rows. Takes constant time.
    pub(crate) fn target_places(&self, object: u64) -> Option<&'a [u32]>
        ensures { IfSome result (λ places. AreOrdered (targets_of self.now object) places.now) }
    {
        if self.size() <= object {
            return None;
        }
        let base = self.base;
        let places = base.orders.get(&object)?;
        Some(places.as_slice())
    }

    /// The row of the file that a view was seen to have at a path in these very rows, or that there is none; nothing where that
    /// is not at hand. Takes time linear in the view's name and in the path.
    pub fn seen_file(&self, view: &Name, path: &Path) -> Option<Option<u64>>
        ensures { IfSome result (λ row. row ≡ file_at self.now view.now path.now) }
    {
        let count = self.size();
        let base = self.base;
        match base.seen.get(view) {
            None => None,
            Some(seen) => seen.row_at(count, path),
        }
    }

    /// That they are a base. Does nothing.
    pub fn are_base(&self)
        ensures { is_base self.now ≡ true }
    {
        let _count = self.count;
    }

    /// The rows from row 1 on.
    pub fn as_slice(&self) -> &'a [Row]
        ensures { result.now ≡ oldest_first self.now }
    {
        let base = self.base;
        &base.rows.as_slice()[..self.count]
    }

    /// The newest of them that does something to a thing, and what it leaves. Takes time linear in the names of its subject and
    /// logarithmic in the rows with its key, and passes the newest of them where they do nothing to the thing, as those of
    /// another subject that shares the key.
    pub fn newest<L: LookUp>(&self, look: &L) -> Option<(u64, Option<L::Item>)>
        ensures { result ≡ newest (L.effect look.now) self.now }
    {
        let base = self.base;
        let mut links = base.links.as_slice();
        let start = base.newest.get(&look.subject().key(base.hashing)).copied();
        let mut next = first_below(links, start, self.size());
        while let Some(place) = next {
            let link = &links[place];
            if let Some(update_by_row) = update_at(self, link.row, look) {
                return Some(update_by_row);
            }
            next = link.older;
            links = &links[..place];
        }
        None
    }

    /// What the last row that does something to a thing leaves of it. Takes the time of `newest`.
    pub fn last<L: LookUp>(&self, look: &L) -> Option<L::Item>
        ensures { result ≡ last_of (L.effect look.now) self.now }
    {
        left_by(self.newest(look))
    }

    /// What the oldest of them from a row on sets a thing to that sets it. Takes time linear in the names of its subject and in
    /// the rows with its key from that row on.
    pub fn oldest_from<L: LookUp>(&self, since: u64, look: &L) -> Option<L::Item>
        ensures { result ≡ oldest (from_row since (L.effect look.now)) self.now }
    {
        let base = self.base;
        let mut links = base.links.as_slice();
        let mut next = base.newest.get(&look.subject().key(base.hashing)).copied();
        let mut oldest = None;
        while let Some(place) = next {
            let link = &links[place];
            if link.row < since {
                return oldest;
            }
            oldest = set_at(self, link.row, look, oldest);
            next = link.older;
            links = &links[..place];
        }
        oldest
    }

    /// The numbers of all of them that do something to a thing, the newest first. Takes time linear in the names of its subject
    /// and in the rows with its key.
    pub fn updating_rows<L: LookUp>(&self, alloc: Global, look: &L) -> Result<Vec<u64>, NoMemory>
        ensures { IfOk result
            (λ numbers. numbers.items ≡ updating_rows (L.effect look.now) self.now) }
    {
        let base = self.base;
        let mut numbers = Vec::new(alloc);
        let mut bound = self.size();
        let mut links = base.links.as_slice();
        let mut next = base.newest.get(&look.subject().key(base.hashing)).copied();
        while let Some(place) = next {
            let link = &links[place];
            add_updating_row(self, &mut numbers, bound, link.row, look)?;
            bound = bound.min(link.row);
            next = link.older;
            links = &links[..place];
        }
        Ok(numbers)
    }
}
