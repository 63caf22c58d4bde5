//! The holder of every label on every element, as it was at any number of rows.
//!
//! What it is for: a label stands on at most one version of an element, and may be moved, taken off and put again. The book
//! answers on which version it stood when the base had only its first `rows` rows.
//!
//! What it promises: each answer is that of the definition over the list of changes (`cc_names`, `Labels`), None exactly
//! where it finds nothing. Putting a label and taking it off take no memory, where room was reserved before.
//!
//! What it stands on: `cc_names`, and `indexmap` of the kit, which finds a label by its name and then on an element.
#![tactic(auto)]

ghost use Rattle.std.specs.Prelude.{◌≡◌, ℕ, ◌<◌, ◌∷◌, [], IsTrue, IfOk, OnOk, length, map, slice_index};
ghost use Rattle.cc_names.specs.Labels.{labels_of_first_rows, holder};
ghost use Rattle.cc_names.specs.Falling.{IsAbove};
ghost use Rattle.cc_names.specs.declared.changes.LabelChange.TheVariants as changes;
ghost use Rattle.label_book.specs.Marks.{rows_of_pair, has_label_room, AddsLabelChange, KeepsMarks};
ghost use Rattle.label_book.specs.Standings.{AreStanding, placements, plain};

mod element_labels;
mod held;
pub mod laws;

use cc_names::memory::NoMemory;
use cc_names::names::Name;
pub use element_labels::Standing;
use element_labels::{ElementLabels, add_standing, labels_listed, list_label};
use held::{LabelOn, Labels, Move, Moves, find_label, place_of_label, put_last, version_at};
use indexmap::{IndexMap, IndexSet};
use std::alloc::Global;
use std::hash::RandomState;
use std::marker::Model;

/// The labels of a base on its elements. Contracts see the list of changes.
#[derive(Debug, Drop)]
pub struct Book {
    labels: Labels,
    moves: Moves,
    // The labels that were ever put on each element. One may come twice after memory ran out.
    lists: ElementLabels,
}

impl Model for Book {
    ghost use Rattle.label_book.specs.Marks.{Marks};

    ghost Value = { Marks };

    ghost use Rattle.label_book.specs.BookFields.{marks_of, IsBookInStep};

    ghost view = { marks_of };

    ghost invariant = { IsBookInStep };
}

impl Book {
    ghost use Rattle.label_book.specs.Holding.{change_by};

    /// A book without labels, in which they are found by hashing their names so. Takes constant time.
    pub fn new(alloc: Global, hashing: RandomState) -> Result<Book, NoMemory>
        ensures { IfOk result (λ book. book.changes ≡ []) }
    {
        Ok(Book {
            labels: IndexSet::with_hasher(alloc, hashing),
            moves: IndexMap::with_hasher(alloc, hashing),
            lists: IndexMap::with_hasher(alloc, hashing),
        })
    }

    /// Makes room for one change of a label on each of these elements. Takes for each the time to find the label there, as
    /// `at` does, and to copy its name where it is new; a list that is full is doubled, in time linear in it.
    pub fn reserve(&mut self, alloc: Global, label: &Name, elements: &[u64]) -> Result<(), NoMemory>
        ensures kept { KeepsMarks self.old self.new }
        ensures ready { OnOk result
            ((k : ℕ)
            → k < length elements.now
            → IsTrue (has_label_room self.new label.now (slice_index elements.now k))) }
    {
        for element in elements {
            self.reserve_one(alloc, label, *element)?;
        }
        Ok(())
    }

    // Makes room for one change of a label on an element.
    fn reserve_one(&mut self, alloc: Global, label: &Name, element: u64) -> Result<(), NoMemory>
        ensures kept { KeepsMarks self.old self.new }
        ensures ready { OnOk result (IsTrue (has_label_room self.new label.now element)) }
    {
        if let Some(place) = find_label(&self.labels, &self.moves, label, element) {
            let moves = &mut self.moves[place];
            moves.reserve(1)?;
            return Ok(());
        }
        // Most labels are put once and stay: the first change has room for itself alone.
        let moves = Vec::with_capacity(alloc, 1)?;
        let label = place_of_label(alloc, &mut self.labels, label)?;
        list_label(alloc, &mut self.lists, element, label)?;
        put_last(&mut self.moves, LabelOn { label, element }, moves)?;
        Ok(())
    }

    /// Puts a label on a version of an element. The row is above all rows so far of this label on this element. Takes the
    /// time to find the label there, as `at` does.
    pub fn attach(&mut self, row: u64, label: &Name, element: u64, version: u64)
        requires above { IsAbove row (rows_of_pair label.now element self.old.changes) }
        requires ready { IsTrue (has_label_room self.old label.now element) }
        ensures { AddsLabelChange self.old self.new (changes.Put row label.now element version) }
    {
        self.add(
            label,
            element,
            Move {
                row,
                version: Some(version),
            },
        );
    }

    /// Takes a label off an element. The row is above all rows so far of this label on this element. Takes the time to find
    /// the label there, as `at` does.
    pub fn detach(&mut self, row: u64, label: &Name, element: u64)
        requires above { IsAbove row (rows_of_pair label.now element self.old.changes) }
        requires ready { IsTrue (has_label_room self.old label.now element) }
        ensures { AddsLabelChange self.old self.new (changes.Taken row label.now element) }
    {
        self.add(label, element, Move { row, version: None });
    }

    // Adds one change of a label on an element.
    fn add(&mut self, label: &Name, element: u64, change: Move)
        requires above { IsAbove change.row (rows_of_pair label.now element self.old.changes) }
        requires ready { IsTrue (has_label_room self.old label.now element) }
        ensures { AddsLabelChange self.old self.new
            (change_by label.now element change.row change.version) }
    {
        match find_label(&self.labels, &self.moves, label, element) {
            Some(place) => {
                let moves = &mut self.moves[place];
                moves.push_reserved(change);
            }
            None => unreachable!(),
        }
    }

    /// The version of an element that held a label in the first `rows` rows. Takes time linear in the label's name to find the
    /// label there, and time logarithmic in its changes there.
    pub fn at(&self, label: &Name, element: u64, rows: u64) -> Option<u64>
        ensures { result ≡ holder (labels_of_first_rows rows self.now.changes) label.now element }
    {
        let place = find_label(&self.labels, &self.moves, label, element)?;
        version_at(&self.moves[place], rows)
    }

    /// The labels that stood on versions of an element in the first `rows` rows. Takes for each label that was ever put on the
    /// element the time of `at`.
    pub fn standing(
        &self,
        alloc: Global,
        element: u64,
        rows: u64,
    ) -> Result<Vec<Standing<'_>>, NoMemory>
        ensures { IfOk result
            (λ found. AreStanding
            (λ l. holder (labels_of_first_rows rows self.now.changes) l element) found.items) }
    {
        let places = labels_listed(&self.lists, element);
        self.standing_at(alloc, &self.labels, places, element, rows)
    }

    // Those of the labels at these places that stood on versions of the element in the first `rows` rows.
    fn standing_at<'a>(
        &self,
        alloc: Global,
        labels: &'a Labels,
        places: &[usize],
        element: u64,
        rows: u64,
    ) -> Result<Vec<Standing<'a>>, NoMemory>
        ensures { IfOk result
            (λ found. map plain found.items
            ≡ placements labels.now.keys
            (λ l. holder (labels_of_first_rows rows self.now.changes) l element) places.now) }
    {
        let mut found = Vec::new(alloc);
        for place in places {
            if let Some(label) = labels.get_index(*place) {
                add_standing(&mut found, label, self.at(label, element, rows))?;
            }
        }
        Ok(found)
    }
}
