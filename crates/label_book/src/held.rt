//! Labels on elements with their changes, and how one is found among all.

ghost use Rattle.std.specs.Prelude.{◌≡◌, ◌++◌, ◌∷◌, [], ℕ, IfSome, IfNone, IfOk, OnOk, OnErr, List, None, map, reverse, bytes_eq};
ghost use Rattle.std.specs.List.{IsDistinct};
ghost use Rattle.indexmap.specs.IndexMap.{get};
ghost use Rattle.cc_names.specs.Falling.{Falls};
ghost use Rattle.cc_names.specs.Labels.{labels_of_first_rows, holder};
ghost use Rattle.label_book.specs.Holding.{row_of_move, changes_by, is_same_label, all_held, AreNamed, HasGrown, IsPlaceOf, HasNoPlace, IsPlaceOfLabel};

use cc_names::by_row::{ByRow, count_below};
use cc_names::memory::NoMemory;
use cc_names::names::Name;
use indexmap::{IndexMap, IndexSet};
use std::alloc::Global;
use std::hash::RandomState;

/// One change of a label on an element: the version on which it was put, or none where it was taken off.
#[derive(Clone, Copy, Debug)]
pub struct Move {
    pub row: u64,
    pub version: Option<u64>,
}

impl ByRow for Move {
    ghost row_in = { λ move. move.row };

    fn row(&self) -> u64 {
        self.row
    }
}

/// A label, by its place among the labels of a book, on an element.
#[derive(Clone, Copy, Debug, PartialEq, Eq, Hash)]
pub struct LabelOn {
    pub label: usize,
    pub element: u64,
}

/// The labels of a book. Each keeps its place.
pub type Labels = IndexSet<Name, RandomState>;

/// The changes of each label on each element, in order of their rows.
pub type Moves = IndexMap<LabelOn, Vec<Move>, RandomState>;

/// The place of a label on an element among all. Takes time linear in the label's name.
pub fn find_label(labels: &Labels, moves: &Moves, label: &Name, element: u64) -> Option<usize>
    requires apart { IsDistinct bytes_eq labels.now.keys }
    requires named { AreNamed labels.now.keys moves.now.entries }
    ensures found { IfSome result
        (IsPlaceOf label.now element (all_held labels.now.keys moves.now.entries)) }
    ensures absent { IfNone result
        (HasNoPlace label.now element (all_held labels.now.keys moves.now.entries)) }
{
    let label = labels.get_index_of(label)?;
    moves.get_index_of(&LabelOn { label, element })
}

/// The place of a label, which is put last where it is new. Takes time linear in its name.
pub fn place_of_label(alloc: Global, labels: &mut Labels, label: &Name) -> Result<usize, NoMemory>
    requires apart { IsDistinct bytes_eq labels.old.keys }
    ensures apart { IsDistinct bytes_eq labels.new.keys }
    ensures grown { HasGrown labels.old.keys labels.new.keys }
    ensures place { IfOk result (IsPlaceOfLabel label.now labels.new.keys) }
{
    if let Some(place) = labels.get_index_of(label) {
        return Ok(place);
    }
    let (place, _) = labels.insert_full(label.copy(alloc)?)?;
    Ok(place)
}

/// Adds the changes of a label on an element after all others, where it has none yet.
pub fn put_last(moves: &mut Moves, on: LabelOn, changes: Vec<Move>) -> Result<(), NoMemory>
    requires { get is_same_label moves.old on ≡ None }
    ensures put { OnOk result (moves.new.entries ≡ moves.old.entries ++ (on, changes) ∷ []) }
    ensures unchanged { OnErr result (moves.new.entries ≡ moves.old.entries) }
{
    moves.insert(on, changes)?;
    Ok(())
}

/// The version on which a label stood in the first `rows` rows, by its changes. Takes time logarithmic in them.
pub fn version_at(moves: &[Move], rows: u64) -> Option<u64>
    requires { Falls (map row_of_move (reverse moves.now)) }
    ensures { (l : List ℕ) (e : ℕ)
        → result ≡ holder (labels_of_first_rows rows (changes_by l e moves.now)) l e }
{
    match count_below(moves, rows) {
        0 => None,
        count => moves[count - 1].version,
    }
}
