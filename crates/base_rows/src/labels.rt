//! The changes of labels that rows make, and where a label stood at the first rows.

ghost use Rattle.std.specs.Prelude.{◌≡◌, ℕ, List, IfOk, OnOk, map};
ghost use Rattle.std.specs.List.Sorted.{IsStrictlySortedBy};
ghost use Rattle.std.specs.Ordering.{nat_cmp};
ghost use Rattle.cc_names.specs.Falling.{IsAbove};
ghost use Rattle.cc_names.specs.Formed.{IsDeedFormed, element_of};
ghost use Rattle.cc_names.specs.Labels.{holder};
ghost use Rattle.label_book.specs.Marks.{KeepsMarks, rows_of_pair};
ghost use Rattle.label_book.specs.Standings.{AreStanding};
ghost use Rattle.base_model.specs.Changes.{all_placed, labels, labels_after};
ghost use Rattle.base_model.specs.Conditions.{has_label};
ghost use Rattle.base_rows.specs.Labelling.{AreLabels, AreReady, HasLabelRoom};

use crate::bases::FirstRows;
use cc_names::memory::NoMemory;
use cc_names::names::Name;
use cc_names::rows::{Deed, Placed};
use label_book::{Book, Standing};
use std::alloc::Global;

/// Makes room to put a label on each of these versions.
fn reserve_all(
    alloc: Global,
    book: &mut Book,
    label: &Name,
    placed: &[Placed],
) -> Result<(), NoMemory>
    ensures kept { KeepsMarks book.old book.new }
    ensures ready { OnOk result (AreReady book.new label.now placed.now) }
{
    for one in placed {
        book.reserve(alloc, label, &[one.element])?;
    }
    Ok(())
}

/// Makes room for the changes of labels that a row of this deed makes. Takes for each of them the time of `Book::reserve`.
pub(crate) fn reserve_labels(alloc: Global, book: &mut Book, deed: &Deed) -> Result<(), NoMemory>
    ensures kept { KeepsMarks book.old book.new }
    ensures room { OnOk result (HasLabelRoom book.new deed.now) }
{
    match deed {
        Deed::Label { label, element, .. } => book.reserve(alloc, label, &[*element]),
        Deed::Unlabel { label, element } => book.reserve(alloc, label, &[*element]),
        Deed::Labels { label, placed } => reserve_all(alloc, book, label, placed.as_slice()),
        _ => Ok(()),
    }
}

/// Puts a label on versions, each of an element of its own.
fn attach_all(book: &mut Book, row: u64, label: &Name, placed: &[Placed])
    requires above { (l : List ℕ) (e : ℕ) → IsAbove row (rows_of_pair l e book.old.changes) }
    requires ready { AreReady book.old label.now placed.now }
    requires rising { IsStrictlySortedBy nat_cmp (map element_of placed.now) }
    ensures { AreLabels book.new.changes
        (all_placed row label.now placed.now book.old.changes) }
{
    for one in placed {
        book.attach(row, label, one.element, one.version);
    }
}

/// Makes the changes of labels that a row of this deed makes, whose number is above all so far. Takes for each change the time
/// to find the label on the element, and no memory.
pub(crate) fn relabel(book: &mut Book, row: u64, deed: &Deed)
    requires above { (l : List ℕ) (e : ℕ) → IsAbove row (rows_of_pair l e book.old.changes) }
    requires room { HasLabelRoom book.old deed.now }
    requires formed { IsDeedFormed deed.now }
    ensures { AreLabels book.new.changes (labels_after row deed.now book.old.changes) }
{
    match deed {
        Deed::Label {
            label,
            element,
            version,
        } => book.attach(row, label, *element, *version),
        Deed::Unlabel { label, element } => book.detach(row, label, *element),
        Deed::Labels { label, placed } => attach_all(book, row, label, placed.as_slice()),
        _ => {}
    }
}

/// The version of the element that holds the label. Takes time linear in the label's name to find the label on the element, at
/// most once for each label on an element with its key, which mostly is this one alone; and time logarithmic in its changes
/// there.
pub fn holder(rows: &FirstRows<'_>, label: &Name, element: u64) -> Option<u64>
    ensures { result ≡ holder (labels rows.now) label.now element }
{
    rows.labels().at(label, element, rows.size())
}

/// The labels that stand on versions of the element, each with its version. Takes for each label that was ever put on the element
/// the time of `holder`.
pub fn standing_labels<'a>(
    alloc: Global,
    rows: &FirstRows<'a>,
    element: u64,
) -> Result<Vec<Standing<'a>>, NoMemory>
    ensures { IfOk result
        (λ found. AreStanding (λ l. holder (labels rows.now) l element) found.items) }
{
    rows.labels().standing(alloc, element, rows.size())
}

/// Whether the label stands on a version of the element. Takes the time of `holder`.
pub fn has_label(rows: &FirstRows<'_>, label: &Name, element: u64) -> bool
    ensures { result ≡ has_label rows.now label.now element }
{
    holder(rows, label, element).is_some()
}
