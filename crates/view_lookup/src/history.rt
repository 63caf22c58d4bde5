//! The rows of an element's history.

ghost use Rattle.std.specs.Prelude.{◌≡◌, ◌≤◌, IfOk, length, map, nat_lt, true, false, find};
ghost use Rattle.std.specs.List.{list_any};
ghost use Rattle.std.specs.List.Sorted.{IsPartitionPoint, IsStrictlySortedBy};
ghost use Rattle.std.specs.Option.{option_copied};
ghost use Rattle.std.specs.Ordering.{nat_cmp};
ghost use Rattle.cc_names.specs.Formed.{element_of};
ghost use Rattle.base_rows.specs.Histories.{history_of, is_placed_on};

use base_rows::bases::FirstRows;
use base_rows::look_ups::{Does, LookUp, only_if};
use base_rows::subjects::Subject;
use cc_names::memory::NoMemory;
use cc_names::rows::{Deed, Placed};
use std::alloc::Global;

/// What is done to an element and to its labels.
#[derive(Clone, Copy)]
struct HistoryOf {
    element: u64,
}

impl LookUp for HistoryOf {
    type Item = u64;

    ghost use Rattle.base_rows.specs.Laws.AffectedSubjects.{history_affects};
    ghost use Rattle.base_rows.specs.Histories.{history_effect};
    ghost use Rattle.base_rows.specs.Subjects as model;

    ghost effect = { λ it. history_effect it.element };

    ghost about = { λ it. model.History it.element };

    fn effect(&self, older: &FirstRows<'_>, deed: &Deed) -> Does<u64> {
        let number = older.size();
        let is_in_history = match deed {
            Deed::Mkelem { .. } => number == self.element,
            Deed::Branch { element, .. } => *element == self.element,
            Deed::Checkin { element, .. } => *element == self.element,
            Deed::Label { element, .. } => *element == self.element,
            Deed::Unlabel { element, .. } => *element == self.element,
            Deed::Labels { placed, .. } => is_placed_on(self.element, placed.as_slice()),
            _ => false,
        };
        only_if(is_in_history, Does::Sets(number))
    }

    fn subject(&self) -> Subject<'_> {
        Subject::History(self.element)
    }

    ghost affects = { λ it. history_affects it.element };
}

/// How many of these lie before the place of the element. Takes time logarithmic in them.
fn count_before(element: u64, placed: &[Placed]) -> usize
    requires { IsStrictlySortedBy nat_cmp (map element_of placed.now) }
    ensures before { IsPartitionPoint (λ one. nat_lt (element_of one) element ≡ true)
        (λ one. nat_lt (element_of one) element ≡ false) placed.now result }
    ensures within { result ≤ length placed.now }
{
    placed.partition_point(|one| one.element < element)
}

/// The one of these that is on a version of the element, where they are in the order of their elements. Takes time logarithmic
/// in them.
pub fn placed_on(element: u64, placed: &[Placed]) -> Option<&Placed>
    requires { IsStrictlySortedBy nat_cmp (map element_of placed.now) }
    ensures { option_copied result ≡ find (is_placed_on element) placed.now }
{
    match placed.get(count_before(element, placed)) {
        Some(one) if one.element == element => Some(one),
        _ => None,
    }
}

/// Whether a label is put on a version of the element. Takes the time of `placed_on`.
fn is_placed_on(element: u64, placed: &[Placed]) -> bool
    requires { IsStrictlySortedBy nat_cmp (map element_of placed.now) }
    ensures { result ≡ list_any (is_placed_on element) placed.now }
{
    placed_on(element, placed).is_some()
}

/// The numbers of the rows that made an element, a branch or a version of it, or put a label on a version of it or took one off,
/// the newest first. Takes time linear in them and in the rows with the element's key, and for each that put a label on many
/// versions the time of `placed_on`.
pub fn history_of(alloc: Global, rows: &FirstRows<'_>, element: u64) -> Result<Vec<u64>, NoMemory>
    ensures { IfOk result (λ numbers. numbers.items ≡ history_of rows.now element) }
{
    rows.updating_rows(alloc, &HistoryOf { element })
}
