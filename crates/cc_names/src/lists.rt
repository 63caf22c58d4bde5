//! A list as a field of plain data.

ghost use Rattle.std.specs.Prelude.{◌≡◌, ◌↔◌, IsTrue, List, [], length};
ghost use Rattle.std.specs.Cmp.Lexicographic.{pointwise, lists_per, lists_equiv};

use std::alloc::Global;
use std::marker::Model;

/// A list that plain data holds in a field. Contracts see it as its items.
#[derive(Debug, Drop)]
pub struct List<X> {
    items: Vec<X>,
}

impl<X> Model for List<X> {
    ghost use Rattle.std.specs.Prelude.{List};

    ghost Value = { List X };

    ghost view = { λ list. list.items.items };
}

impl<X> List<X> {
    /// The list of these items. Takes no memory.
    pub fn of(items: Vec<X>) -> List<X>
        ensures { result ≡ items.items }
    {
        List { items }
    }

    /// The list of no items. Takes no memory.
    pub fn empty(alloc: Global) -> List<X>
        ensures { result ≡ [] }
    {
        List {
            items: Vec::new(alloc),
        }
    }

    /// The number of items.
    pub fn len(&self) -> usize
        ensures { result ≡ length self.now }
    {
        self.items.len()
    }

    /// Whether there are no items.
    pub fn is_empty(&self) -> bool
        ensures { IsTrue result ↔ (self.now ≡ []) }
    {
        self.items.is_empty()
    }

    /// The items, in order.
    pub fn as_slice(&self) -> &[X]
        ensures { result.now ≡ self.now }
    {
        self.items.as_slice()
    }

    /// The items themselves.
    pub fn into_items(self) -> Vec<X>
        ensures { result.items ≡ self }
    {
        let List { items } = self;
        items
    }
}

impl<X: PartialEq> PartialEq for List<X> {
    ghost eq = { pointwise X.eq };

    ghost laws = { lists_per X.PartialEq.laws };

    fn eq(&self, other: &List<X>) -> bool {
        self.as_slice() == other.as_slice()
    }
}

impl<X: Eq> Eq for List<X> {
    ghost laws = { lists_equiv X.Eq.laws };
}
