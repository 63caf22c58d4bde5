//! Look-ups by halving in lists whose items are in order of the rows that made them.

ghost use Rattle.std.specs.Prelude.{ℕ, ◌≡◌, ◌==◌, ◌<◌, ◌≤◌, length, map, reverse, nat_lt, true, false, find, slice_get, IfSome, option_and_then, option_copied};
ghost use Rattle.std.specs.List.Sorted.{IsPartitionPoint};
ghost use Rattle.cc_names.specs.Falling.{Falls};

/// A thing that a row made.
pub trait ByRow {
    ghost row_in: { Self → ℕ };

    /// The row that made it.
    fn row(&self) -> u64
        ensures { result ≡ row_in self.now };
}

/// How many items have a row below the bound: these are the first ones. Takes time logarithmic in the items.
pub fn count_below<T: ByRow>(items: &[T], bound: u64) -> usize
    requires { Falls (map T.row_in (reverse items.now)) }
    ensures below { IsPartitionPoint (λ item. nat_lt (T.row_in item) bound ≡ true)
        (λ item. nat_lt (T.row_in item) bound ≡ false) items.now result }
    ensures within { result ≤ length items.now }
{
    items.partition_point(|item| item.row() < bound)
}

/// The place of the item that a row made. Takes time logarithmic in the items.
pub fn place_of<T: ByRow>(items: &[T], row: u64) -> Option<usize>
    requires { Falls (map T.row_in (reverse items.now)) }
    ensures found { option_and_then (slice_get items.now) result
        ≡ find (λ item. T.row_in item == row) items.now }
    ensures within { IfSome result (λ place. place < length items.now) }
{
    let place = count_below(items, row);
    match items.get(place) {
        Some(item) if item.row() == row => Some(place),
        _ => None,
    }
}

/// The item that a row made. Takes time logarithmic in the items.
pub fn item_of<T: ByRow>(items: &[T], row: u64) -> Option<&T>
    requires { Falls (map T.row_in (reverse items.now)) }
    ensures { option_copied result ≡ find (λ item. T.row_in item == row) (reverse items.now) }
{
    let place = place_of(items, row)?;
    Some(&items[place])
}
