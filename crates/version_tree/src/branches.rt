//! A branch and its versions, in order of their rows.

ghost use Rattle.std.specs.Prelude.{◌≡◌, ◌==◌, map, reverse, find, option_map, nat_lt};
ghost use Rattle.cc_names.specs.Versions.{row_of_version, number_of_version, is_before};
ghost use Rattle.cc_names.specs.Falling.{Falls};
ghost use Rattle.version_tree.specs.Branches.{row_within};

use cc_names::by_row::{ByRow, count_below, place_of};

/// A version after version 0 of its branch.
#[derive(Clone, Copy, Debug)]
pub struct Later {
    pub row: u64,
    pub moment: u64,
}

impl ByRow for Later {
    ghost row_in = { λ later. later.row };

    fn row(&self) -> u64 {
        self.row
    }
}

/// A branch: the row that made it and its version 0, when that was, and the versions after, in order of their rows.
#[derive(Debug, Drop)]
pub struct Branch {
    pub row: u64,
    pub moment: u64,
    pub later: Vec<Later>,
}

impl ByRow for Branch {
    ghost row_in = { λ branch. branch.row };

    fn row(&self) -> u64 {
        self.row
    }
}

/// Whether a moment is before another one, where there is another one.
fn is_before(before: Option<u64>, moment: u64) -> bool
    ensures { result ≡ is_before before moment }
{
    match before {
        Some(limit) => moment < limit,
        None => true,
    }
}

/// The last of these versions that was made before the moment. The clock may have gone back, so it walks back from the end.
fn last_before(later: &[Later], before: Option<u64>) -> Option<u64>
    ensures { result
        ≡ option_map (λ v. v.row) (find (λ v. is_before before v.moment) (reverse later.now)) }
{
    later
        .iter()
        .rev()
        .find(|version| is_before(before, version.moment))
        .map(|version| version.row)
}

/// A row, where it is among the first `rows` rows.
fn among_first_rows(row: Option<u64>, rows: u64) -> Option<u64>
    ensures { result ≡ row_within rows row }
{
    row.filter(|row| *row < rows)
}

impl Branch {
    ghost use Rattle.version_tree.specs.Branches.{row_of_later, versions_stored, stored_of_first_rows, row_if, row_numbered};

    /// The last version in the first `rows` rows that was made before the moment.
    pub fn latest(&self, rows: u64, before: Option<u64>) -> Option<u64>
        requires { Falls (map row_of_later (reverse self.now.later.items)) }
        ensures { result
            ≡ option_map row_of_version
            (find (λ v. is_before before v.moment) (stored_of_first_rows rows self.now)) }
    {
        let count = count_below(&self.later, rows);
        match last_before(&self.later[..count], before) {
            Some(row) => Some(row),
            None => self.first_before(rows, before),
        }
    }

    // Version 0, where it is among the first `rows` rows and before the moment.
    fn first_before(&self, rows: u64, before: Option<u64>) -> Option<u64>
        ensures { result
            ≡ row_if (nat_lt self.now.row rows) (is_before before self.now.moment) self.now.row }
    {
        if self.row < rows && is_before(before, self.moment) {
            Some(self.row)
        } else {
            None
        }
    }

    /// The version with the number, where it is among the first `rows` rows.
    pub fn version_of_number(&self, number: u64, rows: u64) -> Option<u64>
        ensures { result
            ≡ option_map row_of_version
            (find (λ v. v.number == number) (stored_of_first_rows rows self.now)) }
    {
        among_first_rows(self.row_numbered(number), rows)
    }

    // The row of the version with the number.
    fn row_numbered(&self, number: u64) -> Option<u64>
        ensures { result ≡ row_numbered self.now.row self.now.later.items number }
    {
        if number == 0 {
            return Some(self.row);
        }
        self.later
            .get(number as usize - 1)
            .map(|version| version.row)
    }

    /// The number of the version that a row made on this branch.
    pub fn number_of(&self, row: u64) -> Option<u64>
        requires { Falls (map row_of_later (reverse self.now.later.items)) }
        ensures { result
            ≡ option_map number_of_version (find (λ v. v.row == row) (versions_stored self.now)) }
    {
        match place_of(&self.later, row) {
            Some(behind) => Some(behind as u64 + 1),
            None if self.row == row => Some(0),
            None => None,
        }
    }
}
