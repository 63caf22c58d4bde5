//! A change of the trees of versions, found by the row that made it.

use cc_names::by_row::ByRow;
use cc_names::changes::TreeChange;

/// A change, in a type of this crate, so that it can be found by its row (`ByRow` is of `cc_names`, as `TreeChange`).
#[derive(Drop)]
pub struct Made {
    pub change: TreeChange,
}

impl ByRow for Made {
    ghost use Rattle.cc_names.specs.Versions.{row_of_change};

    ghost row_in = { λ made. row_of_change made.change };

    fn row(&self) -> u64 {
        match &self.change {
            TreeChange::ElementMade { row, .. } => *row,
            TreeChange::BranchMade { row, .. } => *row,
            TreeChange::VersionMade { row, .. } => *row,
        }
    }
}
