//! Which version of an element a view selects.

ghost use Rattle.std.specs.Prelude.{◌≡◌};
ghost use Rattle.cc_names.specs.Paths.{names_of};
ghost use Rattle.base_model.specs.Seen.{selection_at};

use crate::branch_names::branch_named;
use base_rows::bases::FirstRows;
use base_rows::checkouts::making;
use base_rows::labels::holder;
use base_rows::listings::recorded_version;
use base_rows::trees::{branch_of_version, latest_version, origin_of, version_numbered};
use base_rows::view_specs::rules;
use cc_names::names::Name;
use cc_names::paths::Path;
use cc_names::selection::Picked;
use spec_text::{Selectable, pick_from};

/// What there is to select from in the first rows of a base, and the row that makes the text of the view's checkout.
#[derive(Drop)]
struct SelectableRows<'a, 'b> {
    rows: &'a FirstRows<'b>,
    out: Option<u64>,
}

impl Selectable for SelectableRows<'_, '_> {
    ghost use Rattle.view_lookup.specs.Picking.{selectables};

    ghost selectables = { λ selectable. selectables selectable.rows.now selectable.out };

    fn branch_named(&self, element: u64, name: &Name) -> Option<u64> {
        branch_named(self.rows, element, name)
    }

    fn branch_above(&self, branch: u64) -> Option<u64> {
        branch_of_version(self.rows, origin_of(self.rows, branch)?)
    }

    fn latest(&self, branch: u64, before: Option<u64>) -> Option<u64> {
        latest_version(self.rows, branch, before)
    }

    fn version_of_number(&self, branch: u64, number: u64) -> Option<u64> {
        version_numbered(self.rows, branch, number)
    }

    fn holder(&self, label: &Name, element: u64) -> Option<u64> {
        holder(self.rows, label, element)
    }

    fn recorded_version(&self, object: u64, target: &Path, element: u64) -> Option<u64> {
        recorded_version(self.rows, object, target, element)
    }

    fn checkout(&self) -> Option<u64> {
        self.out
    }
}

/// What the first rule of the view's config spec that decides picks of the element at the path of these bytes; nothing in a
/// view that there is not. Takes the time of `making` and of `rules`, and for each rule tried the matching of the path and one
/// look-up, for a rule that names a branch two for each of its names; no memory.
pub fn pick(rows: &FirstRows<'_>, view: &Name, element: u64, path: &[u8]) -> Option<Picked>
    ensures { result ≡ selection_at rows.now view.now element (names_of path.now) }
{
    let spec = rules(rows, view)?;
    let selectable = SelectableRows {
        rows,
        out: making(rows, view, element),
    };
    pick_from(&selectable, spec, element, path)
}
