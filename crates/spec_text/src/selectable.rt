//! What rules ask of what there is to select from.

ghost use Rattle.std.specs.Prelude.{◌≡◌};
ghost use Rattle.cc_names.specs.Branches.{branch_above, branch_named};
ghost use Rattle.cc_names.specs.Labels.{holder};
ghost use Rattle.cc_names.specs.Versions.{latest, version_of_number};

use cc_names::names::Name;
use cc_names::paths::Path;

/// What there is to select from. Each query answers as its definition does over it.
pub trait Selectable {
    ghost use Rattle.base_model.specs.ConfigSpecs.Rules.{Selectables};

    ghost selectables: { Self → Selectables };

    /// The element's branch of a name, wherever it leaves; `main` is no such branch.
    fn branch_named(&self, element: u64, name: &Name) -> Option<u64>
        ensures { result ≡ branch_named (selectables self.now).tree element name.now };

    /// The branch on which a branch leaves its element's tree; `main` has none.
    fn branch_above(&self, branch: u64) -> Option<u64>
        ensures { result ≡ branch_above (selectables self.now).tree branch };

    /// The last version on a branch that was made before the moment.
    fn latest(&self, branch: u64, before: Option<u64>) -> Option<u64>
        ensures { result ≡ latest (selectables self.now).tree branch before };

    /// The version with a number on a branch.
    fn version_of_number(&self, branch: u64, number: u64) -> Option<u64>
        ensures { result ≡ version_of_number (selectables self.now).tree branch number };

    /// The version of the element that holds the label.
    fn holder(&self, label: &Name, element: u64) -> Option<u64>
        ensures { result ≡ holder (selectables self.now).labels label.now element };

    /// The version of the element that the record of an object with this target lists.
    fn recorded_version(&self, object: u64, target: &Path, element: u64) -> Option<u64>
        ensures { result ≡ (selectables self.now).listed object target.now element };

    /// The row that makes the text of the view's checkout, where it has one.
    fn checkout(&self) -> Option<u64>
        ensures { result ≡ (selectables self.now).out };
}
