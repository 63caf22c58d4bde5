//! What a view's checkouts of directories name, and which elements are directories and which files.

ghost use Rattle.std.specs.Prelude.{◌≡◌};
ghost use Rattle.base_model.specs.Conditions.{has_name, has_out_by_name, is_directory, is_file};

use crate::catalogs::named_by_checkout;
use crate::seen::kind_of;
use base_rows::bases::FirstRows;
use base_rows::checkouts::has_out;
use cc_names::names::Name;
use cc_names::rows::Kind;

/// Whether an element is a file. Takes constant time.
pub fn is_file_element(rows: &FirstRows<'_>, element: u64) -> bool
    ensures { result ≡ is_file rows.now element }
{
    matches!(kind_of(rows, element), Some(Kind::File))
}

/// Whether an element is a directory. Takes constant time.
pub fn is_directory_element(rows: &FirstRows<'_>, element: u64) -> bool
    ensures { result ≡ is_directory rows.now element }
{
    matches!(kind_of(rows, element), Some(Kind::Directory))
}

/// Whether the catalog of the view's checkout of a directory has the name. Takes the time of `named_by_checkout`.
pub fn has_name(rows: &FirstRows<'_>, view: &Name, directory: u64, name: &Name) -> bool
    ensures { result ≡ has_name rows.now view.now directory name.now }
{
    named_by_checkout(rows, view, directory, name).is_some()
}

/// Whether the view has checked out the element that the catalog of its checkout of a directory names so. Takes the time of
/// `named_by_checkout` and of `checked_out`.
pub fn has_out_by_name(rows: &FirstRows<'_>, view: &Name, directory: u64, name: &Name) -> bool
    ensures { result ≡ has_out_by_name rows.now view.now directory name.now }
{
    match named_by_checkout(rows, view, directory, name) {
        None => false,
        Some(element) => has_out(rows, view, element),
    }
}
