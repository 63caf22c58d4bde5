//! Which element a name stands for in a catalog: in that of a version of a directory, or in that of a view's checkout of one.

ghost use Rattle.std.specs.Prelude.{◌≡◌, Some, suc};
ghost use Rattle.base_model.specs.Catalogs.{catalog_of, element_named, own_of};
ghost use Rattle.base_model.specs.Closures.{greater_of};
ghost use Rattle.base_model.specs.Rows.{first_rows};
ghost use Rattle.view_lookup.specs.Resolving.{Resolves, catalog_in};
ghost use Rattle.base_rows.specs.Entries.{entry_effect};
ghost use Rattle.base_rows.specs.LookUps.{last_of};
ghost use Rattle.view_lookup.specs.AlteringRows.{altered_by};

use base_rows::bases::{FirstRows, first_rows, row_at};
use base_rows::changed::AlteredOn;
use base_rows::edits::{BegunOf, ChangedOf, Edit, edit_of, is_name};
use base_rows::look_ups::{later, left_by};
use base_rows::trees::branch_of_version;
use cc_names::names::Name;
use cc_names::rows::Deed;

/// A catalog: that of a version of a directory, or that of a view's checkout of one.
#[derive(Clone, Copy)]
pub(crate) enum Catalog<'a> {
    OfVersion(u64),
    OfCheckout(&'a Name, u64),
}

/// What a row tells of a name in a catalog: its element, if any, or that it stands for what a name stands for in a catalog of
/// the rows below that one.
#[derive(Clone, Copy)]
enum Resolution<'a> {
    Is(Option<u64>),
    As(u64, Catalog<'a>, &'a [u8]),
}

/// A name in the catalog of a version, by the row that made the version.
fn entry_made<'a>(rows: &FirstRows<'a>, version: u64, name: &'a [u8]) -> Resolution<'a>
    ensures { Resolves rows.now name.now (catalog_of rows.now version) result }
{
    match row_at(rows, version) {
        None => Resolution::Is(None),
        Some(row) => match row.deed() {
            Deed::Branch { origin, .. } => Resolution::As(
                version,
                Catalog::OfVersion(*origin),
                name,
            ),
            Deed::Checkin { view, element } => {
                Resolution::As(version, Catalog::OfCheckout(view, *element), name)
            }
            _ => Resolution::Is(None),
        },
    }
}

/// The row that tells of a name in the catalog of a version: the newest version of its branch up to it that was made from a
/// checkout in which the name was changed, else the row that made the branch.
fn altering_row(rows: &FirstRows<'_>, version: u64, branch: u64, name: &[u8]) -> u64
    ensures { result
        ≡ greater_of branch
        (altered_by branch name.now (first_rows (suc version) rows.now)) }
{
    let rows = first_rows(rows, version.min(rows.size()) + 1);
    match rows.last(&AlteredOn { branch, name }) {
        None => branch,
        Some(row) => branch.max(row),
    }
}

/// A name in the catalog of a version, by the row of its branch that tells of it.
fn entry_of_version<'a>(rows: &FirstRows<'a>, version: u64, name: &'a [u8]) -> Resolution<'a>
    ensures { Resolves rows.now name.now (catalog_of rows.now version) result }
{
    rows.are_base();
    match branch_of_version(rows, version) {
        None => entry_made(rows, version, name),
        Some(branch) => entry_made(rows, altering_row(rows, version, branch, name), name),
    }
}

/// A name in the catalog of a view's checkout of a directory, by the newest row that affects it there.
fn entry_by<'a>(
    rows: &FirstRows<'a>,
    view: &'a Name,
    directory: u64,
    name: &'a [u8],
    number: u64,
) -> Resolution<'a>
    requires { last_of (entry_effect view.now directory name.now) rows.now ≡ Some number }
    ensures { Resolves rows.now name.now (own_of rows.now view.now directory) result }
{
    rows.are_base();
    match row_at(rows, number) {
        None => Resolution::Is(None),
        Some(row) => match edit_of(view, directory, number, row.deed()) {
            Edit::Same => Resolution::Is(None),
            Edit::BeginsEmpty => Resolution::Is(None),
            Edit::BeginsAs(origin) => Resolution::As(number, Catalog::OfVersion(origin), name),
            Edit::Adds(_, element) => Resolution::Is(Some(element)),
            Edit::Removes(_) => Resolution::Is(None),
            Edit::Renames(from, to) => {
                if is_name(name, to) {
                    Resolution::As(
                        number,
                        Catalog::OfCheckout(view, directory),
                        from.as_bytes(),
                    )
                } else {
                    Resolution::Is(None)
                }
            }
        },
    }
}

/// A name in the catalog of a view's checkout of a directory.
fn entry_of_checkout<'a>(
    rows: &FirstRows<'a>,
    view: &'a Name,
    directory: u64,
    name: &'a [u8],
) -> Resolution<'a>
    ensures { Resolves rows.now name.now (own_of rows.now view.now directory) result }
{
    let begun = rows.newest(&BegunOf { view, directory });
    let changed = rows.newest(&ChangedOf {
        view,
        directory,
        name,
    });
    match left_by(later(begun, changed)) {
        None => Resolution::Is(None),
        Some(number) => entry_by(rows, view, directory, name, number),
    }
}

fn entry_of<'a>(rows: &FirstRows<'a>, catalog: Catalog<'a>, name: &'a [u8]) -> Resolution<'a>
    ensures { Resolves rows.now name.now (catalog_in rows.now catalog.entry) result }
{
    match catalog {
        Catalog::OfVersion(version) => entry_of_version(rows, version, name),
        Catalog::OfCheckout(view, directory) => entry_of_checkout(rows, view, directory, name),
    }
}

/// The element that a name stands for in a catalog. Goes from the version to the one on its branch by which the name was changed
/// last, into the checkout from which that was made, and from there on wherever the name comes from.
pub(crate) fn named_in<'a>(
    rows: &FirstRows<'a>,
    catalog: Catalog<'a>,
    name: &'a [u8],
) -> Option<u64>
    ensures { result ≡ element_named name.now (catalog_in rows.now catalog.entry) }
{
    let mut rows = first_rows(rows, rows.size());
    let mut catalog = catalog;
    let mut name = name;
    loop {
        match entry_of(&rows, catalog, name) {
            Resolution::Is(found) => return found,
            Resolution::As(count, older, other) => {
                rows = first_rows(&rows, count);
                catalog = older;
                name = other;
            }
        }
    }
}

/// The element that a name stands for in the catalog of a version of a directory, where it is there. Takes the time of `newest` a
/// few times for each branch on the way to the version and for each name that the element had since it was added.
pub fn named_by_version(rows: &FirstRows<'_>, version: u64, name: &Name) -> Option<u64>
    ensures { result ≡ element_named name.now (catalog_of rows.now version) }
{
    named_in(rows, Catalog::OfVersion(version), name.as_bytes())
}

/// The element that a name stands for in the catalog of a view's checkout of a directory, where it is there. Takes the time of
/// `named_by_version`.
pub fn named_by_checkout(
    rows: &FirstRows<'_>,
    view: &Name,
    directory: u64,
    name: &Name,
) -> Option<u64>
    ensures { result ≡ element_named name.now (own_of rows.now view.now directory) }
{
    named_in(rows, Catalog::OfCheckout(view, directory), name.as_bytes())
}
