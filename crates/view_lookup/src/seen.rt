//! What stands at a path in a view.

ghost use Rattle.std.specs.Prelude.{◌≡◌, ◌<◌, ◌≤◌, length, is_some, option_map};
ghost use Rattle.cc_names.specs.Paths.{names_of};
ghost use Rattle.cc_names.specs.Versions.{kind_of};
ghost use Rattle.base_model.specs.Catalogs.{element_named};
ghost use Rattle.base_model.specs.Changes.{tree};
ghost use Rattle.base_model.specs.Rows.{Base};
ghost use Rattle.base_model.specs.Seen.{as_seen, at, below, directory_at, element_at, entries_by, entries_of, file_at, path_limit, private_or, selection_at};
ghost use Rattle.base_model.specs.Views.{private};
ghost use Rattle.view_lookup.specs.Resolving.{catalog_in};
ghost use Rattle.base_rows.specs.Made.{kind_made};

use crate::catalogs::{Catalog, named_in};
use crate::picks::pick;
use base_rows::bases::{FirstRows, row_at};
use base_rows::views::private_at;
use cc_names::names::Name;
use cc_names::paths::{Path, first_slash};
use cc_names::rows::{Deed, Kind};
use cc_names::selection::{Picked, Seen};

/// The kind of the element that a row of this deed makes.
fn kind_made(deed: &Deed) -> Option<Kind>
    ensures { result ≡ kind_made deed.now }
{
    match deed {
        Deed::Mkelem { kind, .. } => Some(*kind),
        _ => None,
    }
}

/// The kind of the element of this number, where there is one. Takes constant time.
pub fn kind_of(rows: &FirstRows<'_>, element: u64) -> Option<Kind>
    ensures { result ≡ kind_of (tree rows.now) element }
{
    if element == 0 {
        return Some(Kind::Directory);
    }
    let row = row_at(rows, element)?;
    kind_made(row.deed())
}

/// An element at the path of these bytes, with what the view selects of it. Takes the time of `pick`.
fn seen_element(rows: &FirstRows<'_>, view: &Name, element: u64, path: &[u8]) -> Seen
    ensures { result
        ≡ as_seen element (selection_at rows.now view.now element (names_of path.now)) }
{
    match pick(rows, view, element, path) {
        Some(picked) => Seen::Element(element, picked),
        None => Seen::Unselected(element),
    }
}

/// The catalog of an element of which a version is picked, where it is a directory.
fn entries_by<'a>(
    view: &'a Name,
    element: u64,
    picked: Picked,
    kind: Option<Kind>,
) -> Option<Catalog<'a>>
    ensures { (b : Base)
        → option_map (catalog_in b) result ≡ entries_by b view.now element picked kind }
{
    match kind {
        Some(Kind::Directory) => {
            if picked.out {
                Some(Catalog::OfCheckout(view, element))
            } else {
                Some(Catalog::OfVersion(picked.row))
            }
        }
        Some(Kind::File) => None,
        None => None,
    }
}

/// The catalog of what stands somewhere, where it is a directory of which a version is selected.
fn entries_of<'a>(rows: &FirstRows<'_>, view: &'a Name, seen: Seen) -> Option<Catalog<'a>>
    ensures { option_map (catalog_in rows.now) result ≡ entries_of rows.now view.now seen }
{
    match seen {
        Seen::Element(element, picked) => {
            entries_by(view, element, picked, kind_of(rows, element))
        }
        Seen::Private(_) => None,
        Seen::Unselected(_) => None,
        Seen::Nothing => None,
    }
}

/// What stands at the path of these bytes, which has this last name, where the directory above has this catalog.
fn in_catalog(
    rows: &FirstRows<'_>,
    view: &Name,
    path: &[u8],
    name: &[u8],
    catalog: Catalog<'_>,
) -> Seen
    ensures { result
        ≡ private_or (private rows.now view.now path.now)
        (element_at rows.now view.now (names_of path.now)
        (element_named name.now (catalog_in rows.now catalog.entry))) }
{
    if let Some(row) = private_at(rows, view, path) {
        return Seen::Private(row);
    }
    match named_in(rows, catalog, name) {
        Some(element) => seen_element(rows, view, element, path),
        None => Seen::Nothing,
    }
}

/// What stands at the path of these bytes, which has this last name, where `above` stands at the path of the other names.
fn below(rows: &FirstRows<'_>, view: &Name, path: &[u8], name: &[u8], above: Seen) -> Seen
    requires { length path.now ≤ path_limit }
    ensures { result
        ≡ below rows.now view.now (names_of path.now) name.now
        (entries_of rows.now view.now above) }
{
    match entries_of(rows, view, above) {
        Some(catalog) => in_catalog(rows, view, path, name, catalog),
        None => Seen::Nothing,
    }
}

/// What stands at a path in a view. Takes time linear in the bytes of the path, and for each of its names, where a directory
/// stands above it, one look-up of a private file (`private`), one of the name in the directory's catalog (`named_by_version`)
/// and one selection of a version (`pick`); no memory.
pub fn at(rows: &FirstRows<'_>, view: &Name, path: &Path) -> Seen
    ensures { result ≡ at rows.now view.now path.now }
{
    let mut seen = seen_element(rows, view, 0, b".");
    if path.is_root() {
        return seen;
    }
    let bytes = path.as_bytes();
    let mut start = 0;
    while let Some(length) = first_slash(&bytes[start..]) {
        let end = start + length;
        seen = below(rows, view, &bytes[..end], &bytes[start..end], seen);
        start = end + 1;
    }
    below(rows, view, bytes, &bytes[start..], seen)
}

/// The row that made the text of the file that a view sees at a path, where there is one: of a private file, or of the version
/// of an element that is selected. Takes time linear in the view's name and in the path where the file is at hand (`remember`),
/// else the time of `at`.
pub fn file_at(rows: &FirstRows<'_>, view: &Name, path: &Path) -> Option<u64>
    ensures { result ≡ file_at rows.now view.now path.now }
{
    match rows.seen_file(view, path) {
        Some(row) => row,
        None => find_file(rows, view, path),
    }
}

/// The same, looked for. Takes the time of `at`.
pub(crate) fn find_file(rows: &FirstRows<'_>, view: &Name, path: &Path) -> Option<u64>
    ensures { result ≡ file_at rows.now view.now path.now }
{
    match at(rows, view, path) {
        Seen::Private(row) => Some(row),
        Seen::Element(element, picked) => match kind_of(rows, element) {
            Some(Kind::File) => Some(picked.row),
            Some(Kind::Directory) => None,
            None => None,
        },
        Seen::Unselected(_) => None,
        Seen::Nothing => None,
    }
}

/// Whether a view sees a directory at a path. Takes the time of `at`.
pub fn is_directory(rows: &FirstRows<'_>, view: &Name, path: &Path) -> bool
    ensures { result ≡ is_some (directory_at rows.now view.now path.now) }
{
    match at(rows, view, path) {
        Seen::Private(_) => false,
        Seen::Element(element, _) => match kind_of(rows, element) {
            Some(Kind::File) => false,
            Some(Kind::Directory) => true,
            None => false,
        },
        Seen::Unselected(_) => false,
        Seen::Nothing => false,
    }
}
