//! The texts that rows made.

ghost use Rattle.std.specs.Prelude.{◌≡◌, Some};
ghost use Rattle.std.specs.Option.{option_copied};
ghost use Rattle.cc_names.specs.Formed.{IsDeedFormed};
ghost use Rattle.base_model.specs.Changes.{targets_of};
ghost use Rattle.base_model.specs.Rows.{deed_at, first_rows};
ghost use Rattle.base_model.specs.Texts.{texts, of_making, of_output, output_at, source_of, text};
ghost use Rattle.view_lookup.specs.Sources.{plain_source};

use crate::seen::file_at;
use base_rows::bases::{FirstRows, first_rows, row_at};
use base_rows::checkouts::making;
use base_rows::objects::target_place;
use cc_names::names::Name;
use cc_names::paths::Path;
use cc_names::rows::Deed;
use cc_names::texts::Text;

/// The output at the path of one of an object's targets, among outputs in the order of these. Takes time logarithmic in the
/// targets.
pub fn output_at<'a>(
    rows: &FirstRows<'_>,
    object: u64,
    path: &Path,
    outputs: &'a [Text],
) -> Option<&'a [u8]>
    ensures { option_copied result
        ≡ output_at path.now (targets_of rows.now object) outputs.now }
{
    let place = target_place(rows, object, path)?;
    let output = outputs.get(place)?;
    Some(output.as_bytes())
}

/// Where the text that a row makes comes from.
#[derive(Clone, Copy)]
pub(crate) enum TextSource<'a> {
    /// The row itself.
    Bytes(&'a [u8]),
    /// An earlier row.
    OfRow(u64),
    /// Nowhere.
    NoText,
}

/// The text of the row that made a view's own.
fn of_making<'a>(making: Option<u64>) -> TextSource<'a>
    ensures { plain_source result ≡ of_making making }
{
    match making {
        None => TextSource::NoText,
        Some(row) => TextSource::OfRow(row),
    }
}

fn of_output(output: Option<&[u8]>) -> TextSource<'_>
    ensures { plain_source result ≡ of_output (option_copied output.entry) }
{
    match output {
        None => TextSource::NoText,
        Some(output) => TextSource::Bytes(output),
    }
}

/// Where the text comes from of the row of this number, which has this deed; of an object, its output at the path.
fn source_of<'a>(rows: &FirstRows<'_>, number: u64, path: &Path, deed: &'a Deed) -> TextSource<'a>
    requires deed { deed_at rows.now number ≡ Some deed.now }
    requires formed { IsDeedFormed deed.now }
    ensures { plain_source result ≡ source_of (first_rows number rows.now) path.now deed.now }
{
    match deed {
        Deed::Mkelem { .. } => TextSource::Bytes(&[]),
        Deed::Checkout { origin, .. } => TextSource::OfRow(*origin),
        Deed::Branch { origin, .. } => TextSource::OfRow(*origin),
        Deed::Save { text, .. } => TextSource::Bytes(text.as_bytes()),
        Deed::Checkin { view, element } => {
            of_making(making(&first_rows(rows, number), view, *element))
        }
        Deed::Put { text, .. } => TextSource::Bytes(text.as_bytes()),
        Deed::Publish { outputs, .. } => {
            of_output(output_at(rows, number, path, outputs.as_slice()))
        }
        _ => TextSource::NoText,
    }
}

/// The text that a row made; of an object, its output at the path. Takes time logarithmic in the targets of an object, and for a
/// version the time of `making` for each checkout and checkin back to the last save.
pub fn text_of<'a>(rows: &FirstRows<'a>, row: u64, path: &Path) -> Option<&'a [u8]>
    ensures { option_copied result ≡ text rows.now row path.now }
{
    let mut older = first_rows(rows, rows.size());
    let mut number = row;
    while let Some(found) = row_at(&older, number) {
        let source = source_of(&older, number, path, found.deed());
        older = first_rows(&older, number);
        match source {
            TextSource::Bytes(bytes) => return Some(bytes),
            TextSource::OfRow(origin) => number = origin,
            TextSource::NoText => return None,
        }
    }
    None
}

/// The text of the file that the view sees at the path. Takes the time of `file_at` and of `text_of`.
pub fn text_at<'a>(rows: &FirstRows<'a>, view: &Name, path: &Path) -> Option<&'a [u8]>
    ensures { option_copied result ≡ texts rows.now view.now path.now }
{
    let row = file_at(rows, view, path)?;
    text_of(rows, row, path)
}
