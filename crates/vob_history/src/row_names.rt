//! The names of rows at a path, as records tell them: by the version that a row made, else as a checkout, a private file or an
//! object.

ghost use Rattle.std.specs.Prelude.{◌≡◌, ◌++◌, OnOk};
ghost use Rattle.base_model.specs.Rows.{deed_at};
ghost use Rattle.legal_history.specs.Queries.VersionNames.{by_word, row_name};
ghost use Rattle.vob_history.specs.Recorded.{row_word};

use crate::lines::push_path_at_version;
use cc_names::memory::NoMemory;
use cc_names::numbers::push_number;
use cc_names::rows::Deed;
use std::alloc::Global;
use view_lookup::{FirstRows, row_at, version_id_of};

/// The word for a row that made no version.
fn row_word(rows: &FirstRows<'_>, row: u64) -> &'static [u8]
    ensures { result.now ≡ row_word (deed_at rows.now row) }
{
    match row_at(rows, row) {
        None => b"checkedout",
        Some(row) => match row.deed() {
            Deed::Put { .. } => b"private",
            Deed::Publish { .. } => b"object",
            _ => b"checkedout",
        },
    }
}

/// Adds a path, a word and a number.
fn push_by_word(
    alloc: Global,
    text: &mut Vec<u8>,
    path: &[u8],
    word: &[u8],
    number: u64,
) -> Result<(), NoMemory>
    ensures { OnOk result (text.new.items ≡ text.old.items ++ by_word path.now word.now number) }
{
    text.extend_from_slice(path)?;
    text.push(b' ')?;
    text.extend_from_slice(word)?;
    text.push(b' ')?;
    push_number(alloc, text, number)
}

/// Adds the name of a row at a path. Takes the time of `version_name`.
pub(crate) fn push_row_name(
    alloc: Global,
    text: &mut Vec<u8>,
    rows: &FirstRows<'_>,
    path: &[u8],
    row: u64,
) -> Result<(), NoMemory>
    ensures { OnOk result (text.new.items ≡ text.old.items ++ row_name rows.now path.now row) }
{
    match version_id_of(rows, row) {
        None => push_by_word(alloc, text, path, row_word(rows, row), row),
        Some(_) => push_path_at_version(alloc, text, rows, path, row),
    }
}
