//! What the records of objects say.

ghost use Rattle.std.specs.Prelude.{◌≡◌};
ghost use Rattle.base_model.specs.Changes.{targets_of};
ghost use Rattle.base_model.specs.Objects.{record_of};
ghost use Rattle.legal_history.specs.Queries.RecordTexts.{recorded_script};

use cc_names::paths::Path;
use cc_names::rows::{Deed, ReadOf};
use view_lookup::{FirstRows, row_at};

/// The record of an object: its targets, its script and what was read. A row that published no object has none of them.
#[derive(Clone, Copy)]
pub(crate) struct Record<'a> {
    pub(crate) targets: &'a [Path],
    pub(crate) script: &'a [u8],
    pub(crate) entries: &'a [ReadOf],
}

/// The record of an object. Takes constant time.
pub(crate) fn record_of<'a>(rows: &FirstRows<'a>, object: u64) -> Record<'a>
    ensures targets { result.targets.now ≡ targets_of rows.now object }
    ensures script { result.script.now ≡ recorded_script rows.now object }
    ensures entries { result.entries.now ≡ record_of rows.now object }
{
    let none = Record {
        targets: &[],
        script: &[],
        entries: &[],
    };
    match row_at(rows, object) {
        None => none,
        Some(row) => match row.deed() {
            Deed::Publish {
                targets,
                script,
                entries,
                ..
            } => Record {
                targets: targets.as_slice(),
                script: script.as_bytes(),
                entries: entries.as_slice(),
            },
            _ => none,
        },
    }
}
