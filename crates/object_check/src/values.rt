//! The values of objects that were run again, and the texts of entries by them.

ghost use Rattle.std.specs.Prelude.{◌≡◌, nat_eq};
ghost use Rattle.std.specs.HashMap.{get};
ghost use Rattle.std.specs.Option.{option_copied};
ghost use Rattle.base_model.specs.Changes.{targets_of};
ghost use Rattle.legal_history.specs.Builds.Values.{output_of_run};
ghost use Rattle.object_check.specs.Kept.{text_kept};

use cc_names::lists::List;
use cc_names::paths::Path;
use cc_names::texts::Text;
use std::collections::HashMap;
use view_lookup::{FirstRows, output_at, text_of};

/// The outputs of a run, where it succeeded.
pub(crate) type Outputs = Option<List<Text>>;

/// By objects the outputs of their runs, where these are not the stored ones. Of most bases it is empty.
pub(crate) type Values = HashMap<u64, Outputs>;

/// The output at a path of the run of an object's record, where it succeeded. Takes time logarithmic in the object's targets.
fn output_of_run<'a>(
    rows: &FirstRows<'_>,
    object: u64,
    path: &Path,
    outputs: &'a Outputs,
) -> Option<&'a [u8]>
    ensures { option_copied result
        ≡ output_of_run path.now (targets_of rows.now object) outputs.now }
{
    match outputs {
        None => None,
        Some(outputs) => output_at(rows, object, path, outputs.as_slice()),
    }
}

/// The text that an entry of a record stands for, by the values of the objects before it. Takes the time of `text_of`, or for an
/// object with a value of its own here time logarithmic in its targets.
pub(crate) fn text_of_entry<'a>(
    rows: &FirstRows<'a>,
    values: &'a Values,
    path: &Path,
    row: u64,
) -> Option<&'a [u8]>
    ensures { option_copied result
        ≡ text_kept rows.now (get nat_eq values.now) path.now row }
{
    if row == 0 {
        return None;
    }
    match values.get(&row) {
        None => text_of(rows, row, path),
        Some(outputs) => output_of_run(rows, row, path, outputs),
    }
}
