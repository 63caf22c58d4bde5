//! Parts of lines: words and a name; a path at a version.

ghost use Rattle.std.specs.Prelude.{◌≡◌, ◌++◌, OnOk};
ghost use Rattle.legal_history.specs.Queries.VersionNames.{at_version, line, version_name};

use cc_names::memory::NoMemory;
use std::alloc::Global;
use view_lookup::{FirstRows, push_at_version, version_name};

/// Adds a line of words and a name.
pub(crate) fn push_line(text: &mut Vec<u8>, words: &[u8], name: &[u8]) -> Result<(), NoMemory>
    ensures { OnOk result (text.new.items ≡ text.old.items ++ line (words.now ++ name.now)) }
{
    text.extend_from_slice(words)?;
    text.extend_from_slice(name)?;
    text.push(b'\n')?;
    Ok(())
}

/// Adds a path, `@@`, and the name of the version that a row made. Takes the time of `version_name`.
pub(crate) fn push_path_at_version(
    alloc: Global,
    text: &mut Vec<u8>,
    rows: &FirstRows<'_>,
    path: &[u8],
    version: u64,
) -> Result<(), NoMemory>
    ensures { OnOk result
        (text.new.items
        ≡ text.old.items ++ at_version path.now (version_name rows.now version)) }
{
    let name = version_name(alloc, rows, version)?;
    push_at_version(text, path, name.as_bytes())
}
