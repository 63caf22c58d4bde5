//! How lines name an object.

ghost use Rattle.std.specs.Prelude.{◌≡◌, ◌++◌, OnOk, decimal};
ghost use Rattle.legal_history.specs.Queries.VersionNames.{at_version};

use cc_names::memory::NoMemory;
use cc_names::numbers::push_number;
use std::alloc::Global;
use view_lookup::push_at_version;

/// Adds a path or a name, `@@`, and the number of an object.
pub(crate) fn push_object(
    alloc: Global,
    text: &mut Vec<u8>,
    path: &[u8],
    object: u64,
) -> Result<(), NoMemory>
    ensures { OnOk result
        (text.new.items ≡ text.old.items ++ at_version path.now (decimal object)) }
{
    let mut number = Vec::new(alloc);
    push_number(alloc, &mut number, object)?;
    push_at_version(text, path, &number)?;
    Ok(())
}
