//! The files that a record sees when it is run again: what its entries stand for, and nothing else.

ghost use Rattle.std.specs.Prelude.{◌≡◌, ℕ, List, IfOk, nat_eq};
ghost use Rattle.std.specs.BTreeMap.{get};
ghost use Rattle.std.specs.Cmp.Lexicographic.{slice_cmp};
ghost use Rattle.std.specs.Option.{option_copied};
ghost use Rattle.std.specs.Ordering.{nat_cmp};
ghost use Rattle.build_script.specs.Answers.{IsAnswer};
ghost use Rattle.base_model.specs.Objects.{row_in};
ghost use Rattle.object_check.specs.Kept.{standing};

use crate::values::{Values, text_of_entry};
use build_script::files::{Files, Got};
use cc_names::memory::NoMemory;
use cc_names::paths::Path;
use cc_names::rows::ReadOf;
use cc_names::texts::Text;
use std::alloc::Global;
use std::collections::BTreeMap;
use view_lookup::FirstRows;

/// The rows of a record by paths.
pub(crate) type EntryRows = BTreeMap<Path, u64>;

/// The row that a record has at each path. Takes time linear in the bytes of the entries, times logarithmic in their number.
pub(crate) fn rows_by_path(alloc: Global, entries: &[ReadOf]) -> Result<EntryRows, NoMemory>
    ensures { IfOk result
        (λ found. (path : List ℕ)
        → get (slice_cmp nat_cmp) found path ≡ row_in entries.now path) }
{
    let mut found = BTreeMap::new(alloc);
    // From the last entry to the first: of two at a path the first counts.
    for index in (0..entries.len()).rev() {
        let entry = &entries[index];
        found.insert(entry.path.copy(alloc)?, entry.row)?;
    }
    Ok(found)
}

/// The files of the entries of one record.
#[derive(Drop)]
pub(crate) struct EntryFiles<'a> {
    pub(crate) alloc: Global,
    pub(crate) rows: &'a FirstRows<'a>,
    pub(crate) values: &'a Values,
    pub(crate) entries: &'a EntryRows,
}

/// A copy of a text with the row that made it.
fn found(alloc: Global, row: u64, text: Option<&[u8]>) -> Got
    ensures { IsAnswer result (standing row (option_copied text.entry)) 0 0 }
{
    match text {
        None => Got::Absent,
        Some(bytes) => match Text::from_bytes(alloc, bytes) {
            Ok(text) => Got::Found { row, text },
            Err(_) => Got::NoMemory,
        },
    }
}

impl Files for EntryFiles<'_> {
    ghost use Rattle.std.specs.Prelude.{nat_eq};
    ghost use Rattle.std.specs.HashMap as hashed;
    ghost use Rattle.std.specs.BTreeMap.{get};
    ghost use Rattle.std.specs.Cmp.Lexicographic.{slice_cmp};
    ghost use Rattle.std.specs.Ordering.{nat_cmp};
    ghost use Rattle.object_check.specs.Kept.{stands_kept};

    ghost stands = { λ files.
        stands_kept files.rows.now (hashed.get nat_eq files.values.now)
        (get (slice_cmp nat_cmp) files.entries.now) };

    ghost broken = { λ _. 0 };

    ghost follows = { λ _ _ _. Unit {0} };

    fn read(&mut self, path: &Path) -> Got {
        match self.entries.get(path) {
            None => Got::Absent,
            Some(row) => {
                let text = text_of_entry(self.rows, self.values, path, *row);
                found(self.alloc, *row, text)
            }
        }
    }

    ghost reflexive = { λ _ _. tt };

    ghost transitive = { λ _ _ _ _ _ _. tt };
}
