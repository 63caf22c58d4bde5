//! The query whether what a view sees covers the record of an object that a view holds.

ghost use Rattle.std.specs.Prelude.{◌≡◌, IfOk};
ghost use Rattle.std.specs.Option.{option_copied};
ghost use Rattle.base_model.specs.Objects.{agrees, uncovered_path};
ghost use Rattle.legal_history.specs.Queries.QueryLines.{covers};
ghost use Rattle.legal_history.specs.Queries.RecordTexts.{covers_text};
ghost use Rattle.view_lookup.specs.Answering.{AnswersAs};

use crate::found::find_object;
use crate::lines::push_line;
use cc_names::memory::{NoMemory, Or};
use cc_names::names::Name;
use cc_names::paths::Path;
use cc_names::refusals::Refusal;
use cc_names::texts::Text;
use std::alloc::Global;
use view_lookup::{FirstRows, InputTest, file_at, first_input, view_row};

/// Whether a row is the one that was found; row 0 says that nothing was there.
fn agrees(row: u64, found: Option<u64>) -> bool
    ensures { result ≡ agrees row found }
{
    match found {
        None => row == 0,
        Some(found) => row != 0 && row == found,
    }
}

/// What a view sees, with which the rows are compared on which an object rests.
#[derive(Drop)]
struct SeenRows<'a, 'b, 'c> {
    rows: &'a FirstRows<'b>,
    view: &'c Name,
}

impl InputTest for SeenRows<'_, '_, '_> {
    ghost use Rattle.vob_history.specs.Covering.{differs};

    ghost passes = { λ it. differs it.rows.now it.view.now };

    // Whether the view sees another row at the path.
    fn passes(&self, path: &Path, row: u64) -> bool {
        !agrees(row, file_at(self.rows, self.view, path))
    }
}

/// The first path in byte order that an object rests on in the end, and at which the view sees another row. Each object that it
/// rests on is walked once, from the newest on.
fn uncovered_path<'a>(
    alloc: Global,
    rows: &FirstRows<'a>,
    view: &Name,
    object: u64,
) -> Result<Option<&'a Path>, NoMemory>
    ensures { IfOk result (λ path. option_copied path ≡ uncovered_path rows.now view.now object) }
{
    first_input(alloc, rows, object, &SeenRows { rows: &*rows, view })
}

/// Whether a view covers a record of which this path is uncovered, or none.
fn covers_text(alloc: Global, uncovered_path: Option<&Path>) -> Result<Text, NoMemory>
    ensures { IfOk result (λ text. text ≡ covers_text (option_copied uncovered_path.entry)) }
{
    let mut text = Vec::new(alloc);
    match uncovered_path {
        None => push_line(&mut text, b"covered", b"")?,
        Some(path) => push_line(&mut text, b"not covered ", path.as_bytes())?,
    }
    Ok(Text::of(text))
}

/// The text of `covers W V P`, whether view W sees each row on which the object that V holds at the path rests in the end, or its
/// first refusal. Takes the time of `held_object`, and for each entry of the records on which the object rests that of `file_at`,
/// each record once.
pub fn covers(
    alloc: Global,
    rows: &FirstRows<'_>,
    seer: &Name,
    view: &Name,
    path: &Path,
) -> Result<Text, Or<Refusal>>
    ensures { AnswersAs result (covers rows.now seer.now view.now path.now) }
{
    if view_row(rows, seer).is_none() {
        return Err(Or::Is(Refusal::NoView));
    }
    if view_row(rows, view).is_none() {
        return Err(Or::Is(Refusal::NoView));
    }
    let object = find_object(alloc, rows, view, path)?;
    let least = uncovered_path(alloc, rows, seer, object)?;
    Ok(covers_text(alloc, least)?)
}
