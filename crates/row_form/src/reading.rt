//! How a row is read.

ghost use Rattle.std.specs.Prelude.{◌≡◌, [], ℕ};
ghost use Rattle.row_form.specs.Answers.{Answers};
ghost use Rattle.row_form.specs.Reading.{IsReadAs, NamesPlace, RowsHaveOneSpelling};
ghost use Rattle.row_form.specs.RowReader.{read_form, read_moment, read_parts, read_row};

use crate::cursor::{Cursor, NotARow, Unread};
use crate::deeds::read_deed;
use crate::fields::Field;
use cc_names::memory::Or;
use cc_names::rows::{Deed, LAST_MOMENT, Row, Tag};
use std::alloc::Global;
use std::hash::RandomState;

/// A row's tag and moment, and its deed.
type Parts = ((Tag, u64), Deed);

/// Reads bytes as a row, or answers the offset of the first field that cannot be read, or of the first excess byte.
/// Takes time linear in them, and memory as the fields are read, whatever the counts of lists say.
pub fn read(alloc: Global, hashing: RandomState, bytes: &[u8]) -> Result<Row, Or<NotARow>>
    ensures row { IsReadAs result bytes.now }
    ensures place { NamesPlace result bytes.now }
{
    match read_row(alloc, hashing, bytes) {
        Ok(((tag, moment), deed)) => Ok(Row::of(tag, moment, deed)),
        Err(Or::NoMemory) => Err(Or::NoMemory),
        Err(Or::Is(unread)) => {
            let place = bytes.len().saturating_sub(unread.left);
            Err(Or::Is(NotARow(place as u64)))
        }
    }
}

/// Rows that are spelled alike are the same.
pub fn rows_have_one_spelling()
    ensures { RowsHaveOneSpelling }
{}

/// The same with the parts of a row, and with how many bytes are left where the reading fails.
fn read_row(alloc: Global, hashing: RandomState, bytes: &[u8]) -> Result<Parts, Or<Unread>>
    ensures { Answers result (read_row bytes.now) [] }
{
    let mut cursor = Cursor::over(bytes);
    let parts = read_parts(alloc, hashing, &mut cursor)?;
    if !cursor.rest.is_empty() {
        return Err(Or::Is(cursor.unread()));
    }
    Ok(parts)
}

fn read_parts(
    alloc: Global,
    hashing: RandomState,
    cursor: &mut Cursor<'_>,
) -> Result<Parts, Or<Unread>>
    ensures { Answers result (read_parts cursor.old.rest.now) cursor.new.rest.now }
{
    let form = read_form(cursor)?;
    let tag: Tag = Field::read(alloc, cursor)?;
    let moment = read_moment(cursor)?;
    let deed = read_deed(alloc, hashing, cursor, form)?;
    Ok(((tag, moment), deed))
}

fn read_form(cursor: &mut Cursor<'_>) -> Result<u8, Or<Unread>>
    ensures { Answers result (read_form cursor.old.rest.now) cursor.new.rest.now }
{
    let here = cursor.unread();
    let form = cursor.byte()?;
    if form == 1 || form == 2 {
        return Ok(form);
    }
    Err(Or::Is(here))
}

fn read_moment(cursor: &mut Cursor<'_>) -> Result<u64, Or<Unread>>
    ensures { Answers result (read_moment cursor.old.rest.now) cursor.new.rest.now }
{
    let here = cursor.unread();
    let moment = cursor.long()?;
    if moment <= LAST_MOMENT {
        return Ok(moment);
    }
    Err(Or::Is(here))
}
