//! Dates read as moments.

ghost use Rattle.std.specs.Prelude.{◌≡◌, ◌^◌, ◌≤ℤ◌, ◌+◌, unwrap_or, ◌≤◌, ◌<◌, None, pos, length};
ghost use Rattle.std.specs.Int.{IsInRange};
ghost use Rattle.jiff_core.specs.Date.{epoch_day};
ghost use Rattle.date_text.specs.Civil.{moment_of, IsInForm};
ghost use Rattle.date_text.specs.Dates.{date_of, parts_from, month_place, moment_of_day, fields_from, first_wrong};

use crate::civil::Civil;
use crate::fields::{day_length, fields, first_wrong, month_place, piece, value};
use jiff_core::civil::Date;

/// Bytes are no date: the place, counted from 0, where the first wrong field begins.
#[derive(Clone, Copy, Debug, PartialEq, Eq)]
pub struct BadDate(pub u64);

/// The number of a month, from 1, by its name.
fn month_number(name: &[u8]) -> u64
    ensures value { result ≡ unwrap_or (month_place name.now) 0 + 1 }
    ensures bound { IsInRange 1 12 result }
{
    match month_place(name) {
        Some(place) => place as u64 + 1,
        None => 1,
    }
}

/// The parts that the fields of a text name. All fields are right, and the day has so many digits.
fn parts(text: &[u8], day: usize) -> Civil
    requires day { day ≤ 2 }
    requires right { first_wrong (fields_from text.now day) ≡ None }
    ensures value { result ≡ parts_from text.now day }
    ensures form { IsInForm result }
{
    Civil {
        year: value(piece(text, day + 5, 4)),
        month: month_number(piece(text, day + 1, 3)),
        day: value(piece(text, 0, day)),
        hour: value(piece(text, day + 10, 2)),
        minute: value(piece(text, day + 13, 2)),
        second: value(piece(text, day + 16, 2)),
    }
}

/// The days from the beginning of 1970 to a date.
fn days_since_1970(date: Date) -> u64
    requires { pos 1970 ≤ℤ date.year }
    ensures value { pos result ≡ epoch_day date }
    ensures bound { result < 2 ^ 31 }
{
    date.to_unix_epoch_day() as u64
}

/// The moment of these parts. Where the month lacks the day, the day is wrong, which stands at the start of its text.
fn moment(civil: Civil) -> Result<u64, BadDate>
    requires { IsInForm civil }
    ensures { result ≡ moment_of_day civil }
{
    let Ok(date) = Date::new(civil.year as i16, civil.month as i8, civil.day as i8) else {
        return Err(BadDate(0));
    };
    Ok(days_since_1970(date) * 86400 + civil.hour * 3600 + civil.minute * 60 + civil.second)
}

/// Reads a date as a moment: the seconds since the beginning of 1970. The form is `d-Mmm-yyyy.hh:mm:ss` in UTC: a day of
/// one or two digits, a month from `Jan` to `Dec`, a year from 1970 to 9999, and hours, minutes and seconds of two
/// digits each. The fault is the place of the first field that is wrong. Each sign between two fields, and what stands
/// after the last, is a field of its own here; a day that its month lacks is wrong where all else is right. Looks at no
/// more than the first twenty-one bytes.
pub fn read(bytes: &[u8]) -> Result<u64, BadDate>
    ensures { result ≡ date_of bytes.now }
{
    let day = day_length(bytes);
    match first_wrong(&fields(bytes, day)) {
        Some(place) => Err(BadDate(place)),
        None => moment(parts(bytes, day)),
    }
}
