//! Moments printed as dates.

ghost use Rattle.std.specs.Prelude.{◌≡◌, ◌+◌, ◌/◌, ◌%◌, ◌≤◌, ◌<◌, Ok};
ghost use Rattle.std.specs.Int.{IsInRange};
ghost use Rattle.date_text.specs.Civil.{IsInForm};
ghost use Rattle.date_text.specs.Dates.{date_of, month_name, date_as_text, text_of_parts};

use crate::civil::Civil;
use crate::fields::MONTHS;
use std::marker::Model;

/// A moment as a date. Contracts see it as its bytes.
#[derive(Debug, Drop)]
pub struct DateText {
    /// The date with a day of two digits.
    bytes: [u8; 20],
    /// Where the text begins: after a day's first digit that is 0.
    start: usize,
}

impl Model for DateText {
    ghost use Rattle.std.specs.Prelude.{List, ℕ, drop, ◌≤◌};

    ghost Value = { List ℕ };

    ghost view = { λ text. drop text.start text.bytes };

    ghost invariant = { λ text. text.start ≤ 1 };
}

impl DateText {
    /// The bytes: 19 or 20 of them.
    pub fn as_bytes(&self) -> &[u8]
        ensures { result.now ≡ self.now }
    {
        &self.bytes[self.start..]
    }
}

fn month_name(month: u64) -> [u8; 3]
    requires { IsInRange 1 12 month }
    ensures { result ≡ month_name month }
{
    MONTHS[(month - 1) as usize]
}

fn tens(number: u64) -> u8
    requires { number < 100 }
    ensures { result ≡ 48 + number / 10 }
{
    b'0' + (number / 10) as u8
}

fn ones(number: u64) -> u8
    ensures { result ≡ 48 + number % 10 }
{
    b'0' + (number % 10) as u8
}

fn text(civil: Civil) -> DateText
    requires { IsInForm civil }
    ensures { result ≡ text_of_parts civil }
{
    let month = month_name(civil.month);
    let (century, year) = (civil.year / 100, civil.year % 100);
    let bytes = [
        tens(civil.day),
        ones(civil.day),
        b'-',
        month[0],
        month[1],
        month[2],
        b'-',
        tens(century),
        ones(century),
        tens(year),
        ones(year),
        b'.',
        tens(civil.hour),
        ones(civil.hour),
        b':',
        tens(civil.minute),
        ones(civil.minute),
        b':',
        tens(civil.second),
        ones(civil.second),
    ];
    let start = if civil.day < 10 { 1 } else { 0 };
    DateText { bytes, start }
}

/// The date of a moment, which is the seconds since the beginning of 1970: a day without a leading 0, and all else as
/// `read` takes it, which gives the moment back. Takes no memory.
pub fn print(moment: u64) -> DateText
    requires { moment ≤ 253402300799 }
    ensures text { result ≡ date_as_text moment }
    ensures read_back { date_of result ≡ Ok moment }
{
    text(Civil::of(moment))
}
