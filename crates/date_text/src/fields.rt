//! The fields of the form.

ghost use Rattle.std.specs.Prelude.{◌≡◌, ◌+◌, ◌<◌, ◌≤◌, ◌^◌, true, length, IfSome};
ghost use Rattle.std.specs.Char.{is_ascii_digit};
ghost use Rattle.std.specs.List.{list_all};
ghost use Rattle.std.specs.Str.Parse.{digits_value};
ghost use Rattle.date_text.specs.Dates.{piece, is_number_between, month_place, sign_field, number_field, month_field, end_field, day_length, fields_from, first_wrong};

/// A field of the form: where it begins in a text, and whether what stands there is right.
#[derive(Clone, Copy)]
pub(crate) struct Field {
    pub place: u64,
    pub right: bool,
}

pub(crate) const MONTHS: [[u8; 3]; 12] = [
    *b"Jan", *b"Feb", *b"Mar", *b"Apr", *b"May", *b"Jun", *b"Jul", *b"Aug", *b"Sep", *b"Oct",
    *b"Nov", *b"Dec",
];

/// The bytes of a text from a place on, at most so many.
pub(crate) fn piece(text: &[u8], place: usize, count: usize) -> &[u8]
    ensures value { result.now ≡ piece text.now place count }
    ensures count { length result.now ≤ count }
{
    if place >= text.len() {
        return &[];
    }
    let rest = &text[place..];
    if rest.len() <= count {
        return rest;
    }
    &rest[..count]
}

fn are_digits(bytes: &[u8]) -> bool
    ensures { result ≡ list_all is_ascii_digit bytes.now }
{
    bytes.iter().all(|byte| byte.is_ascii_digit())
}

/// The number that a few digits spell.
pub(crate) fn value(digits: &[u8]) -> u64
    requires digits { list_all is_ascii_digit digits.now ≡ true }
    requires few { length digits.now ≤ 4 }
    ensures value { result ≡ digits_value 10 digits.now }
    ensures bound { result < 10000 }
{
    let mut value = 0;
    for digit in digits {
        value = value * 10 + (*digit - b'0') as u64;
    }
    value
}

fn is_number_between(bytes: &[u8], count: usize, low: u64, high: u64) -> bool
    requires { count ≤ 4 }
    ensures { result ≡ is_number_between count low high bytes.now }
{
    if bytes.len() != count || !are_digits(bytes) {
        return false;
    }
    let value = value(bytes);
    low <= value && value <= high
}

/// The place of a month in the year, from 0, by its name.
pub(crate) fn month_place(bytes: &[u8]) -> Option<usize>
    ensures value { result ≡ month_place bytes.now }
    ensures bound { IfSome result (λ place. place < 12) }
{
    MONTHS.iter().position(|name| bytes == name.as_slice())
}

fn sign_field(text: &[u8], place: usize, sign: u8) -> Field
    ensures { result ≡ sign_field text.now place sign }
{
    let right = piece(text, place, 1) == [sign].as_slice();
    Field {
        place: place as u64,
        right,
    }
}

fn number_field(text: &[u8], place: usize, count: usize, low: u64, high: u64) -> Field
    requires { count ≤ 4 }
    ensures { result ≡ number_field text.now place count low high }
{
    let right = is_number_between(piece(text, place, count), count, low, high);
    Field {
        place: place as u64,
        right,
    }
}

fn month_field(text: &[u8], place: usize) -> Field
    ensures { result ≡ month_field text.now place }
{
    let right = month_place(piece(text, place, 3)).is_some();
    Field {
        place: place as u64,
        right,
    }
}

fn end_field(text: &[u8], place: usize) -> Field
    ensures { result ≡ end_field text.now place }
{
    Field {
        place: place as u64,
        right: text.len() <= place,
    }
}

/// How many digits the day takes: those at the start, at most two.
pub(crate) fn day_length(text: &[u8]) -> usize
    ensures value { result ≡ day_length text.now }
    ensures bound { result ≤ 2 }
{
    piece(text, 0, 2)
        .iter()
        .take_while(|byte| byte.is_ascii_digit())
        .count()
}

/// The fields of a text whose day has so many digits, in order.
pub(crate) fn fields(text: &[u8], day: usize) -> [Field; 12]
    requires { day ≤ 2 }
    ensures { result ≡ fields_from text.now day }
{
    [
        number_field(text, 0, day, 1, 31),
        sign_field(text, day, b'-'),
        month_field(text, day + 1),
        sign_field(text, day + 4, b'-'),
        number_field(text, day + 5, 4, 1970, 9999),
        sign_field(text, day + 9, b'.'),
        number_field(text, day + 10, 2, 0, 23),
        sign_field(text, day + 12, b':'),
        number_field(text, day + 13, 2, 0, 59),
        sign_field(text, day + 15, b':'),
        number_field(text, day + 16, 2, 0, 59),
        end_field(text, day + 18),
    ]
}

/// Where the first field begins that is wrong.
#[tactic(auto, unfolding(crate::specs::Dates::first_wrong))]
pub(crate) fn first_wrong(fields: &[Field]) -> Option<u64>
    ensures { result ≡ first_wrong fields.now }
{
    fields
        .iter()
        .find(|field| !field.right)
        .map(|field| field.place)
}
