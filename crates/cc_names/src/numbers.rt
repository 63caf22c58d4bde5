//! Numbers in decimal digits.

ghost use Rattle.std.specs.Prelude.{◌≡◌, ◌++◌, true, OnOk};
ghost use Rattle.std.specs.Char.{is_ascii_digit};
ghost use Rattle.std.specs.List.{list_all};
ghost use Rattle.std.specs.Fmt.{decimal};
ghost use Rattle.std.specs.Str.Parse.{digits_value};
ghost use Rattle.cc_names.specs.Numbers.{begins_no_number, below_limit, number_of};

use crate::memory::NoMemory;
use std::alloc::Global;

fn are_digits(bytes: &[u8]) -> bool
    ensures { result ≡ list_all is_ascii_digit bytes.now }
{
    bytes.iter().all(|byte| byte.is_ascii_digit())
}

fn begins_no_number(digits: &[u8]) -> bool
    ensures { result ≡ begins_no_number digits.now }
{
    match digits {
        [] => true,
        [_] => false,
        [first, ..] => *first == b'0',
    }
}

/// The number that digits spell, where it is below 2^64.
fn value(digits: &[u8]) -> Option<u64>
    requires { list_all is_ascii_digit digits.now ≡ true }
    ensures { result ≡ below_limit (digits_value 10 digits.now) }
{
    let mut value: u64 = 0;
    for digit in digits {
        let tens = value.checked_mul(10)?;
        value = tens.checked_add((*digit - b'0') as u64)?;
    }
    Some(value)
}

/// Reads bytes as a number in decimal digits without leading zeros, below 2^64. Takes time linear in the bytes.
pub fn number(bytes: &[u8]) -> Option<u64>
    ensures { result ≡ number_of bytes.now }
{
    if !are_digits(bytes) || begins_no_number(bytes) {
        return None;
    }
    value(bytes)
}

/// Writes a number in decimal digits after a text.
pub fn push_number(alloc: Global, text: &mut Vec<u8>, number: u64) -> Result<(), NoMemory>
    ensures { OnOk result (text.new.items ≡ text.old.items ++ decimal number) }
{
    let digits = format!(in alloc; "{number}")?;
    text.extend_from_slice(digits.as_bytes())?;
    Ok(())
}
