//! Numbers in decimal digits.

ghost use Rattle.std.specs.Prelude.{◌≡◌, ◌≤◌, ◌^◌, true, length};
ghost use Rattle.std.specs.List.{list_all};
ghost use Rattle.std.specs.Str.Parse.{digits_value};
ghost use Rattle.scoop_lines.specs.Number.{decimal_of, decimal_below, is_decimal, is_digit};

use std::str;

// Every number of up to this many digits is below 2^64.
const SHORT_LEN: usize = 19;

/// The number below 2^64 that a word writes in decimal digits. `None` exactly if it writes none.
pub fn decimal(word: &[u8]) -> Option<u64>
    ensures { result ≡ decimal_of word.now }
{
    if !is_decimal(word) {
        return None;
    }
    if word.len() <= SHORT_LEN {
        return Some(short_number(word));
    }
    let Ok(text) = str::from_utf8(word) else {
        unreachable!()
    };
    match text.parse::<u64>() {
        Ok(number) => Some(number),
        Err(_) => None,
    }
}

// The number that a few digits write.
fn short_number(digits: &[u8]) -> u64
    requires short { length digits.now ≤ 19 }
    requires digits { list_all is_digit digits.now ≡ true }
    ensures { result ≡ digits_value 10 digits.now }
{
    let mut number = 0;
    for digit in digits {
        number = 10 * number + u64::from(*digit - b'0');
    }
    number
}

/// The same below 2^32.
pub fn decimal_u32(word: &[u8]) -> Option<u32>
    ensures { result ≡ decimal_below (2 ^ 32) word.now }
{
    match decimal(word) {
        Some(number) => u32::try_from(number).ok(),
        None => None,
    }
}

/// The same below 2^16.
pub fn decimal_u16(word: &[u8]) -> Option<u16>
    ensures { result ≡ decimal_below (2 ^ 16) word.now }
{
    match decimal(word) {
        Some(number) => u16::try_from(number).ok(),
        None => None,
    }
}

/// Whether a word is one decimal digit or more, and nothing else.
pub fn is_decimal(word: &[u8]) -> bool
    ensures { result ≡ is_decimal word.now }
{
    !word.is_empty() && are_digits(word)
}

fn are_digits(word: &[u8]) -> bool
    ensures { result ≡ list_all is_digit word.now }
{
    word.iter().all(|byte| is_digit(*byte))
}

fn is_digit(byte: u8) -> bool
    ensures { result ≡ is_digit byte }
{
    matches!(byte, b'0'..=b'9')
}
