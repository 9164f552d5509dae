//! Datagrams from lines of hex digits.

ghost use Rattle.std.specs.Prelude.{◌≡◌, ◌≤◌, ◌*◌, Ok, None, Some, IfOk, IsErr, MatchOption, MatchResult, length, take};
ghost use Rattle.std.specs.List.{list_all};
ghost use Rattle.hex.specs.Hex.{is_hex_digit, decode_of};
ghost use Rattle.scoop_demo.specs.Hex.{IsDecoded, StandsFor, digits_of, fault_among, hex_fault, value_of};

use crate::fault::InputFault;
use scoop_lines::LineBytes;

/// Bytes of the datagram of one line, at most.
pub const MAX_DATAGRAM_LEN: usize = 2048;

/// The datagram of a line of hex digits of either case, at the front of the buffer. Spaces are skipped; the line loses
/// them.
///
/// # Errors
/// - `NotHex`: another byte is no hex digit.
/// - `OddDigits`: the number of digits is odd.
pub fn read_datagram<'a>(
    line: &mut LineBytes,
    buffer: &'a mut [u8; MAX_DATAGRAM_LEN],
) -> Result<&'a [u8], InputFault>
    ensures ok { IfOk result (λ datagram. StandsFor line.old.items datagram.now) }
    ensures fault { MatchResult result (λ _. hex_fault line.old.items ≡ None) (λ fault. hex_fault line.old.items ≡ Some fault) }
{
    // Most lines have no spaces.
    match read_digits(line.as_slice(), buffer) {
        Some(len) => return Ok(&buffer[..len]),
        None => {}
    }
    remove_spaces(line);
    match read_digits(line.as_slice(), buffer) {
        Some(len) => Ok(&buffer[..len]),
        None => Err(fault_of(line.as_slice())),
    }
}

// Writes the bytes of an even number of hex digits to the front of the buffer, and returns their number. `None` for any
// other line.
fn read_digits(line: &[u8], buffer: &mut [u8; MAX_DATAGRAM_LEN]) -> Option<usize>
    requires { length line.now ≤ 4096 }
    ensures { MatchOption result (IsErr (decode_of line.now)) (λ len. (len ≤ 2048) × (decode_of line.now ≡ Ok (take len buffer.new))) }
{
    if line.len() % 2 == 1 {
        return None;
    }
    let len = line.len() / 2;
    if decode_digits(line, &mut buffer[..len]) {
        Some(len)
    } else {
        None
    }
}

// Writes the bytes of hex digits, two for each byte. `false` if another byte is among them.
fn decode_digits(digits: &[u8], bytes: &mut [u8]) -> bool
    requires { length digits.now ≡ 2 * length bytes.old }
    ensures bytes { IsDecoded result digits.now bytes.new }
    ensures len { length bytes.new ≡ length bytes.old }
{
    for i in 0..bytes.len() {
        let high = digit_value(digits[2 * i]);
        let low = digit_value(digits[2 * i + 1]);
        // One test for both.
        if high | low > 15 {
            return false;
        }
        bytes[i] = 16 * high + low;
    }
    true
}

// The value of each byte as a hex digit, or 255: sixteen bytes a line.
#[rattlefmt::skip]
static DIGIT_VALUES: [u8; 256] = [
    255, 255, 255, 255, 255, 255, 255, 255, 255, 255, 255, 255, 255, 255, 255, 255,
    255, 255, 255, 255, 255, 255, 255, 255, 255, 255, 255, 255, 255, 255, 255, 255,
    255, 255, 255, 255, 255, 255, 255, 255, 255, 255, 255, 255, 255, 255, 255, 255,
      0,   1,   2,   3,   4,   5,   6,   7,   8,   9, 255, 255, 255, 255, 255, 255,
    255,  10,  11,  12,  13,  14,  15, 255, 255, 255, 255, 255, 255, 255, 255, 255,
    255, 255, 255, 255, 255, 255, 255, 255, 255, 255, 255, 255, 255, 255, 255, 255,
    255,  10,  11,  12,  13,  14,  15, 255, 255, 255, 255, 255, 255, 255, 255, 255,
    255, 255, 255, 255, 255, 255, 255, 255, 255, 255, 255, 255, 255, 255, 255, 255,
    255, 255, 255, 255, 255, 255, 255, 255, 255, 255, 255, 255, 255, 255, 255, 255,
    255, 255, 255, 255, 255, 255, 255, 255, 255, 255, 255, 255, 255, 255, 255, 255,
    255, 255, 255, 255, 255, 255, 255, 255, 255, 255, 255, 255, 255, 255, 255, 255,
    255, 255, 255, 255, 255, 255, 255, 255, 255, 255, 255, 255, 255, 255, 255, 255,
    255, 255, 255, 255, 255, 255, 255, 255, 255, 255, 255, 255, 255, 255, 255, 255,
    255, 255, 255, 255, 255, 255, 255, 255, 255, 255, 255, 255, 255, 255, 255, 255,
    255, 255, 255, 255, 255, 255, 255, 255, 255, 255, 255, 255, 255, 255, 255, 255,
    255, 255, 255, 255, 255, 255, 255, 255, 255, 255, 255, 255, 255, 255, 255, 255,
];

// The value of a hex digit, or 255 for another byte.
#[inline]
fn digit_value(byte: u8) -> u8
    ensures { result ≡ value_of byte }
{
    DIGIT_VALUES[usize::from(byte)]
}

fn remove_spaces(line: &mut LineBytes)
    ensures { line.new.items ≡ digits_of line.old.items }
{
    line.retain(|byte| *byte != b' ');
}

// The fault of bytes that are not an even number of hex digits.
fn fault_of(digits: &[u8]) -> InputFault
    requires { IsErr (decode_of digits.now) }
    ensures { fault_among digits.now ≡ Some result }
{
    if are_digits(digits) {
        InputFault::OddDigits
    } else {
        InputFault::NotHex
    }
}

// Whether all bytes are hex digits.
fn are_digits(digits: &[u8]) -> bool
    ensures { result ≡ list_all is_hex_digit digits.now }
{
    digits.iter().all(|digit| is_digit(*digit))
}

fn is_digit(byte: u8) -> bool
    ensures { result ≡ is_hex_digit byte }
{
    matches!(byte, b'0'..=b'9' | b'a'..=b'f' | b'A'..=b'F')
}
