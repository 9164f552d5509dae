//! Numbers in decimal digits.

ghost use Rattle.std.specs.Prelude.{◌≡◌, ◌≤◌, ◌^◌, length, MatchResult};
ghost use Rattle.scoop_message.specs.declared.limits.TheConstants.{MAX_WORDS};
ghost use Rattle.scoop_lines.specs.Words.{words_of};
ghost use Rattle.scoop_lines.specs.Reading.{each_of};
ghost use Rattle.scoop_demo.specs.ScriptLine.{number_below, number_of};

use crate::fault::InputFault;
use arrayvec::ArrayVec;
use scoop_lines::{decimal, decimal_u16, decimal_u32, next_word};
use scoop_message::limits::MAX_WORDS;

/// The number below 2^64 that a word writes in decimal digits. The error is `NotANumber` exactly if it writes none.
pub fn read_u64(word: &[u8]) -> Result<u64, InputFault>
    ensures { result ≡ number_below (2 ^ 64) word.now }
{
    decimal(word).ok_or(InputFault::NotANumber)
}

/// The same below 2^32.
pub fn read_u32(word: &[u8]) -> Result<u32, InputFault>
    ensures { result ≡ number_below (2 ^ 32) word.now }
{
    decimal_u32(word).ok_or(InputFault::NotANumber)
}

/// The same below 2^16.
pub fn read_u16(word: &[u8]) -> Result<u16, InputFault>
    ensures { result ≡ number_below (2 ^ 16) word.now }
{
    decimal_u16(word).ok_or(InputFault::NotANumber)
}

/// The numbers of a line of at most as many words as an object may have.
pub fn read_numbers(line: &[u8]) -> Result<ArrayVec<u64, MAX_WORDS>, InputFault>
    requires { length (words_of line.now) ≤ MAX_WORDS }
    ensures { MatchResult result (λ numbers. each_of number_of (words_of line.now) ≡ Ok numbers.items)
        (λ fault. each_of number_of (words_of line.now) ≡ Err fault) }
{
    let mut numbers = ArrayVec::new();
    let mut rest = line;
    while let Some((word, behind)) = next_word(rest) {
        match read_u64(word) {
            Ok(number) => numbers.push(number),
            Err(fault) => return Err(fault),
        }
        rest = behind;
    }
    Ok(numbers)
}
