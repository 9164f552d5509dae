//! Numbers and handlers in a line.

ghost use Rattle.std.specs.Prelude.{◌≡◌, ◌≤◌, ◌^◌, IfOk};
ghost use Rattle.scoop_system.specs.Line.{number_below, handler_of, tries_of};

use super::fault::LineFault;
use crate::shown_word::ShownWord;
use crate::system::System;
use scoop_lines::{decimal, decimal_u16, decimal_u32, is_decimal};
use scoop_message::HandlerId;

// The number below 2^64 that a word writes.
pub(super) fn read_u64(word: &[u8]) -> Result<u64, LineFault>
    ensures { result ≡ number_below (2 ^ 64) word.now }
{
    match decimal(word) {
        Some(number) => Ok(number),
        None => Err(LineFault::NotANumber(ShownWord::of(word))),
    }
}

// The same below 2^32.
pub(super) fn read_u32(word: &[u8]) -> Result<u32, LineFault>
    ensures { result ≡ number_below (2 ^ 32) word.now }
{
    match decimal_u32(word) {
        Some(number) => Ok(number),
        None => Err(LineFault::NotANumber(ShownWord::of(word))),
    }
}

// The same below 2^16.
pub(super) fn read_u16(word: &[u8]) -> Result<u16, LineFault>
    ensures { result ≡ number_below (2 ^ 16) word.now }
{
    match decimal_u16(word) {
        Some(number) => Ok(number),
        None => Err(LineFault::NotANumber(ShownWord::of(word))),
    }
}

// A handler by its number or its name.
pub(super) fn read_handler(system: &System, word: &[u8]) -> Result<HandlerId, LineFault>
    ensures { result ≡ handler_of system.now word.now }
{
    if is_decimal(word) {
        return Ok(HandlerId(read_u32(word)?));
    }
    match system.handler_by_name(word) {
        Some(handler) => Ok(handler),
        None => Err(LineFault::NoSuchHandler(ShownWord::of(word))),
    }
}

// A number of tries, from 1 on.
pub(super) fn read_tries(word: &[u8]) -> Result<u32, LineFault>
    ensures value { result ≡ tries_of word.now }
    ensures some { IfOk result (λ tries. 1 ≤ tries) }
{
    match read_u32(word)? {
        0 => Err(LineFault::NotANumber(ShownWord::of(word))),
        tries => Ok(tries),
    }
}
