//! The words of a line, one space between them, and what they write.

ghost use Rattle.std.specs.Prelude.{◌≡◌, ◌≤◌, ◌++◌, ◌∷◌, [], None, length, IfOk, IsTrue, OnOk, option_copied, true};
ghost use Rattle.std.specs.List.{list_all};
ghost use Rattle.std.specs.Fmt.{decimal};
ghost use Rattle.hex.specs.Hex.{encode_lower};
ghost use Rattle.scoop_message.specs.Message.{Fits};
ghost use Rattle.scoop_frame.specs.Frame.{IsFrame};
ghost use Rattle.scoop_frame.specs.Version.{Carries};
ghost use Rattle.scoop_frame.specs.declared.version.Version.TheVariants.{Two};
ghost use Rattle.scoop_journal.specs.Line.{blob_word, frame_word, handler_word, is_hex, is_lower_digit};
ghost use Rattle.scoop_journal.specs.Reading.{following};

use crate::fault::LineFault;
use itoa::Buffer;
use scoop_frame::{Version, decode};
use scoop_lines::decimal;
use scoop_message::limits::BUFFER_LEN;
use scoop_message::{HandlerId, Message};

// Twice the bytes of a buffer.
const DIGITS_LEN: usize = 384;

// The number of bytes before the first space.
fn word_len(text: &[u8]) -> usize
    ensures { result ≤ length text.now }
{
    match text.iter().position(|byte| *byte == b' ') {
        Some(place) => place,
        None => text.len(),
    }
}

/// The first word of a text, and the text after the space that follows it, if there is one.
pub(crate) fn cut(text: &[u8]) -> (&[u8], Option<&[u8]>)
    ensures { text.now ≡ result.0.now ++ following (option_copied result.1) }
{
    let (word, rest) = text.split_at(word_len(text));
    match rest {
        [b' ', behind @ ..] => (word, Some(behind)),
        _ => (text, None),
    }
}

/// No more words.
pub(crate) fn none(rest: Option<&[u8]>) -> Result<(), LineFault>
    ensures { OnOk result (following (option_copied rest.entry) ≡ []) }
{
    match rest {
        None => Ok(()),
        Some(_) => Err(LineFault::WordCount),
    }
}

/// One more word, and the rest after it.
pub(crate) fn next(rest: Option<&[u8]>) -> Result<(&[u8], Option<&[u8]>), LineFault>
    ensures { IfOk result (λ x. following (option_copied rest.entry) ≡ 32 ∷ (x.0.now ++ following (option_copied x.1))) }
{
    match rest {
        Some(text) => Ok(cut(text)),
        None => Err(LineFault::WordCount),
    }
}

/// One more word, which is the last.
pub(crate) fn last(rest: Option<&[u8]>) -> Result<&[u8], LineFault>
    ensures { IfOk result (λ word. following (option_copied rest.entry) ≡ 32 ∷ word.now) }
{
    let (word, behind) = next(rest)?;
    none(behind)?;
    Ok(word)
}

// Whether a word is this number in decimal digits, as a journal writes it.
fn writes(word: &[u8], number: u64) -> bool
    ensures { IsTrue result → word.now ≡ decimal number }
{
    let mut buffer = Buffer::new();
    buffer.format(number).as_bytes() == word
}

/// The number of a word, as it is written in decimal digits.
pub(crate) fn number(word: &[u8]) -> Result<u64, LineFault>
    ensures { IfOk result (λ n. word.now ≡ decimal n) }
{
    match decimal(word) {
        Some(number) => {
            if writes(word, number) {
                Ok(number)
            } else {
                Err(LineFault::NotANumber)
            }
        }
        None => Err(LineFault::NotANumber),
    }
}

/// The number below 2^32 of a word.
pub(crate) fn number_u32(word: &[u8]) -> Result<u32, LineFault>
    ensures { IfOk result (λ n. word.now ≡ decimal n) }
{
    match u32::try_from(number(word)?) {
        Ok(number) => Ok(number),
        Err(_) => Err(LineFault::NotANumber),
    }
}

/// The number below 2^16 of a word.
pub(crate) fn number_u16(word: &[u8]) -> Result<u16, LineFault>
    ensures { IfOk result (λ n. word.now ≡ decimal n) }
{
    match u16::try_from(number(word)?) {
        Ok(number) => Ok(number),
        Err(_) => Err(LineFault::NotANumber),
    }
}

/// The number below 2^8 of a word.
pub(crate) fn number_u8(word: &[u8]) -> Result<u8, LineFault>
    ensures { IfOk result (λ n. word.now ≡ decimal n) }
{
    match u8::try_from(number(word)?) {
        Ok(number) => Ok(number),
        Err(_) => Err(LineFault::NotANumber),
    }
}

/// The handler of a word.
pub(crate) fn handler(word: &[u8]) -> Result<HandlerId, LineFault>
    ensures { IfOk result (λ h. word.now ≡ handler_word h) }
{
    match number_u32(word) {
        Ok(number) => Ok(HandlerId(number)),
        Err(fault) => Err(fault),
    }
}

fn is_lower_digit(byte: u8) -> bool
    ensures { result ≡ is_lower_digit byte }
{
    matches!(byte, b'0'..=b'9' | b'a'..=b'f')
}

fn are_lower_digits(word: &[u8]) -> bool
    ensures { result ≡ list_all is_lower_digit word.now }
{
    word.iter().all(|byte| is_lower_digit(*byte))
}

/// Whether a word is lower-case hex digits, two for each byte.
pub(crate) fn is_hex(word: &[u8]) -> bool
    ensures { result ≡ is_hex word.now }
{
    if word.len() % 2 != 0 {
        return false;
    }
    are_lower_digits(word)
}

/// The hex digits of a word, `-` for none.
pub(crate) fn blob(word: &[u8]) -> Result<&[u8], LineFault>
    ensures word { IfOk result (λ digits. word.now ≡ blob_word digits.now) }
    ensures hex { IfOk result (λ digits. is_hex digits.now ≡ true) }
{
    match word {
        [b'-'] => Ok(&[]),
        [] => Err(LineFault::NotHex),
        [_, ..] => {
            if is_hex(word) {
                Ok(word)
            } else {
                Err(LineFault::NotHex)
            }
        }
    }
}

// Whether a word is the lower-case hex digits of these bytes.
fn writes_bytes(word: &[u8], bytes: &[u8]) -> bool
    requires { length bytes.now ≤ BUFFER_LEN }
    ensures { IsTrue result → word.now ≡ encode_lower bytes.now }
{
    let mut digits = [0; DIGITS_LEN];
    let digits = &mut digits[..2 * bytes.len()];
    match hex::encode_to_slice(bytes, digits) {
        Ok(()) => word == &*digits,
        Err(_) => false,
    }
}

// The message of these bytes, which the word writes.
fn framed(word: &[u8], bytes: &[u8]) -> Result<(Version, Message), LineFault>
    requires { length bytes.now ≤ BUFFER_LEN }
    ensures word { IfOk result (λ x. word.now ≡ frame_word x.0 x.1) }
    ensures fits { IfOk result (λ x. Fits x.1 × Carries x.0 x.1) }
{
    if !writes_bytes(word, bytes) {
        return Err(LineFault::NotHex);
    }
    match decode(bytes) {
        Ok((version, message)) => Ok((version, message)),
        Err(_) => Err(LineFault::NoFrame),
    }
}

/// The message and the version of a word that is a frame.
pub(crate) fn frame(word: &[u8]) -> Result<(Version, Message), LineFault>
    ensures word { IfOk result (λ x. word.now ≡ frame_word x.0 x.1) }
    ensures fits { IfOk result (λ x. Fits x.1 × Carries x.0 x.1) }
{
    let len = word.len() / 2;
    if len > BUFFER_LEN {
        return Err(LineFault::NoFrame);
    }
    let mut buffer = [0; BUFFER_LEN];
    let bytes = &mut buffer[..len];
    match hex::decode_to_slice(word, bytes) {
        Ok(()) => framed(word, bytes),
        Err(_) => Err(LineFault::NotHex),
    }
}

/// The message of a word that is a frame of version 2.
pub(crate) fn message(word: &[u8]) -> Result<Message, LineFault>
    ensures word { IfOk result (λ m. word.now ≡ frame_word Two m) }
    ensures fits { IfOk result Fits }
{
    match frame(word) {
        Ok((Version::Two, message)) => Ok(message),
        Ok((Version::One, _)) => Err(LineFault::NoFrame),
        Err(fault) => Err(fault),
    }
}
