//! Keys.

ghost use Rattle.std.specs.Prelude.{◌≡◌};
ghost use Rattle.scoop_seal.specs.Key.{end_len, key_in, key_text};
ghost use Rattle.scoop_seal.specs.System.{sealing_key};

use crate::system_key::system_code;
use hex::{FromHex, FromHexError, encode_to_slice};
use std::marker::Model;
use thiserror::Error;

// Bytes of a key.
const KEY_LEN: usize = 32;

// Bytes of its text: the digits, and the end of line.
const TEXT_LEN: usize = 65;

/// A key of 32 bytes. It can't be printed. Contracts see its bytes.
#[derive(Clone, Copy)]
pub struct Key {
    bytes: [u8; KEY_LEN],
}

impl Model for Key {
    ghost use Rattle.std.specs.Prelude.{ℕ, List};

    ghost Value = { List ℕ };

    ghost view = { λ k. k.bytes };

    ghost inverse = { λ bytes. record { bytes = bytes } };
}

/// Why a text is no key, in the order in which it is tested. It reveals nothing of the text.
#[derive(Clone, Copy, Debug, PartialEq, Eq, Error)]
pub enum KeyError {
    /// There aren't 64 bytes before the end of line.
    #[error("a key has 64 hex digits")]
    Length,
    /// One of the bytes is no hex digit.
    #[error("a key has hex digits alone")]
    Digit,
}

// The length of a text's end of line.
fn end_len(text: &[u8]) -> usize
    ensures { result ≡ end_len text.now }
{
    match text {
        [.., b'\r', b'\n'] => 2,
        [.., b'\n'] => 1,
        _ => 0,
    }
}

impl Key {
    /// Makes the key of these bytes.
    pub fn new(bytes: [u8; KEY_LEN]) -> Key
        ensures { result ≡ bytes }
    {
        Key { bytes }
    }

    /// Reads a key from a text: 64 hex digits, of either case, with or without an end of line after them.
    pub fn read(text: &[u8]) -> Result<Key, KeyError>
        ensures { result ≡ key_in text.now }
    {
        let line = &text[..text.len() - end_len(text)];
        match <[u8; KEY_LEN] as FromHex>::from_hex(line) {
            Ok(bytes) => Ok(Key { bytes }),
            Err(FromHexError::InvalidHexCharacter { .. }) => Err(KeyError::Digit),
            Err(_) => Err(KeyError::Length),
        }
    }

    /// The text of the key, as `read` reads it: 64 lower-case hex digits, and a line feed.
    pub fn to_text(&self) -> [u8; TEXT_LEN]
        ensures { result ≡ key_text self.now }
    {
        let mut text = [b'\n'; TEXT_LEN];
        let Ok(()) = encode_to_slice(&self.bytes, &mut text[..2 * KEY_LEN]) else {
            unreachable!()
        };
        text
    }

    /// The key that seals the datagrams of a system with this name and life. It is the code of both under this key, so
    /// that systems and lives with the same key don't hear each other. An empty name and the life 0 stand for a system
    /// without either, whose datagrams this key seals itself.
    pub fn of_system(&self, name: &[u8], life: u32) -> Key
        ensures { result ≡ sealing_key self.now name.now life }
    {
        if name.is_empty() && life == 0 {
            return *self;
        }
        Key {
            bytes: system_code(&self.bytes, name, life),
        }
    }

    // The bytes.
    pub(crate) fn bytes(&self) -> &[u8]
        ensures { result.now ≡ self.now }
    {
        &self.bytes
    }
}
