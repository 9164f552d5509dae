//! Values of a TOML text.

ghost use Rattle.std.specs.Prelude.{◌≡◌, ◌≤◌, ◌==◌, length, map, find, not, option_map, string_bytes, Ok, Err, MatchResult, IfOk};
ghost use Rattle.std.specs.List.{list_any};
ghost use Rattle.toml.specs.Data.{get};
ghost use Rattle.std.specs.Option.{option_copied};
ghost use Rattle.std.specs.BTreeMap.{keys};
ghost use Rattle.toml.specs.View.{view};
ghost use Rattle.scoop_message.specs.declared.limits.TheConstants.{MAX_WORDS};
ghost use Rattle.scoop_system.specs.KeyText.{key_text};
ghost use Rattle.scoop_system.specs.Value.{whole_of, word_of, in_range, number_at, text_at, name_at, address_at, status_at, written_address, with_port, list_at, is_known, key_fault};
ghost use Rattle.scoop_system.specs.Value.{words_at, some_words, handler_name_at};
ghost use Rattle.scoop_system.specs.Address.{address_of};

use crate::error::{Key, Wrong};
use crate::name::{Name, is_name};
use scoop_lines::{decimal, is};
use scoop_message::Words;
use scoop_message::limits::MAX_WORDS;
use std::net::SocketAddr;
use toml::{Table, Value};

// The value at a key.
pub(super) fn entry(value: &Value, key: Key) -> Option<&Value>
    ensures { option_map (λ v. view v.now) result ≡ get (key_text key) (view value.now) }
{
    value.get(key.as_str())
}

// A whole number from 0 on.
pub(super) fn whole(value: &Value) -> Option<u64>
    ensures { result ≡ whole_of (view value.now) }
{
    match value.as_integer() {
        Some(number) => u64::try_from(number).ok(),
        None => None,
    }
}

// A whole number from 0 on, or the text of one.
fn word(value: &Value) -> Option<u64>
    ensures { result ≡ word_of (view value.now) }
{
    match value.as_str() {
        Some(text) => decimal(text.as_bytes()),
        None => whole(value),
    }
}

// The number that is the value of this key, if it is in the range.
pub(super) fn in_range(value: &Value, key: Key, low: u64, high: u64) -> Result<u64, Wrong>
    ensures value { result ≡ in_range key low high (whole_of (view value.now)) }
    ensures low { IfOk result (λ number. low ≤ number) }
    ensures high { IfOk result (λ number. number ≤ high) }
{
    match whole(value) {
        Some(number) if low <= number && number <= high => Ok(number),
        _ => Err(Wrong::NotANumber(key, low, high)),
    }
}

// The number at a key, if it is in the range.
pub(super) fn number_at(value: &Value, key: Key, low: u64, high: u64) -> Result<u64, Wrong>
    ensures value { result ≡ number_at key low high (view value.now) }
    ensures low { IfOk result (λ number. low ≤ number) }
    ensures high { IfOk result (λ number. number ≤ high) }
{
    match entry(value, key) {
        Some(number) => in_range(number, key, low, high),
        None => Err(Wrong::Missing(key)),
    }
}

// The text at a key.
pub(super) fn text_at(value: &Value, key: Key) -> Result<&str, Wrong>
    ensures { MatchResult result (λ text. text_at key (view value.now) ≡ Ok text.now) (λ wrong. text_at key (view value.now) ≡ Err wrong) }
{
    match entry(value, key) {
        Some(text) => match text.as_str() {
            Some(text) => Ok(text),
            None => Err(Wrong::NotAName(key)),
        },
        None => Err(Wrong::Missing(key)),
    }
}

// The name at a key.
pub(super) fn name_at(value: &Value, key: Key) -> Result<Name, Wrong>
    ensures { result ≡ name_at key (view value.now) }
{
    let text = text_at(value, key)?;
    if is_name(text) {
        Ok(Name::told(text))
    } else {
        Err(Wrong::NotAName(key))
    }
}

// The name of a handler, if it has one. `when` ends the handlers of a line, so it names none.
pub(super) fn handler_name_at(value: &Value) -> Result<Option<Name>, Wrong>
    ensures { result ≡ handler_name_at (view value.now) }
{
    if entry(value, Key::Name).is_none() {
        return Ok(None);
    }
    let name = name_at(value, Key::Name)?;
    if is(name.as_bytes(), "when") {
        return Err(Wrong::LineWord(name));
    }
    Ok(Some(name))
}

// The address of a table.
pub(super) fn address_at(value: &Value) -> Result<SocketAddr, Wrong>
    ensures { result ≡ address_at (view value.now) }
{
    match entry(value, Key::Address) {
        Some(address) => address_in(address, Key::Address),
        None => Err(Wrong::Missing(Key::Address)),
    }
}

// The address of a node's status page, if it has one.
pub(super) fn status_at(value: &Value) -> Result<Option<SocketAddr>, Wrong>
    ensures { result ≡ status_at (view value.now) }
{
    match entry(value, Key::Status) {
        Some(address) => Ok(Some(address_in(address, Key::Status)?)),
        None => Ok(None),
    }
}

// The address that the value of a key writes.
pub(super) fn address_in(value: &Value, key: Key) -> Result<SocketAddr, Wrong>
    ensures { result ≡ written_address key (view value.now) }
{
    match value.as_str() {
        Some(text) => with_port(key, parse_address(text)),
        None => Err(Wrong::NotAnAddress(key)),
    }
}

fn with_port(key: Key, address: Option<SocketAddr>) -> Result<SocketAddr, Wrong>
    ensures { result ≡ with_port key address }
{
    match address {
        Some(address) if address.port() != 0 => Ok(address),
        _ => Err(Wrong::NotAnAddress(key)),
    }
}

fn parse_address(text: &str) -> Option<SocketAddr>
    ensures { result ≡ address_of text.now }
{
    text.parse::<SocketAddr>().ok()
}

// The values of the list at a key, at most `limit`; none if the key is missing.
pub(super) fn list_at(value: &Value, key: Key, limit: usize) -> Result<&[Value], Wrong>
    ensures value { MatchResult result (λ values. list_at key limit (view value.now) ≡ Ok (map view values.now))
        (λ wrong. list_at key limit (view value.now) ≡ Err wrong) }
    ensures few { IfOk result (λ values. length values.now ≤ limit) }
{
    let Some(list) = entry(value, key) else {
        return Ok(&[]);
    };
    let Some(array) = list.as_array() else {
        return Err(Wrong::NotAList(key));
    };
    let values = array.as_slice();
    if values.len() > limit {
        return Err(Wrong::TooMany(key, limit));
    }
    Ok(values)
}

// The fault of a value that isn't a table of these keys: the first unknown key, by name.
pub(super) fn key_fault(value: &Value, known: &[Key]) -> Option<Wrong>
    ensures { result ≡ key_fault known.now (view value.now) }
{
    let Some(table) = value.as_table() else {
        return Some(Wrong::NoTable);
    };
    match unknown_key(table, known) {
        Some(name) => Some(Wrong::UnknownKey(Name::told(name.as_str()))),
        None => None,
    }
}

// The first key of a table that isn't among these.
fn unknown_key<'a>(table: &'a Table, known: &[Key]) -> Option<&'a String>
    ensures { option_copied result ≡ find (λ name. not (is_known known.now (string_bytes name))) (keys table.now) }
{
    table.keys().find(|name| !is_known(known, name.as_str()))
}

fn is_known(known: &[Key], name: &str) -> bool
    ensures { result ≡ is_known known.now name.now }
{
    known.iter().any(|key| key.as_str() == name)
}

// The one to sixteen words of a table.
pub(super) fn words_at(value: &Value) -> Result<Words, Wrong>
    ensures { result ≡ words_at (view value.now) }
{
    match entry(value, Key::Words) {
        Some(list) => match list.as_array() {
            Some(array) => some_words(array.as_slice()),
            None => Err(Wrong::NotWords),
        },
        None => Err(Wrong::Missing(Key::Words)),
    }
}

fn some_words(values: &[Value]) -> Result<Words, Wrong>
    ensures { result ≡ some_words (map view values.now) }
{
    if values.is_empty() || values.len() > MAX_WORDS {
        return Err(Wrong::NotWords);
    }
    let mut words = [0; MAX_WORDS];
    for (place, value) in values.iter().enumerate() {
        match word(value) {
            Some(number) => words[place] = number,
            None => return Err(Wrong::NotWords),
        }
    }
    match Words::of(&words[..values.len()]) {
        Ok(words) => Ok(words),
        Err(_) => unreachable!(),
    }
}
