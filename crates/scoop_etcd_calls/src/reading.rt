//! The bodies of answers.

ghost use Rattle.std.specs.Prelude.{◌≡◌, ◌≢◌, Ok, Err, IfOk, IfErr, OnOk, IsUtf8, MatchResult, is_some, map, option_map};
ghost use Rattle.serde_json.specs.Find.{as_object};
ghost use Rattle.serde_json.specs.View.{view};
ghost use Rattle.scoop_lines.specs.Reading.{each_of};
ghost use Rattle.scoop_etcd_calls.specs.Stored.{stored, listed, refused, is_below, ascends_from, ascends};
ghost use Rattle.scoop_etcd_calls.specs.Answer.{Refuses, above_zero, bytes_at, entry, flag_at, found_in, header_at, json_of, key_at, listed_at, number_of, outcome_at, outcome_in, pair_of, pairs_at, code_at, refusal_at, refusal_in, revision_at, stored_at, text_at, values_at};

use crate::calls::{Found, Outcome, Pair, Refusal};
use crate::fault::{AnswerFault, Field};
use base64::DecodeAllocError;
use base64::engine::general_purpose::STANDARD;
use scoop_lines::decimal;
use serde_json::Value;
use std::alloc::Global;
use std::cmp::Ordering;

fn entry(value: &Value, field: Field) -> Option<&Value>
    ensures { option_map (λ v. view v.now) result ≡ entry field (view value.now) }
{
    value.get(field.as_str())
}

fn text_at(value: &Value, field: Field) -> Result<&str, AnswerFault>
    ensures { MatchResult result (λ text. text_at field (view value.now) ≡ Ok text.now)
        (λ fault. text_at field (view value.now) ≡ Err fault) }
{
    match entry(value, field) {
        Some(text) => match text.as_str() {
            Some(text) => Ok(text),
            None => Err(AnswerFault::OtherKind(field)),
        },
        None => Ok(""),
    }
}

fn bytes_at(alloc: Global, value: &Value, field: Field) -> Result<Vec<u8>, AnswerFault>
    ensures ok { IfOk result (λ bytes. bytes_at field (view value.now) ≡ Ok bytes.items) }
    ensures err { IfErr result (Refuses (bytes_at field (view value.now))) }
{
    let text = text_at(value, field)?;
    match STANDARD.decode(alloc, text.as_bytes()) {
        Ok(bytes) => Ok(bytes),
        Err(DecodeAllocError::OutOfMemory) => Err(AnswerFault::OutOfMemory),
        Err(DecodeAllocError::DecodeError(_)) => Err(AnswerFault::NotBase64(field)),
    }
}

fn key_at(alloc: Global, value: &Value) -> Result<Vec<u8>, AnswerFault>
    ensures ok { IfOk result (λ key. key_at (view value.now) ≡ Ok key.items) }
    ensures err { IfErr result (Refuses (key_at (view value.now))) }
{
    let key = bytes_at(alloc, value, Field::Key)?;
    if key.is_empty() {
        return Err(AnswerFault::Missing(Field::Key));
    }
    Ok(key)
}

fn number_of(text: &str, field: Field) -> Result<u64, AnswerFault>
    ensures { result ≡ number_of field text.now }
{
    if text.is_empty() {
        return Err(AnswerFault::Missing(field));
    }
    match decimal(text.as_bytes()) {
        Some(number) => Ok(number),
        None => Err(AnswerFault::NotANumber(field)),
    }
}

fn above_zero(number: u64, field: Field) -> Result<u64, AnswerFault>
    ensures { result ≡ above_zero field number }
{
    if number == 0 {
        Err(AnswerFault::Missing(field))
    } else {
        Ok(number)
    }
}

fn revision_at(value: &Value, field: Field) -> Result<u64, AnswerFault>
    ensures { result ≡ revision_at field (view value.now) }
{
    let text = text_at(value, field)?;
    let number = number_of(text, field)?;
    above_zero(number, field)
}

fn code_at(value: &Value) -> Result<u64, AnswerFault>
    ensures { result ≡ code_at (view value.now) }
{
    match entry(value, Field::Code) {
        Some(code) => match code.as_u64() {
            Some(code) => Ok(code),
            None => Err(AnswerFault::OtherKind(Field::Code)),
        },
        None => Ok(0),
    }
}

fn flag_at(value: &Value, field: Field) -> Result<bool, AnswerFault>
    ensures { result ≡ flag_at field (view value.now) }
{
    match entry(value, field) {
        Some(flag) => match flag.as_bool() {
            Some(flag) => Ok(flag),
            None => Err(AnswerFault::OtherKind(field)),
        },
        None => Ok(false),
    }
}

fn header_at(value: &Value) -> Result<u64, AnswerFault>
    ensures { result ≡ header_at (view value.now) }
{
    match entry(value, Field::Header) {
        Some(header) if header.is_object() => revision_at(header, Field::Revision),
        Some(_) => Err(AnswerFault::OtherKind(Field::Header)),
        None => Err(AnswerFault::Missing(Field::Header)),
    }
}

fn stored_at(alloc: Global, value: &Value) -> Result<Pair, AnswerFault>
    ensures ok { IfOk result (λ pair. stored_at (view value.now) ≡ Ok (stored pair)) }
    ensures err { IfErr result (Refuses (stored_at (view value.now))) }
{
    let key = key_at(alloc, value)?;
    let bytes = bytes_at(alloc, value, Field::Value)?;
    let revision = revision_at(value, Field::ModRevision)?;
    Ok(Pair {
        key,
        value: bytes,
        revision,
    })
}

fn pair_of(alloc: Global, value: &Value) -> Result<Pair, AnswerFault>
    ensures ok { IfOk result (λ pair. pair_of (view value.now) ≡ Ok (stored pair)) }
    ensures err { IfErr result (Refuses (pair_of (view value.now))) }
{
    if !value.is_object() {
        return Err(AnswerFault::OtherKind(Field::Pairs));
    }
    stored_at(alloc, value)
}

fn values_at(value: &Value) -> Result<&[Value], AnswerFault>
    ensures { MatchResult result (λ values. values_at (view value.now) ≡ Ok (map view values.now))
        (λ fault. values_at (view value.now) ≡ Err fault) }
{
    let Some(list) = entry(value, Field::Pairs) else {
        return Ok(&[]);
    };
    let Some(array) = list.as_array() else {
        return Err(AnswerFault::OtherKind(Field::Pairs));
    };
    Ok(array.as_slice())
}

fn read_pairs(alloc: Global, values: &[Value]) -> Result<Vec<Pair>, AnswerFault>
    ensures ok { IfOk result (λ pairs. each_of pair_of (map view values.now) ≡ Ok (map stored pairs.items)) }
    ensures err { IfErr result (Refuses (each_of pair_of (map view values.now))) }
{
    let mut pairs = Vec::new(alloc);
    for value in values {
        match pair_of(alloc, value) {
            Ok(pair) => pairs.push(pair)?,
            Err(fault) => return Err(fault),
        }
    }
    Ok(pairs)
}

fn is_below(a: &[u8], b: &[u8]) -> bool
    ensures { result ≡ is_below a.now b.now }
{
    match a.cmp(b) {
        Ordering::Less => true,
        Ordering::Equal | Ordering::Greater => false,
    }
}

// Whether the keys ascend from the first pair on.
fn ascends_from(first: &Pair, rest: &[Pair]) -> bool
    ensures { result ≡ ascends_from (stored first.now) (map stored rest.now) }
{
    let mut last = first;
    for pair in rest {
        if !is_below(last.key.as_slice(), pair.key.as_slice()) {
            return false;
        }
        last = pair;
    }
    true
}

fn ascends(pairs: &[Pair]) -> bool
    ensures { result ≡ ascends (map stored pairs.now) }
{
    match pairs {
        [first, rest @ ..] => ascends_from(first, rest),
        [] => true,
    }
}

fn pairs_at(alloc: Global, value: &Value) -> Result<Vec<Pair>, AnswerFault>
    ensures ok { IfOk result (λ pairs. pairs_at (view value.now) ≡ Ok (map stored pairs.items)) }
    ensures err { IfErr result (Refuses (pairs_at (view value.now))) }
{
    let values = values_at(value)?;
    let pairs = read_pairs(alloc, values)?;
    if !ascends(pairs.as_slice()) {
        return Err(AnswerFault::NotAscending);
    }
    Ok(pairs)
}

fn listed_at(alloc: Global, value: &Value) -> Result<Found, AnswerFault>
    ensures ok { IfOk result (λ found. listed_at (view value.now) ≡ Ok (listed found)) }
    ensures err { IfErr result (Refuses (listed_at (view value.now))) }
{
    let revision = header_at(value)?;
    let pairs = pairs_at(alloc, value)?;
    Ok(Found { revision, pairs })
}

fn outcome_at(value: &Value) -> Result<Outcome, AnswerFault>
    ensures { result ≡ outcome_at (view value.now) }
{
    let revision = header_at(value)?;
    let succeeded = flag_at(value, Field::Succeeded)?;
    Ok(Outcome {
        succeeded,
        revision,
    })
}

fn refusal_at(alloc: Global, value: &Value) -> Result<Refusal, AnswerFault>
    ensures ok { IfOk result (λ refusal. refusal_at (view value.now) ≡ Ok (refused refusal)) }
    ensures err { IfErr result (Refuses (refusal_at (view value.now))) }
{
    let code = code_at(value)?;
    let text = text_at(value, Field::Message)?;
    let message = String::from_str(alloc, text)?;
    Ok(Refusal { code, message })
}

// The JSON of a body.
fn json_of(alloc: Global, body: &[u8]) -> Result<Value, AnswerFault>
    ensures ok { IfOk result (λ value. json_of body.now ≡ Ok (view value)) }
    ensures utf8 { OnOk result (IsUtf8 body.now) }
    ensures err { IfErr result (λ fault. IsUtf8 body.now → Refuses (json_of body.now) fault) }
{
    match Value::from_slice(alloc, body) {
        Ok(value) => Ok(value),
        Err(error) if error.is_memory() => Err(AnswerFault::OutOfMemory),
        Err(_) => Err(AnswerFault::NotJson),
    }
}

/// Reads the body of the answer to a range.
///
/// # Errors
/// The first fault of these, in this order. A member with a default value, which an etcd leaves out, may be missing.
/// - `NotJson`: the body isn't UTF-8, or isn't JSON. If it is UTF-8, the other faults say exactly what is wrong.
/// - `NotAnObject`: the JSON isn't an object.
/// - `Missing(Header)`, `OtherKind(Header)`: `header` is missing, or no object.
/// - `Missing`, `OtherKind` or `NotANumber` of `Revision`: the header has no revision from 1 on.
/// - `OtherKind(Pairs)`: `kvs` isn't an array, or an item of it isn't an object.
/// - `Missing(Key)`, and `OtherKind` or `NotBase64` of `Key` or `Value`: a pair has no such bytes.
/// - `Missing`, `OtherKind` or `NotANumber` of `ModRevision`: a pair has no revision from 1 on.
/// - `NotAscending`: a key isn't above the one before it.
/// - `OutOfMemory`: an allocation was refused, at any point.
pub fn read_found(alloc: Global, body: &[u8]) -> Result<Found, AnswerFault>
    ensures ok { IfOk result (λ found. found_in body.now ≡ Ok (listed found)) }
    ensures utf8 { OnOk result (IsUtf8 body.now) }
    ensures err { IfErr result (λ fault. IsUtf8 body.now → Refuses (found_in body.now) fault) }
{
    let value = json_of(alloc, body)?;
    if !value.is_object() {
        return Err(AnswerFault::NotAnObject);
    }
    listed_at(alloc, &value)
}

/// Reads the body of the answer to a transaction.
///
/// # Errors
/// The first fault of these, in this order.
/// - `NotJson`, `NotAnObject`, and the faults of `Header` and `Revision`: as for `read_found`.
/// - `OtherKind(Succeeded)`: `succeeded` isn't a boolean. It stands for false if it is missing.
/// - `OutOfMemory`: an allocation was refused, at any point.
pub fn read_outcome(alloc: Global, body: &[u8]) -> Result<Outcome, AnswerFault>
    ensures ok { IfOk result (λ outcome. outcome_in body.now ≡ Ok outcome) }
    ensures utf8 { OnOk result (IsUtf8 body.now) }
    ensures err { IfErr result (λ fault. IsUtf8 body.now → Refuses (outcome_in body.now) fault) }
{
    let value = json_of(alloc, body)?;
    if !value.is_object() {
        return Err(AnswerFault::NotAnObject);
    }
    outcome_at(&value)
}

/// Reads the body with which an etcd refuses a call. Its HTTP status isn't 200.
///
/// # Errors
/// The first fault of these, in this order.
/// - `NotJson`, `NotAnObject`: as for `read_found`.
/// - `OtherKind(Code)`: `code` isn't a whole number from 0 to 2^64-1. It stands for 0 if it is missing.
/// - `OtherKind(Message)`: `message` isn't a text. It stands for the empty text if it is missing.
/// - `OutOfMemory`: an allocation was refused, at any point.
pub fn read_refusal(alloc: Global, body: &[u8]) -> Result<Refusal, AnswerFault>
    ensures ok { IfOk result (λ refusal. refusal_in body.now ≡ Ok (refused refusal)) }
    ensures utf8 { OnOk result (IsUtf8 body.now) }
    ensures err { IfErr result (λ fault. IsUtf8 body.now → Refuses (refusal_in body.now) fault) }
{
    let value = json_of(alloc, body)?;
    if !value.is_object() {
        return Err(AnswerFault::NotAnObject);
    }
    refusal_at(alloc, &value)
}
