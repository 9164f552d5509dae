//! The bodies of calls.

ghost use Rattle.std.specs.Prelude.{◌≡◌, Some, IfOk, map, string_bytes};
ghost use Rattle.serde_json.specs.Read.{read};
ghost use Rattle.serde_json.specs.View.{view};
ghost use Rattle.serde_json.specs.Written.{compact_text};
ghost use Rattle.scoop_etcd_calls.specs.Asking.{bytes_data, number_data, range_data, compare_data, put_data, txn_data};

use crate::calls::{Compare, Put, Range, Txn};
use base64::engine::general_purpose::STANDARD;
use serde_json::{Value, json};
use std::alloc::{AllocError, Global};

fn bytes_value(alloc: Global, bytes: &[u8]) -> Result<Value, AllocError>
    ensures { IfOk result (λ v. view v ≡ bytes_data bytes.now) }
{
    Ok(Value::String(STANDARD.encode(alloc, bytes)?))
}

fn number_value(alloc: Global, number: u64) -> Result<Value, AllocError>
    ensures { IfOk result (λ v. view v ≡ number_data number) }
{
    Ok(Value::String(number.to_string(alloc)?))
}

fn range_value(alloc: Global, range: &Range) -> Result<Value, AllocError>
    ensures { IfOk result (λ v. view v ≡ range_data range.now) }
{
    let key = bytes_value(alloc, range.from.as_slice())?;
    match &range.to {
        Some(to) => {
            let end = bytes_value(alloc, to.as_slice())?;
            json!(in alloc; {"key": key, "range_end": end})
        }
        None => json!(in alloc; {"key": key}),
    }
}

fn compare_value(alloc: Global, compare: &Compare) -> Result<Value, AllocError>
    ensures { IfOk result (λ v. view v ≡ compare_data compare.now) }
{
    match compare {
        Compare::Value(key, value) => {
            let key = bytes_value(alloc, key.as_slice())?;
            let value = bytes_value(alloc, value.as_slice())?;
            json!(in alloc; {"key": key, "target": "VALUE", "value": value})
        }
        Compare::Revision(key, revision) => {
            let key = bytes_value(alloc, key.as_slice())?;
            let revision = number_value(alloc, *revision)?;
            json!(in alloc; {"key": key, "mod_revision": revision, "target": "MOD"})
        }
    }
}

fn put_value(alloc: Global, put: &Put) -> Result<Value, AllocError>
    ensures { IfOk result (λ v. view v ≡ put_data put.now) }
{
    let key = bytes_value(alloc, put.key.as_slice())?;
    let value = bytes_value(alloc, put.value.as_slice())?;
    json!(in alloc; {"request_put": {"key": key, "value": value}})
}

fn compare_values(alloc: Global, compares: &[Compare]) -> Result<Vec<Value>, AllocError>
    ensures { IfOk result (λ vs. map view vs.items ≡ map compare_data compares.now) }
{
    let mut values = Vec::new(alloc);
    for compare in compares {
        values.push(compare_value(alloc, compare)?)?;
    }
    Ok(values)
}

fn put_values(alloc: Global, puts: &[Put]) -> Result<Vec<Value>, AllocError>
    ensures { IfOk result (λ vs. map view vs.items ≡ map put_data puts.now) }
{
    let mut values = Vec::new(alloc);
    for put in puts {
        values.push(put_value(alloc, put)?)?;
    }
    Ok(values)
}

fn txn_value(alloc: Global, txn: &Txn) -> Result<Value, AllocError>
    ensures { IfOk result (λ v. view v ≡ txn_data txn.now) }
{
    let compares = compare_values(alloc, txn.compares.as_slice())?;
    let puts = put_values(alloc, txn.puts.as_slice())?;
    json!(in alloc; {"compare": compares, "success": puts})
}

/// The body of a range: JSON with no space, whose members are in the order of their names.
///
/// The one error is that memory is refused.
pub fn range_text(alloc: Global, range: &Range) -> Result<String, AllocError>
    ensures text { IfOk result (λ t. string_bytes t ≡ compact_text (range_data range.now)) }
    ensures reads { IfOk result (λ t. read (string_bytes t) ≡ Some (range_data range.now)) }
{
    range_value(alloc, range)?.to_string(alloc)
}

/// The body of a transaction, in the same form. It compares for equality, and asks for nothing if a comparison fails.
///
/// The one error is that memory is refused.
#[tactic(auto, using(crate::proofs::AskingLemmas::txn_float, crate::proofs::AskingLemmas::txn_depth))]
pub fn txn_text(alloc: Global, txn: &Txn) -> Result<String, AllocError>
    ensures text { IfOk result (λ t. string_bytes t ≡ compact_text (txn_data txn.now)) }
    ensures reads { IfOk result (λ t. read (string_bytes t) ≡ Some (txn_data txn.now)) }
{
    txn_value(alloc, txn)?.to_string(alloc)
}
