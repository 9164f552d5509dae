//! The name and the life in a file.

ghost use Rattle.std.specs.Prelude.{◌≡◌, Ok, Err, IfOk, IfErr};
ghost use Rattle.toml.specs.View.{view};
ghost use Rattle.scoop_system.specs.Meaning.{identity_of, identity_from, own_name_at, life_at};

use super::place::at;
use super::value::{entry, in_range, key_fault, name_at};
use crate::error::{Fault, Key, Place, Wrong};
use crate::identity::Identity;
use crate::name::Name;
use toml::Value;

// The name and the life of a file; none without a table of them.
pub(super) fn read_identity(file: &Value) -> Result<Identity, Fault>
    ensures { result ≡ identity_of (view file.now) }
{
    match entry(file, Key::System) {
        Some(table) => at(Place::System, identity_from(table)),
        None => Ok(Identity {
            name: None,
            life: None,
        }),
    }
}

// The name and the life in a table.
fn identity_from(table: &Value) -> Result<Identity, Wrong>
    ensures { result ≡ identity_from (view table.now) }
{
    if let Some(wrong) = key_fault(table, &[Key::Name, Key::Life]) {
        return Err(wrong);
    }
    let name = own_name_at(table)?;
    let life = life_at(table)?;
    Ok(Identity { name, life })
}

// The name of the system, if it has one.
fn own_name_at(table: &Value) -> Result<Option<Name>, Wrong>
    ensures { result ≡ own_name_at (view table.now) }
{
    if entry(table, Key::Name).is_none() {
        return Ok(None);
    }
    Ok(Some(name_at(table, Key::Name)?))
}

// The life of the system, if it says one.
fn life_at(table: &Value) -> Result<Option<u32>, Wrong>
    ensures { result ≡ life_at (view table.now) }
{
    match entry(table, Key::Life) {
        Some(life) => Ok(Some(in_range(life, Key::Life, 1, u64::from(u32::MAX))? as u32)),
        None => Ok(None),
    }
}
