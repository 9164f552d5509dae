//! Places of faults.

ghost use Rattle.std.specs.Prelude.{◌≡◌, None, Ok, Err, IfOk, IfErr};
ghost use Rattle.toml.specs.View.{view};
ghost use Rattle.scoop_system.specs.Meaning.{file_keys};
ghost use Rattle.scoop_system.specs.Place.{at, place_at};
ghost use Rattle.scoop_lines.specs.Reading.{unless};
ghost use Rattle.scoop_system.specs.Value.{key_fault};
ghost use Rattle.scoop_system.specs.Classes.{class_place, operation_place};

use super::value::{key_fault, name_at, number_at};
use crate::error::{Fault, Key, Place, Wrong};
use crate::name::Name;
use toml::Value;

// The fault of a reading at this place.
pub(super) fn at<T>(place: Place, read: Result<T, Wrong>) -> Result<T, Fault>
    ensures { result ≡ at place read }
{
    match read {
        Ok(read) => Ok(read),
        Err(wrong) => Err(Fault { place, wrong }),
    }
}

// Refuses a file with an unknown key.
pub(super) fn check_keys(file: &Value) -> Result<(), Fault>
    ensures ok { IfOk result (λ _. key_fault file_keys (view file.now) ≡ None) }
    ensures fault { IfErr result (λ fault. at Place.File (unless (key_fault file_keys (view file.now)) (Ok (view file.now))) ≡ Err fault) }
{
    let known = [
        Key::System,
        Key::Class,
        Key::Node,
        Key::Handler,
        Key::Client,
    ];
    match key_fault(file, &known) {
        Some(wrong) => Err(Fault {
            place: Place::File,
            wrong,
        }),
        None => Ok(()),
    }
}

// The place of a table of this kind: by its number, or by its count if it has none.
pub(super) fn place_at(value: &Value, kind: Key, count: usize) -> Place
    ensures { result ≡ place_at kind count (view value.now) }
{
    match number_at(value, Key::Number, 0, u64::from(u32::MAX)) {
        Ok(number) => Place::Numbered(kind, number as u32),
        Err(_) => Place::Nameless(kind, count),
    }
}

// The place of a class.
pub(super) fn class_place(value: &Value, count: usize) -> Place
    ensures { result ≡ class_place count (view value.now) }
{
    match name_at(value, Key::Name) {
        Ok(name) => Place::Class(name),
        Err(_) => Place::Nameless(Key::Class, count),
    }
}

// The place of an operation of a class.
pub(super) fn operation_place(value: &Value, class: Name, count: usize) -> Place
    ensures { result ≡ operation_place class count (view value.now) }
{
    match number_at(value, Key::Number, 0, u64::from(u16::MAX)) {
        Ok(number) => Place::Operation(number as u16, class),
        Err(_) => Place::NamelessOperation(count, class),
    }
}
