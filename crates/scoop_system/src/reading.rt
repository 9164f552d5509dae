//! The system that a TOML text describes.

ghost use Rattle.std.specs.Prelude.{◌≡◌, ◌+◌, Some, None, Ok, Err, IfOk, IfErr, take};
ghost use Rattle.toml.specs.Data.{table};
ghost use Rattle.toml.specs.Parse.{parse_document};
ghost use Rattle.toml.specs.View.{view};
ghost use Rattle.toml.specs.Errors.{IsMemory};
ghost use Rattle.scoop_system.specs.Meaning.{parts_of, system_of};
ghost use Rattle.scoop_system.specs.File.{Means, SaysNoSystem};
ghost use Rattle.scoop_system.specs.Stop.{IfFault};

mod addresses;
mod class;
mod formula;
mod identity;
mod party;
mod place;
mod stop;
mod term;
mod used;
mod value;

use crate::error::{Key, SystemError, TomlFault};
use crate::identity::Identity;
use crate::system::System;
use class::read_classes;
use identity::read_identity;
use party::{read_clients, read_handlers, read_nodes};
use place::check_keys;
use std::alloc::Global;
pub(crate) use stop::Stop;
use toml::Value;

/// Classes of one file, at most: as many as handlers.
pub const MAX_CLASSES: usize = 64;

// The system that a TOML table describes.
pub(crate) fn read_table(alloc: Global, file: &Value) -> Result<System, Stop>
    ensures ok { IfOk result (λ system. system_of (view file.now) ≡ Ok system) }
    ensures fault { IfErr result (λ e. IfFault e (λ fault. system_of (view file.now) ≡ Err fault)) }
{
    check_keys(file)?;
    let identity = read_identity(file)?;
    read_parts(alloc, identity, file)
}

// The classes, nodes, handlers and clients of a file, as a system with this name and life.
fn read_parts(alloc: Global, identity: Identity, file: &Value) -> Result<System, Stop>
    ensures ok { IfOk result (λ system. parts_of identity (view file.now) ≡ Ok system) }
    ensures fault { IfErr result (λ e. IfFault e (λ fault. parts_of identity (view file.now) ≡ Err fault)) }
{
    let classes = read_classes(alloc, file)?;
    let nodes = read_nodes(alloc, file)?;
    let handlers = read_handlers(alloc, file, classes.as_slice(), nodes.as_slice())?;
    let clients = read_clients(alloc, file, nodes.as_slice(), handlers.as_slice())?;
    Ok(System::new(identity, classes, nodes, handlers, clients))
}

impl System {
    /// The system of a TOML text.
    ///
    /// # Errors
    /// - `Toml`: exactly if the text isn't TOML.
    /// - `Fault`: exactly if the text is TOML and describes no system. It is the first fault: of the file's keys, then of
    ///   its name and life, its classes, nodes, handlers and clients, each in the order of the file. Within a client's
    ///   table, its unknown keys come first, then its number, address, batch and handlers. The handlers are read from the
    ///   left. A taken number or address comes last.
    /// - `OutOfMemory`: an allocation was refused.
    pub fn read(alloc: Global, text: &str) -> Result<System, SystemError>
        ensures system { IfOk result (λ system. Means text.now (Ok system)) }
        ensures error { IfErr result (SaysNoSystem text.now) }
    {
        let table = match toml::table_from_str(alloc, text) {
            Ok(table) => table,
            Err(error) => return Err(toml_error(text, error)),
        };
        match read_table(alloc, &Value::Table(table)) {
            Ok(system) => Ok(system),
            Err(Stop::Fault(fault)) => Err(SystemError::Fault(fault)),
            Err(Stop::OutOfMemory) => Err(SystemError::OutOfMemory),
        }
    }
}

// TOML's own error, with its place in the text.
fn toml_error(text: &str, error: toml::de::Error) -> SystemError
    requires { ¬ IsMemory error → parse_document text.now ≡ None }
    ensures { SaysNoSystem text.now result }
{
    let Some(span) = error.span() else {
        return SystemError::OutOfMemory;
    };
    let (line, column) = position(text, span.start);
    SystemError::Toml(TomlFault {
        line,
        column,
        error,
        single: single_before(text, line),
    })
}

// The kind of the first table in single brackets up to this line, counted from 1, if the line begins a table. A system's
// tables have double brackets, so this table is the cause of TOML's fault.
fn single_before(text: &str, line: usize) -> Option<Key> {
    let mut single = None;
    for (above, header) in text.lines().take(line).enumerate() {
        single = single.or(single_header(header));
        if above + 1 == line && header.trim_start().starts_with('[') {
            return single;
        }
    }
    None
}

// The kind of the table that a line begins in single brackets.
fn single_header(line: &str) -> Option<Key> {
    let (header, _) = line.split_once('#').unwrap_or((line, ""));
    match header.trim() {
        "[class]" => Some(Key::Class),
        "[node]" => Some(Key::Node),
        "[handler]" => Some(Key::Handler),
        "[client]" => Some(Key::Client),
        "[class.operation]" => Some(Key::Operation),
        _ => None,
    }
}

// The line and the column of a place in a text, both from 1. A column counts characters.
fn position(text: &str, start: usize) -> (usize, usize) {
    let mut line = 1usize;
    let mut column = 1usize;
    for byte in text.as_bytes().iter().take(start) {
        if *byte == b'\n' {
            line = line.saturating_add(1);
            column = 1;
        } else if *byte & 0xC0 != 0x80 {
            column = column.saturating_add(1);
        }
    }
    (line, column)
}
