//! The handlers that the table of a client names.

ghost use Rattle.std.specs.Prelude.{◌≡◌, ◌==◌, ◌≤◌, [], find, length, map};
ghost use Rattle.std.specs.Option.{option_copied};
ghost use Rattle.toml.specs.Data.{as_array};
ghost use Rattle.toml.specs.View.{view};
ghost use Rattle.scoop_message.specs.declared.limits.TheConstants.{MAX_HANDLERS};
ghost use Rattle.scoop_system.specs.Used.{listed_used, named_handler, next_used, numbered_handler, some_used, used_at, used_from, used_handler};

use super::value::{entry, whole};
use crate::error::{Key, Wrong};
use crate::known::is_among;
use crate::name::Name;
use crate::named_handlers::NamedHandlers;
use crate::place::HandlerPlace;
use crate::system::handler_of_name;
use scoop_message::HandlerId;
use scoop_message::limits::MAX_HANDLERS;
use toml::Value;

// The handlers that a client uses, if its table names them.
pub(super) fn used_at(
    value: &Value,
    handlers: &[HandlerPlace],
) -> Result<Option<NamedHandlers>, Wrong>
    ensures { result ≡ used_at handlers.now (view value.now) }
{
    match entry(value, Key::Handlers) {
        Some(list) => Ok(Some(listed_used(list, handlers)?)),
        None => Ok(None),
    }
}

fn listed_used(list: &Value, handlers: &[HandlerPlace]) -> Result<NamedHandlers, Wrong>
    ensures { result ≡ listed_used handlers.now (as_array (view list.now)) }
{
    match list.as_array() {
        Some(array) => some_used(array.as_slice(), handlers),
        None => Err(Wrong::NotHandlers),
    }
}

// At least one handler, and not more than a system may have.
fn some_used(values: &[Value], handlers: &[HandlerPlace]) -> Result<NamedHandlers, Wrong>
    ensures { result ≡ some_used handlers.now (map view values.now) }
{
    if values.is_empty() || values.len() > MAX_HANDLERS {
        return Err(Wrong::NotHandlers);
    }
    read_used(values, handlers)
}

fn read_used(values: &[Value], handlers: &[HandlerPlace]) -> Result<NamedHandlers, Wrong>
    requires { length values.now ≤ MAX_HANDLERS }
    ensures { result ≡ used_from handlers.now [] (map view values.now) }
{
    let mut used = [HandlerId(0); MAX_HANDLERS];
    for (place, value) in values.iter().enumerate() {
        match next_used(value, handlers, &used[..place]) {
            Ok(handler) => used[place] = handler,
            Err(wrong) => return Err(wrong),
        }
    }
    match NamedHandlers::of(&used[..values.len()]) {
        Ok(used) => Ok(used),
        Err(_) => unreachable!(),
    }
}

// A handler, after those before it.
fn next_used(
    value: &Value,
    handlers: &[HandlerPlace],
    done: &[HandlerId],
) -> Result<HandlerId, Wrong>
    ensures { result ≡ next_used handlers.now done.now (view value.now) }
{
    let handler = used_handler(value, handlers)?;
    if is_among(done, handler) {
        return Err(Wrong::HandlerTwice(handler.0));
    }
    Ok(handler)
}

// The handler that a value names, by its name or its number.
fn used_handler(value: &Value, handlers: &[HandlerPlace]) -> Result<HandlerId, Wrong>
    ensures { result ≡ used_handler handlers.now (view value.now) }
{
    match (value.as_str(), whole(value)) {
        (Some(name), _) => named_handler(name, handlers),
        (None, Some(number)) => numbered_handler(number, handlers),
        (None, None) => Err(Wrong::NotHandlers),
    }
}

fn named_handler(name: &str, handlers: &[HandlerPlace]) -> Result<HandlerId, Wrong>
    ensures { result ≡ named_handler handlers.now name.now }
{
    match handler_of_name(handlers, name.as_bytes()) {
        Some(handler) => Ok(handler),
        None => Err(Wrong::NoHandlerNamed(Name::told(name))),
    }
}

fn numbered_handler(number: u64, handlers: &[HandlerPlace]) -> Result<HandlerId, Wrong>
    ensures { result ≡ numbered_handler handlers.now number }
{
    match place_of(number, handlers) {
        Some(place) => Ok(place.handler),
        None => Err(Wrong::NoSuchHandler(number)),
    }
}

// The place of the handler of this number, if there is one.
fn place_of(number: u64, handlers: &[HandlerPlace]) -> Option<&HandlerPlace>
    ensures { option_copied result ≡ find (λ p. p.handler.0 == number) handlers.now }
{
    handlers
        .iter()
        .find(|place| u64::from(place.handler.0) == number)
}
