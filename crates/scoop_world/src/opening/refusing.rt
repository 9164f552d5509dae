//! The reasons why handlers and clients open no world.

ghost use Rattle.std.specs.Prelude.{◌≡◌, IfNone, IfSome};
ghost use Rattle.std.specs.List.{AllByRecursion, list_any};
ghost use Rattle.scoop_message.specs.Message.{same_handler, same_client};
ghost use Rattle.scoop_message.specs.Lists.{NoRepeats};
ghost use Rattle.scoop_keeper.specs.Keyed.{IsFirstRepeat};
ghost use Rattle.scoop_world.specs.OpenRefusal.{IsFirstWrong, IsOfClass, IsOpenRefusal, MayPlace, clients_of, handlers_of};

use crate::error::WorldOpenError;
use crate::placing::Placement;
use scoop_message::limits::{MAX_CLIENTS, MAX_HANDLERS};
use scoop_message::{ClientId, HandlerId};
use scoop_object::Behaviour;

// Whether one of the placements is the handler's.
fn is_placed<B: Behaviour>(placements: &[Placement<B>], handler: HandlerId) -> bool
    ensures { result ≡ list_any (λ p. same_handler p.handler handler) placements.now }
{
    placements.iter().any(|x| x.handler == handler)
}

// Whether one of the clients has this number.
fn is_joining(clients: &[(ClientId, u8)], client: ClientId) -> bool
    ensures { result ≡ list_any (λ c. same_client c.0 client) clients.now }
{
    clients.iter().any(|x| x.0 == client)
}

// The handler at the first place that repeats an earlier one.
fn repeated_handler<B: Behaviour>(placements: &[Placement<B>]) -> Option<HandlerId>
    ensures none { IfNone result (NoRepeats (handlers_of placements.now)) }
    ensures some { IfSome result (IsFirstRepeat (handlers_of placements.now)) }
{
    for (i, placement) in placements.iter().enumerate() {
        if is_placed(&placements[..i], placement.handler) {
            return Some(placement.handler);
        }
    }
    None
}

// The client at the first place that repeats an earlier one.
fn repeated_client(clients: &[(ClientId, u8)]) -> Option<ClientId>
    ensures none { IfNone result (NoRepeats (clients_of clients.now)) }
    ensures some { IfSome result (IsFirstRepeat (clients_of clients.now)) }
{
    for (i, client) in clients.iter().enumerate() {
        if is_joining(&clients[..i], client.0) {
            return Some(client.0);
        }
    }
    None
}

// The first handler whose object isn't of the class placed with it.
fn wrong_class<B: Behaviour>(placements: &[Placement<B>]) -> Option<HandlerId>
    ensures none { IfNone result (AllByRecursion (IsOfClass B.class) placements.now) }
    ensures some { IfSome result (IsFirstWrong B.class placements.now) }
{
    for placement in placements {
        if !placement.object.has_class(&placement.class) {
            return Some(placement.handler);
        }
    }
    None
}

// The reason why these handlers and clients open no world, whatever is stored.
pub(crate) fn refusal<B: Behaviour>(
    placements: &[Placement<B>],
    clients: &[(ClientId, u8)],
) -> Option<WorldOpenError>
    ensures none { IfNone result (MayPlace B.class placements.now clients.now) }
    ensures named { IfSome result (IsOpenRefusal B.class placements.now clients.now) }
{
    if placements.is_empty() {
        return Some(WorldOpenError::NoHandlers);
    }
    if placements.len() > MAX_HANDLERS {
        return Some(WorldOpenError::TooManyHandlers);
    }
    if let Some(handler) = repeated_handler(placements) {
        return Some(WorldOpenError::Repeated(handler));
    }
    if let Some(handler) = wrong_class(placements) {
        return Some(WorldOpenError::WrongClass(handler));
    }
    if clients.len() > MAX_CLIENTS {
        return Some(WorldOpenError::TooManyClients);
    }
    let client = repeated_client(clients)?;
    Some(WorldOpenError::RepeatedClient(client))
}
