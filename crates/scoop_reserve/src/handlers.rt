//! Tests on lists of handlers.

ghost use Rattle.std.specs.Prelude.{◌≡◌, nat_le};
ghost use Rattle.std.specs.List.{list_all};
ghost use Rattle.scoop_reserve.specs.Handlers.{has, is_lowest, first_repeated, first_unknown};

use scoop_message::HandlerId;

/// Whether the handler is in the list.
pub fn has(handlers: &[HandlerId], handler: HandlerId) -> bool
    ensures { result ≡ has handlers.now handler }
{
    handlers.iter().any(|x| *x == handler)
}

// Whether no handler of the list has a lower number.
fn is_at_most_all(handler: HandlerId, handlers: &[HandlerId]) -> bool
    ensures { result ≡ list_all (λ x. nat_le handler.0 x.0) handlers.now }
{
    handlers.iter().all(|x| handler.0 <= x.0)
}

/// Whether the handler is the one of the list with the lowest number.
pub(crate) fn is_lowest(handler: HandlerId, handlers: &[HandlerId]) -> bool
    ensures { result ≡ is_lowest handler handlers.now }
{
    has(handlers, handler) && is_at_most_all(handler, handlers)
}

/// The handler at the first place of the list that repeats an earlier place, if any does.
pub fn first_repeated(handlers: &[HandlerId]) -> Option<HandlerId>
    ensures { result ≡ first_repeated handlers.now }
{
    for (i, handler) in handlers.iter().enumerate() {
        if has(&handlers[..i], *handler) {
            return Some(*handler);
        }
    }
    None
}

/// The first handler of the list that isn't known.
pub(crate) fn first_unknown(known: &[HandlerId], handlers: &[HandlerId]) -> Option<HandlerId>
    ensures { result ≡ first_unknown known.now handlers.now }
{
    handlers.iter().copied().find(|x| !has(known, *x))
}
