//! Events at the handlers of a node.

ghost use Rattle.std.specs.Prelude.{◌≡◌, ◌↔◌, map, IfErr, IfNone, IfOk, IfSome, IsTrue, OnOk};
ghost use Rattle.scoop_message.specs.Lists.{NoRepeats};
ghost use Rattle.scoop_message.specs.Message.{handler_of};
ghost use Rattle.scoop_handler.specs.Local.{is_handler, number_in};
ghost use Rattle.scoop_keeper.specs.Keyed.{IsFirst};
ghost use Rattle.scoop_book.specs.declared.event.Event.TheVariants as event;
ghost use Rattle.scoop_book.specs.declared.event.Reply.TheVariants as replied;
ghost use Rattle.scoop_book.specs.Moves.{Moves};
ghost use Rattle.scoop_replay.specs.Refusals.{HasNothingOut, IsNodeRefusal, RepliesSo};

use crate::error::ReplayError;
use crate::local::Local;
use scoop_handler::{Heard, Ran};
use scoop_message::{Block, HandlerId, Message, OutOfMemory, same_message};

// The handler at this place hears the message.
fn hear(locals: &mut Vec<Local>, place: usize, message: &Message) -> Result<Heard, OutOfMemory>
    requires first { IsFirst (is_handler (handler_of message.now)) locals.old.items place }
    requires apart { NoRepeats (map number_in locals.old.items) }
    ensures moves { IfOk result (λ heard. Moves (event.Hear message.now) (replied.Heard heard) locals.old.items locals.new.items) }
    ensures numbers { map number_in locals.new.items ≡ map number_in locals.old.items }
{
    let local = &mut locals[place];
    local.hear(message)
}

/// The handler at this place hears the message, and replies this.
///
/// Refused: `Reply` with the reply by the handler's rules, if it is another one, and `OutOfMemory`.
pub(crate) fn hear_so(
    locals: &mut Vec<Local>,
    place: usize,
    message: &Message,
    reply: &Option<Message>,
) -> Result<Heard, ReplayError>
    requires first { IsFirst (is_handler (handler_of message.now)) locals.old.items place }
    requires apart { NoRepeats (map number_in locals.old.items) }
    ensures moves { IfOk result (λ heard. Moves (event.Hear message.now) (replied.Heard heard) locals.old.items locals.new.items) }
    ensures same { IfOk result (λ heard. heard.reply ≡ reply.now) }
    ensures replies { OnOk result (RepliesSo locals.old.items message.now reply.now) }
    ensures refused { IfErr result (IsNodeRefusal locals.old.items (event.Hear message.now) reply.now) }
    ensures numbers { map number_in locals.new.items ≡ map number_in locals.old.items }
{
    let heard = hear(locals, place, message)?;
    if is_same(&heard.reply, reply) {
        Ok(heard)
    } else {
        Err(ReplayError::Reply(heard.reply))
    }
}

// Whether the two replies are the same.
fn is_same(left: &Option<Message>, right: &Option<Message>) -> bool
    ensures { IsTrue result ↔ (left.now ≡ right.now) }
{
    match (left, right) {
        (Some(left), Some(right)) => same_message(left, right),
        (None, None) => true,
        (Some(_), None) | (None, Some(_)) => false,
    }
}

/// The next entry of the handler at this place leaves to be run, if there is one and no job is out.
pub(crate) fn begin(
    locals: &mut Vec<Local>,
    place: usize,
    handler: HandlerId,
) -> Option<(Block, u32)>
    requires first { IsFirst (is_handler handler) locals.old.items place }
    requires apart { NoRepeats (map number_in locals.old.items) }
    ensures moves { Moves (event.Begin handler) (replied.Began result) locals.old.items locals.new.items }
    ensures numbers { map number_in locals.new.items ≡ map number_in locals.old.items }
{
    let local = &mut locals[place];
    local.begin()
}

/// The entry that left the handler at this place has run. `None` if none has left.
pub(crate) fn finish(locals: &mut Vec<Local>, place: usize, handler: HandlerId) -> Option<Ran>
    requires first { IsFirst (is_handler handler) locals.old.items place }
    requires apart { NoRepeats (map number_in locals.old.items) }
    ensures moves { IfSome result (λ ran. Moves (event.Finish handler) (replied.Finished ran) locals.old.items locals.new.items) }
    ensures nothing { IfNone result (HasNothingOut locals.old.items handler) }
    ensures numbers { map number_in locals.new.items ≡ map number_in locals.old.items }
{
    let local = &mut locals[place];
    local.finish()
}
