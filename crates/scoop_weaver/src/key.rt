//! Messages as the keys of a table.

ghost use Rattle.std.specs.Prelude.{◌≡◌};
ghost use Rattle.std.proofs.Common.{ap};
ghost use Rattle.scoop_message.proofs.Same.{message_decides};
ghost use Rattle.scoop_weaver.specs.Keys.{block_number, entry_number};

use scoop_message::Message;
use std::hash::{Hash, Hasher};

/// A message that is looked up.
#[derive(Clone, Copy, PartialEq, Eq)]
pub(crate) struct Key(pub(crate) Message);

// The number of the block that the message names, 0 where it names none.
fn block_number(message: &Message) -> u32
    ensures { result ≡ block_number message.now }
{
    match message {
        Message::Hello(..) | Message::Welcome(..) => 0,
        Message::Lock(_, block)
        | Message::Locked(_, block)
        | Message::Busy(_, block)
        | Message::Open(_, block)
        | Message::Opened(_, block)
        | Message::Unlock(_, block)
        | Message::Unlocked(_, block)
        | Message::Log(_, block, _, _)
        | Message::Logged(_, block, _)
        | Message::Answer(_, block, _, _) => block.num,
    }
}

// The number of the entry that the message names, 0 where it names none.
fn entry_number(message: &Message) -> u32
    ensures { result ≡ entry_number message.now }
{
    match message {
        Message::Log(_, _, number, _)
        | Message::Logged(_, _, number)
        | Message::Answer(_, _, number, _) => *number,
        _ => 0,
    }
}

// Its sender, its receiver and the numbers that it names: few messages share all of these.
impl Hash for Key {
    ghost use Rattle.scoop_weaver.specs.Keys.{key_bytes};

    ghost hash_input = { λ k. key_bytes k.0 };

    ghost respects_eq = { λ x y same. ap key_bytes ((message_decides x.0 y.0).0 same) };

    fn hash<H: Hasher>(&self, state: &mut H) {
        state.write_u32(self.0.handler().0);
        state.write_u32(self.0.client().0);
        state.write_u32(self.0.inc());
        state.write_u32(block_number(&self.0));
        state.write_u32(entry_number(&self.0));
    }
}
