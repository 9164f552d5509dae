//! Blocks as keys of the map.

ghost use Rattle.std.specs.Prelude.{◌≡◌};
ghost use Rattle.scoop_queue.specs.Kept.{block_of};

use scoop_message::{Block, ClientId};

/// A block as the key of its private queue: its numbers alone.
#[derive(Clone, Copy, Debug, PartialEq, Eq, Hash)]
pub(crate) struct Key {
    client: u32,
    inc: u32,
    num: u32,
}

impl Key {
    pub(crate) fn of(block: Block) -> Key
        ensures { block_of result ≡ block }
    {
        Key {
            client: block.client.0,
            inc: block.inc,
            num: block.num,
        }
    }

    pub(crate) fn block(&self) -> Block
        ensures { result ≡ block_of self.now }
    {
        Block {
            client: ClientId(self.client),
            inc: self.inc,
            num: self.num,
        }
    }
}
