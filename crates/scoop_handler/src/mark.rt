//! A handler's record of one client.

ghost use Rattle.std.specs.Prelude.{◌≡◌};
ghost use Rattle.scoop_handler.specs.Marks.{block_of, fresh_mark, opened_mark, with_received, without_hold};
ghost use Rattle.scoop_handler.specs.Running.{mark_after};

use crate::ran::Ran;
use scoop_message::{Answer, Block, ClientId};

/// The progress of a client's newest block at a handler.
#[derive(Clone, Copy, Debug, PartialEq, Eq)]
pub enum Stage {
    /// It holds the lock, and has no private queue yet.
    Held,
    /// It has a private queue.
    Open,
    /// It was freed before it opened, or there was no block yet.
    Shut,
}

/// A handler's record of a client that has greeted it.
#[derive(Clone, Copy, Debug, PartialEq, Eq)]
pub struct Mark {
    pub client: ClientId,
    /// The client's newest incarnation that has greeted.
    pub inc: u32,
    /// The number of that incarnation's newest block, 0 before its first.
    pub num: u32,
    pub stage: Stage,
    /// How many entries of that block were received.
    pub received: u32,
    /// Whether the block's End was received.
    pub ended: bool,
    /// The number of the block's newest query that has run, and its answer.
    pub kept: Option<(u32, Answer)>,
}

impl Mark {
    /// A mark that has just come to this block and stage: nothing of the block is received.
    pub(crate) fn fresh(block: Block, stage: Stage) -> Mark
        ensures { result ≡ fresh_mark block stage }
    {
        Mark {
            client: block.client,
            inc: block.inc,
            num: block.num,
            stage,
            received: 0,
            ended: false,
            kept: None,
        }
    }

    /// The block that the mark is of.
    pub(crate) fn block(&self) -> Block
        ensures { result ≡ block_of self.now }
    {
        Block {
            client: self.client,
            inc: self.inc,
            num: self.num,
        }
    }

    /// The mark once its block is freed: a held one is shut.
    pub(crate) fn without_hold(self) -> Mark
        ensures { result ≡ without_hold self }
    {
        let stage = match self.stage {
            Stage::Held => Stage::Shut,
            stage => stage,
        };
        Mark { stage, ..self }
    }

    /// The mark once a private queue is opened for its block.
    pub(crate) fn opened(self) -> Mark
        ensures { result ≡ opened_mark self }
    {
        Mark {
            stage: Stage::Open,
            ..self
        }
    }

    /// The mark once entries up to this number were received; `ended` says whether the last is an End.
    pub(crate) fn with_received(self, received: u32, ended: bool) -> Mark
        ensures { result ≡ with_received received ended self }
    {
        Mark {
            received,
            ended,
            ..self
        }
    }

    /// The mark once an entry has run: a query's answer is kept, if its block is the mark's.
    pub(crate) fn after(self, ran: &Ran) -> Mark
        ensures { result ≡ mark_after ran.now self }
    {
        let kept = if ran.is_query() && self.block() == ran.block {
            ran.answer.map(|answer| (ran.number, answer))
        } else {
            self.kept
        };
        Mark { kept, ..self }
    }
}
