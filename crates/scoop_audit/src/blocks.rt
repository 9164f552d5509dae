//! The blocks of a run: what was logged of each, and what ran.

ghost use Rattle.std.specs.Prelude.{◌<◌, IfSome};
ghost use Rattle.scoop_message.specs.declared.limits.TheConstants.{MAX_BLOCK_HANDLERS};

use crate::error::PartyName;
use indexmap::IndexMap;
use scoop_client::Command;
use scoop_handler::Ran;
use scoop_message::limits::MAX_BLOCK_HANDLERS;
use scoop_message::{Block, Entry, HandlerId, OutOfMemory};
use std::alloc::Global;
use std::hash::{BuildHasherDefault, FoldHasher};

/// A block at one handler.
#[derive(Clone, Copy, Debug)]
pub struct Share {
    pub handler: HandlerId,
    /// How many requests its client logged there.
    pub logged: u32,
    /// How many of them ran.
    pub ran: u32,
    /// Whether its End ran.
    pub is_ended: bool,
}

/// A block with its handlers.
#[derive(Clone, Copy, Debug)]
pub struct BlockLine {
    pub block: Block,
    /// Whether its client began anew before it had ended.
    pub is_cut: bool,
    shares: [Share; MAX_BLOCK_HANDLERS],
    count: usize,
}

/// A private queue that was opened: the node, the place of its move among those of the node, and the block.
#[derive(Clone, Copy, Debug)]
pub(crate) struct Opening {
    pub(crate) node: PartyName,
    pub(crate) place: usize,
    pub(crate) block: Block,
}

/// The blocks of a run.
#[derive(Drop)]
pub struct Blocks {
    lines: IndexMap<Block, BlockLine, BuildHasherDefault<FoldHasher>>,
    openings: Vec<Opening>,
}

const NO_SHARE: Share = Share {
    handler: HandlerId(0),
    logged: 0,
    ran: 0,
    is_ended: false,
};

impl BlockLine {
    /// The block at its handlers, in the order in which they were reserved.
    pub fn shares(&self) -> &[Share] {
        if self.count <= MAX_BLOCK_HANDLERS {
            &self.shares[..self.count]
        } else {
            &self.shares
        }
    }

    /// Whether the block's End ran at each of its handlers.
    pub fn is_ended(&self) -> bool {
        let mut all = true;
        for share in self.shares() {
            all = all && share.is_ended;
        }
        all
    }

    // The place of the handler's share.
    fn place_of(&self, handler: HandlerId) -> Option<usize>
        ensures { IfSome result (λ place. place < MAX_BLOCK_HANDLERS) }
    {
        for place in 0..MAX_BLOCK_HANDLERS {
            if place < self.count && self.shares[place].handler.0 == handler.0 {
                return Some(place);
            }
        }
        None
    }

    // The place of the handler's share, which is added if there is room.
    fn place_for(&mut self, handler: HandlerId) -> Option<usize>
        ensures { IfSome result (λ place. place < MAX_BLOCK_HANDLERS) }
    {
        if let Some(place) = self.place_of(handler) {
            return Some(place);
        }
        let place = self.count;
        if place >= MAX_BLOCK_HANDLERS {
            return None;
        }
        self.shares[place] = Share {
            handler,
            ..NO_SHARE
        };
        self.count = place + 1;
        Some(place)
    }

    // A request was logged for the handler.
    fn logged(&mut self, handler: HandlerId) {
        if let Some(place) = self.place_for(handler) {
            self.shares[place].logged = self.shares[place].logged.saturating_add(1);
        }
    }

    // An entry has run at the handler.
    fn ran(&mut self, handler: HandlerId, entry: &Entry) {
        if let Some(place) = self.place_for(handler) {
            match entry {
                Entry::Call(_) | Entry::Query(_) => {
                    self.shares[place].ran = self.shares[place].ran.saturating_add(1);
                }
                Entry::End => self.shares[place].is_ended = true,
            }
        }
    }
}

// A block without handlers.
fn fresh(block: Block) -> BlockLine {
    BlockLine {
        block,
        is_cut: false,
        shares: [NO_SHARE; MAX_BLOCK_HANDLERS],
        count: 0,
    }
}

// The block over these handlers in their order. The shares that are known already stay.
fn reserved(known: &BlockLine, handlers: &[HandlerId]) -> BlockLine {
    let mut line = fresh(known.block);
    for handler in handlers {
        if let Some(place) = line.place_for(*handler) {
            if let Some(old) = known.place_of(*handler) {
                line.shares[place] = known.shares[old];
            }
        }
    }
    line
}

impl Blocks {
    /// No blocks.
    pub(crate) fn new(alloc: Global) -> Blocks {
        Blocks {
            lines: IndexMap::new(alloc),
            openings: Vec::new(alloc),
        }
    }

    /// The block of this name, if it was reserved.
    pub fn block(&self, block: Block) -> Option<BlockLine> {
        self.lines.get(&block).copied()
    }

    /// The private queues that were opened, node by node.
    pub(crate) fn openings(&self) -> &[Opening] {
        &self.openings
    }

    // The block, of which nothing may be known yet.
    fn line(&mut self, block: Block) -> Result<&mut BlockLine, OutOfMemory> {
        Ok(self.lines.entry(block)?.or_insert(fresh(block)))
    }

    /// The client, whose block is this now, has taken a command.
    pub(crate) fn gave(
        &mut self,
        block: &Option<Block>,
        command: &Command,
    ) -> Result<(), OutOfMemory> {
        let Some(block) = block else {
            return Ok(());
        };
        let line = self.line(*block)?;
        match command {
            Command::Reserve(handlers) => *line = reserved(line, handlers.as_slice()),
            Command::Call(handler, _) | Command::Query(handler, _) => line.logged(*handler),
            Command::End | Command::GiveUp => {}
        }
        Ok(())
    }

    /// The client, whose block is this, begins anew.
    pub(crate) fn cut(&mut self, block: &Option<Block>) -> Result<(), OutOfMemory> {
        if let Some(block) = block {
            let line = self.line(*block)?;
            line.is_cut = true;
        }
        Ok(())
    }

    /// A handler has opened a private queue for the block.
    pub(crate) fn opened(
        &mut self,
        node: PartyName,
        place: usize,
        block: Block,
    ) -> Result<(), OutOfMemory> {
        self.openings.push(Opening { node, place, block })?;
        Ok(())
    }

    /// An entry has run at the handler. Nodes are replayed before clients, so the block may be new.
    pub(crate) fn ran(&mut self, handler: HandlerId, ran: &Ran) -> Result<(), OutOfMemory> {
        let line = self.line(ran.block)?;
        line.ran(handler, &ran.entry);
        Ok(())
    }
}
