//! The deeds of the moves that hear and send nothing, for a chart.

use scoop_client::Command;
use scoop_message::{Block, HandlerId, OutOfMemory};
use std::alloc::Global;

/// The deed of a move that hears and sends nothing.
#[derive(Clone, Copy, Debug)]
pub(crate) enum Deed {
    /// An entry of the handler left to be run.
    Began(HandlerId),
    /// The entry of this number of a block has run at the handler.
    Ran(HandlerId, Block, u32),
    /// The node opened.
    Opened,
    /// The client took a command.
    Gave(Command),
    /// The client began with this incarnation.
    Restarted(u32),
}

/// A deed, with the place of its move among those of its party.
#[derive(Clone, Copy, Debug)]
pub(crate) struct Remark {
    pub(crate) place: usize,
    pub(crate) deed: Deed,
}

/// The deeds of a party, in the order of its moves. Kept for a chart only.
#[derive(Drop)]
pub(crate) struct Remarks {
    is_kept: bool,
    remarks: Vec<Remark>,
}

impl Remarks {
    /// No deeds.
    pub(crate) fn new(alloc: Global, is_kept: bool) -> Remarks {
        Remarks {
            is_kept,
            remarks: Vec::new(alloc),
        }
    }

    /// The move at this place has done this.
    pub(crate) fn add(&mut self, place: usize, deed: Deed) -> Result<(), OutOfMemory> {
        let _named: Option<Command> = None;
        if self.is_kept {
            self.remarks.push(Remark { place, deed })?;
        }
        Ok(())
    }

    /// The deed of the move at this place, if it is kept.
    pub(crate) fn deed(&self, place: usize) -> Option<Deed> {
        match self
            .remarks
            .binary_search_by_key(&place, |remark| remark.place)
        {
            Ok(at) => Some(self.remarks.get(at)?.deed),
            Err(_) => None,
        }
    }
}
