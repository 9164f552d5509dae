//! The changes of a handler from one state to the next.

ghost use Rattle.std.specs.Prelude.{◌≡◌, ◌<◌, length, None, OnOk, OnErr};
ghost use Rattle.scoop_message.specs.Entries.{EndOnlyLast};
ghost use Rattle.scoop_queue.specs.Queue.{opened, put_all};
ghost use Rattle.scoop_queue.specs.Refusal.{HasNumbersFor, open_refusal, put_refusal};
ghost use Rattle.scoop_handler.specs.Marks.{IsPlaceOf};
ghost use Rattle.scoop_handler.specs.State.{IsState};
ghost use Rattle.scoop_handler.specs.Hearing.{moved, with_mark, with_queue, with_incarnation, with_put, holder_without, greeting_mark};

use crate::mark::{Mark, Stage};
use crate::marks::{add_mark_in, set_mark_in};
use crate::state::HandlerState;
use scoop_message::{Block, ClientId, Entry, OutOfMemory};
use scoop_queue::{OpenQueueError, PutError, QueueOfQueues};
use std::alloc::Allocator;

/// The mark of an incarnation that has no block yet.
pub(super) fn greeting(client: ClientId, inc: u32) -> Mark
    ensures { result ≡ greeting_mark client inc }
{
    Mark::fresh(
        Block {
            client,
            inc,
            num: 0,
        },
        Stage::Shut,
    )
}

// Opens a private queue that only memory can refuse. An `Err` changes nothing.
fn open_in<A: Allocator + Copy>(
    queues: &mut QueueOfQueues<A>,
    block: Block,
) -> Result<(), OutOfMemory>
    requires { open_refusal block queues.old ≡ None }
    ensures ok { OnOk result (queues.new ≡ opened block queues.old) }
    ensures err { OnErr result (queues.new ≡ queues.old) }
{
    match queues.open(block) {
        Ok(()) => Ok(()),
        Err(OpenQueueError::OutOfMemory) => Err(OutOfMemory),
        Err(_) => unreachable!(),
    }
}

// Puts entries that only memory can refuse. An `Err` changes nothing.
fn put_in<A: Allocator>(
    queues: &mut QueueOfQueues<A>,
    block: Block,
    entries: &[Entry],
) -> Result<(), OutOfMemory>
    requires some { 0 < length entries.now }
    requires end { EndOnlyLast entries.now }
    requires numbers { HasNumbersFor block entries.now queues.old }
    requires fits { put_refusal block (length entries.now) queues.old ≡ None }
    ensures ok { OnOk result (queues.new ≡ put_all block entries.now queues.old) }
    ensures err { OnErr result (queues.new ≡ queues.old) }
{
    match queues.put_all(block, entries) {
        Ok(()) => Ok(()),
        Err(PutError::OutOfMemory) => Err(OutOfMemory),
        Err(_) => unreachable!(),
    }
}

impl<A: Allocator> HandlerState<A> {
    // Puts the mark in place of its client's, which is at this place, beside this holder.
    pub(super) fn change(&mut self, holder: Option<Block>, place: usize, mark: Mark)
        requires state { IsState (moved self.old holder mark) }
        requires place { IsPlaceOf mark.client self.old.marks place }
        ensures { self.new ≡ moved self.old holder mark }
    {
        set_mark_in(&mut self.marks, place, mark);
        self.holder = holder;
    }

    // Adds the mark of a client that has none. An `Err` changes nothing.
    pub(super) fn add(&mut self, mark: Mark) -> Result<(), OutOfMemory>
        requires { IsState (with_mark self.old mark) }
        ensures ok { OnOk result (self.new ≡ with_mark self.old mark) }
        ensures err { OnErr result (self.new ≡ self.old) }
    {
        add_mark_in(&mut self.marks, mark)
    }

    // A newer incarnation of the client replaces its mark at this place: its lock is freed, and the private queue of its
    // newest block is cut.
    pub(super) fn renew(&mut self, client: ClientId, inc: u32, place: usize, mark: Mark)
        requires state { IsState (with_incarnation self.old client inc mark) }
        requires place { IsPlaceOf client self.old.marks place }
        ensures { self.new ≡ with_incarnation self.old client inc mark }
    {
        let holder = self.holder_without(client);
        self.queues.cut(mark.block());
        set_mark_in(&mut self.marks, place, greeting(client, inc));
        self.holder = holder;
    }

    // The holder, unless it is a block of that client.
    fn holder_without(&self, client: ClientId) -> Option<Block>
        ensures { result ≡ holder_without client self.now.holder }
    {
        match self.holder {
            Some(holder) if holder.client != client => Some(holder),
            _ => None,
        }
    }

    // Puts entries after those of the block's private queue, and the mark in place of its client's, which is at this place.
    // An `Err` changes nothing.
    pub(super) fn put(
        &mut self,
        block: Block,
        entries: &[Entry],
        place: usize,
        mark: Mark,
    ) -> Result<(), OutOfMemory>
        requires some { 0 < length entries.now }
        requires end { EndOnlyLast entries.now }
        requires numbers { HasNumbersFor block entries.now self.old.queues }
        requires fits { put_refusal block (length entries.now) self.old.queues ≡ None }
        requires state { IsState (with_put self.old block entries.now mark) }
        requires place { IsPlaceOf mark.client self.old.marks place }
        ensures ok { OnOk result (self.new ≡ with_put self.old block entries.now mark) }
        ensures err { OnErr result (self.new ≡ self.old) }
    {
        put_in(&mut self.queues, block, entries)?;
        set_mark_in(&mut self.marks, place, mark);
        Ok(())
    }
}

impl<A: Allocator + Copy> HandlerState<A> {
    // Opens a private queue for the block, whose client's mark is this, at this place. An `Err` changes nothing.
    pub(super) fn open(&mut self, block: Block, place: usize, mark: Mark) -> Result<(), OutOfMemory>
        requires state { IsState (with_queue self.old block mark) }
        requires place { IsPlaceOf mark.client self.old.marks place }
        ensures ok { OnOk result (self.new ≡ with_queue self.old block mark) }
        ensures err { OnErr result (self.new ≡ self.old) }
    {
        open_in(&mut self.queues, block)?;
        set_mark_in(&mut self.marks, place, mark.opened());
        Ok(())
    }
}
