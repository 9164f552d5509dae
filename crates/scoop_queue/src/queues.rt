//! The queue of queues of a handler.

ghost use Rattle.std.specs.Prelude.{◌≡◌, ◌<◌, ◌↔◌, ◌++◌, [], ◌∷◌, None, IsTrue, length, unwrap_or, IfErr, IfOk, OnOk, OnErr};
ghost use Rattle.scoop_message.specs.Entries.{EndOnlyLast};
ghost use Rattle.scoop_queue.specs.Queue.{advance, cut, entry_at, front, has_open, head_at, opened, pending, put_all, queue_with};
ghost use Rattle.scoop_queue.specs.Refusal.{open_refusal, put_refusal, AppendRefused, HasNumbersFor, MayAppend};
ghost use Rattle.scoop_queue.specs.Sound.{IsQueues};

use crate::error::{AppendError, OpenQueueError, PutError};
use crate::state::Head;
use crate::table::Table;
use crate::{copying, table};
use indexmap::IndexMap;
use scoop_message::{Block, Entry, OutOfMemory};
use std::alloc::{Allocator, Global};
use std::marker::Model;

/// The private queues of a handler, in the order in which it works on them, one for each block that has reserved
/// it. Contracts see them as a list.
#[derive(Drop)]
pub struct QueueOfQueues<A: Allocator = Global> {
    table: Table<A>,
}

impl<A: Allocator> Model for QueueOfQueues<A> {
    ghost use Rattle.std.specs.Prelude.{List};
    ghost use Rattle.scoop_queue.specs.Queue.{PrivateQueue};

    ghost Value = { List PrivateQueue };

    ghost use Rattle.scoop_queue.specs.Kept.{queues_kept};
    ghost use Rattle.scoop_queue.specs.Sound.{IsQueues};

    ghost view = { λ q. queues_kept q.table.entries };

    ghost invariant = { λ q. IsQueues (queues_kept q.table.entries) };
}

impl<A: Allocator + Copy> QueueOfQueues<A> {
    /// No private queues. Takes no memory yet.
    pub fn new(alloc: A) -> QueueOfQueues<A>
        ensures { result ≡ [] }
    {
        QueueOfQueues {
            table: IndexMap::new(alloc),
        }
    }

    /// Opens an empty private queue for the block, as the last one. Its first entry will have number 1.
    ///
    /// Refused with nothing changed: `QueueFull` at `MAX_QUEUES` private queues, `AlreadyThere` if the block has
    /// one, `OutOfMemory`.
    pub fn open(&mut self, block: Block) -> Result<(), OpenQueueError>
        ensures fits { OnOk result (open_refusal block self.old ≡ None) }
        ensures opened { OnOk result (self.new ≡ opened block self.old) }
        ensures err { IfErr result (λ e. e ≡ unwrap_or (open_refusal block self.old) OpenQueueError.OutOfMemory) }
        ensures same { OnErr result (self.new ≡ self.old) }
    {
        table::open(&mut self.table, block)
    }

    /// Appends a whole private queue: the head's block, with these entries.
    ///
    /// Refused with nothing changed: `QueueFull` at `MAX_QUEUES` private queues, `AlreadyThere` if the block has
    /// one, `BadQueue`, `OutOfMemory`. `BadQueue` means that the first number is 0, there are more than
    /// `MAX_PENDING` entries, a number is above 2^32-1 or an open queue's next one would be, a cut queue is empty,
    /// an End isn't the last entry of an ended queue, or an ended queue has none.
    pub fn append(&mut self, head: Head, entries: &[Entry]) -> Result<(), AppendError>
        ensures fits { OnOk result (MayAppend head entries.now self.old) }
        ensures appended { OnOk result (self.new ≡ self.old ++ queue_with head entries.now ∷ []) }
        ensures err { IfErr result (AppendRefused head entries.now self.old) }
        ensures same { OnErr result (self.new ≡ self.old) }
    {
        table::append(&mut self.table, head, entries)
    }

    /// The same private queues, kept with the same allocator. `OutOfMemory` is the one refusal.
    pub fn copy(&self) -> Result<QueueOfQueues<A>, OutOfMemory>
        ensures { IfOk result (λ copy. copy ≡ self.now) }
    {
        let table = table::copied(&self.table)?;
        Ok(QueueOfQueues { table })
    }

    /// Takes over the private queues of the other one, in its own room if that is enough. An `Err` changes
    /// nothing; `OutOfMemory` is the one refusal.
    pub fn copy_from(&mut self, other: &QueueOfQueues<A>) -> Result<(), OutOfMemory>
        ensures ok { OnOk result (self.new ≡ other.now) }
        ensures err { OnErr result (self.new ≡ self.old) }
    {
        copying::copy_from(&mut self.table, &other.table)
    }
}

impl<A: Allocator> QueueOfQueues<A> {
    /// Puts an entry at the end of the block's private queue. An End closes the queue.
    ///
    /// Refused with nothing changed: `NotThere` if the block has no private queue, `Ended` if its queue has ended
    /// or was cut, `PendingFull` if `MAX_PENDING` are pending, `OutOfMemory`.
    pub fn put(&mut self, block: Block, entry: Entry) -> Result<(), PutError>
        requires { HasNumbersFor block (entry ∷ []) self.old }
        ensures fits { OnOk result (put_refusal block 1 self.old ≡ None) }
        ensures put { OnOk result (self.new ≡ put_all block (entry ∷ []) self.old) }
        ensures err { IfErr result (λ e. e ≡ unwrap_or (put_refusal block 1 self.old) PutError.OutOfMemory) }
        ensures same { OnErr result (self.new ≡ self.old) }
    {
        self.put_all(block, &[entry])
    }

    /// Puts all entries at the end of the block's private queue, in order, or none.
    ///
    /// Refused as `put` is: `PendingFull` if pending and new entries together exceed `MAX_PENDING`.
    pub fn put_all(&mut self, block: Block, entries: &[Entry]) -> Result<(), PutError>
        requires some { 0 < length entries.now }
        requires end { EndOnlyLast entries.now }
        requires numbers { HasNumbersFor block entries.now self.old }
        ensures fits { OnOk result (put_refusal block (length entries.now) self.old ≡ None) }
        ensures put { OnOk result (self.new ≡ put_all block entries.now self.old) }
        ensures err { IfErr result (λ e. e ≡ unwrap_or (put_refusal block (length entries.now) self.old) PutError.OutOfMemory) }
        ensures same { OnErr result (self.new ≡ self.old) }
    {
        table::put_all(&mut self.table, block, entries)
    }

    /// The first entry of the first private queue, with its block and its number there. `None` if there is no
    /// private queue, or the first one has no entry: then the others wait.
    pub fn front(&self) -> Option<(Block, u32, Entry)>
        ensures { result ≡ front self.now }
    {
        table::front(&self.table)
    }

    /// Takes the entry that `front` gives. The private queue goes with its End, or with the last entry of a cut
    /// one.
    pub fn advance(&mut self) -> Option<(Block, u32, Entry)>
        ensures taken { result ≡ front self.old }
        ensures left { self.new ≡ advance self.old }
    {
        table::advance(&mut self.table)
    }

    /// Cuts the block's private queue: received entries stay, and no more come. An empty one goes at once. Returns
    /// whether the queue was open; if not, nothing changes.
    pub fn cut(&mut self, block: Block) -> bool
        ensures was_open { result ≡ has_open block self.old }
        ensures cut { self.new ≡ cut block self.old }
    {
        table::cut(&mut self.table, block)
    }

    /// How many private queues there are.
    pub fn list_len(&self) -> usize
        ensures value { result ≡ length self.now }
        ensures queues { IsQueues self.now }
    {
        table::len(&self.table)
    }

    /// How many entries the block has pending: 0 if it has no private queue.
    pub fn pending_len(&self, block: Block) -> usize
        ensures { result ≡ pending block self.now }
    {
        table::pending_len(&self.table, block)
    }

    /// The private queue at a place, counted from 0, without its entries.
    pub fn head(&self, i: usize) -> Option<Head>
        ensures { result ≡ head_at i self.now }
    {
        table::head(&self.table, i)
    }

    /// The pending entry at the place `j` of the private queue at the place `i`, both counted from 0.
    pub fn entry(&self, i: usize, j: usize) -> Option<Entry>
        ensures { result ≡ entry_at i j self.now }
    {
        table::entry(&self.table, i, j)
    }

    /// Whether the other ones are the same private queues in the same order.
    pub fn same(&self, other: &QueueOfQueues<A>) -> bool
        ensures { IsTrue result ↔ (self.now ≡ other.now) }
    {
        table::same(&self.table, &other.table)
    }
}
