//! The pending entries of one block.

ghost use Rattle.std.specs.Prelude.{◌≡◌, ◌<◌, ◌↔◌, ◌++◌, [], ◌∷◌, Some, None, true, length, IsTrue, unwrap_or, IfErr, IfOk, OnOk, OnErr};
ghost use Rattle.std.specs.Bool.{OnTrue, OnFalse};
ghost use Rattle.scoop_message.specs.declared.name.Block.{Block};

use crate::error::PutError;
use crate::state::{Head, QueueState};
use scoop_message::limits::MAX_PENDING;
use scoop_message::{Entry, OutOfMemory, ends};
use std::alloc::Allocator;
use std::collections::VecDeque;

/// The pending entries of a private queue, the number of the first one, and whether more may come.
#[derive(Drop)]
pub(crate) struct Pending<A: Allocator> {
    pub(crate) first: u32,
    pub(crate) entries: VecDeque<Entry, A>,
    pub(crate) state: QueueState,
}

// Puts the entries after those that are there, all or none.
fn extend<A: Allocator>(
    pending: &mut VecDeque<Entry, A>,
    entries: &[Entry],
) -> Result<(), OutOfMemory>
    ensures ok { OnOk result (pending.new.items ≡ pending.old.items ++ entries.now) }
    ensures err { OnErr result (pending.new.items ≡ pending.old.items) }
{
    pending.reserve(entries.len())?;
    for entry in entries {
        pending.push_back_reserved(*entry);
    }
    Ok(())
}

impl<A: Allocator> Pending<A> {
    ghost use Rattle.scoop_queue.specs.Kept.{queue_at};
    ghost use Rattle.scoop_queue.specs.Queue.{goes_with, is_open, left_by_cut, left_by_first, new_queue, queue_with, with_entries};
    ghost use Rattle.scoop_queue.specs.Refusal.{refusal_at};
    ghost use Rattle.scoop_queue.specs.Sound.{IsQueue};
    ghost use Rattle.scoop_message.specs.Entries.{ends};

    /// The pending entries of a block whose private queue has just opened.
    pub(crate) fn new(alloc: A) -> Pending<A>
        ensures { (b : Block) → queue_at b result ≡ new_queue b }
    {
        Pending {
            first: 1,
            entries: VecDeque::new(alloc),
            state: QueueState::Open,
        }
    }

    /// The pending entries of a private queue with this head and these entries.
    pub(crate) fn of(alloc: A, head: Head, entries: &[Entry]) -> Result<Pending<A>, OutOfMemory>
        ensures { IfOk result (λ p. queue_at head.block p ≡ queue_with head entries.now) }
    {
        let mut kept = VecDeque::new(alloc);
        extend(&mut kept, entries)?;
        Ok(Pending {
            first: head.first,
            entries: kept,
            state: head.state,
        })
    }

    /// The same, kept with another allocator.
    pub(crate) fn copy(&self, alloc: A) -> Result<Pending<A>, OutOfMemory>
        ensures { IfOk result (λ p. (b : Block) → queue_at b p ≡ queue_at b self.now) }
    {
        let mut entries = VecDeque::new(alloc);
        let (upper, lower) = self.entries.as_slices();
        extend(&mut entries, upper)?;
        extend(&mut entries, lower)?;
        Ok(Pending {
            first: self.first,
            entries,
            state: self.state,
        })
    }

    /// How many entries are pending.
    pub(crate) fn len(&self) -> usize
        ensures { result ≡ length self.now.entries.items }
    {
        self.entries.len()
    }

    /// Whether more may come.
    pub(crate) fn is_open(&self) -> bool
        ensures { result ≡ is_open self.now.state }
    {
        matches!(self.state, QueueState::Open)
    }

    /// Whether first number, entries and state are the same.
    pub(crate) fn same(&self, other: &Pending<A>) -> bool
        ensures { IsTrue result ↔ ((self.now.first ≡ other.now.first) × (self.now.entries.items ≡ other.now.entries.items)
            × (self.now.state ≡ other.now.state)) }
    {
        if self.first != other.first {
            return false;
        }
        let state = self.state == other.state;
        let entries = self.entries == other.entries;
        state && entries
    }

    /// Puts the entries after those that are there, all or none.
    pub(crate) fn put_all(&mut self, entries: &[Entry]) -> Result<(), PutError>
        requires { 0 < length entries.now }
        ensures ok { OnOk result ((b : Block) → refusal_at (length entries.now) (Some (queue_at b self.old)) ≡ None) }
        ensures put { OnOk result ((b : Block) → queue_at b self.new ≡ with_entries entries.now (queue_at b self.old)) }
        ensures err { IfErr result (λ e. (b : Block) → e ≡ unwrap_or (refusal_at (length entries.now) (Some (queue_at b self.old))) PutError.OutOfMemory) }
        ensures same { OnErr result ((b : Block) → queue_at b self.new ≡ queue_at b self.old) }
    {
        if !self.is_open() {
            return Err(PutError::Ended);
        }
        if entries.len() > MAX_PENDING.saturating_sub(self.entries.len()) {
            return Err(PutError::PendingFull);
        }
        extend(&mut self.entries, entries)?;
        if ends(entries) {
            self.state = QueueState::Ended;
        }
        Ok(())
    }

    // Whether nothing is left after this entry, once it is taken.
    fn goes_with(&self, entry: &Entry) -> bool
        ensures { result ≡ goes_with self.now.state entry.now self.now.entries.items }
    {
        entry.is_end() || matches!(self.state, QueueState::Cut) && self.len() == 0
    }

    /// Takes the first entry, and returns whether nothing is left: a queue goes with its End, and a cut one with
    /// its last entry.
    pub(crate) fn take_first(&mut self) -> bool
        requires { (b : Block) → IsQueue (queue_at b self.old) }
        ensures gone { OnTrue result ((b : Block) → left_by_first (queue_at b self.old) self.old.entries.items ≡ []) }
        ensures left { OnFalse result ((b : Block) → left_by_first (queue_at b self.old) self.old.entries.items ≡ queue_at b self.new ∷ []) }
    {
        let Some(entry) = self.entries.pop_front() else {
            return false;
        };
        if self.goes_with(&entry) {
            return true;
        }
        self.first += 1;
        false
    }

    /// Lets no more come, if it is open, and returns whether nothing is left: an empty queue goes at once.
    pub(crate) fn cut(&mut self) -> bool
        requires { is_open self.old.state ≡ true }
        ensures gone { OnTrue result ((b : Block) → left_by_cut (queue_at b self.old) ≡ []) }
        ensures left { OnFalse result ((b : Block) → left_by_cut (queue_at b self.old) ≡ queue_at b self.new ∷ []) }
    {
        self.state = QueueState::Cut;
        self.len() == 0
    }
}
