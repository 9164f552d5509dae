//! The private queues as they are kept: a map from their blocks, in order.

ghost use Rattle.std.specs.Prelude.{◌≡◌, ◌<◌, ◌↔◌, ◌++◌, [], ◌∷◌, None, IsTrue, slice_get, false, length, remove, unwrap_or, MatchOption, IfErr, IfOk, IfSome};
ghost use Rattle.std.specs.Prelude.{OnOk, OnErr};
ghost use Rattle.indexmap.specs.IndexMap.{index_map_len};
ghost use Rattle.scoop_queue.specs.Kept.{queue_at, queues_kept, IsPlaceOf};
ghost use Rattle.scoop_queue.specs.Queue.{advance, cut, entry_at, front, has_open, has_queue, head_at, opened, pending, put_all, queue_with};
ghost use Rattle.scoop_queue.specs.Refusal.{open_refusal, put_refusal, AppendRefused, MayAppend};
ghost use Rattle.scoop_queue.specs.Sound.{IsQueues, AreApart};

use crate::ending::is_queue;
use crate::error::{AppendError, OpenQueueError, PutError};
use crate::key::Key;
use crate::pending::Pending;
use crate::state::Head;
use indexmap::IndexMap;
use scoop_message::limits::MAX_QUEUES;
use scoop_message::{Block, Entry, OutOfMemory};
use std::alloc::Allocator;
use std::hash::{BuildHasherDefault, FoldHasher};

/// The pending entries of each block, in the order of the private queues.
pub(crate) type Table<A> = IndexMap<Key, Pending<A>, BuildHasherDefault<FoldHasher>, A>;

/// The place of a block's private queue.
pub(crate) fn place_of<A: Allocator>(table: &Table<A>, block: Block) -> Option<usize>
    ensures place { MatchOption result (has_queue block (queues_kept table.now.entries) ≡ false) (IsPlaceOf block (queues_kept table.now.entries)) }
    ensures within { IfSome result (λ i. i < index_map_len table.now) }
{
    table.get_index_of(&Key::of(block))
}

/// How many private queues there are.
pub(crate) fn len<A: Allocator>(table: &Table<A>) -> usize
    ensures { result ≡ length (queues_kept table.now.entries) }
{
    table.len()
}

/// Whether the block has a private queue.
pub(crate) fn has<A: Allocator>(table: &Table<A>, block: Block) -> bool
    ensures { result ≡ has_queue block (queues_kept table.now.entries) }
{
    place_of(table, block).is_some()
}

/// Adds the pending entries of a block without a private queue, as the last queue.
pub(crate) fn add<A: Allocator>(
    table: &mut Table<A>,
    block: Block,
    pending: Pending<A>,
) -> Result<(), OutOfMemory>
    requires { has_queue block (queues_kept table.old.entries) ≡ false }
    ensures ok { OnOk result (queues_kept table.new.entries ≡ queues_kept table.old.entries ++ queue_at block pending ∷ []) }
    ensures err { OnErr result (queues_kept table.new.entries ≡ queues_kept table.old.entries) }
{
    table.insert(Key::of(block), pending)?;
    Ok(())
}

/// Opens a private queue for the block.
pub(crate) fn open<A: Allocator + Copy>(
    table: &mut Table<A>,
    block: Block,
) -> Result<(), OpenQueueError>
    ensures fits { OnOk result (open_refusal block (queues_kept table.old.entries) ≡ None) }
    ensures opened { OnOk result (queues_kept table.new.entries ≡ opened block (queues_kept table.old.entries)) }
    ensures err { IfErr result (λ e. e ≡ unwrap_or (open_refusal block (queues_kept table.old.entries)) OpenQueueError.OutOfMemory) }
    ensures same { OnErr result (queues_kept table.new.entries ≡ queues_kept table.old.entries) }
{
    if len(table) >= MAX_QUEUES {
        return Err(OpenQueueError::QueueFull);
    }
    if has(table, block) {
        return Err(OpenQueueError::AlreadyThere);
    }
    let pending = Pending::new(*table.allocator());
    add(table, block, pending)?;
    Ok(())
}

/// Appends the private queue that has this head and these entries.
pub(crate) fn append<A: Allocator + Copy>(
    table: &mut Table<A>,
    head: Head,
    entries: &[Entry],
) -> Result<(), AppendError>
    ensures fits { OnOk result (MayAppend head entries.now (queues_kept table.old.entries)) }
    ensures appended { OnOk result (queues_kept table.new.entries ≡ queues_kept table.old.entries ++ queue_with head entries.now ∷ []) }
    ensures err { IfErr result (AppendRefused head entries.now (queues_kept table.old.entries)) }
    ensures same { OnErr result (queues_kept table.new.entries ≡ queues_kept table.old.entries) }
{
    if len(table) >= MAX_QUEUES {
        return Err(AppendError::QueueFull);
    }
    if has(table, head.block) {
        return Err(AppendError::AlreadyThere);
    }
    if !is_queue(head, entries) {
        return Err(AppendError::BadQueue);
    }
    let pending = Pending::of(*table.allocator(), head, entries)?;
    add(table, head.block, pending)?;
    Ok(())
}

// Takes out the queue at a place. The others keep their order: at most `MAX_QUEUES` places shift.
fn remove_at<A: Allocator>(table: &mut Table<A>, place: usize)
    ensures { table.new.entries ≡ remove table.old.entries place }
{
    table.shift_remove_index(place);
}

/// Puts the entries into the block's private queue, all or none.
pub(crate) fn put_all<A: Allocator>(
    table: &mut Table<A>,
    block: Block,
    entries: &[Entry],
) -> Result<(), PutError>
    requires { 0 < length entries.now }
    ensures fits { OnOk result (put_refusal block (length entries.now) (queues_kept table.old.entries) ≡ None) }
    ensures put { OnOk result (queues_kept table.new.entries ≡ put_all block entries.now (queues_kept table.old.entries)) }
    ensures err { IfErr result (λ e. e ≡ unwrap_or (put_refusal block (length entries.now) (queues_kept table.old.entries)) PutError.OutOfMemory) }
    ensures same { OnErr result (queues_kept table.new.entries ≡ queues_kept table.old.entries) }
{
    let Some(place) = place_of(table, block) else {
        return Err(PutError::NotThere);
    };
    let pending = &mut table[place];
    pending.put_all(entries)
}

/// The first entry of the first private queue, with its block and number.
pub(crate) fn front<A: Allocator>(table: &Table<A>) -> Option<(Block, u32, Entry)>
    ensures { result ≡ front (queues_kept table.now.entries) }
{
    let (key, pending) = table.first()?;
    let entry = pending.entries.front()?;
    Some((key.block(), pending.first, *entry))
}

/// Takes the first entry of the first private queue.
pub(crate) fn advance<A: Allocator>(table: &mut Table<A>) -> Option<(Block, u32, Entry)>
    requires { IsQueues (queues_kept table.old.entries) }
    ensures taken { result ≡ front (queues_kept table.old.entries) }
    ensures left { queues_kept table.new.entries ≡ advance (queues_kept table.old.entries) }
{
    let taken = front(table)?;
    let first = &mut table[0];
    if first.take_first() {
        remove_at(table, 0);
    }
    Some(taken)
}

/// Cuts the block's private queue if it is open.
pub(crate) fn cut<A: Allocator>(table: &mut Table<A>, block: Block) -> bool
    ensures was_open { result ≡ has_open block (queues_kept table.old.entries) }
    ensures cut { queues_kept table.new.entries ≡ cut block (queues_kept table.old.entries) }
{
    let Some(place) = place_of(table, block) else {
        return false;
    };
    let pending = &mut table[place];
    if !pending.is_open() {
        return false;
    }
    if pending.cut() {
        remove_at(table, place);
    }
    true
}

/// How many entries the block has pending.
pub(crate) fn pending_len<A: Allocator>(table: &Table<A>, block: Block) -> usize
    ensures { result ≡ pending block (queues_kept table.now.entries) }
{
    match place_of(table, block) {
        Some(place) => table[place].len(),
        None => 0,
    }
}

/// The private queue at a place, without its entries.
pub(crate) fn head<A: Allocator>(table: &Table<A>, i: usize) -> Option<Head>
    ensures { result ≡ head_at i (queues_kept table.now.entries) }
{
    let (key, pending) = table.get_index(i)?;
    Some(Head {
        block: key.block(),
        first: pending.first,
        state: pending.state,
    })
}

/// The entry at a place of the private queue at a place.
pub(crate) fn entry<A: Allocator>(table: &Table<A>, i: usize, j: usize) -> Option<Entry>
    ensures { result ≡ entry_at i j (queues_kept table.now.entries) }
{
    let (_, pending) = table.get_index(i)?;
    pending.entries.get(j).copied()
}

/// The same private queues, kept with the same allocator.
pub(crate) fn copied<A: Allocator + Copy>(table: &Table<A>) -> Result<Table<A>, OutOfMemory>
    requires { AreApart (queues_kept table.now.entries) }
    ensures { IfOk result (λ copy. queues_kept copy.entries ≡ queues_kept table.now.entries) }
{
    let alloc = *table.allocator();
    let mut copy = IndexMap::new(alloc);
    for (key, pending) in table.iter() {
        let entries = pending.copy(alloc)?;
        add(&mut copy, key.block(), entries)?;
    }
    Ok(copy)
}

/// Whether two tables have the same private queue, or none, at a place.
pub(crate) fn same_at<A: Allocator>(left: &Table<A>, right: &Table<A>, i: usize) -> bool
    ensures { IsTrue result ↔ (slice_get (queues_kept left.now.entries) i ≡ slice_get (queues_kept right.now.entries) i) }
{
    match (left.get_index(i), right.get_index(i)) {
        (Some((key, pending)), Some((other_key, other))) => {
            *key == *other_key && pending.same(other)
        }
        (None, None) => true,
        _ => false,
    }
}

/// Whether two tables keep the same private queues.
pub(crate) fn same<A: Allocator>(left: &Table<A>, right: &Table<A>) -> bool
    ensures { IsTrue result ↔ (queues_kept left.now.entries ≡ queues_kept right.now.entries) }
{
    let count = len(left);
    if count != len(right) {
        return false;
    }
    for i in 0..count {
        if !same_at(left, right, i) {
            return false;
        }
    }
    true
}
