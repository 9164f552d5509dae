//! Private queues that replace others in the same room.

ghost use Rattle.std.specs.Prelude.{◌≡◌, ◌<◌, ℕ, None, IsTrue, IfSome, OnOk, OnErr, length, slice_get, take};
ghost use Rattle.scoop_queue.specs.Kept.{queues_kept};
ghost use Rattle.scoop_queue.specs.Copying.{AgreeBut};
ghost use Rattle.scoop_queue.specs.Queue.{PrivateQueue};
ghost use Rattle.scoop_queue.specs.Sound.{AreApart};

use crate::table::{Table, copied, len, same_at};
use scoop_message::OutOfMemory;
use std::alloc::Allocator;

/// Makes a table keep the private queues of another one. Copies nothing if both keep the same, and a single queue
/// if no other differs, as after most messages. An `Err` changes nothing.
pub(crate) fn copy_from<A: Allocator + Copy>(
    table: &mut Table<A>,
    other: &Table<A>,
) -> Result<(), OutOfMemory>
    requires { AreApart (queues_kept other.now.entries) }
    ensures ok { OnOk result (queues_kept table.new.entries ≡ queues_kept other.now.entries) }
    ensures err { OnErr result (queues_kept table.new.entries ≡ queues_kept table.old.entries) }
{
    let Some(place) = first_change(table, other) else {
        return Ok(());
    };
    if is_only_change(table, other, place) {
        return copy_at(table, other, place);
    }
    *table = copied(other)?;
    Ok(())
}

// A place before which two tables keep the same private queues, `None` if they keep the same everywhere. If they keep as
// many, it is the first place where they differ.
fn first_change<A: Allocator>(left: &Table<A>, right: &Table<A>) -> Option<usize>
    ensures none { result ≡ None → queues_kept left.now.entries ≡ queues_kept right.now.entries }
    ensures before { IfSome result (λ i. take i (queues_kept left.now.entries) ≡ take i (queues_kept right.now.entries)) }
{
    let count = len(left);
    if count != len(right) {
        return Some(0);
    }
    for i in 0..count {
        if !same_at(left, right, i) {
            return Some(i);
        }
    }
    None
}

// Whether two tables keep as many private queues: of one block at this place, and the same at each other place. Before it
// they keep the same.
fn is_only_change<A: Allocator>(left: &Table<A>, right: &Table<A>, place: usize) -> bool
    requires { take place (queues_kept left.now.entries) ≡ take place (queues_kept right.now.entries) }
    ensures { IsTrue result → AgreeBut place (queues_kept left.now.entries) (queues_kept right.now.entries) }
{
    if len(left) != len(right) {
        return false;
    }
    if !same_block_at(left, right, place) {
        return false;
    }
    same_after(left, right, place)
}

// Whether two tables keep a private queue of one block at this place.
fn same_block_at<A: Allocator>(left: &Table<A>, right: &Table<A>, place: usize) -> bool
    ensures there { IsTrue result → place < length (queues_kept left.now.entries) }
    ensures same { (q r : PrivateQueue) → IsTrue result → slice_get (queues_kept left.now.entries) place ≡ Some q
        → slice_get (queues_kept right.now.entries) place ≡ Some r → q.block ≡ r.block }
{
    match (left.get_index(place), right.get_index(place)) {
        (Some((key, _)), Some((other, _))) => *key == *other,
        _ => false,
    }
}

// Whether two tables keep the same at each place of the first one after this.
fn same_after<A: Allocator>(left: &Table<A>, right: &Table<A>, place: usize) -> bool
    requires { place < length (queues_kept left.now.entries) }
    ensures { (j : ℕ) → IsTrue result → place < j → j < length (queues_kept left.now.entries)
        → slice_get (queues_kept left.now.entries) j ≡ slice_get (queues_kept right.now.entries) j }
{
    let count = len(left);
    for i in place + 1..count {
        if !same_at(left, right, i) {
            return false;
        }
    }
    true
}

// Copies the other table's private queue at the only place where they differ. An `Err` changes nothing.
fn copy_at<A: Allocator + Copy>(
    table: &mut Table<A>,
    other: &Table<A>,
    place: usize,
) -> Result<(), OutOfMemory>
    requires { AgreeBut place (queues_kept table.old.entries) (queues_kept other.now.entries) }
    ensures ok { OnOk result (queues_kept table.new.entries ≡ queues_kept other.now.entries) }
    ensures err { OnErr result (queues_kept table.new.entries ≡ queues_kept table.old.entries) }
{
    let alloc = *table.allocator();
    let pending = other[place].copy(alloc)?;
    table[place] = pending;
    Ok(())
}
