//! The conditions on a handler's state. There are at most `MAX_MARKS` marks and `MAX_QUEUES` private queues, so
//! searches go from the front.

ghost use Rattle.std.specs.Prelude.{◌≡◌, ◌↔◌, ◌+◌, List, length, IsTrue, IfSome, slice_get};
ghost use Rattle.std.specs.List.{AllByRecursion};
ghost use Rattle.scoop_message.specs.declared.name.HandlerId.{HandlerId};
ghost use Rattle.scoop_message.specs.declared.request.Entry.{Entry};
ghost use Rattle.scoop_queue.specs.Queue.{has_open, is_open, queue_with};
ghost use Rattle.scoop_handler.specs.State.{state_of, FitsMark, HasMark, HasQueueIfOpen, HolderIsUnderWay, HoldsIfHeld, IsAscending, IsState};
ghost use Rattle.scoop_handler.specs.State.{IsUnusedUnlessOpen};

use crate::mark::{Mark, Stage};
use crate::marks::find_mark;
use scoop_message::limits::MAX_MARKS;
use scoop_message::{Block, Words};
use scoop_queue::{Head, QueueOfQueues, QueueState};
use std::alloc::Allocator;

// Whether the marks stand by ascending client, at most one for each.
fn is_ascending(marks: &[Mark]) -> bool
    ensures { IsTrue result ↔ IsAscending marks.now }
{
    match marks {
        [] => true,
        [_] => true,
        [first, rest @ ..] => first.client.0 < rest[0].client.0 && is_ascending(rest),
    }
}

// Whether the holder is its client's newest block, and that is held or open.
fn is_under_way(holder: Option<Block>, marks: &[Mark]) -> bool
    requires { IsAscending marks.now }
    ensures { IsTrue result ↔ HolderIsUnderWay holder marks.now }
{
    let Some(block) = holder else {
        return true;
    };
    match find_mark(marks, block.client) {
        Some(mark) => mark.block() == block && !matches!(mark.stage, Stage::Shut),
        None => false,
    }
}

// Whether the mark's block is the holder, if it is held.
fn holds_if_held(holder: Option<Block>, mark: &Mark) -> bool
    ensures { IsTrue result ↔ HoldsIfHeld holder mark.now }
{
    if !matches!(mark.stage, Stage::Held) {
        return true;
    }
    match holder {
        Some(block) => block == mark.block(),
        None => false,
    }
}

// Whether no entry of the mark's block was received, unless it is open.
fn is_unused_unless_open(mark: &Mark) -> bool
    ensures { IsTrue result ↔ IsUnusedUnlessOpen mark.now }
{
    matches!(mark.stage, Stage::Open) || mark.received == 0 && !mark.ended && mark.kept.is_none()
}

// Whether a private queue takes more entries.
fn takes_more(state: QueueState) -> bool
    ensures { result ≡ is_open state }
{
    matches!(state, QueueState::Open)
}

// Whether the block has a private queue that takes more entries.
fn has_open<A: Allocator>(queues: &QueueOfQueues<A>, block: Block) -> bool
    ensures { result ≡ has_open block queues.now }
{
    for i in 0..queues.list_len() {
        if let Some(head) = queues.head(i) {
            if block == head.block {
                return takes_more(head.state);
            }
        }
    }
    false
}

// Whether the mark's block has a private queue that takes more entries, if it is open and has not ended.
fn has_queue_if_open<A: Allocator>(queues: &QueueOfQueues<A>, mark: &Mark) -> bool
    ensures { IsTrue result ↔ HasQueueIfOpen queues.now mark.now }
{
    !matches!(mark.stage, Stage::Open) || mark.ended || has_open(queues, mark.block())
}

// Whether each mark fits the holder and the private queues.
fn fit<A: Allocator>(marks: &[Mark], holder: Option<Block>, queues: &QueueOfQueues<A>) -> bool
    ensures { IsTrue result
        ↔ (AllByRecursion (HoldsIfHeld holder) marks.now × AllByRecursion IsUnusedUnlessOpen marks.now
        × AllByRecursion (HasQueueIfOpen queues.now) marks.now) }
{
    match marks {
        [] => true,
        [first, rest @ ..] => {
            holds_if_held(holder, first)
                && is_unused_unless_open(first)
                && has_queue_if_open(queues, first)
                && fit(rest, holder, queues)
        }
    }
}

// Whether a private queue of this head, whose next entry gets this number, fits its client's mark.
fn fits_mark(head: Head, next: u64, mark: Mark) -> bool
    ensures { (es : List Entry) → next ≡ head.first + length es → IsTrue result ↔ FitsMark (queue_with head es) mark }
{
    let fits = if mark.block() == head.block {
        next == u64::from(mark.received) + 1
            && (!takes_more(head.state) || matches!(mark.stage, Stage::Open) && !mark.ended)
    } else {
        !takes_more(head.state)
    };
    let is_older = head.block.inc < mark.inc;
    fits && (is_older
        || !matches!(head.state, QueueState::Cut)
            && head.block.inc == mark.inc
            && head.block.num <= mark.num)
}

// Whether the private queue at a place, if there is one, fits its client's mark.
fn has_mark<A: Allocator>(marks: &[Mark], queues: &QueueOfQueues<A>, i: usize) -> bool
    requires { IsAscending marks.now }
    ensures { IsTrue result ↔ IfSome (slice_get queues.now i) (HasMark marks.now) }
{
    let Some(head) = queues.head(i) else {
        return true;
    };
    let pending = queues.pending_len(head.block);
    // For the prover: the private queues are sound.
    let _list = queues.list_len();
    match find_mark(marks, head.block.client) {
        Some(mark) => fits_mark(head, u64::from(head.first) + pending as u64, mark),
        None => false,
    }
}

// Whether each private queue fits its client's mark.
fn have_marks<A: Allocator>(marks: &[Mark], queues: &QueueOfQueues<A>) -> bool
    requires { IsAscending marks.now }
    ensures { IsTrue result ↔ AllByRecursion (HasMark marks.now) queues.now }
{
    for i in 0..queues.list_len() {
        if !has_mark(marks, queues, i) {
            return false;
        }
    }
    true
}

/// Whether a handler can have this state.
pub(crate) fn is_state<A: Allocator>(
    words: &Words,
    holder: Option<Block>,
    marks: &[Mark],
    queues: &QueueOfQueues<A>,
) -> bool
    ensures { (number : HandlerId) → IsTrue result ↔ IsState (state_of number holder marks.now queues.now words.now) }
{
    // For the prover: the facts of all words and of all private queues.
    let _words = words.len();
    let _queues = queues.list_len();
    marks.len() <= MAX_MARKS
        && is_ascending(marks)
        && is_under_way(holder, marks)
        && fit(marks, holder, queues)
        && have_marks(marks, queues)
}
