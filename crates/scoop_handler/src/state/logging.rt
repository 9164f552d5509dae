//! The logging of entries.

ghost use Rattle.std.specs.Prelude.{◌≡◌, ◌<◌, ◌≤◌, ◌+◌, ◌^◌, ℕ, length, IfOk, OnErr, IsErr, IsTrue, Some};
ghost use Rattle.scoop_message.specs.Entries.{EndOnlyLast, last_number};
ghost use Rattle.scoop_handler.specs.State.{IsState, HandlerState as State};
ghost use Rattle.scoop_handler.specs.Hearing.{hear_log, received_before, kept_answer, is_closed, new_entries, has_no_room, IsHeardAt};
ghost use Rattle.scoop_handler.specs.Marks.{IsPlaceOf};
ghost use Rattle.scoop_handler.specs.Rows.{IsNext};
ghost use Rattle.scoop_handler.specs.Memory.{adds};
ghost use Rattle.scoop_handler.specs.Outcomes.{heard_about};

use crate::mark::{Mark, Stage};
use crate::note::{Note, Reason};
use crate::outcome::{Outcome, ReplyKind};
use crate::state::HandlerState;
use scoop_message::limits::{MAX_ENTRIES, MAX_PENDING};
use scoop_message::{Block, Entry, OutOfMemory, ends};
use std::alloc::Allocator;

// Whether the block takes no more, or entries up to the number `last` would leave none for the End.
fn is_closed(mark: &Mark, last: u64, entries: &[Entry]) -> bool
    ensures { result ≡ is_closed mark.now last entries.now }
{
    let highest = u64::from(u32::MAX);
    mark.ended || last > highest || last == highest && !ends(entries)
}

// The entries that were not received yet: no earlier one is missing, and there are some.
fn unreceived<'a>(mark: &Mark, number: u32, entries: &'a [Entry]) -> &'a [Entry]
    requires { IsNext mark.now number entries.now }
    ensures new { result.now ≡ new_entries number entries.now mark.now }
    ensures few { length (new_entries number entries.now mark.now) ≤ length entries.now }
{
    let skipped = u64::from(mark.received) + 1 - u64::from(number);
    &entries[skipped as usize..]
}

// The reply to entries that were all received, the last of which has this number.
fn received_before(last: u32, mark: &Mark) -> Outcome
    ensures { (s : State) (b : Block) → received_before s b last mark.now (kept_answer last mark.now.kept) ≡ (s, heard_about s.number b result) }
{
    let reply = match mark.kept {
        Some((number, answer)) if number == last => ReplyKind::Answer(last, answer),
        _ => ReplyKind::Logged(mark.received),
    };
    Outcome::replied(reply, Note::Known)
}

impl<A: Allocator> HandlerState<A> {
    // The block logs entries, the first of which has this number. `mark` is its client's, at this place. An `Err`
    // comes only if entries would be taken, and changes nothing.
    pub(super) fn hear_log(
        &mut self,
        block: Block,
        number: u32,
        entries: &[Entry],
        place: usize,
        mark: Mark,
    ) -> Result<Outcome, OutOfMemory>
        requires heard { IsHeardAt self.old block mark }
        requires place { IsPlaceOf block.client self.old.marks place }
        requires some { 0 < length entries.now }
        requires few { length entries.now ≤ MAX_ENTRIES }
        requires end { EndOnlyLast entries.now }
        ensures ok { IfOk result (λ outcome. hear_log self.old block number entries.now mark ≡ (self.new, heard_about self.old.number block outcome)) }
        ensures err { OnErr result (self.new ≡ self.old) }
        ensures memory { IsErr result → IsTrue (adds (Some mark) (hear_log self.old block number entries.now mark).1.note) }
    {
        if mark.num < block.num || mark.stage != Stage::Open {
            return Ok(Outcome::dropped(Reason::NotOpen));
        }
        let last = u64::from(number) + entries.len() as u64 - 1;
        if last <= u64::from(mark.received) {
            return Ok(received_before(last as u32, &mark));
        }
        if u64::from(mark.received) + 1 < u64::from(number) {
            return Ok(Outcome::dropped(Reason::Gap));
        }
        if is_closed(&mark, last, entries) {
            return Ok(Outcome::dropped(Reason::NotOpen));
        }
        let new = unreceived(&mark, number, entries);
        if self.has_no_room(block, new.len()) {
            return Ok(Outcome::dropped(Reason::PendingFull));
        }
        let received = last as u32;
        self.put(
            block,
            new,
            place,
            mark.with_received(received, ends(entries)),
        )?;
        Ok(Outcome::replied(ReplyKind::Logged(received), Note::Took(received)))
    }

    // Whether the block's private queue has no room for this many more entries.
    fn has_no_room(&self, block: Block, more: usize) -> bool
        requires { more ≤ MAX_ENTRIES }
        ensures value { result ≡ has_no_room self.now block more }
        ensures state { IsState self.now }
    {
        self.queues.pending_len(block) + more > MAX_PENDING
    }
}
