//! Entries of a history, read back from words.

ghost use Rattle.std.specs.Prelude.{◌≡◌};
ghost use Rattle.scoop_book.specs.Lines.{event_at, left_at, line_at, reply_at};

use crate::event::{Event, Reply};
use scoop_handler::Heard;
use scoop_message::{Block, HandlerId};
use scoop_packed::Reader;

#[tactic(auto, unfolding(crate::specs::Lines::event_at))]
fn event_from(words: &mut Reader<'_>) -> Event
    ensures event { result ≡ (event_at words.old).0 }
    ensures left { words.new ≡ (event_at words.old).1 }
{
    let kind = words.word();
    if kind < 12 {
        return Event::Hear(words.message(kind));
    }
    let handler = HandlerId(words.word());
    if kind == 12 {
        Event::Begin(handler)
    } else {
        Event::Finish(handler)
    }
}

// The block and the number of an entry that has left.
fn left_from(words: &mut Reader<'_>) -> (Block, u32)
    ensures entry { result ≡ (left_at words.old).0 }
    ensures left { words.new ≡ (left_at words.old).1 }
{
    let block = words.block();
    let number = words.word();
    (block, number)
}

#[tactic(auto, unfolding(crate::specs::Lines::reply_at))]
fn reply_from(words: &mut Reader<'_>) -> Reply
    ensures reply { result ≡ (reply_at words.old).0 }
    ensures left { words.new ≡ (reply_at words.old).1 }
{
    let kind = words.word();
    if kind < 12 {
        let message = words.message(kind);
        let note = words.note();
        let reply = Some(message);
        return Reply::Heard(Heard { reply, note });
    }
    match kind {
        12 => {
            let note = words.note();
            Reply::Heard(Heard { reply: None, note })
        }
        13 => Reply::Began(None),
        14 => Reply::Began(Some(left_from(words))),
        _ => Reply::Finished(words.ran()),
    }
}

/// The next entry.
#[tactic(auto, unfolding(crate::specs::Lines::line_at))]
pub(crate) fn line_from(words: &mut Reader<'_>) -> (u32, Event, Reply)
    ensures line { result ≡ (line_at words.old).0 }
    ensures left { words.new ≡ (line_at words.old).1 }
{
    let pass = words.word();
    let event = event_from(words);
    let reply = reply_from(words);
    (pass, event, reply)
}

#[tactic(auto, unfolding(crate::specs::Lines::event_at))]
fn skip_event(words: &mut Reader<'_>)
    ensures { words.new ≡ (event_at words.old).1 }
{
    let kind = words.word();
    if kind < 12 {
        words.skip_message(kind);
        return;
    }
    words.word();
}

#[tactic(auto, unfolding(crate::specs::Lines::reply_at))]
fn skip_reply(words: &mut Reader<'_>)
    ensures { words.new ≡ (reply_at words.old).1 }
{
    let kind = words.word();
    if kind < 12 {
        words.skip_message(kind);
        words.skip_note();
        return;
    }
    match kind {
        12 => words.skip_note(),
        13 => {}
        14 => {
            left_from(words);
        }
        _ => words.skip_ran(),
    }
}

/// Leaves out the event and the reply of an entry.
pub(crate) fn skip_moved(words: &mut Reader<'_>)
    ensures { words.new ≡ (reply_at (event_at words.old).1).1 }
{
    skip_event(words);
    skip_reply(words);
}
