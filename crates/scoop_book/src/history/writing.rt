//! Entries of a history, written as words.

ghost use Rattle.std.specs.Prelude.{◌≡◌, ◌≤◌, ◌<◌, ◌+◌, ◌++◌, ◌∷◌, vec_len, vec_capacity};
ghost use Rattle.scoop_packed.specs.Packed.{note_words};
ghost use Rattle.scoop_book.specs.Lines.{IsSizedEvent, IsSizedLine, IsSizedReply, event_words, line_words, reply_words, said_words};

use crate::event::{Event, Reply};
use scoop_handler::Heard;
use scoop_message::Message;
use scoop_packed::{put, put_message, put_note, put_ran};
use std::alloc::Allocator;

/// Words of the longest entry: its pass, and a Log of four entries with four arguments each, on both sides.
pub(crate) const MAX_LINE: usize = 107;

fn put_event<A: Allocator + Copy>(out: &mut Vec<u32, A>, event: &Event)
    requires { vec_len out.old + 51 ≤ vec_capacity out.old }
    ensures words { out.new.items ≡ out.old.items ++ event_words event.now }
    ensures room { vec_capacity out.old + vec_len out.new ≤ vec_capacity out.new + vec_len out.old + 51 }
    ensures sized { IsSizedEvent event.now }
{
    match event {
        Event::Hear(message) => put_message(out, message),
        Event::Begin(handler) => put(out, &[12, handler.0]),
        Event::Finish(handler) => put(out, &[13, handler.0]),
    }
}

fn put_heard<A: Allocator + Copy>(out: &mut Vec<u32, A>, heard: &Heard)
    requires { vec_len out.old + 55 ≤ vec_capacity out.old }
    ensures words { out.new.items ≡ out.old.items ++ (said_words heard.now.reply ++ note_words heard.now.note) }
    ensures room { vec_capacity out.old + vec_len out.new ≤ vec_capacity out.new + vec_len out.old + 55 }
    ensures sized { IsSizedReply (Reply.Heard heard.now) }
{
    match &heard.reply {
        Some(message) => put_message(out, message),
        None => put(out, &[12]),
    }
    put_note(out, &heard.note);
}

fn put_reply<A: Allocator + Copy>(out: &mut Vec<u32, A>, reply: &Reply)
    requires { vec_len out.old + 55 ≤ vec_capacity out.old }
    ensures words { out.new.items ≡ out.old.items ++ reply_words reply.now }
    ensures room { vec_capacity out.old + vec_len out.new ≤ vec_capacity out.new + vec_len out.old + 55 }
    ensures sized { IsSizedReply reply.now }
{
    match reply {
        Reply::Heard(heard) => put_heard(out, heard),
        Reply::Began(None) => put(out, &[13]),
        Reply::Began(Some((block, number))) => put(
            out,
            &[14, block.client.0, block.inc, block.num, *number],
        ),
        Reply::Finished(ran) => put_ran(out, 15, ran),
    }
}

/// Adds an entry. There is room for it.
pub(crate) fn put_line<A: Allocator + Copy>(
    out: &mut Vec<u32, A>,
    pass: u32,
    event: &Event,
    reply: &Reply,
)
    requires { vec_len out.old + MAX_LINE ≤ vec_capacity out.old }
    ensures words { out.new.items ≡ out.old.items ++ line_words (pass, event.now, reply.now) }
    ensures sized { IsSizedLine (pass, event.now, reply.now) }
    ensures grows { vec_len out.old < vec_len out.new }
{
    put(out, &[pass]);
    put_event(out, event);
    put_reply(out, reply);
}

/// Adds a message that was heard, and what it did. There is room for them.
pub(crate) fn put_heard_line<A: Allocator + Copy>(
    out: &mut Vec<u32, A>,
    pass: u32,
    message: &Message,
    heard: &Heard,
)
    requires { vec_len out.old + MAX_LINE ≤ vec_capacity out.old }
    ensures words { out.new.items ≡ out.old.items ++ line_words (pass, Event.Hear message.now, Reply.Heard heard.now) }
    ensures sized { IsSizedLine (pass, Event.Hear message.now, Reply.Heard heard.now) }
    ensures grows { vec_len out.old < vec_len out.new }
{
    put(out, &[pass]);
    put_message(out, message);
    put_heard(out, heard);
}
