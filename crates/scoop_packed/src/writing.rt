//! Messages, notes and entries that have run, written as words of 32 bits.

ghost use Rattle.std.specs.Prelude.{◌≡◌, ◌≤◌, ◌+◌, ◌*◌, ◌++◌, ◌∷◌, [], length, vec_len, vec_capacity};
ghost use Rattle.std.specs.List.{flat_map, AllByRecursion};
ghost use Rattle.scoop_packed.specs.Packed.{IsSized, IsSizedMessage};
ghost use Rattle.scoop_packed.specs.Packed.{answer_words, given_words, logged_words, long_words, message_words, named, note_words, ran_words, request_words};

use scoop_handler::{Note, Ran, Reason};
use scoop_message::{Answer, Block, Entry, HandlerId, Message, Request};
use std::alloc::Allocator;

/// The value of 1 in the upper word of a number.
pub(crate) const HALF: u64 = 1 << 32;

/// Adds words. There is room for them.
pub fn put<A: Allocator + Copy>(out: &mut Vec<u32, A>, words: &[u32])
    requires { vec_len out.old + length words.now ≤ vec_capacity out.old }
    ensures words { out.new.items ≡ out.old.items ++ words.now }
    ensures room { vec_capacity out.old + vec_len out.new ≤ vec_capacity out.new + vec_len out.old + length words.now }
{
    // One by one, which is faster for a few.
    for word in words {
        out.push_reserved(*word);
    }
}

fn put_long<A: Allocator + Copy>(out: &mut Vec<u32, A>, number: u64)
    requires { vec_len out.old + 2 ≤ vec_capacity out.old }
    ensures words { out.new.items ≡ out.old.items ++ long_words number }
    ensures room { vec_capacity out.old + vec_len out.new ≤ vec_capacity out.new + vec_len out.old + 2 }
{
    put(out, &[(number % HALF) as u32, (number / HALF) as u32]);
}

fn put_longs<A: Allocator + Copy>(out: &mut Vec<u32, A>, numbers: &[u64])
    requires { vec_len out.old + 2 * length numbers.now ≤ vec_capacity out.old }
    ensures words { out.new.items ≡ out.old.items ++ flat_map long_words numbers.now }
    ensures room { vec_capacity out.old + vec_len out.new ≤ vec_capacity out.new + vec_len out.old + 2 * length numbers.now }
{
    match numbers {
        [first, rest @ ..] => {
            put_long(out, *first);
            put_longs(out, rest);
        }
        [] => {}
    }
}

fn put_request<A: Allocator + Copy>(out: &mut Vec<u32, A>, kind: u32, request: &Request)
    requires { vec_len out.old + 11 ≤ vec_capacity out.old }
    ensures words { out.new.items ≡ out.old.items ++ kind ∷ request_words request.now }
    ensures room { vec_capacity out.old + vec_len out.new ≤ vec_capacity out.new + vec_len out.old + 11 }
    ensures op { request.now.op ≤ 65535 }
    ensures args { length request.now.args ≤ 4 }
{
    let count = request.args.len();
    put(out, &[kind, u32::from(request.op), count as u32]);
    put_longs(out, request.args.as_slice());
}

fn put_logged<A: Allocator + Copy>(out: &mut Vec<u32, A>, entry: &Entry)
    requires { vec_len out.old + 11 ≤ vec_capacity out.old }
    ensures words { out.new.items ≡ out.old.items ++ logged_words entry.now }
    ensures room { vec_capacity out.old + vec_len out.new ≤ vec_capacity out.new + vec_len out.old + 11 }
    ensures sized { IsSized entry.now }
{
    match entry {
        Entry::End => put(out, &[0]),
        Entry::Call(request) => put_request(out, 1, request),
        Entry::Query(request) => put_request(out, 2, request),
    }
}

fn put_entries<A: Allocator + Copy>(out: &mut Vec<u32, A>, entries: &[Entry])
    requires { vec_len out.old + 11 * length entries.now ≤ vec_capacity out.old }
    ensures words { out.new.items ≡ out.old.items ++ flat_map logged_words entries.now }
    ensures room { vec_capacity out.old + vec_len out.new ≤ vec_capacity out.new + vec_len out.old + 11 * length entries.now }
    ensures sized { AllByRecursion IsSized entries.now }
{
    match entries {
        [first, rest @ ..] => {
            put_logged(out, first);
            put_entries(out, rest);
        }
        [] => {}
    }
}

fn put_answer<A: Allocator + Copy>(out: &mut Vec<u32, A>, answer: &Answer)
    requires { vec_len out.old + 3 ≤ vec_capacity out.old }
    ensures words { out.new.items ≡ out.old.items ++ answer_words answer.now }
    ensures room { vec_capacity out.old + vec_len out.new ≤ vec_capacity out.new + vec_len out.old + 3 }
{
    match answer {
        Answer::Refused => put(out, &[0]),
        Answer::Value(value) => {
            put(out, &[1]);
            put_long(out, *value);
        }
    }
}

fn put_named<A: Allocator + Copy>(
    out: &mut Vec<u32, A>,
    kind: u32,
    handler: &HandlerId,
    block: &Block,
)
    requires { vec_len out.old + 5 ≤ vec_capacity out.old }
    ensures words { out.new.items ≡ out.old.items ++ named kind handler.now block.now }
    ensures room { vec_capacity out.old + vec_len out.new ≤ vec_capacity out.new + vec_len out.old + 5 }
{
    put(
        out,
        &[kind, handler.0, block.client.0, block.inc, block.num],
    );
}

/// Adds a message: 51 words at most, and there is room for them.
pub fn put_message<A: Allocator + Copy>(out: &mut Vec<u32, A>, message: &Message)
    requires { vec_len out.old + 51 ≤ vec_capacity out.old }
    ensures words { out.new.items ≡ out.old.items ++ message_words message.now }
    ensures room { vec_capacity out.old + vec_len out.new ≤ vec_capacity out.new + vec_len out.old + 51 }
    ensures sized { IsSizedMessage message.now }
{
    match message {
        Message::Hello(handler, client, inc) => put(out, &[0, handler.0, client.0, *inc, 0]),
        Message::Welcome(handler, client, inc) => put(out, &[1, handler.0, client.0, *inc, 0]),
        Message::Lock(handler, block) => put_named(out, 2, handler, block),
        Message::Locked(handler, block) => put_named(out, 3, handler, block),
        Message::Busy(handler, block) => put_named(out, 4, handler, block),
        Message::Open(handler, block) => put_named(out, 5, handler, block),
        Message::Opened(handler, block) => put_named(out, 6, handler, block),
        Message::Unlock(handler, block) => put_named(out, 7, handler, block),
        Message::Unlocked(handler, block) => put_named(out, 8, handler, block),
        Message::Log(handler, block, number, entries) => {
            put_named(out, 9, handler, block);
            let count = entries.len();
            put(out, &[*number, count as u32]);
            put_entries(out, entries.as_slice());
        }
        Message::Logged(handler, block, number) => {
            put_named(out, 10, handler, block);
            put(out, &[*number]);
        }
        Message::Answer(handler, block, number, answer) => {
            put_named(out, 11, handler, block);
            put(out, &[*number]);
            put_answer(out, answer);
        }
    }
}

// The kind of a dropped message's note.
fn reason_word(why: Reason) -> u32
    ensures { note_words (Note.Dropped why) ≡ result ∷ [] }
{
    match why {
        Reason::NotForHandlers => 7,
        Reason::WrongHandler => 8,
        Reason::TooManyClients => 9,
        Reason::Stale => 10,
        Reason::Ungreeted => 11,
        Reason::NotHolder => 12,
        Reason::QueueFull => 13,
        Reason::NotOpen => 14,
        Reason::Gap => 15,
        Reason::PendingFull => 16,
    }
}

/// Adds a note: 4 words at most, and there is room for them.
pub fn put_note<A: Allocator + Copy>(out: &mut Vec<u32, A>, note: &Note)
    requires { vec_len out.old + 4 ≤ vec_capacity out.old }
    ensures words { out.new.items ≡ out.old.items ++ note_words note.now }
    ensures room { vec_capacity out.old + vec_len out.new ≤ vec_capacity out.new + vec_len out.old + 4 }
{
    match note {
        Note::Greeted => put(out, &[0]),
        Note::Granted => put(out, &[1]),
        Note::Held => put(out, &[2]),
        Note::Opened(block) => put(out, &[3, block.client.0, block.inc, block.num]),
        Note::Freed => put(out, &[4]),
        Note::Took(number) => put(out, &[5, *number]),
        Note::Known => put(out, &[6]),
        Note::Dropped(why) => put(out, &[reason_word(*why)]),
    }
}

fn put_given<A: Allocator + Copy>(out: &mut Vec<u32, A>, answer: &Option<Answer>)
    requires { vec_len out.old + 3 ≤ vec_capacity out.old }
    ensures words { out.new.items ≡ out.old.items ++ given_words answer.now }
    ensures room { vec_capacity out.old + vec_len out.new ≤ vec_capacity out.new + vec_len out.old + 3 }
{
    match answer {
        Some(answer) => put_answer(out, answer),
        None => put(out, &[2]),
    }
}

/// Adds a word, and then an entry that has run: 19 words at most, and there is room for them.
pub fn put_ran<A: Allocator + Copy>(out: &mut Vec<u32, A>, kind: u32, ran: &Ran)
    requires { vec_len out.old + 19 ≤ vec_capacity out.old }
    ensures words { out.new.items ≡ out.old.items ++ kind ∷ ran_words ran.now }
    ensures room { vec_capacity out.old + vec_len out.new ≤ vec_capacity out.new + vec_len out.old + 19 }
    ensures sized { IsSized ran.now.entry }
{
    let block = &ran.block;
    put(
        out,
        &[kind, block.client.0, block.inc, block.num, ran.number],
    );
    put_logged(out, &ran.entry);
    put_given(out, &ran.answer);
}
