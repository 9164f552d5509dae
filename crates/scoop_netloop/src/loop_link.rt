//! A node without a network.

ghost use Rattle.std.specs.Prelude.{◌≡◌, ◌≤◌, ◌⊎◌, ◌++◌, ◌∷◌, [], None, Ok, zero, IfOk, IfSome};
ghost use Rattle.scoop_link.specs.Datagram.{TakesFirst, kept};
ghost use Rattle.scoop_link.specs.Link.{CountsFault, Exchanges, sent_by, taken_by};
ghost use Rattle.scoop_netloop.specs.Answering.{runs_after};
ghost use Rattle.scoop_netloop.specs.Looping.{Loops, RunsThen, loop_value};

use crate::answer::{Answered, answer_datagram, runs_after};
use crate::running_out::run_out;
use scoop_book::Book;
use scoop_frame::decode;
use scoop_handler::Note;
use scoop_keeper::Keeper;
use scoop_link::{Datagram, Link, LinkFault, Party};
use scoop_message::HandlerId;
use scoop_message::limits::BUFFER_LEN;
use scoop_object::Behaviour;
use std::alloc::{Allocator, Global};
use std::collections::VecDeque;
use std::marker::Model;

/// A link for tests, with a book inside: a send is answered at once, and the handler then runs until nothing can
/// run. A receive gives the oldest reply. A message that the book refuses is lost, and so is a reply without
/// memory for it. No call fails. It doesn't record its datagrams.
#[derive(Drop)]
pub struct LoopLink<B: Behaviour, K: Keeper<A>, A: Allocator = Global> {
    book: Book<B, K, A>,
    pass: u32,
    replies: VecDeque<Datagram, A>,
}

impl<B: Behaviour, K: Keeper<A>, A: Allocator> Model for LoopLink<B, K, A> {
    ghost use Rattle.scoop_netloop.specs.Looping.{LoopValue, loop_value};

    ghost Value = { LoopValue K };

    ghost view = { λ l. loop_value l.book l.pass l.replies.items };
}

impl<B: Behaviour, K: Keeper<A>, A: Allocator + Copy> LoopLink<B, K, A> {
    /// Makes a link to this book, which it uses for the pass of this number. Takes no memory.
    pub fn new(alloc: A, book: Book<B, K, A>, pass: u32) -> LoopLink<B, K, A>
        ensures { result ≡ loop_value book pass [] }
    {
        LoopLink {
            book,
            pass,
            replies: VecDeque::new(alloc),
        }
    }
}

// Keeps the frame of a reply after the others. Without memory for it, the reply is lost.
fn keep_reply<A: Allocator>(replies: &mut VecDeque<Datagram, A>, frame: &[u8])
    ensures { (replies.new.items ≡ replies.old.items ++ kept frame.now ∷ []) ⊎ (replies.new.items ≡ replies.old.items) }
{
    let _lost_without_memory = replies.push_back(Datagram::of(frame));
}

// Runs the handler after a message with this note. An entry that the book refuses stays.
fn run_behind<B: Behaviour, K: Keeper<A>, A: Allocator + Copy>(
    book: &mut Book<B, K, A>,
    pass: u32,
    handler: HandlerId,
    note: Note,
)
    ensures { RunsThen (runs_after note) pass handler book.old book.new }
{
    if runs_after(note) {
        let _what_has_run_stands = run_out(book, pass, handler);
    }
}

// Gives a datagram to the book, keeps the reply, and runs the handler.
fn answer<B: Behaviour, K: Keeper<A>, A: Allocator + Copy>(
    book: &mut Book<B, K, A>,
    pass: u32,
    replies: &mut VecDeque<Datagram, A>,
    bytes: &[u8],
)
    ensures { Loops pass bytes.now book.old replies.old.items book.new replies.new.items }
{
    let Ok((_, message)) = decode(bytes) else {
        return;
    };
    let handler = message.handler();
    let mut buffer = [0; BUFFER_LEN];
    match answer_datagram(book, pass, bytes, &mut buffer) {
        Ok(Answered::Reply(len, note)) => {
            keep_reply(replies, &buffer[..len]);
            run_behind(book, pass, handler, note);
        }
        Ok(Answered::Silent(note)) => run_behind(book, pass, handler, note),
        Ok(Answered::RefusedFrame(_)) => {}
        Err(_) => {}
    }
}

impl<B: Behaviour, K: Keeper<A>, A: Allocator + Copy> Link for LoopLink<B, K, A> {
    ghost told = { λ _. None };

    ghost fault_count = { λ _. zero };

    fn send(&mut self, _to: Party, bytes: &[u8]) -> Result<(), LinkFault>
        ensures faults { CountsFault result zero zero }

        ensures sent { result ≡ Ok tt }
        ensures loops { Loops self.old.pass bytes.now self.old.book self.old.replies self.new.book self.new.replies }
        ensures pass { self.new.pass ≡ self.old.pass }
    {
        answer(&mut self.book, self.pass, &mut self.replies, bytes);
        Ok(())
    }

    fn receive(&mut self, buffer: &mut [u8; BUFFER_LEN]) -> Result<Option<usize>, LinkFault>
        ensures in_bounds { IfOk result (λ got. IfSome got (λ n. n ≤ BUFFER_LEN)) }
        ensures faults { CountsFault result zero zero }
        ensures first { IfOk result (λ got. TakesFirst got self.old.replies self.new.replies buffer.old buffer.new) }
        ensures others { (self.new.book ≡ self.old.book) × (self.new.pass ≡ self.old.pass) }
    {
        let Some(first) = self.replies.pop_front() else {
            return Ok(None);
        };
        Ok(Some(first.write_to(buffer)))
    }

    fn faults(&self) -> u64 {
        0
    }
}
