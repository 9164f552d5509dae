//! The moves of a party, with numbers in place of messages.

ghost use Rattle.std.specs.Prelude.{◌≡◌, ◌≤◌, ◌<◌, ◌+◌, ◌^◌, [], ◌++◌, ◌∷◌, ℕ, IfOk, IfSome, OnOk, List, length, slice_get};
ghost use Rattle.scoop_message.specs.declared.message.Message.{Message as Told};
ghost use Rattle.scoop_weaver.specs.declared.traffic.Traffic.{Traffic as Move};
ghost use Rattle.scoop_weaver.specs.Post.{Grows, message_at};
ghost use Rattle.scoop_weaver.specs.Trails.{HasTraffic};

use crate::post::Post;
use crate::traffic::Traffic;
use scoop_message::{Message, OutOfMemory};
use std::alloc::{Allocator, Global};
use std::marker::Model;

/// The number of the message that a move hears, and of the one that it sends; 0 for none.
#[derive(Clone, Copy, Debug, PartialEq, Eq)]
pub struct Passage {
    /// The number of the message that it hears.
    pub heard: u32,
    /// The number of the message that it sends.
    pub sent: u32,
}

/// The moves of one party, in order. A move takes eight bytes.
#[derive(Drop)]
pub struct Trail<A: Allocator = Global> {
    passages: Vec<Passage, A>,
}

impl<A: Allocator> Model for Trail<A> {
    ghost use Rattle.std.specs.Prelude.{List};
    ghost use Rattle.scoop_weaver.specs.declared.trail.Passage.{Passage as Step};

    ghost Value = { List Step };

    ghost view = { λ t. t.passages.items };
}

// The number of the message, 0 for none.
fn number_of<A: Allocator>(
    post: &mut Post<A>,
    message: &Option<Message>,
) -> Result<u32, OutOfMemory>
    ensures grows { OnOk result (Grows post.old post.new) }
    ensures named { IfOk result (λ n. message_at post.new n ≡ message.now) }
    ensures within { IfOk result (λ n. n ≤ length post.new) }
{
    match message {
        Some(message) => post.number(message),
        None => Ok(0),
    }
}

impl<A: Allocator> Trail<A> {
    /// No moves.
    pub fn new(alloc: A) -> Trail<A>
        ensures { result ≡ [] }
    {
        Trail {
            passages: Vec::new(alloc),
        }
    }

    /// How many moves there are.
    pub fn len(&self) -> usize
        ensures { result ≡ length self.now }
    {
        self.passages.len()
    }

    /// The move at this place, counted from 0, if there is one.
    pub fn get(&self, place: usize) -> Option<Passage>
        ensures value { result ≡ slice_get self.now place }
        ensures small { IfSome result (λ _. place + 1 < 2 ^ 64) }
    {
        if place < self.passages.len() {
            Some(self.passages[place])
        } else {
            None
        }
    }

    /// Adds a move. If memory runs out, the moves stay as they were.
    pub fn add(&mut self, post: &mut Post<A>, next: &Traffic) -> Result<(), OutOfMemory>
        ensures grows { OnOk result (Grows post.old post.new) }
        ensures adds { (ts : List Move) → OnOk result (HasTraffic post.old self.old ts → HasTraffic post.new self.new (ts ++ next.now ∷ [])) }
    {
        let heard = number_of(post, &next.heard)?;
        let sent = number_of(post, &next.sent)?;
        self.passages.push(Passage { heard, sent })?;
        Ok(())
    }
}
