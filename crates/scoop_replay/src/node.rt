//! A node whose lives are replayed.

ghost use Rattle.std.specs.Prelude.{◌≡◌, ◌++◌, ◌∷◌, [], List, map, IfErr, IfNone, IfOk, IfSome, IsTrue, OnOk};
ghost use Rattle.scoop_weaver.specs.declared.traffic.Traffic.{Traffic as Move};
ghost use Rattle.scoop_weaver.specs.Trails.{HasTraffic};
ghost use Rattle.scoop_message.specs.Lists.{NoRepeats};
ghost use Rattle.scoop_handler.specs.Local.{is_handler, number_in};
ghost use Rattle.scoop_keeper.specs.Keyed.{IsFirst};
ghost use Rattle.scoop_weaver.specs.Post.{Grows};
ghost use Rattle.std.specs.Prelude.{◌↔◌, ℕ, None, length, slice_get};
ghost use Rattle.std.specs.List.{list_any};
ghost use Rattle.std.specs.Option.{option_map};
ghost use Rattle.scoop_message.specs.Message.{same_handler};
ghost use Rattle.scoop_message.specs.declared.name.HandlerId.{HandlerId as Name};
ghost use Rattle.scoop_weave.specs.NodeHistories.{reopened};
ghost use Rattle.scoop_replay.specs.Node.{BeganSo, GoesOn, HeardSo, IsStoredAs, OpensAgain, RanSo, node_value, placed_local};
ghost use Rattle.scoop_book.specs.declared.event.Event.TheVariants as event;
ghost use Rattle.scoop_replay.specs.Refusals.{HasNothingOut, IsNodeRefusal, RepliesSo};

use crate::error::ReplayError;
use crate::handlers::{begin, finish, hear_so};
use crate::local::{Local, place_of};
use scoop_handler::{Note, Ran};
use scoop_message::{HandlerId, Message, OutOfMemory, Words};
use scoop_object::Class;
use scoop_weaver::{Post, Traffic, Trail};
use std::alloc::Global;
use std::marker::Model;

/// A node's handlers while its lives are replayed, and its moves. Contracts see its number, its handlers and its moves.
#[derive(Drop)]
pub struct NodeReplay {
    number: u32,
    locals: Vec<Local>,
    trail: Trail,
}

impl Model for NodeReplay {
    ghost use Rattle.std.specs.Prelude.{map};
    ghost use Rattle.scoop_message.specs.Lists.{NoRepeats};
    ghost use Rattle.scoop_handler.specs.Local.{number_in};
    ghost use Rattle.scoop_replay.specs.Node.{NodeValue, node_value};

    ghost Value = { NodeValue };

    ghost view = { λ n. node_value n.number n.locals.items n.trail };

    ghost invariant = { λ n. NoRepeats (map number_in n.locals.items) };
}

// Adds a move. `OutOfMemory` is the one refusal.
fn add(trail: &mut Trail, post: &mut Post, next: &Traffic) -> Result<(), ReplayError>
    ensures grows { OnOk result (Grows post.old post.new) }
    ensures adds { (ts : List Move) → OnOk result (HasTraffic post.old trail.old ts → HasTraffic post.new trail.new (ts ++ next.now ∷ [])) }
    ensures memory { IfErr result (λ e. e ≡ ReplayError.OutOfMemory) }
{
    match trail.add(post, next) {
        Ok(()) => Ok(()),
        Err(_) => Err(ReplayError::OutOfMemory),
    }
}

impl NodeReplay {
    /// A node with new handlers, which made no moves. The result is `None` if two handlers have one number, or a
    /// handler's words aren't as many as its class has. The only error is `OutOfMemory`.
    pub fn new(
        alloc: Global,
        number: u32,
        placed: &[Placed],
    ) -> Result<Option<NodeReplay>, OutOfMemory>
        ensures { IfOk result (λ made. IfSome made (λ n. n ≡ node_value number (map placed_local placed.now) [])) }
    {
        let Some(locals) = new_locals(alloc, placed)? else {
            return Ok(None);
        };
        if is_repeated(&locals).is_some() {
            return Ok(None);
        }
        Ok(Some(NodeReplay {
            number,
            locals,
            trail: Trail::new(alloc),
        }))
    }

    /// The handler hears the message, and replies this.
    ///
    /// Refused: `NoHandler`; `Reply` with the reply by the handler's rules, if it is another one; `OutOfMemory`.
    pub fn hear(
        &mut self,
        post: &mut Post,
        message: &Message,
        reply: &Option<Message>,
    ) -> Result<Note, ReplayError>
        ensures number { self.new.number ≡ self.old.number }
        ensures grows { OnOk result (Grows post.old post.new) }
        ensures goes { OnOk result (GoesOn (HeardSo message.now reply.now) self.old self.new post.old post.new) }
        ensures replies { OnOk result (RepliesSo self.old.handlers message.now reply.now) }
        ensures refused { IfErr result (IsNodeRefusal self.old.handlers (event.Hear message.now) reply.now) }
    {
        let Some(place) = place_of(&self.locals, message.handler()) else {
            return Err(ReplayError::NoHandler(message.handler()));
        };
        let heard = hear_so(&mut self.locals, place, message, reply)?;
        let next = Traffic {
            heard: Some(*message),
            sent: heard.reply,
        };
        add(&mut self.trail, post, &next)?;
        Ok(heard.note)
    }

    /// The next entry of the handler leaves to be run, if there is one and no job is out.
    ///
    /// Refused: `NoHandler`, `OutOfMemory`.
    pub fn begin(&mut self, post: &mut Post, handler: HandlerId) -> Result<(), ReplayError>
        ensures number { self.new.number ≡ self.old.number }
        ensures grows { OnOk result (Grows post.old post.new) }
        ensures goes { OnOk result (GoesOn (BeganSo handler) self.old self.new post.old post.new) }
        ensures refused { IfErr result (IsNodeRefusal self.old.handlers (event.Begin handler) None) }
    {
        let Some(place) = place_of(&self.locals, handler) else {
            return Err(ReplayError::NoHandler(handler));
        };
        let _left = begin(&mut self.locals, place, handler);
        add(&mut self.trail, post, &Traffic::SILENT)?;
        Ok(())
    }

    /// The entry that left the handler has run.
    ///
    /// Refused: `NoHandler`, `NothingOut`, `OutOfMemory`.
    pub fn finish(&mut self, post: &mut Post, handler: HandlerId) -> Result<Ran, ReplayError>
        ensures number { self.new.number ≡ self.old.number }
        ensures grows { OnOk result (Grows post.old post.new) }
        ensures goes { OnOk result (GoesOn (RanSo handler) self.old self.new post.old post.new) }
        ensures out { OnOk result (HasNothingOut self.old.handlers handler → ⊥) }
        ensures refused { IfErr result (IsNodeRefusal self.old.handlers (event.Finish handler) None) }
    {
        let Some(place) = place_of(&self.locals, handler) else {
            return Err(ReplayError::NoHandler(handler));
        };
        let Some(ran) = finish(&mut self.locals, place, handler) else {
            return Err(ReplayError::NothingOut(handler));
        };
        add(&mut self.trail, post, &Traffic::SILENT)?;
        Ok(ran)
    }

    /// The node opens again: each handler with its stored state, and with no job out. `OutOfMemory` is the one refusal.
    pub fn reopen(&mut self, alloc: Global, post: &mut Post) -> Result<(), ReplayError>
        ensures number { self.new.number ≡ self.old.number }
        ensures grows { OnOk result (Grows post.old post.new) }
        ensures opens { OnOk result (OpensAgain self.old self.new post.old post.new) }
        ensures memory { IfErr result (λ e. e ≡ ReplayError.OutOfMemory) }
    {
        match reopen_all(alloc, &self.locals) {
            Ok(locals) => self.locals = locals,
            Err(_) => return Err(ReplayError::OutOfMemory),
        }
        add(&mut self.trail, post, &Traffic::SILENT)?;
        Ok(())
    }

    /// Another replay, with the handlers as the node opens again, and with no moves. `OutOfMemory` is the one refusal.
    pub fn opened_again(&self, alloc: Global) -> Result<NodeReplay, OutOfMemory>
        ensures { (words : Name → List ℕ) → IfOk result (λ n. n ≡ node_value self.now.number (map (reopened words) self.now.handlers) []) }
    {
        let locals = reopen_all(alloc, &self.locals)?;
        Ok(NodeReplay {
            number: self.number,
            locals,
            trail: Trail::new(alloc),
        })
    }

    /// The node's number.
    pub fn number(&self) -> u32
        ensures { result ≡ self.now.number }
    {
        self.number
    }

    /// How many handlers it has.
    pub fn count(&self) -> usize
        ensures { result ≡ length self.now.handlers }
    {
        self.locals.len()
    }

    /// How many moves it made.
    pub fn moves(&self) -> usize {
        self.trail.len()
    }

    /// The number of the handler at this place, if there is one.
    pub fn handler(&self, place: usize) -> Option<HandlerId>
        ensures { result ≡ option_map number_in (slice_get self.now.handlers place) }
    {
        if place < self.locals.len() {
            Some(self.locals[place].number())
        } else {
            None
        }
    }

    /// Whether the node has the handler.
    pub fn has(&self, handler: HandlerId) -> bool {
        place_of(&self.locals, handler).is_some()
    }

    /// Whether a store that has the state of the handler at this place has these two blobs, in lower-case hex digits.
    pub fn is_stored_as(
        &self,
        alloc: Global,
        place: usize,
        image: &[u8],
        pending: &[u8],
    ) -> Result<bool, OutOfMemory>
        ensures { IfOk result (λ is. IfSome (slice_get self.now.handlers place) (λ l. IsTrue is ↔ IsStoredAs l image.now pending.now)) }
    {
        if place < self.locals.len() {
            self.locals[place].is_stored_as(alloc, image, pending)
        } else {
            Ok(false)
        }
    }

    /// The moves.
    pub fn into_trail(self) -> Trail
        ensures { result ≡ self.trail }
    {
        let NodeReplay { trail, .. } = self;
        trail
    }
}

/// A handler that is placed on a node: its number, its class and its words.
#[derive(Drop)]
pub struct Placed {
    pub handler: HandlerId,
    pub class: Class,
    pub words: Words,
}

// The handlers as they open again.
fn reopen_all(alloc: Global, locals: &[Local]) -> Result<Vec<Local>, OutOfMemory>
    ensures again { (words : Name → List ℕ) → IfOk result (λ opened. opened.items ≡ map (reopened words) locals.now) }
    ensures numbers { IfOk result (λ opened. map number_in opened.items ≡ map number_in locals.now) }
{
    let mut opened = Vec::new(alloc);
    for local in locals {
        let next = local.restarted(alloc)?;
        opened.push(next)?;
    }
    Ok(opened)
}

// The new handlers. `None` if the words of one aren't as many as its class has.
fn new_locals(alloc: Global, placed: &[Placed]) -> Result<Option<Vec<Local>>, OutOfMemory>
    ensures { IfOk result (λ made. IfSome made (λ ls. ls.items ≡ map placed_local placed.now)) }
{
    let mut locals = Vec::new(alloc);
    for place in placed {
        let class = place.class.copy_in(alloc)?;
        let Some(local) = Local::new(alloc, place.handler, class, place.words)? else {
            return Ok(None);
        };
        locals.push(local)?;
    }
    Ok(Some(locals))
}

// Whether one of the handlers has this number.
fn is_placed(locals: &[Local], handler: HandlerId) -> bool
    ensures { result ≡ list_any (λ l. same_handler (number_in l) handler) locals.now }
{
    locals.iter().any(|local| local.number() == handler)
}

// The number of the first handler whose number stands before it too.
fn is_repeated(locals: &[Local]) -> Option<HandlerId>
    ensures { IfNone result (NoRepeats (map number_in locals.now)) }
{
    for (i, local) in locals.iter().enumerate() {
        if is_placed(&locals[..i], local.number()) {
            return Some(local.number());
        }
    }
    None
}
