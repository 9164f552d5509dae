//! A client whose lives are replayed.

ghost use Rattle.std.specs.Prelude.{◌≡◌, ◌++◌, [], ◌+◌, ◌-◌, ◌^◌, ◌<◌, ◌≤◌, ◌↔◌, List, IfErr, IfOk, IsTrue, OnOk, length, map};
ghost use Rattle.scoop_message.specs.declared.limits.TheConstants.{MAX_ENTRIES};
ghost use Rattle.scoop_frame.specs.Frame.{frame, IsFrame};
ghost use Rattle.scoop_client.specs.State.{block_of};
ghost use Rattle.scoop_client.specs.Beginning.{greeting};
ghost use Rattle.scoop_client.specs.Commands.{command as outcome_of};
ghost use Rattle.scoop_driver.specs.declared.step.Received.TheVariants.{Frame, Nothing};
ghost use Rattle.scoop_driver.specs.declared.step.Step.TheVariants.{Broke, Gave, Turned};
ghost use Rattle.scoop_driver.specs.Steps.{Can, IsDueAt};
ghost use Rattle.scoop_weave.specs.ClientSteps.{moves_at};
ghost use Rattle.scoop_weaver.specs.declared.traffic.Traffic.{Traffic as Move};
ghost use Rattle.scoop_weaver.specs.Passing.{traffic_of};
ghost use Rattle.scoop_weaver.specs.Post.{Grows};
ghost use Rattle.scoop_weaver.specs.Trails.{HasTraffic};
ghost use Rattle.scoop_replay.specs.Client.{RestartsOn, StepsOn, client_value};
ghost use Rattle.scoop_replay.specs.Refusals.{IsClientRefusal, IsRestartRefusal};

use crate::error::ReplayError;
use scoop_client::{BeginError, Client, Command};
use scoop_driver::{Received, Step};
use scoop_frame::{Version, encode};
use scoop_message::limits::BUFFER_LEN;
use scoop_message::{Block, ClientId, HandlerId, Message, OutOfMemory};
use scoop_weaver::{Post, Traffic, Trail, make_step, note_step};
use std::alloc::Global;
use std::marker::Model;

/// A client while its lives are replayed, and its moves. Contracts see the client and its moves.
#[derive(Drop)]
pub struct ClientReplay {
    client: Client,
    // The client's number once more: a client doesn't show its own.
    id: ClientId,
    // Memory ran out in a step, so the client isn't known any more.
    has_failed: bool,
    trail: Trail,
}

impl Model for ClientReplay {
    ghost use Rattle.std.specs.Prelude.{◌≡◌, false};
    ghost use Rattle.scoop_replay.specs.Client.{ClientValue, client_value};

    ghost Value = { ClientValue };

    ghost view = { λ r. client_value r.client r.trail };

    ghost invariant = { λ r. r.has_failed ≡ false → r.id ≡ r.client.id };
}

// Adds these moves.
fn add_all(trail: &mut Trail, post: &mut Post, moves: &[Traffic]) -> Result<(), OutOfMemory>
    ensures grows { OnOk result (Grows post.old post.new) }
    ensures adds { (ts : List Move) → OnOk result (HasTraffic post.old trail.old ts → HasTraffic post.new trail.new (ts ++ moves.now)) }
{
    for next in moves {
        trail.add(post, next)?;
    }
    Ok(())
}

// The moves of the client's step.
fn moves_of(alloc: Global, client: &Client, made: &Step) -> Result<Vec<Traffic>, OutOfMemory>
    ensures { IfOk result (λ moves. moves.items ≡ map traffic_of (moves_at client.now made.now)) }
{
    let mut moves = Vec::new(alloc);
    note_step(client, made, &mut moves)?;
    Ok(moves)
}

// Whether the message has a frame of the version. It is written here, which shows that it has one.
fn is_framed(version: Version, message: &Message) -> bool
    ensures { IsTrue result ↔ IsFrame version message.now (frame version message.now) }
{
    if !message.fits() || !version.carries(message) {
        return false;
    }
    let mut buffer = [0; BUFFER_LEN];
    let _len = encode(version, message, &mut buffer);
    true
}

// Whether a message is due to the handler at this place.
fn is_due_at(client: &Client, place: usize) -> bool
    ensures { IsTrue result ↔ IsDueAt client.now place }
{
    let Some(handler) = client.handlers().get(place) else {
        return false;
    };
    match client.due(*handler) {
        Some(_) => true,
        None => false,
    }
}

impl ClientReplay {
    /// A client in its first incarnation, which knows these handlers.
    ///
    /// Refused as the client refuses to begin.
    pub fn new(
        alloc: Global,
        id: ClientId,
        known: &[HandlerId],
        batch: u8,
    ) -> Result<ClientReplay, BeginError>
        requires some { 1 ≤ batch }
        requires limit { batch ≤ MAX_ENTRIES }
        ensures { IfOk result (λ r. r ≡ client_value (greeting id 1 known.now 0 batch) []) }
    {
        let client = match Client::begin_batched(alloc, id, 1, known, batch) {
            Ok(client) => client,
            Err(error) => return Err(error),
        };
        Ok(ClientReplay {
            client,
            id,
            has_failed: false,
            trail: Trail::new(alloc),
        })
    }

    /// Its incarnation.
    pub fn inc(&self) -> u32
        ensures { result ≡ self.now.client.inc }
    {
        self.client.inc()
    }

    /// Its block.
    pub fn block(&self) -> Option<Block>
        ensures { result ≡ block_of self.now.client.reservation }
    {
        self.client.block()
    }

    /// How many moves it made.
    pub fn moves(&self) -> usize
        ensures { result ≡ length self.now.trail }
    {
        self.trail.len()
    }

    /// The moves.
    pub fn into_trail(self) -> Trail
        ensures { result ≡ self.trail }
    {
        let ClientReplay { trail, .. } = self;
        trail
    }

    // Makes a step that can be made.
    fn step(&mut self, alloc: Global, post: &mut Post, made: &Step) -> Result<(), OutOfMemory>
        requires { Can self.old.client made.now }
        ensures grows { OnOk result (Grows post.old post.new) }
        ensures steps { OnOk result (StepsOn made.now self.old self.new post.old post.new) }
    {
        let has_failed = self.has_failed;
        if has_failed {
            return Err(OutOfMemory);
        }
        let moves = moves_of(alloc, &self.client, made)?;
        add_all(&mut self.trail, post, &moves)?;
        self.has_failed = true;
        make_step(&mut self.client, made)?;
        self.has_failed = false;
        Ok(())
    }

    /// It takes the command.
    ///
    /// Refused: `Refused` if it refuses the command, and `OutOfMemory`.
    pub fn give(
        &mut self,
        alloc: Global,
        post: &mut Post,
        command: &Command,
    ) -> Result<(), ReplayError>
        ensures grows { OnOk result (Grows post.old post.new) }
        ensures steps { OnOk result (StepsOn (Gave command.now) self.old self.new post.old post.new) }
        ensures can { OnOk result (Can self.old.client (Gave command.now)) }
        ensures refused { IfErr result (IsClientRefusal self.old.client (Gave command.now)) }
    {
        match self.client.may_carry_out(command) {
            Ok(()) => {}
            Err(error) => return Err(ReplayError::Refused(error)),
        }
        let made = Step::Gave(*command);
        match self.step(alloc, post, &made) {
            Ok(()) => Ok(()),
            Err(_) => Err(ReplayError::OutOfMemory),
        }
    }

    /// It sends all that is due, and then hears this message, which has a frame of the version.
    ///
    /// Refused: `NoFrame` if it has none, and `OutOfMemory`.
    pub fn hear(
        &mut self,
        alloc: Global,
        post: &mut Post,
        version: Version,
        message: &Message,
    ) -> Result<(), ReplayError>
        ensures grows { OnOk result (Grows post.old post.new) }
        ensures steps { OnOk result (StepsOn (Turned (Frame version message.now)) self.old self.new post.old post.new) }
        ensures can { OnOk result (Can self.old.client (Turned (Frame version message.now))) }
        ensures refused { IfErr result (IsClientRefusal self.old.client (Turned (Frame version message.now))) }
    {
        if !is_framed(version, message) {
            return Err(ReplayError::NoFrame);
        }
        let made = Step::Turned(Received::Frame(version, *message));
        match self.step(alloc, post, &made) {
            Ok(()) => Ok(()),
            Err(_) => Err(ReplayError::OutOfMemory),
        }
    }

    /// It sends all that is due, and hears nothing. `OutOfMemory` is the one refusal.
    pub fn wait(&mut self, alloc: Global, post: &mut Post) -> Result<(), OutOfMemory>
        ensures grows { OnOk result (Grows post.old post.new) }
        ensures steps { OnOk result (StepsOn (Turned Nothing) self.old self.new post.old post.new) }
    {
        let made = Step::Turned(Received::Nothing);
        self.step(alloc, post, &made)?;
        Ok(())
    }

    /// It sends what is due to its handlers up to the one at this place, counted from 0.
    ///
    /// Refused: `NothingDue` if nothing is due to that one, and `OutOfMemory`.
    pub fn break_off(
        &mut self,
        alloc: Global,
        post: &mut Post,
        place: usize,
    ) -> Result<(), ReplayError>
        ensures grows { OnOk result (Grows post.old post.new) }
        ensures steps { OnOk result (StepsOn (Broke place) self.old self.new post.old post.new) }
        ensures can { OnOk result (Can self.old.client (Broke place)) }
        ensures refused { IfErr result (IsClientRefusal self.old.client (Broke place)) }
    {
        if !is_due_at(&self.client, place) {
            return Err(ReplayError::NothingDue(place));
        }
        let made = Step::Broke(place);
        match self.step(alloc, post, &made) {
            Ok(()) => Ok(()),
            Err(_) => Err(ReplayError::OutOfMemory),
        }
    }

    /// It begins with its next incarnation.
    ///
    /// Refused: `Spent` after the last incarnation, and `OutOfMemory`.
    pub fn restart(&mut self, alloc: Global, post: &mut Post) -> Result<(), ReplayError>
        ensures grows { OnOk result (Grows post.old post.new) }
        ensures restarts { OnOk result (RestartsOn self.old self.new post.old post.new) }
        ensures refused { IfErr result (IsRestartRefusal self.old.client) }
    {
        let has_failed = self.has_failed;
        if has_failed {
            return Err(ReplayError::OutOfMemory);
        }
        if self.client.inc() == u32::MAX {
            return Err(ReplayError::Spent);
        }
        let Ok(client) = next_client(alloc, self.id, &self.client) else {
            return Err(ReplayError::OutOfMemory);
        };
        self.client = client;
        self.trail.add(post, &Traffic::SILENT)?;
        Ok(())
    }
}

// The client of this number in its next incarnation, before any handler has welcomed it.
fn next_client(alloc: Global, id: ClientId, client: &Client) -> Result<Client, BeginError>
    requires { client.now.inc < 2 ^ 32 - 1 }
    ensures { IfOk result (λ c. c ≡ greeting id (client.now.inc + 1) client.now.handlers 0 client.now.batch) }
{
    let inc = client.inc() + 1;
    let batch = client.batch();
    Client::begin_batched(alloc, id, inc, client.handlers(), batch)
}
