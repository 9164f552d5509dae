//! The traffic of a client, found by making its driver's steps again.

ghost use Rattle.std.specs.Prelude.{◌≡◌, ◌+◌, ◌++◌, map, take, OnOk};
ghost use Rattle.scoop_client.specs.State.{ClientState};
ghost use Rattle.scoop_client.specs.Due.{due};
ghost use Rattle.scoop_client.specs.Commands.{command as outcome_of};
ghost use Rattle.scoop_driver.specs.declared.step.Step.TheVariants.{Broke, Turned};
ghost use Rattle.scoop_driver.specs.Steps.{after, after_command, message_in};
ghost use Rattle.scoop_weave.specs.Moves.LocalMove.{Sent as SentTo};
ghost use Rattle.scoop_weave.specs.ClientSteps.{hears, moves_at, sends_to};
ghost use Rattle.scoop_weaver.specs.Passing.{traffic_of};

use crate::traffic::Traffic;
use scoop_client::{Client, ClientError};
use scoop_driver::{Command, Received, Step};
use scoop_message::{HandlerId, OutOfMemory};
use std::alloc::Allocator;

// Sends the message that is due to the handler.
fn sending<A: Allocator>(client: &Client<A>, handler: &HandlerId) -> Traffic
    ensures { result ≡ traffic_of (SentTo client.now.id handler.now (due client.now handler.now)) }
{
    Traffic {
        heard: None,
        sent: client.due(*handler),
    }
}

// Sends each of these handlers the message that is due to it.
fn note_sends<A: Allocator>(
    client: &Client<A>,
    handlers: &[HandlerId],
    moves: &mut Vec<Traffic, A>,
) -> Result<(), OutOfMemory>
    ensures { OnOk result (moves.new.items ≡ moves.old.items ++ map traffic_of (sends_to client.now handlers.now)) }
{
    for handler in handlers {
        let next = sending(client, handler);
        moves.push(next)?;
    }
    Ok(())
}

// Hears the message, if one came.
fn note_heard<A: Allocator>(
    received: &Received,
    moves: &mut Vec<Traffic, A>,
) -> Result<(), OutOfMemory>
    ensures { (c : ClientState) → OnOk result (moves.new.items ≡ moves.old.items ++ map traffic_of (hears c (message_in received.now))) }
{
    if let Received::Frame(_, message) = received {
        moves.push(Traffic {
            heard: Some(*message),
            sent: None,
        })?;
    }
    Ok(())
}

// The handlers up to the one at this place.
fn up_to(handlers: &[HandlerId], place: usize) -> &[HandlerId]
    ensures { result.now ≡ take (place + 1) handlers.now }
{
    if place < handlers.len() {
        &handlers[..place + 1]
    } else {
        handlers
    }
}

// Sends all that is due, and hears the message, if one came.
fn note_turn<A: Allocator>(
    client: &Client<A>,
    received: &Received,
    moves: &mut Vec<Traffic, A>,
) -> Result<(), OutOfMemory>
    ensures { OnOk result (moves.new.items ≡ moves.old.items ++ map traffic_of (moves_at client.now (Turned received.now))) }
{
    let handlers = client.handlers();
    note_sends(client, handlers, moves)?;
    note_heard(received, moves)?;
    Ok(())
}

// Sends the messages due up to the handler at this place, at which the turn broke off.
fn note_broken<A: Allocator>(
    client: &Client<A>,
    place: usize,
    moves: &mut Vec<Traffic, A>,
) -> Result<(), OutOfMemory>
    ensures { OnOk result (moves.new.items ≡ moves.old.items ++ map traffic_of (moves_at client.now (Broke place))) }
{
    let handlers = client.handlers();
    let front = up_to(handlers, place);
    note_sends(client, front, moves)?;
    Ok(())
}

/// Appends the traffic of this client's step. If memory runs out, a part of it may be appended.
pub fn note_step<A: Allocator>(
    client: &Client<A>,
    step: &Step,
    moves: &mut Vec<Traffic, A>,
) -> Result<(), OutOfMemory>
    ensures { OnOk result (moves.new.items ≡ moves.old.items ++ map traffic_of (moves_at client.now step.now)) }
{
    match step {
        Step::Gave(_) => {
            moves.push(Traffic::SILENT)?;
            Ok(())
        }
        Step::Turned(received) => note_turn(client, received, moves),
        Step::Broke(place) => note_broken(client, *place, moves),
    }
}

// Gives the client the command. A refused command changes nothing.
fn give<A: Allocator + Clone>(client: &mut Client<A>, command: &Command) -> Result<(), OutOfMemory>
    ensures { OnOk result (client.new ≡ after_command client.old (outcome_of client.old command.now)) }
{
    match client.carry_out(command) {
        Err(ClientError::OutOfMemory) => Err(OutOfMemory),
        Ok(()) | Err(_) => Ok(()),
    }
}

/// Makes the client's step. A refused command changes nothing. `OutOfMemory` is the one refusal.
pub fn make_step<A: Allocator + Clone>(
    client: &mut Client<A>,
    step: &Step,
) -> Result<(), OutOfMemory>
    ensures { OnOk result (client.new ≡ after client.old step.now) }
{
    match step {
        Step::Gave(command) => give(client, command),
        Step::Turned(received) => {
            if let Received::Frame(_, message) = received {
                client.hear(message);
            }
            Ok(())
        }
        Step::Broke(_) => Ok(()),
    }
}
