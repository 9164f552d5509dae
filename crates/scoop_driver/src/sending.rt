//! The parts of a turn: its sends, and its receive.

ghost use Rattle.std.specs.Prelude.{◌≡◌, ◌+◌, IsErr, OnOk};
ghost use Rattle.scoop_driver.specs.State.{seen_of};
ghost use Rattle.scoop_driver.specs.Steps.{version_for};
ghost use Rattle.scoop_driver.specs.Turning.{SentDue, Receives, TellsMessage, TakesTurn, receive_faults, send_faults};

use crate::diary::Diary;
use crate::error::DriverError;
use crate::step::Received;
use scoop_client::{Client, ClientError, ClientNote};
use scoop_frame::{Version, decode, encode};
use scoop_link::{Datagram, Link, Party};
use scoop_message::limits::BUFFER_LEN;
use scoop_message::{Message, OutOfMemory};
use std::alloc::Allocator;

// The version of the frames that a client sends.
fn version_for(batch: u8) -> Version
    ensures { result ≡ version_for batch }
{
    if batch == 1 {
        Version::One
    } else {
        Version::Two
    }
}

// Sends the message due to each of the client's handlers, in order. If a send fails, returns the place of its
// handler.
fn send_due<L: Link, A: Allocator>(client: &Client<A>, link: &mut L) -> Result<(), usize>
    ensures sends { SentDue result client.now (L.told link.old) (L.told link.new) }
    ensures faults { L.fault_count link.new ≡ L.fault_count link.old + send_faults result }
{
    let version = version_for(client.batch());
    let handlers = client.handlers();
    let mut buffer = [0; BUFFER_LEN];
    for (place, handler) in handlers.iter().enumerate() {
        let Some(message) = client.due(*handler) else {
            continue;
        };
        let len = encode(version, &message, &mut buffer);
        match link.send(Party::Handler(*handler), &buffer[..len]) {
            Ok(()) => {}
            Err(_) => return Err(place),
        }
    }
    Ok(())
}

// Receives once.
fn receive<L: Link>(link: &mut L) -> Received
    ensures takes { Receives result (L.told link.old) (L.told link.new) }
    ensures faults { L.fault_count link.new ≡ L.fault_count link.old + receive_faults result }
{
    let mut buffer = [0; BUFFER_LEN];
    let len = match link.receive(&mut buffer) {
        Ok(Some(len)) => len,
        Ok(None) => return Received::Nothing,
        Err(_) => return Received::Fault,
    };
    match decode(&buffer[..len]) {
        Ok((version, message)) => Received::Frame(version, message),
        Err(_) => Received::NoFrame(Datagram::of(&buffer[..len])),
    }
}

// The message that came, if one did, or the link's fault.
fn message_in(received: &Received) -> Result<Option<Message>, DriverError>
    ensures { TellsMessage received.now result }
{
    match received {
        Received::Frame(_, message) => Ok(Some(*message)),
        Received::Nothing | Received::NoFrame(_) => Ok(None),
        Received::Fault => Err(DriverError::LinkFault),
    }
}

// Gets the diary ready for a turn: for its sends, and then for its step.
fn prepare<D: Diary<A>, A: Allocator>(client: &Client<A>, diary: &mut D) -> Result<(), OutOfMemory>
    ensures room { OnOk result (D.has_room diary.new) }
    ensures steps { D.steps diary.new ≡ D.steps diary.old }
    ensures refused { IsErr result → D.wants_memory }
{
    match diary.before_sends(client) {
        Ok(()) => diary.make_room(),
        Err(refusal) => Err(refusal),
    }
}

// One turn of a client over its link. It gets the diary ready, sends every due message, and receives once. Then it reports
// the turn to the diary, and hears the message that came.
pub(crate) fn take_turn<L: Link, D: Diary<A>, A: Allocator>(
    client: &mut Client<A>,
    link: &mut L,
    diary: &mut D,
) -> Result<Option<ClientNote>, DriverError>
    ensures does { TakesTurn result (seen_of L.told L.fault_count D.steps client.old link.old diary.old)
        (seen_of L.told L.fault_count D.steps client.new link.new diary.new) }
    ensures memory { result ≡ Err (DriverError.Client ClientError.OutOfMemory) → D.wants_memory }
{
    if prepare(client, diary).is_err() {
        return Err(DriverError::Client(ClientError::OutOfMemory));
    }
    if let Err(place) = send_due(client, link) {
        diary.broke(client, place);
        return Err(DriverError::LinkFault);
    }
    let received = receive(link);
    let message = message_in(&received);
    diary.turned(client, received);
    match message {
        Ok(Some(message)) => Ok(Some(client.hear(&message))),
        Ok(None) => Ok(None),
        Err(error) => Err(error),
    }
}
