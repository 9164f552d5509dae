//! The reason why a node or a client ends early.

ghost use Rattle.std.specs.Prelude.{◌≡◌};

use crate::names::{close_name, close_number, driver_name, driver_number, loop_name};
use scoop_book::CloseRefusal;
use scoop_client::ClientError;
use scoop_driver::DriverError;
use scoop_keeper::KeeperError;
use scoop_link::OpenLinkError;
use scoop_message::{HandlerId, OutOfMemory};
use scoop_netloop::ServeEnd;
use scoop_reserve::ReserveError;
use std::error::Error;
use std::fmt;

// The status of a program that ends early.
const STATUS: u8 = 3;

/// Why a node or a client that runs ended early. The program prints the text after `scoop: `.
#[derive(Clone, Copy, Debug, PartialEq, Eq)]
pub enum PartyError {
    /// The party's address can't be taken.
    NoLink,
    /// A thread couldn't be made.
    NoThread,
    /// A call of a client's driver failed.
    Driver(DriverError),
    /// A node's loop ended without being asked to stop.
    Loop(ServeEnd),
    /// A node's history differs from its threads' records.
    NotClosed(CloseRefusal),
    /// The object of this handler doesn't have the class that was given with it.
    WrongClass(HandlerId),
    /// The keeper refused.
    Store(KeeperError),
    /// The allocator refused memory.
    OutOfMemory,
    /// The output could not be written.
    Write,
}

impl PartyError {
    /// The status with which the program ends: 3, whatever it is.
    pub fn status(self) -> u8
        ensures { result ≡ 3 }
    {
        STATUS
    }
}

impl fmt::Display for PartyError {
    ghost use Rattle.std.specs.Prelude.{Some};
    ghost use Rattle.scoop_errors.specs.ErrorText.{error_text};

    ghost output = { λ e. Some (error_text e) };

    fn fmt<W: fmt::Write>(&self, f: &mut fmt::Formatter<W>) -> fmt::Result {
        let (name, number) = match self {
            PartyError::NoLink => ("Fault", None),
            PartyError::NoThread => ("NoThread", None),
            PartyError::Driver(error) => (driver_name(error), driver_number(error)),
            PartyError::Loop(end) => (loop_name(*end), None),
            PartyError::NotClosed(cause) => (close_name(*cause), close_number(*cause)),
            PartyError::WrongClass(handler) => return write!(f, "store: WrongClass {handler}"),
            PartyError::Store(refusal) => return write!(f, "store: {refusal}"),
            PartyError::OutOfMemory => return f.write_str("out of memory"),
            PartyError::Write => return f.write_str("write fault"),
        };
        match number {
            Some(number) => write!(f, "link: {name} {number}"),
            None => write!(f, "link: {name}"),
        }
    }
}

impl Error for PartyError {}

// The errors of the calls below. Out of memory is always reported as `OutOfMemory`.

impl From<OutOfMemory> for PartyError {
    ghost use Rattle.scoop_errors.specs.declared.party_error.PartyError.TheVariants.{OutOfMemory as out_of_memory};

    ghost from_gives = { λ _ e. e ≡ out_of_memory };

    fn from(_: OutOfMemory) -> PartyError {
        PartyError::OutOfMemory
    }
}

impl From<DriverError> for PartyError {
    ghost use Rattle.scoop_errors.specs.Errors.{driver_told};

    ghost from_gives = { λ error e. e ≡ driver_told error };

    fn from(error: DriverError) -> PartyError {
        match error {
            DriverError::Client(ClientError::OutOfMemory)
            | DriverError::Client(ClientError::Reserve(ReserveError::OutOfMemory)) => {
                PartyError::OutOfMemory
            }
            _ => PartyError::Driver(error),
        }
    }
}

impl From<ServeEnd> for PartyError {
    ghost use Rattle.scoop_errors.specs.Errors.{loop_told};

    ghost from_gives = { λ end e. e ≡ loop_told end };

    fn from(end: ServeEnd) -> PartyError {
        match end {
            ServeEnd::OutOfMemory => PartyError::OutOfMemory,
            ServeEnd::NoThread => PartyError::NoThread,
            _ => PartyError::Loop(end),
        }
    }
}

impl From<CloseRefusal> for PartyError {
    ghost use Rattle.scoop_errors.specs.Errors.{close_told};

    ghost from_gives = { λ cause e. e ≡ close_told cause };

    fn from(cause: CloseRefusal) -> PartyError {
        match cause {
            CloseRefusal::OutOfMemory => PartyError::OutOfMemory,
            _ => PartyError::NotClosed(cause),
        }
    }
}

impl From<KeeperError> for PartyError {
    ghost use Rattle.scoop_errors.specs.Errors.{keeper_told};

    ghost from_gives = { λ refusal e. e ≡ keeper_told refusal };

    fn from(refusal: KeeperError) -> PartyError {
        match refusal {
            KeeperError::OutOfMemory => PartyError::OutOfMemory,
            _ => PartyError::Store(refusal),
        }
    }
}

impl From<OpenLinkError> for PartyError {
    ghost use Rattle.scoop_errors.specs.Errors.{link_told};

    ghost from_gives = { λ error e. e ≡ link_told error };

    fn from(error: OpenLinkError) -> PartyError {
        match error {
            OpenLinkError::Fault => PartyError::NoLink,
            OpenLinkError::OutOfMemory => PartyError::OutOfMemory,
        }
    }
}
