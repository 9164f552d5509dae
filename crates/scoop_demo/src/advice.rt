//! Advice for a run that ended early, and for words that make no message.

ghost use Rattle.std.specs.Prelude.{◌≡◌};
ghost use Rattle.scoop_demo.specs.Advice.{fault_advice, open_advice, run_advice, store_run_advice};

use crate::fault::{InputFault, RunError};
use scoop_keeper::memory_advice;
use scoop_world::WorldOpenError;

// The advice on an error that no run returns.
const NEVER: &str = "this can't happen: report the command and its input to the authors";

impl RunError {
    /// The advice, after the cause if the error's own text doesn't name it.
    pub fn advice(self) -> &'static str
        ensures { result.now ≡ run_advice self }
    {
        match self {
            RunError::Input { fault, .. } => fault.advice(),
            RunError::Write => { "check that the output has room and its reader still runs" }
            RunError::OutOfMemory => memory_advice(),
            RunError::Store(refusal) => refusal.advice(),
            RunError::WrongClass(_) => "give --class the class that the store was made with",
            RunError::NodeFailed => {
                "an earlier state could not be stored: check that the disk has room, and resume with --store, which has all that \
                was answered"
            }
            RunError::HistoryFull => {
                "a run has at most 1000000 entries: with a store, start another run with --store, and repeat the lines without \
                an answer"
            }
        }
    }

    /// The advice for a run over a store, which can go on with it.
    pub fn advice_over_store(self) -> &'static str
        ensures { result.now ≡ store_run_advice self }
    {
        match self {
            RunError::Write => {
                "check that the output has room and its reader still runs; resume with --store, and repeat the lines without an \
                answer"
            }
            error => error.advice(),
        }
    }
}

impl InputFault {
    /// The advice on the fault.
    pub fn advice(self) -> &'static str
        ensures { result.now ≡ fault_advice self }
    {
        match self {
            InputFault::Source(fault) => fault.advice(),
            InputFault::NotHex => {
                "write two hex digits for each byte of the datagram. Spaces are skipped; tabs and carriage returns are not. To \
                make a datagram from words, use scoop frame, for example scoop frame Lock 1 7.1.1"
            }
            InputFault::OddDigits => {
                "write two hex digits for each byte of the datagram, 0a for ten"
            }
            InputFault::UnknownLine => "scoop world --help lists all lines",
            InputFault::WrongNumberOfWords => {
                "scoop world --help lists the words of each line, and scoop frame --help those of each message"
            }
            InputFault::NotANumber => {
                "write a decimal number: an operation below 65536; an argument, answer, word or place below \
                18446744073709551616; client entries 1 to 4; any other below 4294967296. Only scoop client takes operations by \
                name; scoop frame takes no leading zeros"
            }
            InputFault::NoSuchClass => "the classes are cell, counter, account and exchange",
            InputFault::TooLateForParty => {
                "handlers and clients come before the first event: move the line up"
            }
            InputFault::CannotOpen(error) => open_advice(error),
            InputFault::TooManyArguments => "a request has at most 4 arguments: give fewer",
            InputFault::TooManyHandlers => "a block has at most 8 handlers: reserve fewer",
            InputFault::NoSuchKind => {
                "scoop frame --help lists the kinds of messages and entries"
            }
            InputFault::Refused => {
                "the last line of the output says why; without --strict a refused event is no fault"
            }
        }
    }
}

fn open_advice(error: WorldOpenError) -> &'static str
    ensures { result.now ≡ open_advice error }
{
    match error {
        WorldOpenError::NoHandlers =>
            "write a line such as handler 1 1 cell 0 before the first event: scoop world --help lists all lines",
        WorldOpenError::TooManyHandlers => "a world has at most 64 handlers: place fewer",
        WorldOpenError::Repeated(_) => "give each handler its own number",
        WorldOpenError::WrongClass(_) => NEVER,
        WorldOpenError::TooManyClients => "a world has at most 64 clients: let fewer join",
        WorldOpenError::RepeatedClient(_) => "give each client its own number",
        WorldOpenError::IncarnationsSpent => {
            "a client has used up its incarnations: take another number"
        }
        WorldOpenError::OutOfMemory => memory_advice(),
    }
}
