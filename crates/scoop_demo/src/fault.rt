//! Faults of an input, and errors of a run over its lines.

ghost use Rattle.std.specs.Prelude.{◌≡◌};
ghost use Rattle.scoop_demo.specs.OpenErrorText.{open_error_name};

use scoop_keeper::KeeperError;
use scoop_lines::{LinesError, SourceFault};
use scoop_message::{HandlerId, OutOfMemory};
use scoop_world::WorldOpenError;
use std::error::Error;
use std::fmt;

/// The fault of a line of the input.
#[derive(Clone, Copy, Debug, PartialEq, Eq)]
pub enum InputFault {
    /// The line can't be read.
    Source(SourceFault),
    /// The line has a byte that is neither a hex digit nor a space.
    NotHex,
    /// The line has an odd number of hex digits.
    OddDigits,
    /// The line's first words are unknown.
    UnknownLine,
    /// The line has fewer or more words than its kind has.
    WrongNumberOfWords,
    /// The word in place of a number isn't one, or is out of its range.
    NotANumber,
    /// A word names no class.
    NoSuchClass,
    /// The line places a handler or lets a client join after an event.
    TooLateForParty,
    /// No world opens with the handlers and clients of the lines before.
    CannotOpen(WorldOpenError),
    /// A request has more than `MAX_ARGS` arguments.
    TooManyArguments,
    /// More than `MAX_NAMED_HANDLERS` handlers are named.
    TooManyHandlers,
    /// A word names no kind of message or of entry.
    NoSuchKind,
    /// The line's event was refused in a strict run.
    Refused,
}

impl fmt::Display for InputFault {
    ghost use Rattle.std.specs.Prelude.{Some};
    ghost use Rattle.scoop_demo.specs.Text.{fault_text};

    ghost output = { λ f. Some (fault_text f) };

    fn fmt<W: fmt::Write>(&self, f: &mut fmt::Formatter<W>) -> fmt::Result {
        f.write_str(match self {
            InputFault::Source(fault) => return write!(f, "{fault}"),
            InputFault::NotHex => "not hex",
            InputFault::OddDigits => "odd digits",
            InputFault::UnknownLine => "unknown line",
            InputFault::WrongNumberOfWords => "wrong number of words",
            InputFault::NotANumber => "not a number",
            InputFault::NoSuchClass => "no such class",
            InputFault::TooLateForParty => "too late for a party",
            InputFault::CannotOpen(error) => {
                return write!(f, "cannot open the world: {}", open_error_name(*error));
            }
            InputFault::TooManyArguments => "too many arguments",
            InputFault::TooManyHandlers => "too many handlers",
            InputFault::NoSuchKind => "no such kind",
            InputFault::Refused => "refused",
        })
    }
}

impl Error for InputFault {}

// The name of an error: its derived text, with a contract.
fn open_error_name(error: WorldOpenError) -> &'static str
    ensures { result.now ≡ open_error_name error }
{
    match error {
        WorldOpenError::NoHandlers => "NoHandlers",
        WorldOpenError::TooManyHandlers => "TooManyHandlers",
        WorldOpenError::Repeated(_) => "Repeated",
        WorldOpenError::WrongClass(_) => "WrongClass",
        WorldOpenError::TooManyClients => "TooManyClients",
        WorldOpenError::RepeatedClient(_) => "RepeatedClient",
        WorldOpenError::IncarnationsSpent => "IncarnationsSpent",
        WorldOpenError::OutOfMemory => "OutOfMemory",
    }
}

/// Why a run over the lines of an input ended early.
#[derive(Clone, Copy, Debug, PartialEq, Eq)]
pub enum RunError {
    /// The line of this number, counted from 1, has a fault.
    Input { line: u32, fault: InputFault },
    /// The output could not be written.
    Write,
    /// A growth of memory was refused.
    OutOfMemory,
    /// The keeper refused.
    Store(KeeperError),
    /// The object hasn't the handler's class, or the stored words are not as many as the class has.
    WrongClass(HandlerId),
    /// The keeper refused a state before, so the book records nothing any more.
    NodeFailed,
    /// The book's history has as many entries as it may have.
    HistoryFull,
}

impl RunError {
    ghost use Rattle.scoop_demo.specs.Text.{status_of};

    /// The exit status of the program: 1 for a fault of the input, else 3.
    pub fn status(self) -> u8
        ensures { result ≡ status_of self }
    {
        match self {
            RunError::Input { .. } => 1,
            RunError::Write
            | RunError::OutOfMemory
            | RunError::Store(_)
            | RunError::WrongClass(_)
            | RunError::NodeFailed
            | RunError::HistoryFull => 3,
        }
    }
}

impl fmt::Display for RunError {
    ghost use Rattle.std.specs.Prelude.{Some};
    ghost use Rattle.scoop_demo.specs.Text.{error_text};

    ghost output = { λ e. Some (error_text e) };

    fn fmt<W: fmt::Write>(&self, f: &mut fmt::Formatter<W>) -> fmt::Result {
        match self {
            RunError::Input { line, fault } => write!(f, "line {line}: {fault}"),
            RunError::Write => f.write_str("write fault"),
            RunError::OutOfMemory => f.write_str("out of memory"),
            RunError::Store(refusal) => write!(f, "store: {refusal}"),
            RunError::WrongClass(handler) => write!(f, "store: WrongClass {handler}"),
            RunError::NodeFailed => f.write_str("store: NodeFailed"),
            RunError::HistoryFull => f.write_str("store: HistoryFull"),
        }
    }
}

impl Error for RunError {}

impl From<OutOfMemory> for RunError {
    ghost use Rattle.std.specs.Prelude.{◌≡◌};
    ghost use Rattle.scoop_demo.specs.declared.fault.RunError.TheVariants.{OutOfMemory as out_of_memory};

    ghost from_gives = { λ _ e. e ≡ out_of_memory };

    fn from(_: OutOfMemory) -> RunError {
        RunError::OutOfMemory
    }
}

impl From<LinesError> for RunError {
    ghost use Rattle.std.specs.Prelude.{◌≡◌};
    ghost use Rattle.scoop_demo.specs.Run.{run_error};

    ghost from_gives = { λ error e. e ≡ run_error error };

    fn from(error: LinesError) -> RunError {
        match error {
            LinesError::Source(error) => RunError::Input {
                line: error.line,
                fault: InputFault::Source(error.fault),
            },
            LinesError::Flush => RunError::Write,
        }
    }
}

impl From<KeeperError> for RunError {
    ghost use Rattle.std.specs.Prelude.{◌≡◌};
    ghost use Rattle.scoop_demo.specs.Storing.{error_of};

    ghost from_gives = { λ refusal e. e ≡ error_of refusal };

    fn from(refusal: KeeperError) -> RunError {
        match refusal {
            KeeperError::OutOfMemory => RunError::OutOfMemory,
            _ => RunError::Store(refusal),
        }
    }
}
