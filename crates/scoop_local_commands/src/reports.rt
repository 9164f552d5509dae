//! Reports of commands that need no system and end early.

use crate::kind::Kind;
use scoop_demo::{InputFault, RunError, WordsError};
use scoop_driver::DriverError;
use scoop_errors::PartyError;
use scoop_files::{FileError, report_file};
use scoop_netloop::ServeEnd;
use scoop_report::{Hints, Status, hint, hint_of_file, report};

/// Reports that no class has the name that was given.
pub fn report_no_class(rt: &HostRuntime) -> Status {
    report(rt, "no such class");
    hint(
        rt,
        Hints::AtTerminal,
        "scoop answer --help lists the classes",
    );
    Status(2)
}

/// Reports that a run over the lines of an input ended early.
pub(crate) fn report_run(rt: &HostRuntime, hints: Hints, error: RunError) -> Status {
    report(rt, error);
    hint(rt, hints, error.advice());
    Status(error.status())
}

/// Reports that a run over the store in this file ended early.
pub(crate) fn report_run_over(rt: &HostRuntime, path: &str, error: RunError) -> Status {
    report(rt, error);
    let advice = error.advice_over_store();
    match error {
        RunError::Store(_) | RunError::WrongClass(_) | RunError::NodeFailed => {
            hint_of_file(rt, Hints::AtTerminal, path, advice);
        }
        _ => hint(rt, Hints::AtTerminal, advice),
    }
    Status(error.status())
}

/// Reports that the store in this file isn't opened or closed.
pub(crate) fn report_file_error(rt: &HostRuntime, path: &str, error: FileError) -> Status {
    match error {
        FileError::Store(refusal) => report_run_over(rt, path, RunError::from(refusal)),
        error => report_file(rt, Hints::AtTerminal, path, error),
    }
}

/// Reports that words say no message with a frame. The kind is the one that they name.
pub(crate) fn report_words(rt: &HostRuntime, error: WordsError, kind: Option<Kind>) -> Status {
    let advice = words_advice(error);
    report(rt, error);
    match kind {
        Some(kind) => hint(
            rt,
            Hints::Always,
            format_args!("its words are {}; {advice}", kind.form()),
        ),
        None => hint(rt, Hints::Always, advice),
    }
    Status(2)
}

fn words_advice(error: WordsError) -> &'static str {
    match error {
        WordsError::Fault(InputFault::WrongNumberOfWords) => {
            "scoop frame --help lists those of all kinds"
        }
        WordsError::Fault(fault) => fault.advice(),
        WordsError::Refused(_) => {
            "number incarnations, blocks and entries from 1 to 4294967295; version 1 has one entry, v2 up to 4, with an end only \
            last"
        }
        WordsError::OutOfMemory => RunError::OutOfMemory.advice(),
    }
}

/// Reports that the demo ended early.
pub(crate) fn report_demo(rt: &HostRuntime, error: PartyError) -> Status {
    report(rt, error);
    hint(rt, Hints::AtTerminal, demo_advice(error));
    Status(error.status())
}

// Advice for a demo that ends early.
fn demo_advice(error: PartyError) -> &'static str {
    match error {
        PartyError::NoLink => {
            "the demo needs the ports 47101, 47102 and 47107 to 47109 of this machine: end the program that uses one of them"
        }
        PartyError::NoThread => "the operating system refuses more threads: end other programs",
        PartyError::Driver(DriverError::TurnsOver) | PartyError::Loop(ServeEnd::TurnsOver) => {
            "raise --turns, or lower --rounds"
        }
        PartyError::Driver(DriverError::LinkFault) | PartyError::Loop(ServeEnd::LinkFault) => {
            "a datagram could not be sent or received: check that this machine can reach 127.0.0.1"
        }
        PartyError::Loop(ServeEnd::HistoryFull) => {
            "lower --rounds: a node's history has room for about 8000"
        }
        PartyError::OutOfMemory => "end other programs, or lower --rounds",
        PartyError::Write => { "check that the output has room and its reader still runs" }
        PartyError::Driver(_)
        | PartyError::Loop(_)
        | PartyError::NotClosed(_)
        | PartyError::WrongClass(_)
        | PartyError::Store(_) => "this can't happen: report the options to the authors",
    }
}
