//! The words of the command line, and the report of wrong ones.

use clap::Error;
use clap::error::ErrorKind as CommandLineFault;
use scoop_errors::PartyError;
use scoop_message::OutOfMemory;
use scoop_report::{Hints, Status, hint, report};
use scoop_texts::RuntimeError;
use std::env;
use std::io::ErrorKind;

/// The program's arguments, its name first.
pub fn words(rt: &HostRuntime) -> Result<Vec<String>, Status> {
    match env::args(rt) {
        Ok(words) => match words.collect(rt.alloc()) {
            Ok(words) => Ok(words),
            Err(_) => Err(report_memory(rt)),
        },
        Err(error) => Err(match error.kind() {
            ErrorKind::OutOfMemory => report_memory(rt),
            _ => report_arguments(rt),
        }),
    }
}

// Reports that the program's arguments aren't text.
fn report_arguments(rt: &HostRuntime) -> Status {
    report(rt, "the arguments are not text");
    hint(
        rt,
        Hints::Always,
        "write each argument in UTF-8, including file names",
    );
    Status(2)
}

// Reports why a program ends before it has begun.
fn report_error(rt: &HostRuntime, error: RuntimeError) -> Status {
    report(rt, error);
    hint(rt, Hints::Always, error.advice());
    Status(error.status())
}

/// Reports that memory was refused.
pub fn report_memory(rt: &HostRuntime) -> Status {
    report_error(rt, RuntimeError::from(OutOfMemory))
}

/// Prints help or the version, or what is wrong with the command line. The status is 0 after help or the version, 2 for
/// a wrong command line.
pub fn report_command_line(rt: &HostRuntime, error: &Error) -> Status {
    if error.kind() == CommandLineFault::OutOfMemory {
        return report_memory(rt);
    }
    let printed = error.print(rt);
    if error.use_stderr() {
        Status(2)
    } else if printed.is_ok() {
        Status(0)
    } else {
        report_error(rt, RuntimeError::from(PartyError::Write))
    }
}
