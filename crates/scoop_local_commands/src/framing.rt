//! `scoop frame`: a message in words as a frame, or the frames of standard input in words.

use crate::kind::Kind;
use crate::reports::{report_run, report_words};
use scoop_demo::{RunError, WordsError, print_frame_of, read_message, tell_frames};
use scoop_message::OutOfMemory;
use scoop_report::{Hints, Status};
use std::alloc::{AllocError, Global};
use std::io;
use std::io::{BufWriter, Write};

// Why the command ends early.
#[derive(Clone, Copy)]
enum FrameFault {
    // The words are no message with a frame. The kind is the one that they name.
    Words(WordsError, Option<Kind>),
    Run(RunError),
}

impl From<RunError> for FrameFault {
    fn from(error: RunError) -> FrameFault {
        FrameFault::Run(error)
    }
}

impl From<OutOfMemory> for FrameFault {
    fn from(error: OutOfMemory) -> FrameFault {
        FrameFault::Run(RunError::from(error))
    }
}

impl From<AllocError> for FrameFault {
    fn from(error: AllocError) -> FrameFault {
        FrameFault::from(OutOfMemory::from(error))
    }
}

/// Prints the frame of the message that the words say. With no words, prints the frames of standard input in words.
pub fn frame(rt: &HostRuntime, words: Option<&[&str]>) -> Result<(), Status> {
    match print(rt, words) {
        Ok(()) => Ok(()),
        Err(FrameFault::Words(error, kind)) => Err(report_words(rt, error, kind)),
        Err(FrameFault::Run(error)) => Err(report_run(rt, Hints::Always, error)),
    }
}

fn print<R: Input + Print + AllocGlobal>(rt: &R, words: Option<&[&str]>) -> Result<(), FrameFault> {
    let mut output = BufWriter::new(rt.alloc(), io::writer(rt)).map_err(|_| OutOfMemory)?;
    let Some(words) = words else {
        tell_frames(rt.reader(), &mut output)?;
        return Ok(());
    };
    print_words(rt.alloc(), words, &mut output)
}

// Prints the frame of the message that the words say.
fn print_words<W: Write>(alloc: Global, words: &[&str], output: &mut W) -> Result<(), FrameFault> {
    let line = joined(alloc, words)?;
    let (version, message) = match read_message(alloc, line.as_bytes()) {
        Ok(read) => read,
        Err(WordsError::OutOfMemory) => return Err(FrameFault::from(OutOfMemory)),
        Err(WordsError::Refused(error)) => {
            return Err(FrameFault::Words(WordsError::Refused(error), None));
        }
        Err(error) => return Err(FrameFault::Words(error, Kind::named_in(&line))),
    };
    print_frame_of(version, &message, output).map_err(|_| RunError::Write)?;
    output.flush().map_err(|_| RunError::Write)?;
    Ok(())
}

// The words with one space between them.
fn joined(alloc: Global, words: &[&str]) -> Result<String, AllocError> {
    let mut line = String::new(alloc);
    for (i, word) in words.iter().enumerate() {
        if i > 0 {
            line.push(' ')?;
        }
        line.push_str(word)?;
    }
    Ok(line)
}
