//! The text beside a store, brought up to date.

use scoop_handler::{HandlerState, Mark};
use scoop_message::{Block, HandlerId, OutOfMemory};
use scoop_owner::{Newest, note_newest, text_with_incarnation, updated_text};
use std::alloc::Global;
use std::fs::File;
use std::io::{ErrorKind, Write};
use std::{fs, io};

/// The file of the text beside the store in this file.
pub fn text_file(alloc: Global, path: &str) -> Result<String, OutOfMemory> {
    match format!(in alloc; "{path}.system") {
        Ok(file) => Ok(file),
        Err(_) => Err(OutOfMemory),
    }
}

/// Puts the marks of this state among these, in place of older ones. After `OutOfMemory` some may be missing.
pub fn note_marks(marks: &mut Vec<Newest>, state: &HandlerState) -> Result<(), OutOfMemory> {
    let handler = state.handler();
    for place in 0..state.marks() {
        if let Some(mark) = state.mark(place) {
            note_newest(marks, newest(handler, &mark))?;
        }
    }
    Ok(())
}

fn newest(handler: HandlerId, mark: &Mark) -> Newest {
    Newest {
        handler,
        block: Block {
            client: mark.client,
            inc: mark.inc,
            num: mark.num,
        },
    }
}

/// Puts this text in place of a file's. It stands in a file beside it until the disk has all of it. So a kill or a loss of
/// power leaves the old text or the new one.
pub fn replace_text(rt: &HostRuntime, file: &str, text: &str) -> io::Result<()> {
    let Ok(fresh) = format!(in rt.alloc(); "{file}.new") else {
        return Err(io::Error::from(ErrorKind::OutOfMemory));
    };
    write_text(rt, fresh.as_str(), text)?;
    fs::rename(rt, fresh.as_str(), file)
}

fn write_text(rt: &HostRuntime, file: &str, text: &str) -> io::Result<()> {
    let mut file = File::create(rt, file)?;
    file.write_all(text.as_bytes())?;
    file.sync_all()
}

/// Brings the lines for these marks up to date in this file, and leaves all others. Returns whether it has them then: it
/// hasn't if there is no such file, or if it can't be read or written.
pub fn update_marks(rt: &HostRuntime, file: &str, marks: &[Newest]) -> bool {
    let Ok(found) = fs::read_to_string(rt, file) else {
        return false;
    };
    match updated_text(rt.alloc(), found.as_str(), marks) {
        Ok(text) => replace_text(rt, file, text.as_str()).is_ok(),
        Err(_) => false,
    }
}

/// The same for the line of a client's incarnation.
pub(crate) fn update_incarnation(rt: &HostRuntime, file: &str, inc: u32) -> bool {
    let Ok(found) = fs::read_to_string(rt, file) else {
        return false;
    };
    match text_with_incarnation(rt.alloc(), found.as_str(), inc) {
        Ok(text) => replace_text(rt, file, text.as_str()).is_ok(),
        Err(_) => false,
    }
}
