//! The journal of a party in a file.

ghost use Rattle.std.specs.Prelude.{◌≤◌, IfOk};
ghost use Rattle.scoop_journal.specs.declared.file.TheConstants.{FIRST_LEN};

use crate::line::Line;
use crate::reading::read;
use scoop_message::ClientId;
use std::fs::{File, OpenOptions};
use std::io::{Read, Seek, SeekFrom, Write};
use std::sync::atomic::{AtomicBool, Ordering};
use std::{fmt, io};
use thiserror::Error;

// Bytes of the longest first line, with room to spare.
const FIRST_LEN: usize = 64;

// Bytes that are read at once when the last newline is looked for.
const CHUNK_LEN: usize = 4096;

// The first bytes of every journal.
const FRONT: &[u8] = b"scoop journal 1 ";

/// The party that a journal belongs to. Printed as `node 1` or `client 7`.
#[derive(Clone, Copy, Debug, PartialEq, Eq)]
pub enum Owner {
    Node(u32),
    Client(ClientId),
}

impl fmt::Display for Owner {
    fn fmt<W: fmt::Write>(&self, f: &mut fmt::Formatter<W>) -> fmt::Result {
        match self {
            Owner::Node(number) => write!(f, "node {number}"),
            Owner::Client(client) => write!(f, "client {client}"),
        }
    }
}

/// Why a journal isn't opened.
#[derive(Clone, Copy, Debug, PartialEq, Eq, Error)]
pub enum OpenError {
    /// The file can't be opened, made or read.
    #[error("journal: Unopened")]
    Unopened,
    /// Another party has it open.
    #[error("journal: InUse")]
    InUse,
    /// The file has content, and its first line isn't that of a journal.
    #[error("journal: Foreign")]
    Foreign,
    /// It is the journal of another party.
    #[error("journal: WrongParty {0}")]
    WrongParty(Owner),
}

impl OpenError {
    /// Advice: what is wrong with the file, and what to do.
    pub fn advice(self) -> &'static str {
        match self {
            OpenError::Unopened => {
                "it can't be opened or made: check that its folder exists, and that you may read and write the file"
            }
            OpenError::InUse => "another program writes it: end that one, or name another file",
            OpenError::Foreign => "it has content, and is not a journal: name another file",
            OpenError::WrongParty(_) => {
                "it is the journal of another party, named above: name this one's own, or a new file"
            }
        }
    }
}

/// A journal in a file. The writer of its lines borrows it. After that it says whether a write failed.
#[derive(Drop)]
pub struct JournalFile {
    file: File,
    syncs: bool,
    has_failed: AtomicBool,
}

impl JournalFile {
    /// Opens the journal of this party, or makes a new one. A last line without newline, which is what a kill in the middle of
    /// a write leaves, is cut off. If `syncs`, each flush waits until the disk has all that was written.
    ///
    /// Refused, with the file as it was: `Unopened`, `InUse`, `Foreign`, `WrongParty`.
    pub fn open(
        rt: &HostRuntime,
        path: &str,
        owner: Owner,
        syncs: bool,
    ) -> Result<JournalFile, OpenError> {
        let mut options = OpenOptions::new();
        options.read(true).append(true).create(true);
        let Ok(mut file) = options.open(rt, path) else {
            return Err(OpenError::Unopened);
        };
        if file.try_lock().is_err() {
            return Err(OpenError::InUse);
        }
        check_owner(&mut file, owner)?;
        match cut_broken_line(&mut file) {
            Ok(()) => Ok(JournalFile {
                file,
                syncs,
                has_failed: AtomicBool::new(false),
            }),
            Err(_) => Err(OpenError::Unopened),
        }
    }

    /// Whether a write or a sync failed.
    pub fn has_failed(&self) -> bool {
        self.has_failed.load(Ordering::SeqCst)
    }

    fn fail(&self) {
        self.has_failed.store(true, Ordering::SeqCst);
    }
}

impl Write for &JournalFile {
    fn write(&mut self, buf: &[u8]) -> io::Result<usize> {
        let mut file = &self.file;
        let written = file.write(buf);
        if written.is_err() {
            self.fail();
        }
        written
    }

    fn flush(&mut self) -> io::Result<()> {
        if !self.syncs {
            return Ok(());
        }
        let synced = self.file.sync_data();
        if synced.is_err() {
            self.fail();
        }
        synced
    }
}

// Refuses the file if it has content that isn't this party's journal.
fn check_owner(file: &mut File, owner: Owner) -> Result<(), OpenError> {
    let mut buffer = [0; FIRST_LEN];
    let Ok(len) = read_front(file, &mut buffer) else {
        return Err(OpenError::Unopened);
    };
    let front = &buffer[..len];
    match front.iter().position(|byte| *byte == b'\n') {
        Some(end) => check_first_line(&front[..end], owner),
        None if FRONT.starts_with(front) || front.starts_with(FRONT) && len < FIRST_LEN => Ok(()),
        None => Err(OpenError::Foreign),
    }
}

fn check_first_line(line: &[u8], owner: Owner) -> Result<(), OpenError> {
    let found = match read(line) {
        Ok(Line::NodeLife(number)) => Owner::Node(number),
        Ok(Line::ClientLife(client, _, _)) => Owner::Client(client),
        _ => return Err(OpenError::Foreign),
    };
    if found == owner {
        Ok(())
    } else {
        Err(OpenError::WrongParty(found))
    }
}

// Fills the buffer with the first bytes of the file, as far as there are any.
fn read_front(file: &mut File, buffer: &mut [u8; FIRST_LEN]) -> io::Result<usize>
    ensures { IfOk result (λ len. len ≤ FIRST_LEN) }
{
    file.seek(SeekFrom::Start(0))?;
    let mut len = 0;
    while len < FIRST_LEN {
        match file.read(&mut buffer[len..]) {
            Ok(0) => return Ok(len),
            Ok(count) => len += count,
            Err(error) => return Err(error),
        }
    }
    Ok(len)
}

// Cuts off what comes after the last newline.
fn cut_broken_line(file: &mut File) -> io::Result<()> {
    let len = file.seek(SeekFrom::End(0))?;
    let whole = whole_len(file, len)?;
    if whole < len {
        file.set_len(whole)
    } else {
        Ok(())
    }
}

// The length of the file up to its last newline.
fn whole_len(file: &mut File, len: u64) -> io::Result<u64> {
    let mut chunk = [0; CHUNK_LEN];
    let mut end = len;
    while end > 0 {
        let start = end.saturating_sub(CHUNK_LEN as u64);
        let count = (end - start) as usize;
        file.seek(SeekFrom::Start(start))?;
        file.read_exact(&mut chunk[..count])?;
        if let Some(place) = chunk[..count].iter().rposition(|byte| *byte == b'\n') {
            return Ok(start + place as u64 + 1);
        }
        end = start;
    }
    Ok(0)
}
