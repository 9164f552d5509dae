//! Copies of a store's files in memory.

ghost use Rattle.std.specs.Prelude.{IfOk, IsTrue};

use scoop_files::FileError;
use scoop_keeper::KeeperError;
use sqlite::{Connection, Error, ErrorCode, FileStore, Files, Options};
use sqlite_disk::{Disk, Memory};
use std::alloc::Global;
use std::io::ErrorKind;
use std::{fs, io};

/// A database in copies of its files.
pub type CopiedStore = Connection<FileStore<Memory>>;

// The salt of the copy's log, which no other program reads.
const SEED: u64 = 1;

/// The database in the file and in the log beside it, as they are now, in memory. Both files stay as they are.
///
/// Refused: `NoFile`, `Unopened` if a file can't be read, `Foreign` if it is no database, and `out of memory`.
pub fn read_copy(rt: &HostRuntime, path: &str) -> Result<CopiedStore, FileError> {
    let file = match read_file(rt, path)? {
        Some(file) => file,
        None => return Err(FileError::NoFile),
    };
    let log = match read_log(rt, path)? {
        Some(log) => log,
        None => Memory::new(rt.alloc()),
    };
    connect(rt.alloc(), log, file)
}

// The log beside the file.
fn read_log(rt: &HostRuntime, path: &str) -> Result<Option<Memory>, FileError> {
    match format!(in rt.alloc(); "{path}-wal") {
        Ok(log) => read_file(rt, &log),
        Err(_) => Err(FileError::Store(KeeperError::OutOfMemory)),
    }
}

// A copy of a file, if there is one.
fn read_file(rt: &HostRuntime, path: &str) -> Result<Option<Memory>, FileError> {
    match fs::read(rt, path) {
        Ok(bytes) => Ok(Some(copied(rt.alloc(), &bytes)?)),
        Err(error) => unread(&error),
    }
}

// The result for a file that can't be read: none if it is missing, or else the refusal.
fn unread(error: &io::Error) -> Result<Option<Memory>, FileError> {
    match error.kind() {
        ErrorKind::NotFound => Ok(None),
        ErrorKind::OutOfMemory => Err(FileError::Store(KeeperError::OutOfMemory)),
        _ => Err(FileError::Unopened),
    }
}

// A file in memory with these bytes.
fn copied(alloc: Global, bytes: &[u8]) -> Result<Memory, FileError> {
    let mut copy = Memory::new(alloc);
    if copy.write_at(0, bytes).is_ok() && copy.sync().is_ok() {
        Ok(copy)
    } else {
        Err(FileError::Store(KeeperError::OutOfMemory))
    }
}

// The database in these files.
fn connect(alloc: Global, log: Memory, db: Memory) -> Result<CopiedStore, FileError> {
    let files = Files { log, db };
    if !files.may_be_used() {
        return Err(FileError::Unopened);
    }
    match Connection::open_files(alloc, files, Options::new(SEED)) {
        Ok(connection) => Ok(connection),
        Err((error, _)) => Err(unconnected(error)),
    }
}

// The error for one of the database.
fn unconnected(error: Error) -> FileError {
    match error {
        Error::SqliteFailure(ErrorCode::OutOfMemory) => FileError::Store(KeeperError::OutOfMemory),
        Error::SqliteFailure(ErrorCode::NotADatabase | ErrorCode::DatabaseCorrupt) => {
            FileError::Foreign
        }
        _ => FileError::Unopened,
    }
}
