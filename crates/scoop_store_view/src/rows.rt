//! The numbers in a store's tables.

use scoop_files::FileError;
use scoop_keeper::KeeperError;
use scoop_message::{ClientId, HandlerId, OutOfMemory};
use scoop_record::adopt_tables;
use sqlite::{Alter, Connection, Error, ErrorCode, Row};
use std::alloc::Global;

/// The handlers of a store, and its clients with their last incarnations, by ascending numbers.
#[derive(Drop)]
pub struct Contents {
    pub handlers: Vec<HandlerId>,
    pub clients: Vec<(ClientId, u32)>,
}

/// The numbers in the store's tables. Tables of version 1 become those of version 2 first.
///
/// Refused: `NoStore` if it lacks a store's tables, what `adopt_tables` refuses, and `out of memory`.
pub fn contents_of<S: Alter>(
    alloc: Global,
    connection: &mut Connection<S>,
) -> Result<Contents, FileError> {
    match adopt_tables(alloc, connection) {
        Ok(()) => {}
        Err(KeeperError::Refused) => return Err(FileError::NoStore),
        Err(refusal) => return Err(FileError::Store(refusal)),
    }
    Ok(Contents {
        handlers: handlers_in(alloc, connection)?,
        clients: clients_in(alloc, connection)?,
    })
}

fn handlers_in<S: Alter>(
    alloc: Global,
    connection: &mut Connection<S>,
) -> Result<Vec<HandlerId>, FileError> {
    match connection.query_all("SELECT h FROM handlers ORDER BY h", &[]) {
        Ok(rows) => handlers_of(alloc, rows.as_slice()),
        Err(error) => Err(unread(error)),
    }
}

fn handlers_of(alloc: Global, rows: &[Row]) -> Result<Vec<HandlerId>, FileError> {
    let mut handlers = Vec::new(alloc);
    for row in rows {
        let handler = HandlerId(number_in(row, 0)?);
        match handlers.push(handler) {
            Ok(()) => {}
            Err(_) => return Err(memory()),
        }
    }
    Ok(handlers)
}

fn clients_in<S: Alter>(
    alloc: Global,
    connection: &mut Connection<S>,
) -> Result<Vec<(ClientId, u32)>, FileError> {
    match connection.query_all("SELECT c, inc FROM clients ORDER BY c", &[]) {
        Ok(rows) => clients_of(alloc, rows.as_slice()),
        Err(error) => Err(unread(error)),
    }
}

fn clients_of(alloc: Global, rows: &[Row]) -> Result<Vec<(ClientId, u32)>, FileError> {
    let mut clients = Vec::new(alloc);
    for row in rows {
        let client = (ClientId(number_in(row, 0)?), number_in(row, 1)?);
        match clients.push(client) {
            Ok(()) => {}
            Err(_) => return Err(memory()),
        }
    }
    Ok(clients)
}

// The number in a column of a row.
fn number_in(row: &Row, column: usize) -> Result<u32, FileError> {
    let number: i64 = match row.get(column) {
        Ok(number) => number,
        Err(error) => return Err(unread(error)),
    };
    match u32::try_from(number) {
        Ok(number) => Ok(number),
        Err(_) => Err(FileError::Store(KeeperError::WrongSchema)),
    }
}

fn memory() -> FileError {
    FileError::Store(KeeperError::from(OutOfMemory))
}

fn unread(error: Error) -> FileError {
    match error {
        Error::SqliteFailure(ErrorCode::OutOfMemory) => memory(),
        _ => FileError::Store(KeeperError::Refused),
    }
}
