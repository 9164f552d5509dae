//! A connection to the status of a node.

use http_server::{Config, Connection, Service};
use http1::Limits;
use mio::net::TcpStream;
use std::alloc::Global;
use std::hash::RandomState;
use std::io;
use std::io::{ErrorKind, Read};
use std::net::Shutdown;

// The limits on a peer's requests: a short head, and no body.
const CONFIG: Config = Config {
    limits: Limits {
        max_head_len: 4096,
        max_extensions_len: 64,
        max_trailers_len: 64,
    },
    max_body_len: 0,
    max_pending: 1,
    read_size: 1024,
};

/// A connection has so many milliseconds from its beginning to its end.
pub(crate) const TIME_LIMIT_MS: u64 = 1_500;

/// A connection, whose stream never blocks.
#[derive(Drop)]
pub(crate) struct Peer {
    stream: TcpStream,
    connection: Connection,
    // All was sent. Bytes that still come are read and dropped, so that the answer isn't lost with them.
    is_answered: bool,
}

impl Peer {
    /// The peer at the other end of this stream.
    pub(crate) fn new(alloc: Global, keys: RandomState, stream: TcpStream) -> Peer {
        Peer {
            stream,
            connection: Connection::new(alloc, keys, CONFIG),
            is_answered: false,
        }
    }

    /// Reads once, answers and writes once. Returns whether the connection goes on.
    pub(crate) fn step<S: Service>(&mut self, service: &mut S) -> bool {
        if self.is_answered {
            return self.drop_input();
        }
        if self.connection.wants_read() {
            let read = self.connection.read_from(&mut self.stream);
            if !is_done_or_waits(read) {
                return false;
            }
        }
        self.connection.advance(service);
        if self.connection.wants_write() && !self.write(service) {
            return false;
        }
        if self.connection.is_done() {
            self.is_answered = true;
            return self.stream.shutdown(Shutdown::Write).is_ok();
        }
        true
    }

    // Writes once, and returns whether the connection goes on.
    fn write<S: Service>(&mut self, service: &mut S) -> bool {
        let written = self.connection.write_to(&mut self.stream);
        self.connection.advance(service);
        is_done_or_waits(written)
    }

    // Drops what has come, and returns whether more may come.
    fn drop_input(&mut self) -> bool {
        let mut bytes = [0; 1024];
        match self.stream.read(&mut bytes) {
            Ok(len) => len > 0,
            Err(error) => error.kind() == ErrorKind::WouldBlock,
        }
    }
}

// Whether a read or a write is done, or would have to wait.
fn is_done_or_waits(outcome: io::Result<usize>) -> bool {
    match outcome {
        Ok(_) => true,
        Err(error) => error.kind() == ErrorKind::WouldBlock,
    }
}
