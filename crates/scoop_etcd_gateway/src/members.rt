//! The members of an etcd, and a connection to one of them.

ghost use Rattle.std.specs.Prelude.{◌<◌, vec_len};

use crate::exchange::Exchange;
use crate::reply::{Reply, reply_of};
use crate::timing::{after, left};
use std::alloc::Global;
use std::io::{ErrorKind, Read, Write};
use std::net::{Net, OpenStream, TcpStream, ToSocketAddrs};
use std::thread;
use std::time::{Clock, Duration, Instant};

// One try of a call has so many milliseconds, and so many of them for its connection.
const TRY_MS: u64 = 1_500;

const CONNECT_MS: u64 = 500;

// After a round of failed tries no member is tried for so many milliseconds.
const PAUSE_MS: u64 = 100;

// Reads and writes of one try, at most.
const MAX_STEPS: u32 = 65_536;

const READ_LEN: usize = 16_384;

/// The members of an etcd by their addresses, and an open connection to the one that answered last.
#[derive(Drop)]
pub(crate) struct Members<'a, R: Net> {
    rt: &'a R,
    alloc: Global,
    names: Vec<String>,
    current: usize,
    stream: Option<R::Stream>,
    ghost some: { current < vec_len names },
}

// Opens a connection to a member, at its first address that answers.
fn connect<R: Net + Clock>(rt: &R, name: &str, end: Instant) -> Option<R::Stream> {
    for address in name.to_socket_addrs(rt).ok()? {
        let limit = left(rt, end)?.min(Duration::from_millis(CONNECT_MS));
        if let Ok(stream) = TcpStream::connect_timeout(rt, &address, limit) {
            let _nodelay = stream.set_nodelay(true);
            return Some(stream);
        }
    }
    None
}

// Writes all bytes in time. Returns whether it did.
fn send<R: Clock, S: Write + OpenStream>(
    rt: &R,
    stream: &mut S,
    bytes: &[u8],
    end: Instant,
) -> bool {
    let mut rest = bytes;
    for _ in 0..MAX_STEPS {
        if rest.is_empty() {
            return true;
        }
        let Some(limit) = left(rt, end) else {
            return false;
        };
        if stream.set_write_timeout(Some(limit)).is_err() {
            return false;
        }
        match stream.write(rest) {
            Ok(len) => rest = &rest[len..],
            Err(error) if error.kind() == ErrorKind::Interrupted => {}
            Err(_) => return false,
        }
    }
    false
}

// Reads the response in time. Returns whether it is whole.
fn receive<R: Clock, S: Read + OpenStream>(
    rt: &R,
    stream: &mut S,
    exchange: &mut Exchange,
    end: Instant,
) -> bool {
    let mut buffer = [0; READ_LEN];
    for _ in 0..MAX_STEPS {
        let Some(limit) = left(rt, end) else {
            return false;
        };
        if stream.set_read_timeout(Some(limit)).is_err() {
            return false;
        }
        match stream.read(&mut buffer) {
            Ok(0) => return exchange.close().is_ok(),
            Ok(len) => match exchange.take(&buffer[..len]) {
                Ok(false) => {}
                Ok(true) => return true,
                Err(_) => return false,
            },
            Err(error) if error.kind() == ErrorKind::Interrupted => {}
            Err(_) => return false,
        }
    }
    false
}

impl<'a, R: Net + Clock> Members<'a, R> {
    /// The members at these addresses, of which there is one at least.
    pub(crate) fn new(rt: &'a R, alloc: Global, names: Vec<String>) -> Members<'a, R>
        requires { 0 < vec_len names }
    {
        Members {
            rt,
            alloc,
            names,
            current: 0,
            stream: None,
        }
    }

    /// The time after so many milliseconds. `None` if the clock can't be read.
    pub(crate) fn end_after(&self, millis: u64) -> Option<Instant> {
        after(self.rt, millis)
    }

    // Leaves the member. The next try goes to the next one.
    fn turn(&mut self) {
        self.stream = None;
        self.current += 1;
        if self.current == self.names.len() {
            self.current = 0;
        }
    }

    /// After a failed try: whether there is time for another one. After each round of the members it waits a little.
    pub(crate) fn may_go_on(&self, end: Instant) -> bool {
        let Some(limit) = left(self.rt, end) else {
            return false;
        };
        if self.current == 0 {
            thread::sleep(self.rt, limit.min(Duration::from_millis(PAUSE_MS)));
        }
        left(self.rt, end).is_some()
    }

    // The connection that is open, or a new one.
    fn stream(&mut self, end: Instant) -> Option<R::Stream> {
        match self.stream.take() {
            Some(stream) => Some(stream),
            None => connect(self.rt, self.names[self.current].as_str(), end),
        }
    }

    // Sends a call over this connection, which is kept open if the member allows it.
    fn exchange(&mut self, mut stream: R::Stream, path: &[u8], body: &[u8], end: Instant) -> Reply {
        let mut out = Vec::new(self.alloc);
        let host = self.names[self.current].as_bytes();
        let Ok(mut exchange) = Exchange::begin(self.alloc, &mut out, host, path, body) else {
            return Reply::Unsent;
        };
        if !send(self.rt, &mut stream, out.as_slice(), end)
            || !receive(self.rt, &mut stream, &mut exchange, end)
        {
            return Reply::Lost;
        }
        let response = exchange.into_response();
        if response.keeps_open {
            self.stream = Some(stream);
        }
        reply_of(self.alloc, response)
    }

    /// Tries a call once, at one member. If it fails, the next try goes to the next member.
    pub(crate) fn ask(&mut self, path: &[u8], body: &[u8], end: Instant) -> Reply {
        let Some(limit) = after(self.rt, TRY_MS) else {
            return Reply::Unsent;
        };
        let end = end.min(limit);
        let reply = match self.stream(end) {
            Some(stream) => self.exchange(stream, path, body, end),
            None => Reply::Unsent,
        };
        if reply.has_failed() {
            self.turn();
        }
        reply
    }
}
