//! The server of a node's status: many connections, turn by turn, on one thread.

use crate::peer::{Peer, TIME_LIMIT_MS};
use http_server::Service;
use mio::net::{TcpListener, TcpStream};
use std::alloc::{AllocError, Global};
use std::hash::RandomState;
use std::io;
use std::io::Write;
use std::time::{Clock, Duration, Instant};

// That many connections are served side by side.
const MAX_PEERS: usize = 32;

// A turn serves each connection whose place leaves the turn's number modulo this. It bounds how many answers one turn makes.
const ROUNDS: usize = 4;

// That many connections are taken in one turn. Those that find no place are refused at once.
const MAX_ACCEPTED: usize = 256;

const TOO_MANY: &[u8] =
    b"HTTP/1.1 503 Service Unavailable\r\nconnection: close\r\ncontent-length: 0\r\n\r\n";

// A connection, and when it began.
#[derive(Drop)]
struct Place {
    peer: Peer,
    since: Instant,
}

/// A server. Each connection gets one answer. It is closed at its time limit, and at once when there are too many.
#[derive(Drop)]
pub struct Server {
    listener: TcpListener,
    keys: RandomState,
    alloc: Global,
    places: Vec<Option<Place>>,
    turns: usize,
}

impl Server {
    /// A server of what comes to this listener.
    pub fn new(
        alloc: Global,
        keys: RandomState,
        listener: TcpListener,
    ) -> Result<Server, AllocError> {
        let mut places = Vec::with_capacity(alloc, MAX_PEERS)?;
        for _ in 0..MAX_PEERS {
            places.push(None)?;
        }
        Ok(Server {
            listener,
            keys,
            alloc,
            places,
            turns: 0,
        })
    }

    /// Takes the connections that have come, and serves a quarter of those that have a place, each once. Nothing in it waits.
    pub fn turn<S: Service, R: Clock>(&mut self, rt: &R, service: &mut S) {
        let Ok(now) = Instant::now(rt) else {
            return;
        };
        self.accept_all(now);
        self.turns = self.turns.wrapping_add(1);
        let served = self.turns % ROUNDS;
        for (index, place) in self.places.iter_mut().enumerate() {
            let goes_on = match place {
                Some(taken) => {
                    taken.is_in_time(now) && (index % ROUNDS != served || taken.peer.step(service))
                }
                None => true,
            };
            if !goes_on {
                *place = None;
            }
        }
    }

    // Takes the connections that have come.
    fn accept_all(&mut self, now: Instant) {
        for _ in 0..MAX_ACCEPTED {
            let Ok((stream, _)) = self.listener.accept() else {
                return;
            };
            self.admit(stream, now);
        }
    }

    // Gives the stream a place, if there is one.
    fn admit(&mut self, stream: TcpStream, now: Instant) {
        match self.places.iter_mut().find(|place| place.is_none()) {
            Some(place) => *place = begin(self.alloc, self.keys, stream, now),
            None => refuse(stream),
        }
    }
}

// The stream's place.
fn begin(alloc: Global, keys: RandomState, stream: TcpStream, now: Instant) -> Option<Place> {
    Some(Place {
        peer: Peer::new(alloc, keys, stream),
        since: now,
    })
}

// Says that there are too many connections, and closes this one.
fn refuse(mut stream: TcpStream) {
    let _told: io::Result<usize> = stream.write(TOO_MANY);
}

impl Place {
    // Whether the connection's time isn't over.
    fn is_in_time(&self, now: Instant) -> bool {
        now.duration_since(self.since) < Duration::from_millis(TIME_LIMIT_MS)
    }
}
