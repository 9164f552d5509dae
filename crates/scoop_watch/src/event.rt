//! The events of a node that a log tells, and the levels of a log.

use scoop_handler::Reason;
use scoop_keeper::KeeperError;
use scoop_message::{Block, ClientId, HandlerId};
use std::fmt;

/// How important an event is.
#[derive(Clone, Copy)]
pub enum Level {
    Warn,
    Info,
    Debug,
}

impl Level {
    /// The level as lines name it.
    pub fn name(self) -> &'static str {
        match self {
            Level::Warn => "warn",
            Level::Info => "info",
            Level::Debug => "debug",
        }
    }
}

/// The least important events that a log tells.
#[derive(Clone, Copy)]
pub enum LogLevel {
    Off,
    Warn,
    Info,
    Debug,
}

impl LogLevel {
    /// Whether a log of this level tells events of that one.
    pub fn tells(self, level: Level) -> bool {
        match self {
            LogLevel::Off => false,
            LogLevel::Warn => matches!(level, Level::Warn),
            LogLevel::Info => matches!(level, Level::Warn | Level::Info),
            LogLevel::Debug => true,
        }
    }
}

/// An event of a node. Printed as its name, with a word `name=value` for each of its parts.
#[derive(Clone, Copy, Default)]
pub enum Event {
    /// The node is ready.
    #[default]
    Opened,
    /// The node was opened again, since its history was full.
    Reopened,
    /// The node has closed.
    Closed,
    /// A new incarnation of a client has greeted, first at this handler.
    Greeted(ClientId, u32, HandlerId),
    /// The client of this block came back in a newer incarnation, which cut its private queue at the handler.
    Cut(Block, HandlerId),
    /// The store refused the handler's state.
    StoreRefused(HandlerId, KeeperError),
    /// The store refused to commit the states that were stored since its last commit.
    CommitRefused(KeeperError),
    /// The block has got a private queue at the handler.
    BlockOpened(Block, HandlerId),
    /// The handler dropped a client's message.
    Dropped(ClientId, HandlerId, Reason),
    /// This many datagrams came that weren't sealed with the key.
    SealRefused(u64),
    /// This many messages came of clients that the system's file doesn't name, the last one of this client to this handler.
    UnknownClient(ClientId, HandlerId, u64),
}

impl Event {
    /// How important the event is.
    pub fn level(&self) -> Level {
        match self {
            Event::StoreRefused(_, _)
            | Event::CommitRefused(_)
            | Event::SealRefused(_)
            | Event::UnknownClient(_, _, _) => Level::Warn,
            Event::Opened
            | Event::Reopened
            | Event::Closed
            | Event::Greeted(_, _, _)
            | Event::Cut(_, _) => Level::Info,
            Event::BlockOpened(_, _) | Event::Dropped(_, _, _) => Level::Debug,
        }
    }
}

impl fmt::Display for Event {
    fn fmt<W: fmt::Write>(&self, f: &mut fmt::Formatter<W>) -> fmt::Result {
        match self {
            Event::Opened => f.write_str("opened"),
            Event::Reopened => f.write_str("reopened"),
            Event::Closed => f.write_str("closed"),
            Event::Greeted(client, inc, handler) => {
                write!(
                    f,
                    "greeted client={client} incarnation={inc} handler={handler}"
                )
            }
            Event::Cut(block, handler) => write!(f, "cut block={block} handler={handler}"),
            Event::StoreRefused(handler, error) => {
                write!(f, "store-refused handler={handler} error={error}")
            }
            Event::CommitRefused(error) => write!(f, "commit-refused error={error}"),
            Event::BlockOpened(block, handler) => {
                write!(f, "block-opened block={block} handler={handler}")
            }
            Event::Dropped(client, handler, reason) => {
                write!(
                    f,
                    "dropped client={client} handler={handler} reason={reason}"
                )
            }
            Event::SealRefused(count) => write!(f, "seal-refused count={count}"),
            Event::UnknownClient(client, handler, count) => {
                write!(
                    f,
                    "unknown-client client={client} handler={handler} count={count}"
                )
            }
        }
    }
}
