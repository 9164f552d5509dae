//! Faults in the text of a system.

use crate::name::Name;
use std::error::Error;
use std::fmt;
use std::net::SocketAddr;

/// Why a text is no system. Printed after the file's name.
#[derive(Clone, Copy, Debug)]
pub enum SystemError {
    /// The text isn't TOML.
    Toml(TomlFault),
    /// The text is TOML, and describes no system.
    Fault(Fault),
    /// A growth of memory was refused.
    OutOfMemory,
}

/// A fault of TOML, with its line and column counted from 1.
#[derive(Clone, Copy, Debug)]
pub struct TomlFault {
    pub line: usize,
    /// In characters, not bytes.
    pub column: usize,
    pub error: toml::de::Error,
    /// The kind of a table in single brackets, as `[node]`, before a fault at a later table.
    pub single: Option<Key>,
}

/// A fault and its place. Printed as `node 1: unknown key "adress"`.
#[derive(Clone, Copy, Debug)]
pub struct Fault {
    pub place: Place,
    pub wrong: Wrong,
}

/// A table of the file.
#[derive(Clone, Copy, Debug)]
pub enum Place {
    /// The whole file.
    File,
    /// The table of the system's name and life.
    System,
    /// The node, handler or client of this number.
    Numbered(Key, u32),
    /// The class, node, handler or client at this place, counted from 1: it has no name or number.
    Nameless(Key, usize),
    /// The class of this name.
    Class(Name),
    /// The operation of this number, in the class of this name.
    Operation(u16, Name),
    /// The operation at this place, counted from 1, in the class of this name: it has no number.
    NamelessOperation(usize, Name),
}

/// A key that tables have. Printed as it is written in the file.
#[derive(Clone, Copy, Debug)]
pub enum Key {
    Class,
    Node,
    Handler,
    Client,
    Operation,
    Number,
    Name,
    Address,
    Status,
    Words,
    Batch,
    Test,
    Writes,
    Answer,
    System,
    Life,
    Handlers,
}

/// A fault at a place.
#[derive(Clone, Copy, Debug)]
pub enum Wrong {
    /// The table has this key, which no such table may have.
    UnknownKey(Name),
    /// The table hasn't this key.
    Missing(Key),
    /// The value of the key isn't a whole number from the first to the second one.
    NotANumber(Key, u64, u64),
    /// The value of the key isn't a name: a letter, and up to 31 letters, digits, `_` and `-`.
    NotAName(Key),
    /// The value of the key isn't an IP address with a port that isn't 0.
    NotAnAddress(Key),
    /// The addresses of a node aren't a list of 1 to 4.
    NotAddresses,
    /// The node has this address twice.
    AddressTwice(SocketAddr),
    /// The address is that of this node or client.
    AddressOf(Key, u32),
    /// The status address is that of this node.
    StatusOf(u32),
    /// The address is of the other family than the first one of the file.
    OtherFamily,
    /// The value of the key isn't a list.
    NotAList(Key),
    /// The value in place of a table isn't a table.
    NoTable,
    /// The list at the key has more values than this.
    TooMany(Key, usize),
    /// The number, or the name of a class, is taken.
    Twice,
    /// Every system has a class of this name.
    KnownClass,
    /// The name of the operation or the handler is taken.
    NameTwice(Name),
    /// The name of the handler is a word of a line.
    LineWord(Name),
    /// The handler's node isn't in the file.
    NoSuchNode(u32),
    /// The handler's class isn't there.
    NoSuchClass(Name),
    /// The words aren't 1 to 16 whole numbers below 2^64.
    NotWords,
    /// The number of words that are given, and the number that the class has.
    WordCount(usize, usize),
    /// The text isn't a term.
    NotATerm(Name),
    /// The value in place of a term isn't a text.
    NotAText,
    /// The term names a word that the class hasn't.
    NoSuchWord(Name),
    /// The term names an argument above the fourth.
    NoSuchArgument(Name),
    /// The test isn't a formula or a list of two terms.
    NotATest,
    /// A write isn't a formula or a list of a word and three terms.
    NotAWrite,
    /// The text in place of a test's formula isn't one.
    NotATestFormula(Name),
    /// The text in place of a write's formula isn't one.
    NotAWriteFormula(Name),
    /// The operation writes this word twice.
    WrittenTwice(u8),
    /// The handlers of a client aren't a list of 1 to 64 numbers or names.
    NotHandlers,
    /// No handler of the file has this number.
    NoSuchHandler(u64),
    /// No handler of the file has this name.
    NoHandlerNamed(Name),
    /// The client names the handler of this number twice.
    HandlerTwice(u32),
}

impl fmt::Display for SystemError {
    ghost use Rattle.scoop_system.specs.FaultText.{system_error_text};

    // TOML's own faults have TOML's texts.
    ghost output = { system_error_text };

    fn fmt<W: fmt::Write>(&self, f: &mut fmt::Formatter<W>) -> fmt::Result {
        match self {
            SystemError::Toml(
                TomlFault {
                    line,
                    column,
                    error,
                    single,
                },
            ) => {
                let message = error.message();
                let hint = single.map_or("", Key::hint);
                write!(f, "line {line}, column {column}: {message}{hint}")
            }
            SystemError::Fault(fault) => write!(f, "{fault}"),
            SystemError::OutOfMemory => f.write_str("out of memory"),
        }
    }
}

impl Error for SystemError {}

impl fmt::Display for Fault {
    ghost use Rattle.std.specs.Prelude.{Some};
    ghost use Rattle.scoop_system.specs.FaultText.{fault_text};

    ghost output = { λ f. Some (fault_text f) };

    fn fmt<W: fmt::Write>(&self, f: &mut fmt::Formatter<W>) -> fmt::Result {
        let wrong = self.wrong;
        match self.place {
            Place::File => write!(f, "{wrong}"),
            place => write!(f, "{place}: {wrong}"),
        }
    }
}

impl fmt::Display for Place {
    ghost use Rattle.std.specs.Prelude.{Some};
    ghost use Rattle.scoop_system.specs.FaultText.{place_text};

    ghost output = { λ p. Some (place_text p) };

    fn fmt<W: fmt::Write>(&self, f: &mut fmt::Formatter<W>) -> fmt::Result {
        match self {
            Place::File => f.write_str("file"),
            Place::System => f.write_str("system"),
            Place::Numbered(kind, number) => write!(f, "{kind} {number}"),
            Place::Nameless(kind, count) => write!(f, "[[{kind}]] {count}"),
            Place::Class(name) => write!(f, "class \"{name}\""),
            Place::Operation(number, class) => {
                write!(f, "operation {number} of class \"{class}\"")
            }
            Place::NamelessOperation(count, class) => {
                write!(f, "[[class.operation]] {count} of class \"{class}\"")
            }
        }
    }
}

impl Key {
    ghost use Rattle.std.specs.Prelude.{◌≡◌};
    ghost use Rattle.scoop_system.specs.KeyText.{key_text, hint_text};

    /// The key as it is written in the file.
    pub fn as_str(self) -> &'static str
        ensures { result.now ≡ key_text self }
    {
        match self {
            Key::Class => "class",
            Key::Node => "node",
            Key::Handler => "handler",
            Key::Client => "client",
            Key::Operation => "operation",
            Key::Number => "number",
            Key::Name => "name",
            Key::Address => "address",
            Key::Status => "status",
            Key::Words => "words",
            Key::Batch => "batch",
            Key::Test => "test",
            Key::Writes => "writes",
            Key::Answer => "answer",
            Key::System => "system",
            Key::Life => "life",
            Key::Handlers => "handlers",
        }
    }

    // How the tables of the key are written, as a hint for a table in single brackets.
    fn hint(self) -> &'static str
        ensures { result.now ≡ hint_text self }
    {
        match self {
            Key::Class => ": a class is written [[class]], not [class]",
            Key::Node => ": a node is written [[node]], not [node]",
            Key::Handler => ": a handler is written [[handler]], not [handler]",
            Key::Client => ": a client is written [[client]], not [client]",
            Key::Operation => {
                ": an operation is written [[class.operation]], not [class.operation]"
            }
            Key::Number
            | Key::Name
            | Key::Address
            | Key::Status
            | Key::Words
            | Key::Batch
            | Key::Test
            | Key::Writes
            | Key::Answer
            | Key::System
            | Key::Life
            | Key::Handlers => "",
        }
    }
}

impl fmt::Display for Key {
    ghost use Rattle.std.specs.Prelude.{Some};
    ghost use Rattle.scoop_system.specs.KeyText.{key_text};

    ghost output = { λ k. Some (key_text k) };

    fn fmt<W: fmt::Write>(&self, f: &mut fmt::Formatter<W>) -> fmt::Result {
        f.write_str(self.as_str())
    }
}

impl Wrong {
    ghost use Rattle.std.specs.Prelude.{◌≡◌};
    ghost use Rattle.scoop_system.specs.FaultText.{plain_text};

    // The text of a fault that names nothing. Empty for the others, which `Display` prints.
    fn plain_text(self) -> &'static str
        ensures { result.now ≡ plain_text self }
    {
        match self {
            Wrong::OtherFamily =>
                "address must have the same family, IPv4 or IPv6, as the first one",
            Wrong::NotAddresses => "address must be one address or a list of 1 to 4",
            Wrong::NoTable => "not a table",
            Wrong::Twice => "defined twice",
            Wrong::KnownClass => "every system already has a class of this name",
            Wrong::NotWords => "words must be a list of 1 to 16 whole numbers below 2^64",
            Wrong::NotAText => "a term must be text: write it in quotes",
            Wrong::NotATest => "test must be a formula or a list of two terms",
            Wrong::NotAWrite => "a write must be a formula or a list of a word and three terms",
            Wrong::NotHandlers => "handlers must be a list of 1 to 64 numbers or names of handlers",
            _ => "",
        }
    }
}

impl fmt::Display for Wrong {
    ghost use Rattle.std.specs.Prelude.{Some};
    ghost use Rattle.scoop_system.specs.FaultText.{wrong_text};

    ghost output = { λ w. Some (wrong_text w) };

    fn fmt<W: fmt::Write>(&self, f: &mut fmt::Formatter<W>) -> fmt::Result {
        match self {
            Wrong::UnknownKey(key) => write!(f, "unknown key \"{key}\""),
            Wrong::Missing(key) => write!(f, "no {key}"),
            Wrong::NotANumber(key, low, high) => {
                write!(f, "{key} must be a whole number from {low} to {high}")
            }
            Wrong::NotAName(key) => {
                write!(
                    f,
                    "{key} must be 1 to 32 letters, digits, _ or -, beginning with a letter"
                )
            }
            Wrong::NotAnAddress(key) => {
                write!(f, "{key} must be an IP address with a port from 1 to 65535")
            }
            Wrong::AddressTwice(address) => write!(f, "address {address} stands twice"),
            Wrong::AddressOf(kind, number) => write!(
                f,
                "address is already used by {kind} {number}"
            ),
            Wrong::StatusOf(number) => write!(f, "status is already used by node {number}"),
            Wrong::NotAList(key) => {
                let hint = key.hint();
                write!(f, "{key} must be a list{hint}")
            }
            Wrong::TooMany(key, limit) => write!(f, "{key}: more than {limit}"),
            Wrong::NameTwice(name) => write!(f, "name \"{name}\" is used twice"),
            Wrong::LineWord(name) => write!(f, "name \"{name}\" is a word of client lines"),
            Wrong::NoSuchNode(number) => write!(f, "no such node {number}"),
            Wrong::NoSuchClass(name) => write!(f, "no such class \"{name}\""),
            Wrong::WordCount(given, wanted) => write!(f, "{given} words instead of {wanted}"),
            Wrong::NotATerm(text) => write!(f, "\"{text}\" is not a term"),
            Wrong::NotATestFormula(text) => {
                write!(f, "\"{text}\" is not a test: write two terms, as a0 <= w0")
            }
            Wrong::NotAWriteFormula(text) => {
                write!(
                    f,
                    "\"{text}\" is not a write: write a word and terms, as w0 = w0 + a0 - a1"
                )
            }
            Wrong::NoSuchWord(term) => write!(f, "{term} is not a word"),
            Wrong::NoSuchArgument(term) => write!(f, "{term} is not an argument"),
            Wrong::WrittenTwice(word) => write!(f, "w{word} is written twice"),
            Wrong::NoSuchHandler(number) => write!(f, "no such handler {number}"),
            Wrong::NoHandlerNamed(name) => write!(f, "no such handler \"{name}\""),
            Wrong::HandlerTwice(number) => write!(f, "handler {number} stands twice"),
            Wrong::OtherFamily
            | Wrong::NotAddresses
            | Wrong::NoTable
            | Wrong::Twice
            | Wrong::KnownClass
            | Wrong::NotWords
            | Wrong::NotAText
            | Wrong::NotATest
            | Wrong::NotAWrite
            | Wrong::NotHandlers => f.write_str(self.plain_text()),
        }
    }
}
