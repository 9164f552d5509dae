//! The names of the parties: handlers, clients and the clients' blocks.

use std::fmt;

/// The number of a handler. Blocks lock their handlers in ascending order of these.
#[derive(Clone, Copy, Debug, PartialEq, Eq, PartialOrd, Ord, Hash)]
pub struct HandlerId(pub u32);

/// The number of a client.
#[derive(Clone, Copy, Debug, PartialEq, Eq, PartialOrd, Ord, Hash)]
pub struct ClientId(pub u32);

/// The name of a block: number `num`, counted from 1, of its client's incarnation `inc`.
///
/// Printed as `client.incarnation.number`.
#[derive(Clone, Copy, Debug, PartialEq, Eq, PartialOrd, Ord, Hash)]
pub struct Block {
    pub client: ClientId,
    pub inc: u32,
    pub num: u32,
}

impl Block {
    ghost use Rattle.std.specs.Prelude.{◌↔◌, IsTrue};
    ghost use Rattle.scoop_message.specs.Message.{IsNumbered};

    /// Whether incarnation and number are at least 1.
    pub fn is_numbered(&self) -> bool
        ensures { IsTrue result ↔ IsNumbered self.now }
    {
        self.inc >= 1 && self.num >= 1
    }
}

impl fmt::Display for HandlerId {
    ghost use Rattle.std.specs.Prelude.{Some};
    ghost use Rattle.std.specs.Fmt.{decimal};

    ghost output = { λ h. Some (decimal h.0) };

    fn fmt<W: fmt::Write>(&self, f: &mut fmt::Formatter<W>) -> fmt::Result {
        write!(f, "{}", self.0)
    }
}

impl fmt::Display for ClientId {
    ghost use Rattle.std.specs.Prelude.{Some};
    ghost use Rattle.std.specs.Fmt.{decimal};

    ghost output = { λ c. Some (decimal c.0) };

    fn fmt<W: fmt::Write>(&self, f: &mut fmt::Formatter<W>) -> fmt::Result {
        write!(f, "{}", self.0)
    }
}

impl fmt::Display for Block {
    ghost use Rattle.std.specs.Prelude.{Some};
    ghost use Rattle.scoop_message.specs.Text.{block_text};

    ghost output = { λ b. Some (block_text b) };

    fn fmt<W: fmt::Write>(&self, f: &mut fmt::Formatter<W>) -> fmt::Result {
        write!(f, "{}.{}.{}", self.client, self.inc, self.num)
    }
}
