//! The header that every frame begins with.

ghost use Rattle.std.specs.Prelude.{◌≡◌, ◌≢◌, [], ◌≤◌, ◌↔◌, IsTrue, IfOk, IfErr, MatchOption, length};
ghost use Rattle.scoop_message.specs.Range.{IsMessage, IsNumberOf};
ghost use Rattle.scoop_frame.specs.declared.kind.Kind.TheVariants as of_kind;
ghost use Rattle.scoop_frame.specs.Buffer.{overwritten};
ghost use Rattle.scoop_frame.specs.Fault.{HasUnused, LacksNumber, IsFirstFault};
ghost use Rattle.scoop_frame.specs.Frame.{header, frame, body_of, no_block};
ghost use Rattle.scoop_frame.specs.Header.{IsHeader, IsBodyOf, IsSound, IsMessageOf, HasItsBody, framed};
ghost use Rattle.scoop_frame.specs.Kind.{code};

use crate::answer::whole_answer;
use crate::error::FrameError;
use crate::kind::Kind;
use crate::log::whole_log;
use crate::number::{put_u16, put_u32, u16_at, u32_at};
use crate::version::Version;
use scoop_message::limits::MIN_FRAME;
use scoop_message::{Block, ClientId, HandlerId, Message};

const MAGIC: [u8; 2] = *b"SQ";

/// The version, kind, names and numbers of a frame. A field that the kind doesn't use is 0.
#[derive(Clone, Copy, Debug, PartialEq, Eq)]
pub struct Header {
    pub version: Version,
    pub kind: Kind,
    pub handler: HandlerId,
    pub block: Block,
    pub number: u32,
}

// A greeting names no block.
fn no_block(client: ClientId, inc: u32) -> Block
    ensures { result ≡ no_block client inc }
{
    Block {
        client,
        inc,
        num: 0,
    }
}

// The header with these fields, whose numbers are in range since a program holds them.
fn head(version: Version, kind: Kind, handler: HandlerId, block: Block, number: u32) -> Header
    ensures fields { result ≡ record { version = version; kind = kind; handler = handler; block = block; number = number } }
    ensures numbers { IsNumberOf handler block number }
{
    Header {
        version,
        kind,
        handler,
        block,
        number,
    }
}

/// The header of a message's frame.
pub fn header_of(version: Version, message: &Message) -> Header
    ensures bytes { frame version message.now ≡ framed result (body_of version message.now) }
    ensures range { IsBodyOf message.now → IsMessage message.now }
{
    match *message {
        Message::Hello(handler, client, inc) => {
            head(version, Kind::Hello, handler, no_block(client, inc), 0)
        }
        Message::Welcome(handler, client, inc) => {
            head(version, Kind::Welcome, handler, no_block(client, inc), 0)
        }
        Message::Lock(handler, block) => head(version, Kind::Lock, handler, block, 0),
        Message::Locked(handler, block) => head(version, Kind::Locked, handler, block, 0),
        Message::Busy(handler, block) => head(version, Kind::Busy, handler, block, 0),
        Message::Open(handler, block) => head(version, Kind::Open, handler, block, 0),
        Message::Opened(handler, block) => head(version, Kind::Opened, handler, block, 0),
        Message::Unlock(handler, block) => head(version, Kind::Unlock, handler, block, 0),
        Message::Unlocked(handler, block) => head(version, Kind::Unlocked, handler, block, 0),
        Message::Log(handler, block, number, _) => {
            head(version, Kind::Log, handler, block, number)
        }
        Message::Logged(handler, block, number) => {
            head(version, Kind::Logged, handler, block, number)
        }
        Message::Answer(handler, block, number, _) => {
            head(version, Kind::Answer, handler, block, number)
        }
    }
}

/// Writes a header to the front of a buffer.
pub fn put_header(out: &mut [u8], fields: &Header, body_len: u16)
    requires { MIN_FRAME ≤ length out.old }
    ensures { out.new ≡ overwritten 0
        (header fields.now.version (code fields.now.kind) fields.now.handler fields.now.block fields.now.number body_len) out.old }
{
    let start = [
        MAGIC[0],
        MAGIC[1],
        fields.version.byte(),
        fields.kind.code(),
    ];
    out[..4].copy_from_slice(&start);
    put_u32(out, 4, fields.handler.0);
    put_u32(out, 8, fields.block.client.0);
    put_u32(out, 12, fields.block.inc);
    put_u32(out, 16, fields.block.num);
    put_u32(out, 20, fields.number);
    put_u16(out, 24, body_len);
}

/// The header of a frame.
pub fn read_header(bytes: &[u8]) -> Result<Header, FrameError>
    ensures ok { IfOk result (IsHeader bytes.now) }
    ensures err { IfErr result (λ e. IsFirstFault e bytes.now) }
{
    if bytes.len() < MIN_FRAME {
        return Err(FrameError::Short);
    }
    if !bytes.starts_with(&MAGIC) {
        return Err(FrameError::BadMagic);
    }
    let Some(version) = Version::from_byte(bytes[2]) else {
        return Err(FrameError::BadVersion(bytes[2]));
    };
    let Some(kind) = Kind::from_code(bytes[3]) else {
        return Err(FrameError::BadKind(bytes[3]));
    };
    if bytes.len() != MIN_FRAME + usize::from(u16_at(bytes, 24)) {
        return Err(FrameError::LengthWrong);
    }
    Ok(Header {
        version,
        kind,
        handler: HandlerId(u32_at(bytes, 4)),
        block: Block {
            client: ClientId(u32_at(bytes, 8)),
            inc: u32_at(bytes, 12),
            num: u32_at(bytes, 16),
        },
        number: u32_at(bytes, 20),
    })
}

impl Header {
    /// Whether a block or entry number that the kind doesn't use isn't 0.
    pub fn has_unused(&self) -> bool
        ensures { IsTrue result ↔ HasUnused (code self.now.kind) self.now.block.num self.now.number }
    {
        !self.kind.uses_block() && self.block.num != 0
            || !self.kind.uses_number() && self.number != 0
    }

    /// Whether an incarnation, block or entry number that the kind uses is 0.
    pub fn lacks_number(&self) -> bool
        ensures { IsTrue result ↔ LacksNumber (code self.now.kind) self.now.block.inc self.now.block.num self.now.number }
    {
        self.block.inc == 0
            || self.kind.uses_block() && self.block.num == 0
            || self.kind.uses_number() && self.number == 0
    }

    /// The message of this header with a body, if the kind has that body.
    pub fn message(&self, body: &[u8]) -> Option<Message>
        requires { IsSound self.now }
        ensures { MatchOption result (¬ HasItsBody self.now body.now) (IsMessageOf self.now body.now) }
    {
        match self.kind {
            Kind::Log => self.log(body),
            Kind::Answer => {
                let answer = whole_answer(body)?;
                Some(Message::Answer(self.handler, self.block, self.number, answer))
            }
            _ => {
                if body.is_empty() {
                    Some(self.message_without_body())
                } else {
                    None
                }
            }
        }
    }

    // The Log of this header with a body, if that is the body of one.
    fn log(&self, body: &[u8]) -> Option<Message>
        requires sound { IsSound self.now }
        requires kind { code self.now.kind ≡ code of_kind.Log }
        ensures { MatchOption result (¬ HasItsBody self.now body.now) (IsMessageOf self.now body.now) }
    {
        let entries = whole_log(self.version, body)?;
        let message = Message::Log(self.handler, self.block, self.number, entries);
        if message.fits() { Some(message) } else { None }
    }

    // The message of this header, of a kind whose body is empty.
    fn message_without_body(&self) -> Message
        requires sound { IsSound self.now }
        requires not_log { code self.now.kind ≢ code of_kind.Log }
        requires not_answer { code self.now.kind ≢ code of_kind.Answer }
        ensures { IsMessageOf self.now [] result }
    {
        match self.kind {
            Kind::Hello => Message::Hello(self.handler, self.block.client, self.block.inc),
            Kind::Welcome => Message::Welcome(self.handler, self.block.client, self.block.inc),
            Kind::Lock => Message::Lock(self.handler, self.block),
            Kind::Locked => Message::Locked(self.handler, self.block),
            Kind::Busy => Message::Busy(self.handler, self.block),
            Kind::Open => Message::Open(self.handler, self.block),
            Kind::Opened => Message::Opened(self.handler, self.block),
            Kind::Unlock => Message::Unlock(self.handler, self.block),
            Kind::Unlocked => Message::Unlocked(self.handler, self.block),
            Kind::Logged => Message::Logged(self.handler, self.block, self.number),
            Kind::Log | Kind::Answer => unreachable!(),
        }
    }
}
