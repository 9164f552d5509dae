//! Frames to messages.

ghost use Rattle.std.specs.Prelude.{◌≡◌, ◌↔◌, Ok, Err, MatchResult};
ghost use Rattle.scoop_message.specs.declared.message.Message.{Message as Sent};
ghost use Rattle.scoop_frame.specs.Fault.{IsFirstFault};
ghost use Rattle.scoop_frame.specs.Frame.{IsFrame, both};

use crate::error::FrameError;
use crate::header::read_header;
use crate::version::Version;
use scoop_message::Message;
use scoop_message::limits::MIN_FRAME;

fn read(bytes: &[u8]) -> Result<(Version, Message), FrameError>
    ensures { MatchResult result (λ x. IsFrame x.0 x.1 bytes.now) (λ e. IsFirstFault e bytes.now) }
{
    let header = read_header(bytes)?;
    if header.has_unused() {
        return Err(FrameError::FieldNotZero);
    }
    if header.lacks_number() {
        return Err(FrameError::FieldZero);
    }
    match header.message(&bytes[MIN_FRAME..]) {
        Some(message) => Ok((header.version, message)),
        None => Err(FrameError::BadBody),
    }
}

/// The message whose frame the bytes are, and the frame's version. Both versions are read. A refusal is the first fault
/// of the bytes.
pub fn decode(bytes: &[u8]) -> Result<(Version, Message), FrameError>
    ensures reads { MatchResult result (λ x. IsFrame x.0 x.1 bytes.now) (λ e. IsFirstFault e bytes.now) }
    ensures ok { (v : Version) (m : Message) → (result ≡ Ok (both v m)) ↔ IsFrame v m bytes.now }
    ensures err { (e : FrameError) → (result ≡ Err e) ↔ IsFirstFault e bytes.now }
{
    read(bytes)
}
