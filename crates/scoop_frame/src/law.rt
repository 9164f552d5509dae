//! Laws between encoding and decoding.

ghost use Rattle.std.specs.Prelude.{◌≡◌, ◌↔◌, IsTrue, Ok};
ghost use Rattle.scoop_message.specs.declared.message.Message.{Message as Sent};
ghost use Rattle.scoop_message.specs.Message.{Fits};
ghost use Rattle.scoop_frame.specs.Version.{Carries};
ghost use Rattle.scoop_frame.specs.Frame.{IsFrame, both, frame};

use crate::decoding::decode;
use crate::encoding::encode;
use crate::error::FrameError;
use crate::version::Version;
use scoop_message::Message;
use scoop_message::limits::BUFFER_LEN;

/// `decode` reads the bytes of `encode` as the message that was written, in its version. These bytes are the frame of
/// that message, and of no other.
pub fn reframed(version: Version, message: &Message) -> Result<(Version, Message), FrameError>
    requires fits { Fits message.now }
    requires carried { Carries version message.now }
    ensures read { result ≡ Ok (both version message.now) }
    ensures alone { (v : Version) (m : Sent) → IsFrame v m (frame version message.now) ↔ (both v m ≡ both version message.now) }
{
    let mut out = [0; BUFFER_LEN];
    let len = encode(version, message, &mut out);
    decode(&out[..len])
}

/// Whether two frames are the same bytes, which is so exactly if the versions and the messages are the same.
pub fn same_frame(version: Version, message: &Message, other: Version, second: &Message) -> bool
    requires fits { Fits message.now }
    requires carried { Carries version message.now }
    requires second_fits { Fits second.now }
    requires second_carried { Carries other second.now }
    ensures bytes { IsTrue result ↔ (frame version message.now ≡ frame other second.now) }
    ensures exact { (frame version message.now ≡ frame other second.now) ↔ (both version message.now ≡ both other second.now) }
{
    let mut out = [0; BUFFER_LEN];
    let len = encode(version, message, &mut out);
    let mut second_out = [0; BUFFER_LEN];
    let second_len = encode(other, second, &mut second_out);
    out[..len] == second_out[..second_len]
}
