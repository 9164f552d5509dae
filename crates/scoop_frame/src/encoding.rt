//! Messages to frames.

ghost use Rattle.std.specs.Prelude.{◌≡◌, ◌≤◌, ◌+◌, length};
ghost use Rattle.scoop_message.specs.Message.{Fits};
ghost use Rattle.scoop_frame.specs.Version.{Carries};
ghost use Rattle.scoop_frame.specs.Buffer.{overwritten, written};
ghost use Rattle.scoop_frame.specs.Frame.{frame, body_of, IsFrame};
ghost use Rattle.scoop_frame.specs.Header.{IsBodyOf};

use crate::answer::put_answer;
use crate::header::{header_of, put_header};
use crate::log::put_log;
use crate::version::Version;
use scoop_message::Message;
use scoop_message::limits::{BUFFER_LEN, MAX_FRAME, MIN_FRAME};

// Writes the body of a message's frame after the place of its header, and returns where it ends.
fn put_body(out: &mut [u8], version: Version, message: &Message) -> usize
    requires { MAX_FRAME ≤ length out.old }
    ensures bytes { out.new ≡ overwritten MIN_FRAME (body_of version message.now) out.old }
    ensures end { result ≡ MIN_FRAME + length (body_of version message.now) }
    ensures limit { result ≤ MAX_FRAME }
    ensures range { IsBodyOf message.now }
{
    match message {
        Message::Log(_, _, _, entries) => put_log(out, MIN_FRAME, version, entries),
        Message::Answer(_, _, _, answer) => put_answer(out, MIN_FRAME, answer),
        _ => MIN_FRAME,
    }
}

/// Writes the frame of a message, in a version that carries it, to the front of a buffer, and leaves the rest of the
/// buffer. Returns how many bytes the frame takes. The message fits, and a Log of version 1 has one entry. `decode` reads
/// the frame as this message.
pub fn encode(version: Version, message: &Message, out: &mut [u8; BUFFER_LEN]) -> usize
    requires fits { Fits message.now }
    requires carried { Carries version message.now }
    ensures bytes { out.new ≡ written (frame version message.now) out.old }
    ensures len { result ≡ length (frame version message.now) }
    ensures exact { IsFrame version message.now (frame version message.now) }
    ensures limits { (MIN_FRAME ≤ result) × (result ≤ MAX_FRAME) }
{
    let end = put_body(out, version, message);
    put_header(out, &header_of(version, message), (end - MIN_FRAME) as u16);
    end
}
