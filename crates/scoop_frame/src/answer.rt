//! Answers as bytes.

ghost use Rattle.std.specs.Prelude.{◌≡◌, ◌≢◌, ◌≤◌, ◌+◌, MatchOption, length};
ghost use Rattle.scoop_message.specs.Range.{IsAnswer};
ghost use Rattle.scoop_frame.specs.Body.{answer_bytes, ReadsFirst};
ghost use Rattle.scoop_frame.specs.Buffer.{overwritten, written};

use crate::number::{put_u64, u64_at};
use scoop_message::Answer;

/// Bytes of the longest answer.
pub const MAX_ANSWER: usize = 9;

const REFUSED: u8 = 0;

const VALUE: u8 = 1;

/// Writes an answer from a place on, and returns where it ends.
pub fn put_answer(out: &mut [u8], at: usize, answer: &Answer) -> usize
    requires { at + MAX_ANSWER ≤ length out.old }
    ensures bytes { out.new ≡ overwritten at (answer_bytes answer.now) out.old }
    ensures end { result ≡ at + length (answer_bytes answer.now) }
    ensures limit { result ≤ at + MAX_ANSWER }
    ensures range { IsAnswer answer.now }
{
    match answer {
        Answer::Refused => {
            out[at] = REFUSED;
            at + 1
        }
        Answer::Value(value) => {
            out[at] = VALUE;
            put_u64(out, at + 1, *value);
            at + 9
        }
    }
}

/// Writes an answer to the front of a buffer, leaves the rest, and returns how many bytes it takes.
pub fn answer_to(answer: &Answer, out: &mut [u8; MAX_ANSWER]) -> usize
    ensures bytes { out.new ≡ written (answer_bytes answer.now) out.old }
    ensures len { result ≡ length (answer_bytes answer.now) }
    ensures limit { result ≤ MAX_ANSWER }
    ensures range { IsAnswer answer.now }
{
    put_answer(out, 0, answer)
}

/// The answer that begins the bytes, and how many bytes it takes. `None` if no answer begins them.
pub fn answer_from(bytes: &[u8]) -> Option<(Answer, usize)>
    ensures { ReadsFirst answer_bytes IsAnswer bytes.now result }
{
    match bytes {
        [REFUSED, ..] => Some((Answer::Refused, 1)),
        [VALUE, ..] if bytes.len() >= 9 => Some((Answer::Value(u64_at(bytes, 1)), 9)),
        _ => None,
    }
}

/// The answer that the bytes are, all of them.
pub fn whole_answer(bytes: &[u8]) -> Option<Answer>
    ensures { MatchOption result ((a : Answer) → IsAnswer a → bytes.now ≢ answer_bytes a)
        (λ a. IsAnswer a × (bytes.now ≡ answer_bytes a)) }
{
    match answer_from(bytes) {
        Some((answer, len)) => {
            if len == bytes.len() {
                Some(answer)
            } else {
                None
            }
        }
        None => None,
    }
}
