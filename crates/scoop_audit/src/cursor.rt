//! The lines of a journal, one after another.

ghost use Rattle.std.specs.Prelude.{◌≡◌, ◌++◌, ◌∷◌, IfErr, IfOk, MatchOption};
ghost use Rattle.scoop_journal.specs.Journal.{ended};
ghost use Rattle.scoop_journal.specs.Line.{text_of};
ghost use Rattle.scoop_audit.specs.Lines.{HasNoNewline};
ghost use Rattle.scoop_audit.specs.Wrong.{IsNotWrong};

use crate::error::{Fault, Trouble};
use memchr::memchr;
use scoop_journal::{Line, read};

/// A place between two lines of a journal. A last line without a newline doesn't count: it wasn't written to its end.
#[derive(Clone, Copy)]
pub(crate) struct Cursor<'a> {
    pub(crate) rest: &'a [u8],
    /// The number of lines before this place.
    pub(crate) number: u64,
}

impl<'a> Cursor<'a> {
    /// Before the first line.
    pub(crate) fn new(bytes: &'a [u8]) -> Cursor<'a>
        ensures { result.rest.now ≡ bytes.now }
    {
        Cursor {
            rest: bytes,
            number: 0,
        }
    }

    /// Whether the next line begins a life, if it is one.
    pub(crate) fn begins_life(&self) -> bool {
        self.rest.starts_with(b"scoop")
    }

    /// The text of the next line, without its newline.
    pub(crate) fn next_text(&mut self) -> Option<&'a [u8]>
        ensures { MatchOption result (HasNoNewline self.old.rest.now) (λ text. self.old.rest.now ≡ text.now ++ 10 ∷ self.new.rest.now) }
    {
        let rest = self.rest;
        let end = memchr(b'\n', rest)?;
        self.rest = &rest[end + 1..];
        self.number = self.number.saturating_add(1);
        Some(&rest[..end])
    }

    /// The next line, if there is one. The fault of a text that is no line has its number.
    pub(crate) fn next(&mut self) -> Result<Option<Line<'a>>, Trouble>
        ensures fault { IfErr result IsNotWrong }
        ensures next { IfOk result (λ o. MatchOption o (HasNoNewline self.old.rest.now) (λ l. self.old.rest.now ≡ ended l ++ self.new.rest.now)) }
    {
        let Some(text) = self.next_text() else {
            return Ok(None);
        };
        match read_line(self.number, text) {
            Ok(line) => Ok(Some(line)),
            Err(trouble) => Err(trouble),
        }
    }
}

/// The line of this number with this text.
pub(crate) fn read_line(number: u64, text: &[u8]) -> Result<Line<'_>, Trouble>
    ensures fault { IfErr result IsNotWrong }
    ensures line { IfOk result (λ l. text.now ≡ text_of l) }
{
    match read(text) {
        Ok(line) => Ok(line),
        Err(fault) => Err(Trouble::Fault(number, Fault::Line(fault))),
    }
}
