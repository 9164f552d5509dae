//! A journal that lines are appended to.

ghost use Rattle.std.specs.Prelude.{◌≡◌, ◌++◌, true, false, [], Err, OnOk, OnErr, IfErr};
ghost use Rattle.std.specs.Io.KnownBytes.{Appends};
ghost use Rattle.scoop_journal.specs.Line.{FitsLine};
ghost use Rattle.scoop_journal.specs.Journal.{Commits, IsGatherError, ended, journal_state};

use crate::line::Line;
use crate::writing::write;
use scoop_message::OutOfMemory;
use std::alloc::{Allocator, Global};
use std::io::Write;
use std::marker::Model;
use thiserror::Error;

/// Why a line isn't appended. Nothing of it is written, but after `Write` a part may be.
#[derive(Clone, Copy, Debug, PartialEq, Eq, Error)]
pub enum AppendError {
    /// A growth of memory was refused.
    #[error("out of memory")]
    OutOfMemory,
    /// A message of the line has no frame.
    #[error("a message has no frame")]
    NoFrame,
    /// The writer failed, at this line or an earlier one.
    #[error("write fault")]
    Write,
}

impl From<OutOfMemory> for AppendError {
    fn from(_: OutOfMemory) -> AppendError {
        AppendError::OutOfMemory
    }
}

/// A journal that lines are appended to. Lines are gathered first, and then written by one call of the writer. After the
/// writer failed, or it was given up, it writes no more, so that nothing follows a line that may be broken or is lost.
#[derive(Drop)]
pub struct Journal<W, A: Allocator = Global> {
    writer: W,
    text: Vec<u8, A>,
    has_failed: bool,
}

impl<W, A: Allocator> Model for Journal<W, A> {
    ghost use Rattle.scoop_journal.specs.Journal.{JournalState, journal_state};

    ghost Value = { JournalState W };

    ghost view = { λ j. journal_state j.writer j.text.items j.has_failed };
}

impl<W: Write + Drop, A: Allocator> Journal<W, A> {
    /// A journal over this writer.
    pub fn new(alloc: A, writer: W) -> Journal<W, A>
        ensures { result ≡ journal_state writer [] false }
    {
        Journal {
            writer,
            text: Vec::new(alloc),
            has_failed: false,
        }
    }

    /// Whether the writer failed, or the journal was given up.
    pub fn has_failed(&self) -> bool
        ensures { result ≡ self.now.has_failed }
    {
        self.has_failed
    }

    /// Adds the text of a line to those that are gathered. If it is refused, none is gathered any more.
    ///
    /// Refused: `OutOfMemory`; `NoFrame` if a message of the line doesn't fit.
    pub fn gather(&mut self, line: &Line<'_>) -> Result<(), AppendError>
        ensures gathered { OnOk result (self.new.text ≡ self.old.text ++ ended line.now) }
        ensures fits { OnOk result (FitsLine line.now) }
        ensures forgotten { OnErr result (self.new.text ≡ []) }
        ensures named { IfErr result IsGatherError }
        ensures writer { self.new.writer ≡ self.old.writer }
        ensures failed { self.new.has_failed ≡ self.old.has_failed }
    {
        match gather(line, &mut self.text) {
            Ok(()) => Ok(()),
            Err(error) => {
                self.text.clear();
                Err(error)
            }
        }
    }

    /// Forgets the gathered lines.
    pub fn forget(&mut self)
        ensures { self.new ≡ journal_state self.old.writer [] self.old.has_failed }
    {
        self.text.clear();
    }

    /// Forgets the gathered lines, and writes no more: after a line that is lost, none may follow.
    pub fn give_up(&mut self)
        ensures { self.new ≡ journal_state self.old.writer [] true }
    {
        self.text.clear();
        self.has_failed = true;
    }

    /// Writes the gathered lines by one call of the writer, and flushes it. None is gathered after that.
    ///
    /// Refused: `Write` if the writer fails or failed before, or the journal was given up.
    pub fn commit(&mut self) -> Result<(), AppendError>
        ensures written { OnOk result (Commits W.contents self.old self.new self.old.text) }
        ensures named { IfErr result (λ e. e ≡ AppendError.Write) }
        ensures failed { OnErr result (self.new.has_failed ≡ true) }
        ensures silent { self.old.has_failed ≡ true → self.new.writer ≡ self.old.writer }
        ensures forgotten { self.new.text ≡ [] }
    {
        let written = if self.has_failed {
            Err(AppendError::Write)
        } else {
            write_out(&mut self.writer, &self.text)
        };
        self.text.clear();
        match written {
            Ok(()) => Ok(()),
            Err(error) => {
                self.has_failed = true;
                Err(error)
            }
        }
    }

    /// Gathers a line, and commits.
    ///
    /// Refused as `gather` and `commit` are.
    pub fn append(&mut self, line: &Line<'_>) -> Result<(), AppendError>
        ensures written { OnOk result (Commits W.contents self.old self.new (self.old.text ++ ended line.now)) }
        ensures fits { OnOk result (FitsLine line.now) }
        ensures failed { result ≡ Err AppendError.Write → self.new.has_failed ≡ true }
        ensures silent { self.old.has_failed ≡ true → self.new.writer ≡ self.old.writer }
        ensures forgotten { self.new.text ≡ [] }
    {
        match self.gather(line) {
            Ok(()) => self.commit(),
            Err(error) => Err(error),
        }
    }
}

fn gather<A: Allocator>(line: &Line<'_>, text: &mut Vec<u8, A>) -> Result<(), AppendError>
    ensures gathered { OnOk result (text.new.items ≡ text.old.items ++ ended line.now) }
    ensures fits { OnOk result (FitsLine line.now) }
    ensures named { IfErr result IsGatherError }
{
    if !line.fits() {
        return Err(AppendError::NoFrame);
    }
    match write(line, text) {
        Ok(()) => Ok(()),
        Err(_) => Err(AppendError::OutOfMemory),
    }
}

fn write_out<W: Write>(writer: &mut W, text: &[u8]) -> Result<(), AppendError>
    ensures written { OnOk result (Appends (W.contents writer.old) (W.contents writer.new) text.now) }
    ensures named { IfErr result (λ e. e ≡ AppendError.Write) }
{
    match writer.write_all(text) {
        Ok(()) => {}
        Err(_) => return Err(AppendError::Write),
    }
    match writer.flush() {
        Ok(()) => Ok(()),
        Err(_) => Err(AppendError::Write),
    }
}
