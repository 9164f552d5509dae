//! Notes that come at most once a second.

ghost use Rattle.std.specs.Prelude.{◌≡◌};
ghost use Rattle.scoop_pacing.specs.Notes.{may_note};

use crate::times::Times;
use std::io;
use std::io::Write;

// The time between two lines, in microseconds.
const BETWEEN: u64 = 1_000_000;

/// A writer that passes on at most one line a second, and drops the others. A flush ends a line. The writer puts the
/// number of dropped lines, if there are any, before the next line that passes.
#[derive(Drop)]
pub struct SlowNotes<W: Write + Drop, C: Times> {
    inner: W,
    clock: C,
    // When the last line passed.
    last: Option<u64>,
    // Whether the line that was begun passes.
    passes: Option<bool>,
    left_out: u64,
}

// Whether a line passes at this time.
fn may_note(last: Option<u64>, now: u64) -> bool
    ensures { result ≡ may_note last now }
{
    match last {
        Some(last) => now.saturating_sub(last) >= BETWEEN,
        None => true,
    }
}

impl<W: Write + Drop, C: Times> SlowNotes<W, C> {
    /// Passes lines on to this writer, by this clock.
    pub fn new(inner: W, clock: C) -> SlowNotes<W, C> {
        SlowNotes {
            inner,
            clock,
            last: None,
            passes: None,
            left_out: 0,
        }
    }

    // Whether the line passes. Its first part decides.
    fn passes(&mut self) -> io::Result<bool> {
        if let Some(passes) = self.passes {
            return Ok(passes);
        }
        let now = self.clock.now();
        let passes = may_note(self.last, now);
        self.passes = Some(passes);
        if passes {
            self.last = Some(now);
            self.tell_left_out()?;
        } else {
            self.left_out = self.left_out.saturating_add(1);
        }
        Ok(passes)
    }

    // Writes how many lines were left out, if there were any.
    fn tell_left_out(&mut self) -> io::Result<()> {
        let count = self.left_out;
        self.left_out = 0;
        if count == 0 {
            return Ok(());
        }
        writeln!(
            self.inner,
            "scoop: {count} more lines like the next one were left out"
        )
    }
}

impl<W: Write + Drop, C: Times> Write for SlowNotes<W, C> {
    fn write(&mut self, bytes: &[u8]) -> io::Result<usize> {
        if self.passes()? {
            self.inner.write(bytes)
        } else {
            Ok(bytes.len())
        }
    }

    fn flush(&mut self) -> io::Result<()> {
        match self.passes.take() {
            Some(true) => self.inner.flush(),
            _ => Ok(()),
        }
    }
}
