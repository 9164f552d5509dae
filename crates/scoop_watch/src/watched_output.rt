//! The output of a node, whose lines say that the node was opened.

use crate::event::Event;
use crate::watch::Watch;
use std::io;
use std::io::Write;
use std::sync::Wait;

// The ends of the lines that a node writes when it was opened again and when it has closed.
const REOPENED: &[u8] = b"reopened\n";

const CLOSED: &[u8] = b"closed\n";

const TAIL_LEN: usize = 9;

/// The output of a node, which writes and flushes a line when it is ready, at each reopening and at its end. It passes all on,
/// and notes what each line says.
#[derive(Drop)]
pub struct WatchedOutput<'a, W, R> {
    inner: W,
    rt: &'a R,
    watch: &'a Watch,
    // The last bytes that were written, and whether any were since the last flush.
    tail: [u8; TAIL_LEN],
    has_line: bool,
}

impl<'a, W: Write, R: Wait> WatchedOutput<'a, W, R> {
    /// Watches this output.
    pub fn new(inner: W, rt: &'a R, watch: &'a Watch) -> WatchedOutput<'a, W, R> {
        WatchedOutput {
            inner,
            rt,
            watch,
            tail: [0; TAIL_LEN],
            has_line: false,
        }
    }

    // The event that the written line tells.
    fn line(&self) -> Event {
        if self.tail.as_slice() == REOPENED {
            Event::Reopened
        } else if self.tail.ends_with(CLOSED) {
            Event::Closed
        } else {
            Event::Opened
        }
    }
}

// The last bytes, after these were written too.
fn push_all(tail: &mut [u8; TAIL_LEN], bytes: &[u8]) {
    for byte in bytes {
        tail.rotate_left(1);
        tail[TAIL_LEN - 1] = *byte;
    }
}

impl<'a, W: Write, R: Wait> Write for WatchedOutput<'a, W, R> {
    fn write(&mut self, bytes: &[u8]) -> io::Result<usize> {
        let len = self.inner.write(bytes)?;
        push_all(&mut self.tail, &bytes[..len]);
        self.has_line = true;
        Ok(len)
    }

    fn flush(&mut self) -> io::Result<()> {
        self.inner.flush()?;
        if self.has_line {
            self.has_line = false;
            self.watch.tell_line(self.rt, self.line());
        }
        Ok(())
    }
}
