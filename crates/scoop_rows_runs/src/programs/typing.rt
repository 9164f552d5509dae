//! A user who types and waits.

use std::cell::Cell;
use std::io;
use std::io::{ErrorKind, Read, Write};

/// A user who types the next byte only when every answer is on the screen. After the last one comes the end or a fault.
#[derive(Drop)]
pub struct User<'a> {
    pub input: &'a [u8],
    pub hidden: &'a Cell<usize>,
    pub ends_in_fault: bool,
}

impl Read for User<'_> {
    fn read(&mut self, buf: &mut [u8]) -> io::Result<usize> {
        if self.hidden.get() > 0 {
            return Err(io::Error::from(ErrorKind::TimedOut));
        }
        if self.input.is_empty() && self.ends_in_fault {
            return Err(io::Error::from(ErrorKind::Other));
        }
        match (self.input, buf) {
            ([first, rest @ ..], [place, ..]) => {
                *place = *first;
                self.input = rest;
                Ok(1)
            }
            _ => Ok(0),
        }
    }
}

/// A screen with this much room, which shows flushed output.
#[derive(Drop)]
pub struct Screen<'a> {
    pub hidden: &'a Cell<usize>,
    pub room: usize,
}

impl Write for Screen<'_> {
    fn write(&mut self, buf: &[u8]) -> io::Result<usize> {
        if self.room == 0 {
            return Err(io::Error::from(ErrorKind::StorageFull));
        }
        let len = self.room.min(buf.len());
        self.room -= len;
        self.hidden.set(len);
        Ok(len)
    }

    fn flush(&mut self) -> io::Result<()> {
        self.hidden.set(0);
        Ok(())
    }
}
