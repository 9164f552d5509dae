//! A client's lines in a text.

ghost use Rattle.std.specs.Prelude.{⊤};

use scoop_lines::{LineBytes, LineSource, Lines, LinesError, SourceError, SourceFault};
use scoop_runtime::Interrupt;
use std::io;

/// The lines of a text. They stand there from the beginning, so none of them ends a wait.
#[derive(Drop)]
pub struct TextLines<'a> {
    lines: Lines<&'a [u8]>,
}

impl<'a> TextLines<'a> {
    pub fn new(text: &'a [u8]) -> TextLines<'a> {
        TextLines {
            lines: Lines::new(text),
        }
    }
}

impl LineSource for TextLines<'_> {
    fn next_line(&mut self, line: &mut LineBytes) -> Result<Option<u32>, SourceError> {
        match self.lines.next_line(line, &mut io::sink()) {
            Ok(true) => Ok(Some(self.lines.number())),
            Ok(false) => Ok(None),
            Err(LinesError::Source(error)) => Err(error),
            Err(LinesError::Flush) => Err(SourceError {
                line: self.lines.number(),
                fault: SourceFault::ReadFault,
            }),
        }
    }
}

impl Interrupt for TextLines<'_> {
    ghost stops = { λ _ _ _. ⊤ };

    fn stops(&mut self) -> bool {
        false
    }
}
