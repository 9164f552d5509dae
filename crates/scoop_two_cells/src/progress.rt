//! The line that shows how many rounds the clients have done.

ghost use Rattle.std.specs.Prelude.{OnOk};
ghost use Rattle.std.specs.Io.KnownBytes.{Appends};
ghost use Rattle.scoop_two_cells.specs.Outcomes.{progress_text};

use crate::plan::{EIGHT, SEVEN};
use scoop_message::ClientId;
use std::io;
use std::io::Write;
use std::sync::{Mutex, Wait};

// The rounds that each client has done, of `all`.
#[derive(Clone, Copy)]
struct Rounds {
    seven: u64,
    eight: u64,
    all: u64,
}

impl Rounds {
    // Sets the rounds of a client.
    fn set(&mut self, client: ClientId, done: u64) {
        if client == SEVEN {
            self.seven = done;
        } else if client == EIGHT {
            self.eight = done;
        }
    }
}

#[derive(Drop)]
struct Line<W: Write + Drop> {
    writer: Option<W>,
    rounds: Rounds,
}

/// A line that the clients' threads rewrite after each round, if there is a writer. After a write fails it writes no
/// more.
#[derive(Drop)]
pub(crate) struct Progress<W: Write + Drop> {
    line: Mutex<Line<W>>,
}

// Writes the line over the one before it.
fn print_progress<W: Write>(rounds: &Rounds, writer: &mut W) -> io::Result<()>
    ensures { OnOk result (Appends (W.contents writer.old) (W.contents writer.new) (progress_text rounds.now.seven rounds.now.eight rounds.now.all)) }
{
    let Rounds { seven, eight, all } = *rounds;
    write!(
        writer,
        "\rclient 7: {seven} of {all} rounds, client 8: {eight} of {all} rounds"
    )
}

impl<W: Write + Drop> Line<W> {
    // Writes the line and a tail.
    fn show(&mut self, tail: &[u8]) {
        let rounds = self.rounds;
        let Some(writer) = &mut self.writer else {
            return;
        };
        let shown = print_line(&rounds, tail, writer);
        if shown.is_err() {
            self.writer = None;
        }
    }
}

fn print_line<W: Write>(rounds: &Rounds, tail: &[u8], writer: &mut W) -> io::Result<()> {
    print_progress(rounds, writer)?;
    writer.write_all(tail)?;
    writer.flush()
}

impl<W: Write + Drop> Progress<W> {
    /// A line over this writer, if there is one, with no round done.
    pub(crate) fn new(writer: Option<W>, all: u64) -> Progress<W> {
        let rounds = Rounds {
            seven: 0,
            eight: 0,
            all,
        };
        Progress {
            line: Mutex::new(Line { writer, rounds }),
        }
    }

    /// Shows that this client has done this many rounds.
    pub(crate) fn tell<R: Wait>(&self, rt: &R, client: ClientId, done: u64) {
        let mut line = self.line.lock(rt);
        line.rounds.set(client, done);
        line.show(b"");
    }

    /// Ends the line.
    pub(crate) fn finish(self) {
        let mut line = self.line.into_inner();
        line.show(b"\n");
    }
}
