//! The outcome of a demo, and its text.

ghost use Rattle.std.specs.Prelude.{◌≡◌, OnOk};
ghost use Rattle.std.specs.Io.KnownBytes.{Appends};
ghost use Rattle.scoop_two_cells.specs.Outcomes.{are_same, cells_text, is_unsent, outcome_status, outcome_text, party_text, wait_text, unsent_text, woven_text};

use scoop_message::Answer;
use std::io;
use std::io::Write;

/// The outcome of client 8's wait for the balance.
#[derive(Clone, Copy, Debug, PartialEq, Eq)]
pub enum Waited {
    /// Client 8 withdrew, and client 9 read this balance.
    Balance(Answer),
    /// The balance never sufficed.
    ConditionFailed,
}

/// Whether one order of all that nodes and clients did has each message sent before it is heard.
#[derive(Clone, Copy, Debug, PartialEq, Eq)]
pub enum Woven {
    /// There is one, of this many moves.
    Moves(usize),
    /// There is none: this party's move at this place hears a message that no party sent before. Both are counted from
    /// 0; the parties are nodes 1 and 2 and clients 7, 8 and 9.
    Unsent(usize, usize),
}

/// The outcome of a demo. Both nodes were closed at its end.
#[derive(Clone, Copy, Debug, PartialEq, Eq)]
pub struct Outcome {
    /// The outcome of the wait, if the demo has one.
    pub waited: Option<Waited>,
    /// The value of the first cell, which client 9 read.
    pub first: Answer,
    /// The value of the second cell, read in the same block.
    pub second: Answer,
    /// The result of the search for an order, if the demo has one.
    pub woven: Option<Woven>,
}

// Whether both are the same value.
fn are_same(first: Answer, second: Answer) -> bool
    ensures { result ≡ are_same first second }
{
    match (first, second) {
        (Answer::Value(first), Answer::Value(second)) => first == second,
        (Answer::Refused, _) | (_, Answer::Refused) => false,
    }
}

// Whether the search for an order found none.
fn is_unsent(woven: Option<Woven>) -> bool
    ensures { result ≡ is_unsent woven }
{
    matches!(woven, Some(Woven::Unsent(_, _)))
}

impl Outcome {
    /// The program's exit status: 1 if the cells hold different values, client 8 waited in vain, or no order was found;
    /// else 0.
    pub fn status(&self) -> u8
        ensures { result ≡ outcome_status self.now }
    {
        let failed = self.waited == Some(Waited::ConditionFailed);
        if failed || !are_same(self.first, self.second) || is_unsent(self.woven) {
            1
        } else {
            0
        }
    }
}

// Writes the line of the wait, if there was one.
fn print_wait<W: Write>(waited: Option<Waited>, writer: &mut W) -> io::Result<()>
    ensures { OnOk result (Appends (W.contents writer.old) (W.contents writer.new) (wait_text waited)) }
{
    match waited {
        None => Ok(()),
        Some(Waited::Balance(balance)) => writeln!(writer, "balance {balance}"),
        Some(Waited::ConditionFailed) => writeln!(writer, "condition failed"),
    }
}

// Writes the line of the cells.
fn print_cells<W: Write>(first: Answer, second: Answer, writer: &mut W) -> io::Result<()>
    ensures { OnOk result (Appends (W.contents writer.old) (W.contents writer.new) (cells_text first second)) }
{
    if are_same(first, second) {
        writeln!(writer, "cells same")
    } else {
        writeln!(writer, "cells different")
    }
}

// The name of the party at this place.
fn party_name(party: usize) -> &'static str
    ensures { result.now ≡ party_text party }
{
    match party {
        0 => "node 1",
        1 => "node 2",
        2 => "client 7",
        3 => "client 8",
        _ => "client 9",
    }
}

// Writes which move no order explains.
fn print_unsent<W: Write>(place: usize, name: &str, writer: &mut W) -> io::Result<()>
    ensures { OnOk result (Appends (W.contents writer.old) (W.contents writer.new) (unsent_text place name.now)) }
{
    writeln!(
        writer,
        "not woven: move {place} of {name} hears a message that was not sent before"
    )
}

// Writes the line of the order, if there was a search.
fn print_woven<W: Write>(woven: Option<Woven>, writer: &mut W) -> io::Result<()>
    ensures { OnOk result (Appends (W.contents writer.old) (W.contents writer.new) (woven_text woven)) }
{
    match woven {
        None => Ok(()),
        Some(Woven::Moves(count)) => writeln!(writer, "woven: {count} moves"),
        Some(Woven::Unsent(party, place)) => print_unsent(place, party_name(party), writer),
    }
}

/// Writes the outcome, each item on a line:
/// - with a wait, `balance` and the value that client 9 read, or `condition failed`;
/// - `cells same` or `cells different`;
/// - `node 1 closed` and `node 2 closed`;
/// - after a search, `woven` and the count of moves, or `not woven` and the first move that no order explains.
pub fn print_outcome<W: Write>(outcome: &Outcome, writer: &mut W) -> io::Result<()>
    ensures { OnOk result (Appends (W.contents writer.old) (W.contents writer.new) (outcome_text outcome.now)) }
{
    print_wait(outcome.waited, writer)?;
    print_cells(outcome.first, outcome.second, writer)?;
    writer.write_all(b"node 1 closed\nnode 2 closed\n")?;
    print_woven(outcome.woven, writer)
}
