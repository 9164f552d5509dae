//! Printed classes of a system.

ghost use Rattle.std.specs.Prelude.{◌++◌, codes, OnOk};
ghost use Rattle.std.specs.Io.KnownBytes.{Appends};
ghost use Rattle.scoop_system.specs.SystemText.{classes_text, class_text, words_text, rows_text, row_text, effect_text, test_text, writes_text};
ghost use Rattle.scoop_system.specs.SystemText.{more_writes_text, write_text, term_text, test_formula_text};
ghost use Rattle.scoop_system.specs.ReadBack.{ReadsTest, ReadsWrite};

use crate::class::{OwnClass, OwnOperation};
use crate::name::Name;
use scoop_object::{OpRow, Term, Write as WordWrite};
use std::io;
use std::io::Write;

// The classes of a system's own.
pub(super) fn print_classes<W: Write>(classes: &[OwnClass], writer: &mut W) -> io::Result<()>
    ensures { OnOk result (Appends (W.contents writer.old) (W.contents writer.new) (classes_text classes.now)) }
{
    match classes {
        [] => Ok(()),
        [first, rest @ ..] => {
            print_class(first, writer)?;
            print_classes(rest, writer)
        }
    }
}

/// Writes a class: a line of its name and its number of words, and a line for each operation.
pub fn print_class<W: Write>(class: &OwnClass, writer: &mut W) -> io::Result<()>
    ensures { OnOk result (Appends (W.contents writer.old) (W.contents writer.new) (class_text class.now)) }
{
    let name = class.name();
    write!(writer, "class {name} ")?;
    print_words(class.class().words(), writer)?;
    print_rows(class.class().rows(), class.operations(), writer)
}

fn print_words<W: Write>(words: usize, writer: &mut W) -> io::Result<()>
    ensures { OnOk result (Appends (W.contents writer.old) (W.contents writer.new) (words_text words ++ codes "\n")) }
{
    if words == 1 {
        writer.write_all(b"1 word\n")
    } else {
        writeln!(writer, "{words} words")
    }
}

// The operations, each with its name.
fn print_rows<W: Write>(
    rows: &[OpRow],
    operations: &[OwnOperation],
    writer: &mut W,
) -> io::Result<()>
    ensures { OnOk result (Appends (W.contents writer.old) (W.contents writer.new) (rows_text rows.now operations.now)) }
{
    match rows {
        [] => Ok(()),
        [row, more_rows @ ..] => match operations {
            [] => Ok(()),
            [operation, more_operations @ ..] => {
                print_row(row, operation.name, writer)?;
                print_rows(more_rows, more_operations, writer)
            }
        },
    }
}

#[tactic(auto, unfolding(crate::specs::SystemText::row_text))]
fn print_row<W: Write>(row: &OpRow, name: Name, writer: &mut W) -> io::Result<()>
    ensures { OnOk result (Appends (W.contents writer.old) (W.contents writer.new) (row_text row.now name)) }
{
    let number = row.op;
    write!(writer, "  {number} {name}: ")?;
    print_test(row.test, writer)?;
    print_effect(row, writer)
}

// The writes and the answer.
fn print_effect<W: Write>(row: &OpRow, writer: &mut W) -> io::Result<()>
    ensures { OnOk result (Appends (W.contents writer.old) (W.contents writer.new) (effect_text row.now)) }
{
    print_writes(row.writes.as_slice(), writer)?;
    print_term(row.answer, writer)?;
    writer.write_all(b"\n")
}

fn print_test<W: Write>(test: Option<(Term, Term)>, writer: &mut W) -> io::Result<()>
    ensures { OnOk result (Appends (W.contents writer.old) (W.contents writer.new) (test_text test)) }
{
    match test {
        None => Ok(()),
        Some((left, right)) => {
            print_formula(left, right, writer)?;
            writer.write_all(b"; ")
        }
    }
}

// The formula of a test, which can be read back.
fn print_formula<W: Write>(left: Term, right: Term, writer: &mut W) -> io::Result<()>
    ensures text { OnOk result (Appends (W.contents writer.old) (W.contents writer.new) (test_formula_text (left, right))) }
    ensures read { ReadsTest (left, right) }
{
    print_term(left, writer)?;
    writer.write_all(b" <= ")?;
    print_term(right, writer)
}

fn print_writes<W: Write>(writes: &[WordWrite], writer: &mut W) -> io::Result<()>
    ensures { OnOk result (Appends (W.contents writer.old) (W.contents writer.new) (writes_text writes.now)) }
{
    match writes {
        [] => Ok(()),
        [first, rest @ ..] => {
            print_write(first, writer)?;
            print_more_writes(rest, writer)
        }
    }
}

// The writes after the first one.
fn print_more_writes<W: Write>(writes: &[WordWrite], writer: &mut W) -> io::Result<()>
    ensures { OnOk result (Appends (W.contents writer.old) (W.contents writer.new) (more_writes_text writes.now)) }
{
    match writes {
        [] => writer.write_all(b"; "),
        [first, rest @ ..] => {
            writer.write_all(b", ")?;
            print_write(first, writer)?;
            print_more_writes(rest, writer)
        }
    }
}

// The formula of a write, which can be read back.
#[tactic(auto, using(crate::proofs::FormulaLemmas::reads_write))]
fn print_write<W: Write>(write: &WordWrite, writer: &mut W) -> io::Result<()>
    ensures text { OnOk result (Appends (W.contents writer.old) (W.contents writer.new) (write_text write.now)) }
    ensures read { ReadsWrite write.now }
{
    let word = write.word;
    write!(writer, "w{word} := ")?;
    print_term(write.base, writer)?;
    writer.write_all(b" + ")?;
    print_term(write.plus, writer)?;
    writer.write_all(b" - ")?;
    print_term(write.minus, writer)
}

fn print_term<W: Write>(term: Term, writer: &mut W) -> io::Result<()>
    ensures { OnOk result (Appends (W.contents writer.old) (W.contents writer.new) (term_text term)) }
{
    match term {
        Term::Const(number) => write!(writer, "{number}"),
        Term::Word(place) => write!(writer, "w{place}"),
        Term::Arg(place) => write!(writer, "a{place}"),
    }
}
