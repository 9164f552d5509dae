//! The effect of a request on words, by the rows of a class.

ghost use Rattle.std.specs.Prelude.{◌≡◌, ◌==◌, find};
ghost use Rattle.std.specs.Option.{option_copied};
ghost use Rattle.scoop_object.specs.Effect.{value_of, written_value, words_after, passes, row_effect, eff};

use crate::class::Class;
use crate::row::OpRow;
use crate::term::{Term, Write};
use scoop_message::{Answer, Args, Request, Words};
use std::alloc::Allocator;

// The words of an object after a request, and the answer.
pub(crate) fn effect<A: Allocator>(
    class: &Class<A>,
    words: &Words,
    request: &Request,
) -> (Words, Answer)
    ensures { result ≡ eff class.now words.now request.now }
{
    match row_of(class.rows(), request.op) {
        Some(row) => row_effect(row, words, &request.args),
        None => (*words, Answer::Refused),
    }
}

// The row of an operation, if there is one.
fn row_of(rows: &[OpRow], op: u16) -> Option<&OpRow>
    ensures { option_copied result ≡ find (λ row. row.op == op) rows.now }
{
    rows.iter().find(|row| row.op == op)
}

// The words after an operation, and the answer.
fn row_effect(row: &OpRow, words: &Words, args: &Args) -> (Words, Answer)
    ensures { result ≡ row_effect row.now words.now args.now }
{
    if row.has_args_below(args.len()) && passes(words, args, row.test) {
        let new = words_after(words, args, row.writes.as_slice());
        (new, Answer::Value(value_of(&new, args, row.answer)))
    } else {
        (*words, Answer::Refused)
    }
}

// Whether the operation's test passes for a request.
fn passes(words: &Words, args: &Args, test: Option<(Term, Term)>) -> bool
    ensures { result ≡ passes words.now args.now test }
{
    match test {
        None => true,
        Some((left, right)) => value_of(words, args, left) <= value_of(words, args, right),
    }
}

// The words after the writes. All writes read the old words.
fn words_after(words: &Words, args: &Args, writes: &[Write]) -> Words
    ensures { result ≡ words_after words.now args.now writes.now }
{
    let mut new = *words;
    for i in 0..words.len() {
        if let Some(write) = write_of(writes, i) {
            let value = written_value(words, args, write);
            new.set(i, value);
        }
    }
    new
}

// The write of the word at a place, if there is one.
fn write_of(writes: &[Write], place: usize) -> Option<&Write>
    ensures { option_copied result ≡ find (λ w. w.word == place) writes.now }
{
    writes.iter().find(|w| usize::from(w.word) == place)
}

// The value that a write sets.
fn written_value(words: &Words, args: &Args, write: &Write) -> u64
    ensures { result ≡ written_value words.now args.now write.now }
{
    let base = u128::from(value_of(words, args, write.base));
    let plus = u128::from(value_of(words, args, write.plus));
    let minus = u128::from(value_of(words, args, write.minus));
    let value = (base + plus).saturating_sub(minus);
    value.min(u128::from(u64::MAX)) as u64
}

// The value of a term. The 0 is never taken: a class names no word that its objects lack, and a request that lacks
// an argument was refused before.
fn value_of(words: &Words, args: &Args, term: Term) -> u64
    ensures { result ≡ value_of words.now args.now term }
{
    match term {
        Term::Const(value) => value,
        Term::Word(i) => words.get(usize::from(i)).unwrap_or(0),
        Term::Arg(i) => args.get(usize::from(i)).unwrap_or(0),
    }
}
