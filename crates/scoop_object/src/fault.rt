//! Why rows don't make a class.

ghost use Rattle.std.specs.Prelude.{◌≡◌, ◌==◌};
ghost use Rattle.std.specs.List.{list_any, list_all};
ghost use Rattle.scoop_object.specs.Class.{has_words_below, has_args_below, writes_twice, fault_of};
ghost use Rattle.scoop_object.specs.Repeats.{repeats};

use crate::row::OpRow;
use scoop_message::limits::{MAX_ARGS, MAX_OPS};
use thiserror::Error;

/// Why rows don't make a class: the first of these reasons that applies.
#[derive(Clone, Copy, Debug, PartialEq, Eq, Error)]
pub enum ClassError {
    /// There are more than 32 operations.
    #[error("TooManyOps")]
    TooManyOps,
    /// An operation writes, or names in a term, a word that the class doesn't have.
    #[error("WordOutOfRange")]
    WordOutOfRange,
    /// A term names an argument above the fourth.
    #[error("ArgOutOfRange")]
    ArgOutOfRange,
    /// Two operations have one number.
    #[error("RepeatedOp")]
    RepeatedOp,
    /// An operation writes a word twice.
    #[error("RepeatedWrite")]
    RepeatedWrite,
    /// A growth of memory was refused.
    #[error("out of memory")]
    OutOfMemory,
}

// The first reason why the rows make no class for this number of words, memory aside.
pub(crate) fn fault_of(words: u8, rows: &[OpRow]) -> Option<ClassError>
    ensures { result ≡ fault_of words rows.now }
{
    if rows.len() > MAX_OPS {
        Some(ClassError::TooManyOps)
    } else if !all_have_words_below(rows, usize::from(words)) {
        Some(ClassError::WordOutOfRange)
    } else if !all_have_args_below(rows, MAX_ARGS) {
        Some(ClassError::ArgOutOfRange)
    } else if repeats_op(rows) {
        Some(ClassError::RepeatedOp)
    } else if any_writes_twice(rows) {
        Some(ClassError::RepeatedWrite)
    } else {
        None
    }
}

fn all_have_words_below(rows: &[OpRow], n: usize) -> bool
    ensures { result ≡ list_all (has_words_below n) rows.now }
{
    rows.iter().all(|row| row.has_words_below(n))
}

fn all_have_args_below(rows: &[OpRow], n: usize) -> bool
    ensures { result ≡ list_all (has_args_below n) rows.now }
{
    rows.iter().all(|row| row.has_args_below(n))
}

// Whether two of the operations have one number.
fn repeats_op(rows: &[OpRow]) -> bool
    ensures { result ≡ repeats (λ row. row.op) rows.now }
{
    match rows {
        [] => false,
        [first, rest @ ..] => has_op(rest, first.op) || repeats_op(rest),
    }
}

fn has_op(rows: &[OpRow], op: u16) -> bool
    ensures { result ≡ list_any (λ row. row.op == op) rows.now }
{
    rows.iter().any(|row| row.op == op)
}

fn any_writes_twice(rows: &[OpRow]) -> bool
    ensures { result ≡ list_any writes_twice rows.now }
{
    rows.iter().any(|row| row.writes_twice())
}
