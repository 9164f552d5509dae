//! One operation of a class.

ghost use Rattle.std.specs.Prelude.{◌≡◌, ◌==◌};
ghost use Rattle.std.specs.List.{list_any};
ghost use Rattle.scoop_object.specs.Repeats.{repeats};

use crate::term::{Term, Write};
use crate::writes::Writes;

/// One operation of a class.
#[derive(Clone, Copy, Debug, PartialEq, Eq)]
pub struct OpRow {
    /// The number of the operation, by which requests name it.
    pub op: u16,
    /// A request is refused if the first term is greater than the second.
    pub test: Option<(Term, Term)>,
    /// The writes. All read the words as they were before the operation.
    pub writes: Writes,
    /// The answer, which reads the words as they are after the operation.
    pub answer: Term,
}

impl OpRow {
    ghost use Rattle.scoop_object.specs.Class.{both, is_word_below, is_arg_below, has_words_below, has_args_below, writes_twice};

    // Whether the terms of the test name words among the first `n` alone.
    fn test_has_words_below(&self, n: usize) -> bool
        ensures { result ≡ both (is_word_below n) self.now.test }
    {
        match self.test {
            None => true,
            Some((left, right)) => left.is_word_below(n) && right.is_word_below(n),
        }
    }

    // Whether the terms of the test name arguments among the first `n` alone.
    fn test_has_args_below(&self, n: usize) -> bool
        ensures { result ≡ both (is_arg_below n) self.now.test }
    {
        match self.test {
            None => true,
            Some((left, right)) => left.is_arg_below(n) && right.is_arg_below(n),
        }
    }

    // Whether the operation names words among the first `n` alone.
    pub(crate) fn has_words_below(&self, n: usize) -> bool
        ensures { result ≡ has_words_below n self.now }
    {
        self.test_has_words_below(n)
            && self.writes.have_words_below(n)
            && self.answer.is_word_below(n)
    }

    // Whether the operation names arguments among the first `n` alone.
    pub(crate) fn has_args_below(&self, n: usize) -> bool
        ensures { result ≡ has_args_below n self.now }
    {
        self.test_has_args_below(n) && self.writes.have_args_below(n) && self.answer.is_arg_below(n)
    }

    // Whether two writes of the operation are of one word.
    pub(crate) fn writes_twice(&self) -> bool
        ensures { result ≡ writes_twice self.now }
    {
        repeats_word(self.writes.as_slice())
    }
}

// Whether two of the writes are of one word.
fn repeats_word(writes: &[Write]) -> bool
    ensures { result ≡ repeats (λ w. w.word) writes.now }
{
    match writes {
        [] => false,
        [first, rest @ ..] => writes_word(rest, first.word) || repeats_word(rest),
    }
}

// Whether one of the writes is of this word.
fn writes_word(writes: &[Write], word: u8) -> bool
    ensures { result ≡ list_any (λ w. w.word == word) writes.now }
{
    writes.iter().any(|w| w.word == word)
}
