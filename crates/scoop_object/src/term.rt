//! The terms that an operation computes with, and its writes.

ghost use Rattle.std.specs.Prelude.{◌≡◌};

/// A number that an operation computes with. Words and arguments are counted from 0.
#[derive(Clone, Copy, Debug, PartialEq, Eq)]
pub enum Term {
    /// This number.
    Const(u64),
    /// The word of the object at this place.
    Word(u8),
    /// The argument of the request at this place.
    Arg(u8),
}

/// Sets the word at a place to `base + plus - minus`, which is clamped to 0 .. 2^64 - 1.
#[derive(Clone, Copy, Debug, PartialEq, Eq)]
pub struct Write {
    /// The place of the word, counted from 0.
    pub word: u8,
    pub base: Term,
    pub plus: Term,
    pub minus: Term,
}

impl Term {
    ghost use Rattle.scoop_object.specs.Class.{is_word_below, is_arg_below};

    // Whether the term names one of the first `n` words, or no word.
    pub(crate) fn is_word_below(self, n: usize) -> bool
        ensures { result ≡ is_word_below n self }
    {
        match self {
            Term::Word(i) => usize::from(i) < n,
            Term::Const(_) | Term::Arg(_) => true,
        }
    }

    // Whether the term names one of the first `n` arguments, or no argument.
    pub(crate) fn is_arg_below(self, n: usize) -> bool
        ensures { result ≡ is_arg_below n self }
    {
        match self {
            Term::Arg(i) => usize::from(i) < n,
            Term::Const(_) | Term::Word(_) => true,
        }
    }
}

impl Write {
    ghost use Rattle.scoop_object.specs.Class.{write_has_words_below, write_has_args_below};

    // Whether the write names words among the first `n` alone.
    pub(crate) fn has_words_below(&self, n: usize) -> bool
        ensures { result ≡ write_has_words_below n self.now }
    {
        usize::from(self.word) < n
            && self.base.is_word_below(n)
            && self.plus.is_word_below(n)
            && self.minus.is_word_below(n)
    }

    // Whether the write names arguments among the first `n` alone.
    pub(crate) fn has_args_below(&self, n: usize) -> bool
        ensures { result ≡ write_has_args_below n self.now }
    {
        self.base.is_arg_below(n) && self.plus.is_arg_below(n) && self.minus.is_arg_below(n)
    }
}
