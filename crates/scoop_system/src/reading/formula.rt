//! Tests and writes as formulas: `a0 <= w0`, `w0 = w0 + a0 - a1`.

ghost use Rattle.std.specs.Prelude.{◌≡◌, ◌≤◌, ◌∷◌, [], None, Some, MatchOption};
ghost use Rattle.scoop_message.specs.declared.limits.TheConstants.{MAX_WORDS};
ghost use Rattle.scoop_lines.specs.Words.{words_of};
ghost use Rattle.scoop_system.specs.Formulas.{test_words, write_words, after_base, signed, is_assignment};
ghost use Rattle.scoop_system.specs.Terms.{test_formula, write_formula};

use super::term::{read_term, read_word, test_of, write_of};
use crate::error::Wrong;
use crate::name::Name;
use scoop_lines::{is, next_word};
use scoop_object::{Term, Write};

// The words of a write.
#[derive(Clone, Copy)]
struct WriteWords<'a> {
    word: &'a [u8],
    base: &'a [u8],
    plus: &'a [u8],
    minus: &'a [u8],
}

// The test that a formula writes.
pub(super) fn read_test(text: &str, words: usize) -> Result<Option<(Term, Term)>, Wrong>
    requires { words ≤ MAX_WORDS }
    ensures { result ≡ test_formula words text.now }
{
    match test_words(text.as_bytes()) {
        Some((left, right)) => test_of(read_term(left, words), read_term(right, words)),
        None => Err(Wrong::NotATestFormula(Name::told(text))),
    }
}

// The two terms of `LEFT <= RIGHT`.
fn test_words(text: &[u8]) -> Option<(&[u8], &[u8])>
    ensures { MatchOption result (test_words (words_of text.now) ≡ None) (λ w. test_words (words_of text.now) ≡ Some (w.0.now, w.1.now)) }
{
    let (left, rest) = next_word(text)?;
    let (sign, rest) = next_word(rest)?;
    let (right, rest) = next_word(rest)?;
    match next_word(rest) {
        None => of_sign(sign, left, right),
        Some(_) => None,
    }
}

// The two terms, if `<=` stands between them.
fn of_sign<'a>(sign: &[u8], left: &'a [u8], right: &'a [u8]) -> Option<(&'a [u8], &'a [u8])>
    ensures { MatchOption result (test_words (left.now ∷ sign.now ∷ right.now ∷ []) ≡ None)
        (λ w. test_words (left.now ∷ sign.now ∷ right.now ∷ []) ≡ Some (w.0.now, w.1.now)) }
{
    if is(sign, "<=") {
        Some((left, right))
    } else {
        None
    }
}

// The write that a formula writes.
pub(super) fn read_write(text: &str, words: usize) -> Result<Write, Wrong>
    requires { words ≤ MAX_WORDS }
    ensures { result ≡ write_formula words text.now }
{
    match write_words(text.as_bytes()) {
        Some(write) => write_of(
            read_word(write.word, words),
            read_term(write.base, words),
            read_term(write.plus, words),
            read_term(write.minus, words),
        ),
        None => Err(Wrong::NotAWriteFormula(Name::told(text))),
    }
}

// The words of `WORD = BASE + PLUS - MINUS`.
fn write_words(text: &[u8]) -> Option<WriteWords<'_>>
    ensures { MatchOption result (write_words (words_of text.now) ≡ None)
        (λ w. write_words (words_of text.now) ≡ Some (w.word.now, w.base.now, w.plus.now, w.minus.now)) }
{
    let (word, rest) = next_word(text)?;
    let (sign, rest) = next_word(rest)?;
    let (base, rest) = next_word(rest)?;
    if is_assignment(sign) {
        after_base(word, base, rest)
    } else {
        None
    }
}

fn is_assignment(sign: &[u8]) -> bool
    ensures { result ≡ is_assignment sign.now }
{
    is(sign, "=") || is(sign, ":=")
}

// The words of a write of this word, after its base.
fn after_base<'a>(word: &'a [u8], base: &'a [u8], line: &'a [u8]) -> Option<WriteWords<'a>>
    ensures { MatchOption result (after_base word.now base.now (words_of line.now) ≡ None)
        (λ w. after_base word.now base.now (words_of line.now) ≡ Some (w.word.now, w.base.now, w.plus.now, w.minus.now)) }
{
    let (plus, rest) = signed(line, "+")?;
    let (minus, rest) = signed(rest, "-")?;
    match next_word(rest) {
        None => Some(WriteWords {
            word,
            base,
            plus,
            minus,
        }),
        Some(_) => None,
    }
}

// The word after this sign, and the line after it. If the line doesn't begin with the sign: `0`, and all of the line.
fn signed<'a>(line: &'a [u8], sign: &str) -> Option<(&'a [u8], &'a [u8])>
    ensures { MatchOption result (signed sign.now (words_of line.now) ≡ None) (λ s. signed sign.now (words_of line.now) ≡ Some (s.0.now, words_of s.1.now)) }
{
    match next_word(line) {
        Some((word, rest)) if is(word, sign) => next_word(rest),
        _ => Some((b"0", line)),
    }
}
