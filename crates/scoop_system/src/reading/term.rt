//! The terms, tests and writes of an operation.

ghost use Rattle.std.specs.Prelude.{◌≡◌, ◌≤◌, ◌==◌, [], length, map, option_map};
ghost use Rattle.std.specs.List.{list_any};
ghost use Rattle.toml.specs.Data.{as_array};
ghost use Rattle.toml.specs.View.{view};
ghost use Rattle.scoop_message.specs.declared.limits.TheConstants.{MAX_WORDS, MAX_WRITES};
ghost use Rattle.scoop_lines.specs.Number.{decimal_of};
ghost use Rattle.scoop_system.specs.Terms.{term_of, word_term, argument_term, constant_term, term_in, test_in, test_at, test_of, two_terms, word_of, word_in, write_in, write_of, four_terms};
ghost use Rattle.scoop_system.specs.Terms.{written_word, next_write, writes_at, writes_from, answer_at, listed_test, listed_write};

use super::formula::{read_test, read_write};
use super::value::{entry, list_at};
use crate::error::{Key, Wrong};
use crate::name::Name;
use scoop_lines::decimal;
use scoop_message::limits::{MAX_ARGS, MAX_WRITES};
use scoop_object::{Term, Write, Writes};
use toml::Value;

// The value of an unused cell.
const BLANK: Write = Write {
    word: 0,
    base: Term::Const(0),
    plus: Term::Const(0),
    minus: Term::Const(0),
};

// A term of a class of this many words.
pub(super) fn read_term(text: &[u8], words: usize) -> Result<Term, Wrong>
    requires { words ≤ MAX_WORDS }
    ensures { result ≡ term_of words text.now }
{
    match text {
        [b'w', digits @ ..] => word_term(text, digits, words),
        [b'a', digits @ ..] => argument_term(text, digits),
        _ => constant_term(text),
    }
}

// `w` and the place of a word.
fn word_term(text: &[u8], digits: &[u8], words: usize) -> Result<Term, Wrong>
    requires { words ≤ MAX_WORDS }
    ensures { result ≡ word_term words text.now (decimal_of digits.now) }
{
    match decimal(digits) {
        Some(place) if place < words as u64 => Ok(Term::Word(place as u8)),
        Some(_) => Err(Wrong::NoSuchWord(Name::told_bytes(text))),
        None => Err(Wrong::NotATerm(Name::told_bytes(text))),
    }
}

// `a` and the place of an argument.
fn argument_term(text: &[u8], digits: &[u8]) -> Result<Term, Wrong>
    ensures { result ≡ argument_term text.now (decimal_of digits.now) }
{
    match decimal(digits) {
        Some(place) if place < MAX_ARGS as u64 => Ok(Term::Arg(place as u8)),
        Some(_) => Err(Wrong::NoSuchArgument(Name::told_bytes(text))),
        None => Err(Wrong::NotATerm(Name::told_bytes(text))),
    }
}

fn constant_term(text: &[u8]) -> Result<Term, Wrong>
    ensures { result ≡ constant_term text.now (decimal_of text.now) }
{
    match decimal(text) {
        Some(number) => Ok(Term::Const(number)),
        None => Err(Wrong::NotATerm(Name::told_bytes(text))),
    }
}

// The term that a value writes.
fn term_in(value: &Value, words: usize) -> Result<Term, Wrong>
    requires { words ≤ MAX_WORDS }
    ensures { result ≡ term_in words (view value.now) }
{
    match value.as_str() {
        Some(text) => read_term(text.as_bytes(), words),
        None => Err(Wrong::NotAText),
    }
}

// The test, if there is one: two terms.
pub(super) fn test_at(value: &Value, words: usize) -> Result<Option<(Term, Term)>, Wrong>
    requires { words ≤ MAX_WORDS }
    ensures { result ≡ test_at words (view value.now) }
{
    match entry(value, Key::Test) {
        Some(test) => test_in(test, words),
        None => Ok(None),
    }
}

fn test_in(value: &Value, words: usize) -> Result<Option<(Term, Term)>, Wrong>
    requires { words ≤ MAX_WORDS }
    ensures { result ≡ test_in words (Some (view value.now)) }
{
    match value.as_str() {
        Some(text) => read_test(text, words),
        None => listed_test(value, words),
    }
}

fn listed_test(value: &Value, words: usize) -> Result<Option<(Term, Term)>, Wrong>
    requires { words ≤ MAX_WORDS }
    ensures { result ≡ listed_test words (as_array (view value.now)) }
{
    match value.as_array() {
        Some(array) => two_terms(array.as_slice(), words),
        None => Err(Wrong::NotATest),
    }
}

fn two_terms(values: &[Value], words: usize) -> Result<Option<(Term, Term)>, Wrong>
    requires { words ≤ MAX_WORDS }
    ensures { result ≡ two_terms words (map view values.now) }
{
    let [left, right] = values else {
        return Err(Wrong::NotATest);
    };
    test_of(term_in(left, words), term_in(right, words))
}

// A test of two terms.
pub(super) fn test_of(
    left: Result<Term, Wrong>,
    right: Result<Term, Wrong>,
) -> Result<Option<(Term, Term)>, Wrong>
    ensures { result ≡ test_of left right }
{
    Ok(Some((left?, right?)))
}

// The writes. No word is written twice.
pub(super) fn writes_at(value: &Value, words: usize) -> Result<Writes, Wrong>
    requires { words ≤ MAX_WORDS }
    ensures { result ≡ writes_at words (view value.now) }
{
    read_writes(list_at(value, Key::Writes, MAX_WRITES)?, words)
}

fn read_writes(values: &[Value], words: usize) -> Result<Writes, Wrong>
    requires words { words ≤ MAX_WORDS }
    requires few { length values.now ≤ MAX_WRITES }
    ensures { result ≡ writes_from words [] (map view values.now) }
{
    let mut writes = [BLANK; MAX_WRITES];
    for (place, value) in values.iter().enumerate() {
        match next_write(value, words, &writes[..place]) {
            Ok(write) => writes[place] = write,
            Err(wrong) => return Err(wrong),
        }
    }
    match Writes::of(&writes[..values.len()]) {
        Ok(writes) => Ok(writes),
        Err(_) => unreachable!(),
    }
}

// A write, after those before it.
fn next_write(value: &Value, words: usize, done: &[Write]) -> Result<Write, Wrong>
    requires { words ≤ MAX_WORDS }
    ensures { result ≡ next_write words done.now (view value.now) }
{
    let write = write_in(value, words)?;
    if writes_word(done, write.word) {
        return Err(Wrong::WrittenTwice(write.word));
    }
    Ok(write)
}

fn writes_word(writes: &[Write], word: u8) -> bool
    ensures { result ≡ list_any (λ w. w.word == word) writes.now }
{
    writes.iter().any(|write| write.word == word)
}

fn write_in(value: &Value, words: usize) -> Result<Write, Wrong>
    requires { words ≤ MAX_WORDS }
    ensures { result ≡ write_in words (view value.now) }
{
    match value.as_str() {
        Some(text) => read_write(text, words),
        None => listed_write(value, words),
    }
}

fn listed_write(value: &Value, words: usize) -> Result<Write, Wrong>
    requires { words ≤ MAX_WORDS }
    ensures { result ≡ listed_write words (as_array (view value.now)) }
{
    match value.as_array() {
        Some(array) => four_terms(array.as_slice(), words),
        None => Err(Wrong::NotAWrite),
    }
}

fn four_terms(values: &[Value], words: usize) -> Result<Write, Wrong>
    requires { words ≤ MAX_WORDS }
    ensures { result ≡ four_terms words (map view values.now) }
{
    let [word, base, plus, minus] = values else {
        return Err(Wrong::NotAWrite);
    };
    write_of(
        word_in(word, words),
        term_in(base, words),
        term_in(plus, words),
        term_in(minus, words),
    )
}

// A write of a word and three terms.
pub(super) fn write_of(
    word: Result<u8, Wrong>,
    base: Result<Term, Wrong>,
    plus: Result<Term, Wrong>,
    minus: Result<Term, Wrong>,
) -> Result<Write, Wrong>
    ensures { result ≡ write_of word base plus minus }
{
    Ok(Write {
        word: word?,
        base: base?,
        plus: plus?,
        minus: minus?,
    })
}

// The word that a text names.
pub(super) fn read_word(text: &[u8], words: usize) -> Result<u8, Wrong>
    requires { words ≤ MAX_WORDS }
    ensures { result ≡ word_of words text.now }
{
    written_word(read_term(text, words)?)
}

// The word that a write names.
fn word_in(value: &Value, words: usize) -> Result<u8, Wrong>
    requires { words ≤ MAX_WORDS }
    ensures { result ≡ word_in words (view value.now) }
{
    written_word(term_in(value, words)?)
}

fn written_word(term: Term) -> Result<u8, Wrong>
    ensures { result ≡ written_word term }
{
    match term {
        Term::Word(place) => Ok(place),
        Term::Const(_) | Term::Arg(_) => Err(Wrong::NotAWrite),
    }
}

// The answer of an operation.
pub(super) fn answer_at(value: &Value, words: usize) -> Result<Term, Wrong>
    requires { words ≤ MAX_WORDS }
    ensures { result ≡ answer_at words (view value.now) }
{
    match entry(value, Key::Answer) {
        Some(answer) => term_in(answer, words),
        None => Err(Wrong::Missing(Key::Answer)),
    }
}
