//! The words of a client's line.

ghost use Rattle.std.specs.Prelude.{◌≡◌, None, Some, length, MatchOption};
ghost use Rattle.scoop_lines.specs.Words.{words_of};
ghost use Rattle.scoop_system.specs.Words.{without_return, is_border, before, behind, arguments_in};

use scoop_lines::{is, next_word};

// A word that ends a list of others.
#[derive(Clone, Copy)]
pub(crate) enum Border {
    // `when`, after the handlers of a block.
    When,
    // `least`, `most` or `is`, after the arguments of a condition.
    Test,
}

// Whether a word is this border.
pub(super) fn is_border(border: Border, word: &[u8]) -> bool
    ensures { result ≡ is_border border word.now }
{
    match border {
        Border::When => is(word, "when"),
        Border::Test => is(word, "least") || is(word, "most") || is(word, "is"),
    }
}

// The line without the carriage return at its end.
pub(crate) fn without_return(line: &[u8]) -> &[u8]
    ensures { result.now ≡ without_return line.now }
{
    match line.last() {
        Some(b'\r') => &line[..line.len() - 1],
        _ => line,
    }
}

// The number of words before the first border, or of all words.
pub(super) fn count_before(line: &[u8], border: Border) -> usize
    ensures { result ≡ length (before border (words_of line.now)) }
{
    let mut count = 0;
    let mut rest = line;
    while let Some((word, behind)) = next_word(rest) {
        if is_border(border, word) {
            return count;
        }
        count += 1;
        rest = behind;
    }
    count
}

// The first border, and the rest of the line after it, if it is there.
pub(super) fn behind(line: &[u8], border: Border) -> Option<(&[u8], &[u8])>
    ensures { MatchOption result (behind border (words_of line.now) ≡ None)
        (λ found. behind border (words_of line.now) ≡ Some (found.0.now, words_of found.1.now)) }
{
    let mut rest = line;
    while let Some((word, back)) = next_word(rest) {
        if is_border(border, word) {
            return Some((word, back));
        }
        rest = back;
    }
    None
}

// The line after its handler and its operation, if it has both.
pub(super) fn arguments_in(line: &[u8]) -> Option<&[u8]>
    ensures { MatchOption result (arguments_in (words_of line.now) ≡ None) (λ args. arguments_in (words_of line.now) ≡ Some (words_of args.now)) }
{
    let (_, rest) = next_word(line)?;
    let (_, args) = next_word(rest)?;
    Some(args)
}
