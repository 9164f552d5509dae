//! Words of a line.

ghost use Rattle.std.specs.Prelude.{◌≡◌, ◌<◌, ◌≤◌, ◌∷◌, [], None, Some, length, ◌==◌, MatchOption, position, IsFalse};
ghost use Rattle.std.specs.List.{position_or_len};
ghost use Rattle.std.specs.Cmp.Lexicographic.{pointwise};
ghost use Rattle.scoop_lines.specs.Words.{words_of, one_of, two_of, is_blank, begins_with_space};

/// Whether a line is skipped: it is a remark, which begins with `#`, or has no word.
pub fn is_blank(line: &[u8]) -> bool
    ensures { result ≡ is_blank line.now }
{
    match line {
        [b'#', ..] => true,
        _ => next_word(line).is_none(),
    }
}

/// Whether a word is this name.
pub fn is(word: &[u8], name: &str) -> bool
    ensures { result ≡ pointwise ◌==◌ word.now name.now }
{
    word.len() == name.len() && word == name.as_bytes()
}

/// The first word of a line, and the rest of the line. Words are separated by spaces, and by no other byte.
pub fn next_word(line: &[u8]) -> Option<(&[u8], &[u8])>
    ensures words { MatchOption result (words_of line.now ≡ []) (λ found. words_of line.now ≡ found.0.now ∷ words_of found.1.now) }
    ensures shorter { MatchOption result (words_of line.now ≡ []) (λ found. length found.1.now < length line.now) }
{
    let line = skip_spaces(line);
    if line.is_empty() {
        return None;
    }
    Some(line.split_at(word_len(line)))
}

// The line from its first word on.
fn skip_spaces(mut line: &[u8]) -> &[u8]
    ensures same { words_of result.now ≡ words_of line.now }
    ensures shorter { length result.now ≤ length line.now }
    ensures begins { IsFalse (begins_with_space result.now) }
{
    while let [b' ', rest @ ..] = line {
        line = rest;
    }
    line
}

// The number of bytes before the first space.
fn word_len(line: &[u8]) -> usize
    ensures { result ≡ position_or_len (λ byte. byte == 32) line.now }
{
    match first_space(line) {
        Some(place) => place,
        None => line.len(),
    }
}

fn first_space(line: &[u8]) -> Option<usize>
    ensures { result ≡ position (λ byte. byte == 32) line.now }
{
    line.iter().position(|byte| *byte == b' ')
}

/// The number of words of a line.
pub fn count_words(line: &[u8]) -> usize
    ensures { result ≡ length (words_of line.now) }
{
    let mut count = 0;
    let mut rest = line;
    while let Some((_, behind)) = next_word(rest) {
        count += 1;
        rest = behind;
    }
    count
}

/// The word of a line that has one word.
pub fn one_word(line: &[u8]) -> Option<&[u8]>
    ensures { MatchOption result (one_of (words_of line.now) ≡ None) (λ word. one_of (words_of line.now) ≡ Some word.now) }
{
    let (word, rest) = next_word(line)?;
    match next_word(rest) {
        None => Some(word),
        Some(_) => None,
    }
}

/// The words of a line that has two words.
pub fn two_words(line: &[u8]) -> Option<(&[u8], &[u8])>
    ensures { MatchOption result (two_of (words_of line.now) ≡ None) (λ words. two_of (words_of line.now) ≡ Some (words.0.now, words.1.now)) }
{
    let (first, rest) = next_word(line)?;
    let second = one_word(rest)?;
    Some((first, second))
}
