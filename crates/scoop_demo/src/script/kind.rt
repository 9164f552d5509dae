//! Kinds of lines, by their first words.

ghost use Rattle.std.specs.Prelude.{◌≡◌, None, Some, MatchOption};
ghost use Rattle.scoop_lines.specs.Words.{words_of};
ghost use Rattle.scoop_demo.specs.ScriptKind.{kind_of, word_kind, event_kind, restart_kind};

use scoop_lines::{is, next_word};

/// The kind of a script's line, by its first words.
#[derive(Clone, Copy)]
pub enum LineKind {
    /// `handler`: it places a handler.
    Handler,
    /// `client`: it lets a client join.
    Client,
    /// It is an event.
    Event(EventKind),
}

/// The kind of an event.
#[derive(Clone, Copy)]
pub enum EventKind {
    Reserve,
    Call,
    Query,
    End,
    GiveUp,
    Tick,
    Take,
    Begin,
    Finish,
    Run,
    Trip,
    RestartClient,
    RestartNode,
}

/// The kind of a line, and the rest of the line after the words that name the kind. `None` if the first words are unknown.
pub fn line_kind(line: &[u8]) -> Option<(LineKind, &[u8])>
    ensures { MatchOption result (kind_of (words_of line.now) ≡ None) (λ found. kind_of (words_of line.now) ≡ Some (found.0, words_of found.1.now)) }
{
    let (word, rest) = next_word(line)?;
    if is(word, "restart") {
        return restart_kind(rest);
    }
    let kind = word_kind(word)?;
    Some((kind, rest))
}

// The kind of a restart, by the word after `restart`.
fn restart_kind(line: &[u8]) -> Option<(LineKind, &[u8])>
    ensures { MatchOption result (restart_kind (words_of line.now) ≡ None) (λ found. restart_kind (words_of line.now) ≡ Some (found.0, words_of found.1.now)) }
{
    let (word, rest) = next_word(line)?;
    if is(word, "client") {
        Some((LineKind::Event(EventKind::RestartClient), rest))
    } else if is(word, "node") {
        Some((LineKind::Event(EventKind::RestartNode), rest))
    } else {
        None
    }
}

fn word_kind(word: &[u8]) -> Option<LineKind>
    ensures { result ≡ word_kind word.now }
{
    if is(word, "handler") {
        return Some(LineKind::Handler);
    }
    if is(word, "client") {
        return Some(LineKind::Client);
    }
    let event = event_kind(word)?;
    Some(LineKind::Event(event))
}

fn event_kind(word: &[u8]) -> Option<EventKind>
    ensures { result ≡ event_kind word.now }
{
    if is(word, "reserve") {
        Some(EventKind::Reserve)
    } else if is(word, "call") {
        Some(EventKind::Call)
    } else if is(word, "query") {
        Some(EventKind::Query)
    } else if is(word, "end") {
        Some(EventKind::End)
    } else if is(word, "giveup") {
        Some(EventKind::GiveUp)
    } else if is(word, "tick") {
        Some(EventKind::Tick)
    } else if is(word, "take") {
        Some(EventKind::Take)
    } else if is(word, "begin") {
        Some(EventKind::Begin)
    } else if is(word, "finish") {
        Some(EventKind::Finish)
    } else if is(word, "run") {
        Some(EventKind::Run)
    } else if is(word, "trip") {
        Some(EventKind::Trip)
    } else {
        None
    }
}
