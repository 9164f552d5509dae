//! The comparison of a node's history with its passes, by which it closes.

ghost use Rattle.std.specs.Prelude.{◌≡◌, ◌≢◌, ◌<◌, ◌≤◌, ◌↔◌, ℕ, IsTrue, IfNone, IfSome};
ghost use Rattle.std.specs.List.{All, Any};
ghost use Rattle.scoop_book.specs.Closing.{Agrees, Differs, IsComplete};
ghost use Rattle.scoop_book.specs.Lines.{IsMoved, entry_of};
ghost use Rattle.scoop_book.specs.Moves.{made_by, moved};

use crate::error::CloseRefusal;
use crate::history::History;
use crate::opening::Opening;
use crate::pass::Pass;
use scoop_keeper::Keeper;
use std::alloc::{Allocator, Global};

/// The history of a closed node, each event with the number of its pass and its reply, and the keeper.
#[derive(Drop)]
pub struct Closed<K: Keeper<A>, A: Allocator = Global> {
    /// The events, in order.
    pub history: History<A>,
    /// The keeper, as it stands.
    pub keeper: K,
}

// Whether one of the passes has this number.
fn has_number<A: Allocator + Copy>(passes: &[Pass<A>], number: u32) -> bool
    ensures { IsTrue result ↔ Any (λ p. p.number ≡ number) passes.now }
{
    passes.iter().any(|p| p.number() == number)
}

// The first number below the count that no pass has.
fn first_missing<A: Allocator + Copy>(count: u32, passes: &[Pass<A>]) -> Option<u32>
    ensures none { IfNone result ((n : ℕ) → n < count → Any (λ p. p.number ≡ n) passes.now) }
    ensures some { IfSome result (λ n. (n < count) × (Any (λ p. p.number ≡ n) passes.now → ⊥)) }
{
    for number in 0..count {
        if !has_number(passes, number) {
            return Some(number);
        }
    }
    None
}

// Whether there are that many passes, numbered from 0.
fn is_complete<A: Allocator + Copy>(count: u32, passes: &[Pass<A>]) -> bool
    ensures { IsTrue result ↔ IsComplete count passes.now }
{
    if passes.len() != count as usize {
        return false;
    }
    match first_missing(count, passes) {
        Some(_) => false,
        None => true,
    }
}

// Whether the words of two entries have the same event with the same reply.
fn is_of(made: &[u32], words: &[u32]) -> bool
    requires made { IsMoved made.now }
    requires words { IsMoved words.now }
    ensures { IsTrue result ↔ (moved (entry_of 0 made.now) ≡ moved (entry_of 0 words.now)) }
{
    made == words
}

// Whether the pass has exactly the events that the history has of its number.
fn has_events<A: Allocator + Copy>(pass: &Pass<A>, history: &History<A>) -> bool
    ensures { IsTrue result ↔ (pass.now.events ≡ made_by pass.now.number history.now.entries) }
{
    let number = pass.number();
    let mut left = pass.events().reader();
    let mut entries = history.reader();
    while let Some((of, words)) = entries.next_words() {
        if of == number {
            let Some((_, made)) = left.next_words() else {
                return false;
            };
            if !is_of(made, words) {
                return false;
            }
        }
    }
    match left.next_words() {
        None => true,
        Some(_) => false,
    }
}

// Whether the pass agrees with the history.
fn agrees<A: Allocator + Copy>(pass: &Pass<A>, opening: &[Opening<A>], history: &History<A>) -> bool
    ensures { IsTrue result ↔ Agrees opening.now history.now.entries pass.now }
{
    has_events(pass, history) && (pass.number() != 0 || pass.keeps(opening))
}

// The first pass that differs from the history.
fn first_different<A: Allocator + Copy>(
    passes: &[Pass<A>],
    opening: &[Opening<A>],
    history: &History<A>,
) -> Option<u32>
    ensures none { IfNone result (All (Agrees opening.now history.now.entries) passes.now) }
    ensures some { IfSome result (λ n. Any (λ p. (p.number ≡ n) × (Agrees opening.now history.now.entries p → ⊥)) passes.now) }
{
    for pass in passes {
        if !agrees(pass, opening, history) {
            return Some(pass.number());
        }
    }
    None
}

// The number of an entry that is no pass's.
fn stranger<A: Allocator + Copy>(count: u32, history: &History<A>) -> Option<u32>
    ensures none { IfNone result (All (λ e. e.0 < count) history.now.entries) }
    ensures some { IfSome result (λ n. Any (λ e. (e.0 ≡ n) × (count ≤ n)) history.now.entries) }
{
    let mut entries = history.reader();
    while let Some((number, _)) = entries.next_words() {
        if number >= count {
            return Some(number);
        }
    }
    None
}

/// Why these passes don't close a node with this opening and this history.
pub(crate) fn refusal<A: Allocator + Copy>(
    count: u32,
    passes: &[Pass<A>],
    opening: &[Opening<A>],
    history: &History<A>,
) -> Option<CloseRefusal>
    ensures complete { IfNone result (IsComplete count passes.now) }
    ensures agree { IfNone result (All (Agrees opening.now history.now.entries) passes.now) }
    ensures no_others { IfNone result (All (λ e. e.0 < count) history.now.entries) }
    ensures missing { IfSome result (λ e. (e ≡ CloseRefusal.MissingPass) ↔ (IsComplete count passes.now → ⊥)) }
    ensures differs { IfSome result (λ e. (n : ℕ) → e ≡ CloseRefusal.PassDiffers n → Differs opening.now history.now.entries count passes.now n) }
    ensures memory { IfSome result (λ e. e ≢ CloseRefusal.OutOfMemory) }
{
    if !is_complete(count, passes) {
        return Some(CloseRefusal::MissingPass);
    }
    if let Some(number) = first_different(passes, opening, history) {
        return Some(CloseRefusal::PassDiffers(number));
    }
    if let Some(number) = stranger(count, history) {
        return Some(CloseRefusal::PassDiffers(number));
    }
    None
}
