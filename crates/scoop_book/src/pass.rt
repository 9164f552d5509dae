//! A pass: the events that one thread made at a node.

ghost use Rattle.std.specs.Prelude.{◌≡◌, ◌<◌, ◌↔◌, ℕ, Some, IfOk, IsTrue, length, map, slice_get};
ghost use Rattle.scoop_book.specs.Moves.{moved};
ghost use Rattle.scoop_book.specs.Passes.{fresh_pass};

use crate::history::History;
use crate::opening::{Opening, are_same, copy_all};
use scoop_message::OutOfMemory;
use std::alloc::{Allocator, Global};
use std::marker::Model;

/// The events that one thread made at a node, with the replies that it got, in order. The first pass of a node,
/// number 0, also keeps the handlers as they opened.
#[derive(Drop)]
pub struct Pass<A: Allocator = Global> {
    pub(crate) number: u32,
    pub(crate) opening: Option<Vec<Opening<A>, A>>,
    pub(crate) events: History<A>,
}

impl<A: Allocator> Model for Pass<A> {
    ghost use Rattle.std.specs.Option.{option_map};
    ghost use Rattle.std.specs.Prelude.{map};
    ghost use Rattle.scoop_book.specs.Moves.{moved};
    ghost use Rattle.scoop_book.specs.Passes.{PassValue, pass_value};

    ghost Value = { PassValue };

    ghost view = { λ p. pass_value p.number (option_map (λ o. o.items) p.opening) (map moved p.events.entries) };
}

// The pass of this number as a node opens with these handlers.
fn fresh<A: Allocator + Copy>(
    alloc: A,
    number: u32,
    opening: &[Opening<A>],
) -> Result<Pass<A>, OutOfMemory>
    ensures { IfOk result (λ p. p ≡ fresh_pass opening.now number) }
{
    let kept = if number == 0 {
        Some(copy_all(alloc, opening)?)
    } else {
        None
    };
    Ok(Pass {
        number,
        opening: kept,
        events: History::new(alloc),
    })
}

/// The passes of a node that opens with these handlers.
pub(crate) fn fresh_passes<A: Allocator + Copy>(
    alloc: A,
    count: u32,
    opening: &[Opening<A>],
) -> Result<Vec<Pass<A>, A>, OutOfMemory>
    ensures count { IfOk result (λ ps. length ps.items ≡ count) }
    ensures fresh { IfOk result (λ ps. (n : ℕ) → n < count → slice_get ps.items n ≡ Some (fresh_pass opening.now n)) }
{
    let mut passes = Vec::new(alloc);
    for number in 0..count {
        let pass = fresh(alloc, number, opening)?;
        passes.push(pass)?;
    }
    Ok(passes)
}

impl<A: Allocator + Copy> Pass<A> {
    /// The pass's number.
    pub fn number(&self) -> u32
        ensures { result ≡ self.now.number }
    {
        self.number
    }

    /// The events in order, each with the pass's number and its reply.
    pub fn events(&self) -> &History<A>
        ensures { map moved result.now.entries ≡ self.now.events }
    {
        &self.events
    }

    /// Whether it keeps these handlers as they opened.
    pub(crate) fn keeps(&self, opening: &[Opening<A>]) -> bool
        ensures { IsTrue result ↔ (self.now.opening ≡ Some opening.now) }
    {
        match &self.opening {
            Some(kept) => are_same(kept, opening),
            None => false,
        }
    }
}
