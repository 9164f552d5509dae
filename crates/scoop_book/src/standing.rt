//! The handlers of a book as they stand at its end, with which they are compared when they open again.

ghost use Rattle.std.specs.Prelude.{◌≡◌, ◌↔◌, IsTrue, IfOk, IfNone, IfSome, map};
ghost use Rattle.scoop_book.specs.Reopening.{AllOpenAgain, OpensAgain, class_in};

use crate::local::Local;
use crate::opening::Opening;
use scoop_message::OutOfMemory;
use scoop_object::Behaviour;
use std::alloc::{Allocator, Global};
use std::marker::Model;

/// The handlers of a book that has ended, as they stood. Contracts see the list of the handlers.
#[derive(Drop)]
pub struct Standing<B: Behaviour, A: Allocator = Global> {
    // Has the classes.
    opening: Vec<Opening<A>, A>,
    locals: Vec<Local<B, A>, A>,
}

impl<B: Behaviour, A: Allocator> Model for Standing<B, A> {
    ghost use Rattle.std.specs.Prelude.{◌≡◌, List, map};
    ghost use Rattle.scoop_book.specs.Moves.{LocalHandler};
    ghost use Rattle.scoop_book.specs.Reopening.{class_in};

    ghost Value = { List LocalHandler };

    ghost view = { λ s. s.locals.items };

    ghost invariant = { λ s. map class_in s.opening.items ≡ map class_in s.locals.items };
}

// Whether the handler that stood so has opened again as this one. The first argument has its class.
fn opens_again<B: Behaviour, A: Allocator + Copy>(
    classed: &Opening<A>,
    stood: &Local<B, A>,
    opened: &Opening<A>,
) -> Result<bool, OutOfMemory>
    requires { class_in classed.now ≡ class_in stood.now }
    ensures { IfOk result (λ same. IsTrue same ↔ OpensAgain stood.now opened.now) }
{
    match stood.stored()? {
        Some(state) => Ok(opened.resumes(classed, &state)),
        None => Ok(false),
    }
}

// The first place at which the handlers that stood and those that opened differ, if they do.
fn first_other<B: Behaviour, A: Allocator + Copy>(
    classed: &[Opening<A>],
    stood: &[Local<B, A>],
    opened: &[Opening<A>],
) -> Result<Option<usize>, OutOfMemory>
    requires { map class_in classed.now ≡ map class_in stood.now }
    ensures none { IfOk result (λ place. IfNone place (AllOpenAgain stood.now opened.now)) }
    ensures some { IfOk result (λ place. IfSome place (λ i. AllOpenAgain stood.now opened.now → ⊥)) }
{
    let count = stood.len();
    if opened.len() != count {
        return Ok(Some(count));
    }
    for i in 0..count {
        if !opens_again(&classed[i], &stood[i], &opened[i])? {
            return Ok(Some(i));
        }
    }
    Ok(None)
}

impl<B: Behaviour, A: Allocator + Copy> Standing<B, A> {
    /// These handlers, of a book that opened with the others.
    pub(crate) fn new(opening: Vec<Opening<A>, A>, locals: Vec<Local<B, A>, A>) -> Standing<B, A>
        requires { map class_in opening.items ≡ map class_in locals.items }
        ensures { result ≡ locals.items }
    {
        Standing { opening, locals }
    }

    /// The first place at which what opened isn't what stood, if there is one: each handler with the state that was
    /// stored of it, no job out, and the same class.
    pub(crate) fn first_other(&self, opened: &[Opening<A>]) -> Result<Option<usize>, OutOfMemory>
        ensures none { IfOk result (λ place. IfNone place (AllOpenAgain self.now opened.now)) }
        ensures some { IfOk result (λ place. IfSome place (λ i. AllOpenAgain self.now opened.now → ⊥)) }
    {
        first_other(&self.opening, &self.locals, opened)
    }
}
