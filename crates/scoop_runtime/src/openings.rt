//! The record of a node's handlers before the node opens.

ghost use Rattle.std.specs.Prelude.{◌≡◌, ℕ, IfOk, IfSome, OnOk, Some, None, Ok};
ghost use Rattle.std.specs.List.{AllByRecursion};
ghost use Rattle.scoop_handler.specs.State.{new_state};
ghost use Rattle.scoop_keeper.specs.Keeper.{IsTheOne, Keeps, Missing, Stays, stored_of};
ghost use Rattle.scoop_runtime.specs.NodeLives.{Gained, GainedAt};
ghost use Rattle.scoop_runtime.specs.Records.{HasState, LacksState};

use crate::objects::Objects;
use crate::plan::{Member, NodePlan};
use scoop_errors::PartyError;
use scoop_handler::Handler;
use scoop_keeper::{Keeper, KeeperError};
use scoop_message::HandlerId;
use scoop_object::{Behaviour, Class};
use scoop_texts::RuntimeError;
use std::alloc::Global;

// The first of the handlers that the keeper has no state of. It loads the last one first.
fn missing_handler<K: Keeper<Global>>(
    handlers: &[HandlerId],
    keeper: &mut K,
) -> Result<Option<HandlerId>, KeeperError>
    ensures none { K.is_honest keeper.new → result ≡ Ok None → AllByRecursion (HasState (K.handlers keeper.old)) handlers.now }
    ensures some { K.is_honest keeper.new → IfOk result (λ found. IfSome found (LacksState (K.handlers keeper.old))) }
    ensures handlers { K.is_honest keeper.new → Stays (K.handlers keeper.old) (K.handlers keeper.new) }
    ensures honest { K.is_honest keeper.new → K.is_honest keeper.old }
{
    match handlers {
        [] => Ok(None),
        [first, rest @ ..] => {
            let later = missing_handler(rest, keeper)?;
            match keeper.load_handler(*first)? {
                Some(_) => Ok(later),
                None => Ok(Some(*first)),
            }
        }
    }
}

/// Refuses a record that lacks a handler of the node, with `NoHandler`, or as the keeper refuses. Such a record is another
/// party's, or its node was never ready.
pub(crate) fn require_handlers<O: Objects, K: Keeper<Global>>(
    plan: &NodePlan<O>,
    keeper: &mut K,
) -> Result<(), RuntimeError>
    ensures all { K.is_honest keeper.new → OnOk result (AllByRecursion (HasState (K.handlers keeper.old)) plan.now.numbers.items) }
    ensures handlers { K.is_honest keeper.new → Stays (K.handlers keeper.old) (K.handlers keeper.new) }
    ensures honest { K.is_honest keeper.new → K.is_honest keeper.old }
{
    match missing_handler(&plan.numbers, keeper) {
        Ok(None) => Ok(()),
        Ok(Some(handler)) => Err(RuntimeError::NoHandler(handler)),
        Err(refusal) => Err(RuntimeError::from(refusal)),
    }
}

// Makes the stored states outlast this process, so that a node that is killed before its first message finds them again.
fn commit<K: Keeper<Global>>(keeper: &mut K) -> Result<(), RuntimeError>
    ensures handlers { K.is_honest keeper.new → Stays (K.handlers keeper.old) (K.handlers keeper.new) }
    ensures honest { K.is_honest keeper.new → K.is_honest keeper.old }
{
    match keeper.commit() {
        Ok(()) => Ok(()),
        Err(refusal) => Err(RuntimeError::from(refusal)),
    }
}

// Stores the state of a new handler.
fn put_opening<B: Behaviour, K: Keeper<Global>>(
    alloc: Global,
    opening: (HandlerId, Class, B),
    keeper: &mut K,
) -> Result<(), RuntimeError>
    ensures keeps { K.is_honest keeper.new → OnOk result (Keeps (K.handlers keeper.old) (K.handlers keeper.new) (new_state opening.0 (B.words opening.2))) }
    ensures honest { K.is_honest keeper.new → K.is_honest keeper.old }
{
    let (number, class, object) = opening;
    let state = match Handler::new(alloc, number, class, object) {
        Ok(handler) => handler.copy()?,
        Err(_) => return Err(RuntimeError::from(PartyError::WrongClass(number))),
    };
    match keeper.put_handler(&state) {
        Ok(()) => commit(keeper),
        Err(refusal) => Err(RuntimeError::from(refusal)),
    }
}

// Stores the handler's opening state, if the keeper has none.
fn store_opening<O: Objects, K: Keeper<Global>>(
    alloc: Global,
    objects: &O,
    member: &Member,
    keeper: &mut K,
) -> Result<(), RuntimeError>
    ensures gained { K.is_honest keeper.new → OnOk result (Gained (K.handlers keeper.old) (K.handlers keeper.new) member.now) }
    ensures honest { K.is_honest keeper.new → K.is_honest keeper.old }
{
    match keeper.load_handler(member.handler) {
        Ok(Some(_)) => Ok(()),
        Ok(None) => put_opening(alloc, member.open(alloc, objects)?, keeper),
        Err(refusal) => Err(RuntimeError::from(refusal)),
    }
}

/// Stores the opening state of each handler of the node that the keeper lacks, so that a node that was ready finds all of
/// them again.
pub(crate) fn store_openings<O: Objects, K: Keeper<Global>>(
    alloc: Global,
    plan: &NodePlan<O>,
    keeper: &mut K,
) -> Result<(), RuntimeError>
    ensures gained { K.is_honest keeper.new → OnOk result ((h : ℕ) → GainedAt (K.handlers keeper.old) (K.handlers keeper.new) plan.now.members.items h) }
    ensures honest { K.is_honest keeper.new → K.is_honest keeper.old }
{
    for member in &plan.members {
        store_opening(alloc, &plan.objects, member, keeper)?;
    }
    Ok(())
}
