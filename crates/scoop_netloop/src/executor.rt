//! The threads that run handlers.

use crate::stop::{ExecutorEnd, Stop, end_after, end_after_job};
use crossbeam_channel::Receiver;
use scoop_book::{Node, Pass};
use scoop_keeper::Keeper;
use scoop_message::HandlerId;
use scoop_object::Behaviour;
use std::alloc::Allocator;
use std::sync::Wait;
use std::time::Clock;

/// Asked between an entry's leaving and its work, outside the node's lock. A node that runs passes [`OpenGate`];
/// the gate stays in `serve`'s signature for tests, which hold one handler there and see that others go on.
pub trait Gate {
    /// Whether the handler's entry may be worked. False ends the loop.
    fn pass<R: Wait + Clock>(&self, rt: &R, handler: HandlerId) -> bool;
}

/// Lets every handler pass.
#[derive(Clone, Copy, Debug, Default)]
pub struct OpenGate;

impl Gate for OpenGate {
    fn pass<R: Wait + Clock>(&self, _rt: &R, _handler: HandlerId) -> bool {
        true
    }
}

// Runs a handler until nothing can run. The node is locked to begin and to finish, and not while the gate is asked
// and the object works. Returns the end of the executor, if one comes here.
fn run_handler<B, K, A, G, R>(
    rt: &R,
    node: &Node<B, K, A>,
    pass: &mut Pass<A>,
    handler: HandlerId,
    gate: &G,
) -> Option<ExecutorEnd>
where
    B: Behaviour,
    K: Keeper<A>,
    A: Allocator + Copy,
    G: Gate,
    R: Wait + Clock,
{
    for _ in rt.forever() {
        let job = match node.begin(rt, pass, handler) {
            Ok(Some(job)) => job,
            Ok(None) => return None,
            Err(error) => return end_after(error).map(ExecutorEnd::Refused),
        };
        if !gate.pass(rt, handler) {
            return Some(ExecutorEnd::GateShut);
        }
        match node.finish(rt, pass, job.work()) {
            Ok(_) => {}
            Err(error) => return Some(ExecutorEnd::Refused(end_after_job(error.cause))),
        }
    }
    unreachable!()
}

// Runs the handlers whose numbers come over the channel, until it is closed.
pub(crate) fn execute<B, K, A, G, R>(
    rt: &R,
    node: &Node<B, K, A>,
    pass: &mut Pass<A>,
    jobs: &Receiver<HandlerId, A>,
    gate: &G,
    stop: &Stop,
) -> ExecutorEnd
where
    B: Behaviour,
    K: Keeper<A>,
    A: Allocator + Copy,
    G: Gate,
    R: Wait + Clock,
{
    for _ in rt.forever() {
        let Ok(handler) = jobs.recv(rt) else {
            return ExecutorEnd::Stopped;
        };
        if let Some(end) = run_handler(rt, node, pass, handler, gate) {
            stop.ask();
            return end;
        }
    }
    unreachable!()
}
