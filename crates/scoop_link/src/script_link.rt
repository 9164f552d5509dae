//! Two ends in one thread, with lanes between them that drop and double datagrams.

ghost use Rattle.std.specs.Prelude.{◌≡◌, ◌≤◌, ◌+◌, ◌↔◌, [], None, IfOk, IfSome, IsErr, IsTrue, if◌then◌else◌};
ghost use Rattle.scoop_link.specs.Link.{CountsFault};
ghost use Rattle.scoop_link.specs.ScriptEnd.{fresh_end, after_call, faults_of};

use crate::lane::Lane;
use crate::link::{Link, LinkFault};
use crate::party::Party;
use crate::script::Script;
use scoop_message::OutOfMemory;
use scoop_message::limits::BUFFER_LEN;
use std::alloc::{Allocator, Global};
use std::cell::RefCell;
use std::marker::Model;
use std::rc::Rc;

// A lane that both ends share. No borrow of it outlasts a call, so it is always free.
type SharedLane<A> = Rc<RefCell<Lane<A>>, A>;

/// One end of a pair, for tests. It sends into the lane of its own script, whoever the receiver is, and receives
/// from the other end's lane. Its call of number `fail_at`, with sends and receives counted together from 1, fails
/// and has no other effect; no other call fails. Contracts see its script and its number of calls, and so the call
/// that fails. They don't see the lanes.
#[derive(Drop)]
pub struct ScriptLink<A: Allocator = Global> {
    script: Script,
    calls: u64,
    outward: SharedLane<A>,
    inward: SharedLane<A>,
}

impl<A: Allocator> Model for ScriptLink<A> {
    ghost use Rattle.scoop_link.specs.ScriptEnd.{ScriptEnd};

    ghost Value = { ScriptEnd };

    ghost view = { λ e. record { script = e.script; calls = e.calls } };
}

impl<A: Allocator + Clone> ScriptLink<A> {
    /// Makes two ends that share two lanes, each with memory for `room` datagrams. `OutOfMemory` means that memory
    /// was refused.
    pub fn pair(
        alloc: A,
        first: Script,
        second: Script,
        room: usize,
    ) -> Result<(ScriptLink<A>, ScriptLink<A>), OutOfMemory>
        ensures { IfOk result (λ ends. (ends.0 ≡ fresh_end first) × (ends.1 ≡ fresh_end second)) }
    {
        let there = shared_lane(&alloc, first, room)?;
        let back = shared_lane(&alloc, second, room)?;
        let end = ScriptLink {
            script: first,
            calls: 0,
            outward: there.clone()?,
            inward: back.clone()?,
        };
        let other = ScriptLink {
            script: second,
            calls: 0,
            outward: back,
            inward: there,
        };
        Ok((end, other))
    }
}

fn shared_lane<A: Allocator + Clone>(
    alloc: &A,
    script: Script,
    room: usize,
) -> Result<SharedLane<A>, OutOfMemory> {
    let lane = Lane::new(alloc.clone()?, script, room)?;
    Ok(Rc::new(alloc.clone()?, RefCell::new(lane))?)
}

impl<A: Allocator> ScriptLink<A> {
    // Counts a call, and returns whether it fails.
    fn fails(&mut self) -> bool
        ensures fails { IsTrue result ↔ (self.old.calls + 1 ≡ self.old.script.fail_at) }
        ensures counts { self.new ≡ after_call self.old }
        ensures faults { faults_of (after_call self.old) ≡ faults_of self.old + (if result then 1 else 0) }
    {
        let fails = self.calls.checked_add(1) == Some(self.script.fail_at);
        self.calls = self.calls.saturating_add(1);
        fails
    }
}

impl<A: Allocator> Link for ScriptLink<A> {
    ghost told = { λ _. None };

    ghost fault_count = { faults_of };

    fn send(&mut self, _to: Party, bytes: &[u8]) -> Result<(), LinkFault>
        ensures faults { CountsFault result (faults_of self.old) (faults_of self.new) }

        ensures fails { IsErr result ↔ (self.old.calls + 1 ≡ self.old.script.fail_at) }
        ensures counts { self.new ≡ after_call self.old }
    {
        if self.fails() {
            return Err(LinkFault);
        }
        if let Ok(mut lane) = self.outward.try_borrow_mut() {
            lane.put(bytes);
        }
        Ok(())
    }

    fn receive(&mut self, buffer: &mut [u8; BUFFER_LEN]) -> Result<Option<usize>, LinkFault>
        ensures in_bounds { IfOk result (λ got. IfSome got (λ n. n ≤ BUFFER_LEN)) }
        ensures faults { CountsFault result (faults_of self.old) (faults_of self.new) }

        ensures fails { IsErr result ↔ (self.old.calls + 1 ≡ self.old.script.fail_at) }
        ensures counts { self.new ≡ after_call self.old }
    {
        if self.fails() {
            return Err(LinkFault);
        }
        match self.inward.try_borrow_mut() {
            Ok(mut lane) => Ok(lane.take(buffer)),
            Err(_) => Ok(None),
        }
    }

    fn faults(&self) -> u64 {
        u64::from(self.script.fail_at != 0 && self.script.fail_at <= self.calls)
    }
}
