//! The traffic of a party's moves.

ghost use Rattle.std.specs.Prelude.{◌≡◌, ◌++◌, ◌∷◌, [], ℕ, IfOk, OnOk, OnErr};
ghost use Rattle.scoop_weave.specs.System.{LocalClient};
ghost use Rattle.scoop_weaver.specs.Passing.{by_client, by_node, silent, traffic_in};

use crate::driving::{make_step, note_step};
use crate::traffic::{Party, Traffic};
use scoop_book::{Event, Reply};
use scoop_client::Client;
use scoop_driver::Step;
use scoop_message::OutOfMemory;
use std::alloc::Allocator;

// The message that an entry of a history hears, and the one that it sends.
#[tactic(auto, unfolding(crate::specs::Passing::traffic_in))]
fn entry_traffic(entry: &(u32, Event, Reply)) -> Traffic
    ensures { result ≡ traffic_in entry.now }
{
    match entry.1 {
        Event::Hear(message) => match entry.2 {
            Reply::Heard(told) => Traffic {
                heard: Some(message),
                sent: told.reply,
            },
            Reply::Began(_) | Reply::Finished(_) => Traffic::SILENT,
        },
        Event::Begin(_) | Event::Finish(_) => match entry.2 {
            Reply::Heard(_) | Reply::Began(_) | Reply::Finished(_) => Traffic::SILENT,
        },
    }
}

impl<A: Allocator + Copy> Party<A> {
    /// The traffic of a node's first history.
    pub fn of_node(alloc: A, history: &[(u32, Event, Reply)]) -> Result<Party<A>, OutOfMemory>
        ensures { (number : ℕ) → IfOk result (λ p. p ≡ by_node number history.now []) }
    {
        let mut moves = Vec::new(alloc);
        for entry in history {
            let next = entry_traffic(entry);
            moves.push(next)?;
        }
        Ok(Party { moves })
    }

    /// The traffic of a client's first driver, by the steps in its diary. `client` is the client with which the driver
    /// began: the same number, incarnation, handlers and batch.
    pub fn of_client(alloc: A, client: Client<A>, steps: &[Step]) -> Result<Party<A>, OutOfMemory>
        ensures { (c : LocalClient) → c.client ≡ client → IfOk result (λ p. p ≡ by_client c steps.now []) }
    {
        let mut current = client;
        let mut moves = Vec::new(alloc);
        for step in steps {
            note_step(&current, step, &mut moves)?;
            make_step(&mut current, step)?;
        }
        Ok(Party { moves })
    }

    /// The traffic of these moves.
    pub fn of_moves(moves: Vec<Traffic, A>) -> Party<A>
        ensures { result ≡ moves.items }
    {
        Party { moves }
    }

    /// Adds the traffic of a party that began anew: of a node's next history, or of a client's next driver. If memory runs
    /// out, the party stays as it was.
    pub fn begin_anew(&mut self, since: &Party<A>) -> Result<(), OutOfMemory>
        ensures gains { OnOk result (self.new ≡ self.old ++ silent ∷ since.now) }
        ensures stays { OnErr result (self.new ≡ self.old) }
    {
        let added = since.moves.as_slice();
        self.moves.reserve(added.len() + 1)?;
        self.moves.push_reserved(Traffic::SILENT);
        let Ok(()) = self.moves.extend_from_slice(added) else {
            unreachable!()
        };
        Ok(())
    }
}
