//! The search for one order of all that the parties of a demo did.

ghost use Rattle.std.specs.Prelude.{◌≡◌, ◌++◌, ◌∷◌, [], map, IfOk, OnOk};
ghost use Rattle.scoop_two_cells.specs.Orders.{Tells, client_traffic, node_traffic};

use crate::client::Painter;
use crate::outcome::Woven;
use crate::showing::Shown;
use scoop_book::{Event, Reply};
use scoop_driver::StepList;
use scoop_errors::PartyError;
use scoop_link::Link;
use scoop_message::OutOfMemory;
use scoop_weaver::{NoWeave, Party, weave};
use std::alloc::Global;

// Adds the traffic of nodes, by their histories.
fn add_nodes(
    alloc: Global,
    histories: &[Vec<(u32, Event, Reply)>],
    parties: &mut Vec<Party>,
) -> Result<(), OutOfMemory>
    ensures { OnOk result (parties.new.items ≡ parties.old.items ++ map (λ h. node_traffic h.items) histories.now) }
{
    for history in histories {
        let party = Party::of_node(alloc, history)?;
        parties.push(party)?;
    }
    Ok(())
}

// Adds the traffic of the clients that paint, by their diaries.
fn add_painters<L: Link>(
    alloc: Global,
    painters: &[Painter<L, StepList>],
    parties: &mut Vec<Party>,
) -> Result<(), OutOfMemory>
    ensures { OnOk result (parties.new.items
        ≡ parties.old.items ++ map (λ p. client_traffic p.player.number p.player.inc p.player.waits p.player.driver.diary.steps) painters.now) }
{
    for painter in painters {
        let party = painter.player.traffic(alloc)?;
        parties.push(party)?;
    }
    Ok(())
}

/// The traffic of each party: nodes 1 and 2, and clients 7, 8 and 9.
pub(crate) fn parties_of(
    alloc: Global,
    shown: &Shown<'_, StepList>,
) -> Result<Vec<Party>, OutOfMemory>
    ensures { IfOk result (λ parties. parties.items
        ≡ map (λ h. node_traffic h.items) shown.now.histories.items
        ++ map (λ p. client_traffic p.player.number p.player.inc p.player.waits p.player.driver.diary.steps) shown.now.clients.painters.items
        ++ client_traffic shown.now.clients.reader.number shown.now.clients.reader.inc shown.now.clients.reader.waits
        shown.now.clients.reader.driver.diary.steps ∷ []) }
{
    let mut parties = Vec::new(alloc);
    add_nodes(alloc, &shown.histories, &mut parties)?;
    add_painters(alloc, &shown.clients.painters, &mut parties)?;
    let reader = shown.clients.reader.traffic(alloc)?;
    parties.push(reader)?;
    Ok(parties)
}

/// Finds an order of all that the parties did: its length, or a move that no order explains.
pub(crate) fn order_told(alloc: Global, parties: &[Party]) -> Result<Woven, PartyError>
    ensures { IfOk result (Tells parties.now) }
{
    match weave(alloc, parties) {
        Ok(order) => Ok(Woven::Moves(order.len())),
        Err(NoWeave::Unsent(party, place)) => Ok(Woven::Unsent(party, place)),
        Err(NoWeave::OutOfMemory) => Err(PartyError::OutOfMemory),
    }
}
