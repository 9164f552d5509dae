//! A diary that keeps all steps, and refuses sends.

ghost use Rattle.std.specs.Prelude.{◌<◌, ⊤, Some};

use scoop_client::Client;
use scoop_driver::{Command, Diary, Received, StepList};
use scoop_message::OutOfMemory;
use std::alloc::Allocator;

/// Keeps all steps, and refuses the sends of every turn after a number of them.
#[derive(Drop)]
pub struct Sparing<A: Allocator> {
    /// The steps.
    pub list: StepList<A>,
    /// Turns whose sends aren't refused yet.
    pub turns: u32,
}

impl<A: Allocator> Diary<A> for Sparing<A> {
    ghost steps = { λ d. Some d.list.steps };

    ghost has_room = { λ d. 0 < d.list.room };

    ghost is_settled = { λ _. ⊤ };

    ghost wants_memory = { ⊤ };

    fn make_room(&mut self) -> Result<(), OutOfMemory> {
        <StepList<A> as Diary<A>>::make_room(&mut self.list)
    }

    fn before_sends(&mut self, _client: &Client<A>) -> Result<(), OutOfMemory> {
        let Some(left) = self.turns.checked_sub(1) else {
            return Err(OutOfMemory);
        };
        self.turns = left;
        Ok(())
    }

    fn before_answer(&mut self) -> Result<(), OutOfMemory> {
        Ok(())
    }

    fn gave(&mut self, client: &Client<A>, command: Command) {
        self.list.gave(client, command);
    }

    fn turned(&mut self, client: &Client<A>, received: Received) {
        self.list.turned(client, received);
    }

    fn broke(&mut self, client: &Client<A>, place: usize) {
        self.list.broke(client, place);
    }
}
