//! A program that runs as a client.

ghost use Rattle.std.specs.Prelude.{◌≡◌};

use crate::calling::{Caller, Calls};
use crate::plan::ClientPlan;
use scoop_driver::Pause;
use scoop_journal::Journal;
use scoop_keeper::Keeper;
use scoop_link::Link;
use scoop_links::client_link;
use scoop_message::HandlerId;
use scoop_texts::{RuntimeError, Unended};
use std::alloc::Global;
use std::io::Write;

/// A program that runs as a client of a system.
pub trait ClientProgram {
    /// Makes the calls of this client. A block that is open when it returns is cut.
    fn run<C: Calls>(&mut self, client: &mut C) -> Result<(), RuntimeError>;
}

/// How a program ended, and what became of the block that it left open.
#[derive(Clone, Copy, Debug, PartialEq, Eq)]
pub struct ProgramEnd {
    pub ended: Result<(), RuntimeError>,
    pub unended: Unended,
}

impl ProgramEnd {
    // The end of a program whose client didn't begin.
    fn unbegun(error: RuntimeError) -> ProgramEnd {
        ProgramEnd {
            ended: Err(error),
            unended: Unended::Nothing,
        }
    }
}

/// Runs a program as the client of this plan: the client begins ([`Caller::begin`]), the program makes its calls, and a block
/// that it left open is cut ([`Caller::close`]). Repeated datagrams are rate-limited. When nothing new comes for a second, the
/// client writes to `waits` which handlers it waits for. A call of the link that fails is written to `faults`.
pub fn program_run<K, L, J, E, P, N, G>(
    alloc: Global,
    plan: &ClientPlan<'_>,
    keeper: &mut K,
    link: L,
    mut journal: Option<Journal<J>>,
    program: &mut G,
    waits: E,
    faults: E,
    pause: P,
    notes: N,
) -> ProgramEnd
where
    K: Keeper<Global>,
    L: Link,
    J: Write + Drop,
    E: Write + Drop,
    P: Pause + Drop,
    N: Write + Drop,
    G: ClientProgram,
{
    let known = match plan.system().known_to(alloc, &plan.place()) {
        Ok(known) => known,
        Err(error) => return ProgramEnd::unbegun(RuntimeError::from(error)),
    };
    let link = match client_link(alloc, link, waits, faults, &known) {
        Ok(link) => link,
        Err(error) => return ProgramEnd::unbegun(RuntimeError::from(error)),
    };
    match Caller::begin(
        alloc,
        plan,
        &known,
        keeper,
        link,
        &mut journal,
        pause,
        notes,
    ) {
        Ok(caller) => run_calls(program, caller),
        Err(error) => ProgramEnd::unbegun(error),
    }
}

// Lets the program make its calls, and ends the client.
fn run_calls<K, L, J, P, N, G>(
    program: &mut G,
    mut caller: Caller<'_, '_, '_, '_, '_, K, L, J, P, N>,
) -> ProgramEnd
where
    K: Keeper<Global>,
    L: Link,
    J: Write + Drop,
    P: Pause + Drop,
    N: Write + Drop,
    G: ClientProgram,
{
    let ended = program.run(&mut caller);
    ProgramEnd {
        ended,
        unended: caller.close(),
    }
}
