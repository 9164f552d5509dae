//! Areas of rows about whole runs, and about the parties of a world. The head of each module says its commands.
#![tactic(auto)]

mod charts;
mod clients;
mod handlers;
mod long;
mod programs;
mod reading;
mod states;
mod telling;
mod worlds;

use charts::Charts;
use clients::Clients;
use handlers::Handlers;
use programs::Programs;
use scoop_refusing::Refusing;
use scoop_row_player::{Areas, Bad, Case, Heap, Sheet, Subject, play_rows};
use worlds::Worlds;

/// The areas `answers`, `charts`, `clients`, `commands`, `framing`, `handlers`, `limits`, `long`, `scripts` and `worlds`.
#[derive(Clone, Copy)]
pub struct Runs;

impl Areas for Runs {
    fn play(
        &self,
        area: &str,
        case: Case<'_>,
        heap: Heap<'_>,
        sheet: &mut Sheet,
    ) -> Result<bool, Bad> {
        let alloc = sheet.alloc();
        // for areas without refused growths, each of which would play the whole case again
        let own = Refusing::new(alloc, 0);
        match area {
            "answers" | "commands" | "framing" | "scripts" => {
                played(case, heap, Programs::new(alloc), sheet)?;
            }
            "charts" => played(case, heap, Charts::new(alloc)?, sheet)?,
            "clients" => played(case, heap, Clients::new(alloc, heap), sheet)?,
            "handlers" => played(case, heap, Handlers::new(alloc, heap), sheet)?,
            "limits" => played(case, heap, Handlers::new(alloc, &own), sheet)?,
            "long" => played(case, heap, Worlds::new(alloc, &own), sheet)?,
            "worlds" => played(case, heap, Worlds::new(alloc, heap), sheet)?,
            _ => return Ok(false),
        }
        Ok(true)
    }
}

// Plays the rows of a case with a subject of its own.
fn played<S: Subject + Drop>(
    case: Case<'_>,
    heap: Heap<'_>,
    mut subject: S,
    sheet: &mut Sheet,
) -> Result<(), Bad> {
    play_rows(case, heap, &mut subject, sheet)
}
