//! Plays the rows of all libraries that need no threads and no sockets. The arguments name the files.
#![tactic(auto)]

use scoop_row_player::{Areas, Bad, Case, Heap, Sheet, play_files};
use scoop_rows_etcd::EtcdAreas;
use scoop_rows_links::LinkAreas;
use scoop_rows_parts::Parts;
use scoop_rows_runs::Runs;
use scoop_rows_stores::StoreAreas;
use scoop_rows_systems::SystemAreas;
use std::process::ExitCode;
use std::sync::Wait;
use std::time::Clock;

fn main(rt: HostRuntime) -> ExitCode {
    play_files(
        &rt,
        &AllAreas {
            rt: &rt,
            waits: &rt,
        },
    )
}

// The areas of all libraries. Both handles are the program's; watches wait for their locks.
#[derive(Drop)]
struct AllAreas<'a, R> {
    rt: &'a HostRuntime,
    waits: &'a R,
}

impl<R: Wait + Clock> Areas for AllAreas<'_, R> {
    fn play(
        &self,
        area: &str,
        case: Case<'_>,
        heap: Heap<'_>,
        sheet: &mut Sheet,
    ) -> Result<bool, Bad> {
        Ok(
            LinkAreas.play(area, case, heap, sheet)?
                || Runs.play(area, case, heap, sheet)?
                || Parts.play(area, case, heap, sheet)?
                || StoreAreas { rt: self.rt }.play(area, case, heap, sheet)?
                || SystemAreas::new(self.waits).play(area, case, heap, sheet)?
                || EtcdAreas.play(area, case, heap, sheet)?,
        )
    }
}
