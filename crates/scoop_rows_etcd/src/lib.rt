//! Rows of stores in an etcd: the areas `etcd`, `wire` and `places`; and computed examples of what an etcd does.
#![tactic(auto)]

mod examples;
mod keeping;
mod looking;
mod scripted;
mod stores;
mod telling;
mod txns;
mod wire;

pub use examples::{
    absent_keys, both_are_found, both_are_put, nothing_is_put, others_write, two_callers,
};
use scoop_etcd_stores::Fate;
use scoop_row_player::{Areas, Bad, Case, Heap, Sheet, play_rows};
use scripted::ScriptedEtcd;
use std::cell::RefCell;
use stores::Stores;
use wire::Wire;

/// The areas of this library.
#[derive(Drop)]
pub struct EtcdAreas;

impl Areas for EtcdAreas {
    fn play(
        &self,
        area: &str,
        case: Case<'_>,
        heap: Heap<'_>,
        sheet: &mut Sheet,
    ) -> Result<bool, Bad> {
        match area {
            "etcd" => play_stores(case, heap, sheet)?,
            "wire" | "places" => {
                let came = Vec::new(sheet.alloc());
                play_rows(case, heap, &mut Wire { came }, sheet)?;
            }
            _ => return Ok(false),
        }
        Ok(true)
    }
}

fn play_stores(case: Case<'_>, heap: Heap<'_>, sheet: &mut Sheet) -> Result<(), Bad> {
    let etcd = RefCell::new(ScriptedEtcd::new(sheet.alloc()));
    let fate = Fate::new();
    play_rows(case, heap, &mut Stores::new(&etcd, &fate), sheet)
}
