//! Watched frames of unknown clients.

use crate::watch::Watch;
use scoop_node_link::Strangers;
use scoop_message::{ClientId, HandlerId};
use std::sync::Wait;

/// Notes in a watch each frame of a client that the file doesn't name.
#[derive(Drop)]
pub struct WatchedStrangers<'a, R> {
    rt: &'a R,
    watch: &'a Watch,
}

impl<'a, R: Wait> WatchedStrangers<'a, R> {
    /// Notes them in this watch.
    pub fn new(rt: &'a R, watch: &'a Watch) -> WatchedStrangers<'a, R> {
        WatchedStrangers { rt, watch }
    }
}

impl<R: Wait> Strangers for WatchedStrangers<'_, R> {
    fn meet(&mut self, client: ClientId, handler: HandlerId) {
        self.watch.meet_stranger(self.rt, client, handler);
    }
}
