//! A node that runs in a thread of this process.

use crate::ending::{Party, node_end, report_end};
use crate::hearing::run_hearing;
use crate::watching::clients_of;
use scoop_node_link::NoReport;
use scoop_files::{NamedKeeper, StoreName};
use scoop_keeper::Keeper;
use scoop_link::UdpLink;
use scoop_message::{ClientId, OutOfMemory};
use scoop_report::Status;
use scoop_runtime::{Ending, NodePlan, RuntimeError, Serving, open_node_link};
use scoop_system::{NodePlace, System};
use std::alloc::Global;
use std::io::{BufWriter, Write};
use std::net::{Net, SocketAddr};
use std::sync::Wait;
use std::thread::Threads;
use std::time::Clock;

/// Reports why a node ends early, whose store has this name if it has one.
pub(crate) fn report_node<'a>(
    rt: &HostRuntime,
    system: &'a System,
    address: SocketAddr,
    name: Option<&'a StoreName>,
    error: RuntimeError,
) -> Status {
    let party = Party {
        system,
        address,
        store: name.map(|name| name.path()),
        journal: None,
    };
    report_end(rt, &party, node_end(name, error))
}

// The link of a node, and the clients that it hears.
type HostLink = (UdpLink, Vec<ClientId>);

/// A node with its link and its keeper. Its thread has both while the node runs. It hears only the clients of the system's
/// file.
#[derive(Drop)]
pub(crate) struct Host<K: Keeper<Global>> {
    plan: NodePlan,
    address: SocketAddr,
    serving: Serving,
    link: Option<HostLink>,
    keeper: Option<K>,
    // The name of its store, if it has one.
    name: Option<StoreName>,
    error: Option<RuntimeError>,
}

impl<K: Keeper<Global> + Send> Host<K> {
    /// The node of this place, at the first of its addresses that is free, over this keeper.
    pub(crate) fn open<T: Net>(
        rt: &HostRuntime,
        net: &T,
        system: &System,
        place: &NodePlace,
        serving: Serving,
        keeper: K,
        name: Option<StoreName>,
    ) -> Result<Host<K>, RuntimeError> {
        let (link, place) = open_node_link(net, rt.alloc(), system, place)?;
        let plan = NodePlan::of(rt.alloc(), system, &place)?;
        let clients = clients_of(rt.alloc(), system)?;
        Ok(Host {
            plan,
            address: place.address,
            serving,
            link: Some((link, clients)),
            keeper: Some(keeper),
            name,
            error: None,
        })
    }

    /// Runs the node until it is asked to end. If it ends early, a line says so at once. The node's lines and notes go to
    /// standard error.
    pub(crate) fn run<T: Threads + Wait + Clock + Sync>(
        &mut self,
        rt: &HostRuntime,
        threads: &T,
        ending: &Ending,
    ) {
        let (Some(link), Some(keeper)) = (self.link.take(), self.keeper.take()) else {
            return;
        };
        let mut notes = rt.stderr();
        match self.serve(rt, threads, keeper, link, ending) {
            Ok(keeper) => self.keeper = Some(keeper),
            Err(error) => {
                let _told = writeln!(notes, "scoop: a node has ended: {error}");
                self.error = Some(error);
            }
        }
    }

    // Runs the node. If its store has a name, it ends when the store loses it, and the text beside the store is brought up to date.
    fn serve<T: Threads + Wait + Clock + Sync>(
        &self,
        rt: &HostRuntime,
        threads: &T,
        keeper: K,
        link: HostLink,
        ending: &Ending,
    ) -> Result<K, RuntimeError> {
        let Some(name) = &self.name else {
            return self.serve_over(rt, threads, keeper, link, ending);
        };
        let keeper = NamedKeeper::new(rt, keeper, name);
        match self.serve_over(rt, threads, keeper, link, ending) {
            Ok(keeper) => Ok(keeper.into_inner()),
            Err(error) => Err(error),
        }
    }

    // Runs the node over this keeper. Its lines are buffered, so that those of other nodes don't come between.
    fn serve_over<N: Keeper<Global> + Send, T: Threads + Wait + Clock + Sync>(
        &self,
        rt: &HostRuntime,
        threads: &T,
        keeper: N,
        link: HostLink,
        ending: &Ending,
    ) -> Result<N, RuntimeError> {
        let notes = rt.stderr();
        let mut output = BufWriter::new(rt.alloc(), notes).map_err(|_| OutOfMemory)?;
        let (plan, serving) = (&self.plan, &self.serving);
        let (link, clients) = link;
        run_hearing(
            threads,
            rt.alloc(),
            plan,
            serving,
            keeper,
            link,
            clients,
            NoReport,
            notes,
            &mut output,
            ending,
        )
    }

    /// Reports why the node ended early, if it did.
    pub(crate) fn report(&self, rt: &HostRuntime, system: &System) -> Result<(), Status> {
        match self.error {
            Some(error) => {
                let name = self.name.as_ref();
                Err(report_node(rt, system, self.address, name, error))
            }
            None => Ok(()),
        }
    }

    /// The keeper, unless the node ended early, and the name of its store.
    pub(crate) fn into_keeper(self) -> (Option<K>, Option<StoreName>) {
        let Host { keeper, name, .. } = self;
        (keeper, name)
    }
}
