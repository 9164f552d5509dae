//! Nodes in threads of this process, beside a client.

use crate::ending::End;
use crate::host::Host;
use crate::keyboard::Keyboard;
use crate::watching::Task;
use scoop_files::StoreName;
use scoop_journal::{Journal, JournalFile};
use scoop_keeper::Keeper;
use scoop_link::UdpLink;
use scoop_message::OutOfMemory;
use scoop_report::{Hints, hint, report};
use scoop_runtime::{Backoff, ClientPlan, Ending, TurningLink, client_run};
use std::alloc::Global;
use std::io::BufWriter;
use std::net::Net;
use std::sync::Wait;
use std::thread::Threads;
use std::time::Clock;
use std::{io, thread};

// A client with its record and its link, before it runs.
#[derive(Drop)]
struct Asking<'a, 'p, 'k, 'n, K: Keeper<Global>, T: Net> {
    rt: &'a HostRuntime,
    net: &'a T,
    plan: &'a ClientPlan<'p>,
    keeper: &'k mut K,
    link: TurningLink<UdpLink>,
    names: &'n [StoreName],
}

impl<'a, 'p, 'k, 'n, K: Keeper<Global>, T: Net> Task<Result<(), End>>
    for Asking<'a, 'p, 'k, 'n, K, T> {
    fn run(self) -> Result<(), End> {
        let Asking {
            rt,
            net,
            plan,
            keeper,
            link,
            names,
        } = self;
        ask(rt, net, plan, keeper, link, names)
    }
}

/// Runs the nodes, each in a thread, while the client runs. Then it asks the nodes to end, and joins all threads. Returns the
/// nodes, and the end of the client. The client ends when a store of these names is lost.
pub(crate) fn run_beside<K, C, T>(
    rt: &HostRuntime,
    threads: &T,
    hosts: Vec<Host<K>>,
    plan: &ClientPlan<'_>,
    keeper: &mut C,
    link: TurningLink<UdpLink>,
    names: &[StoreName],
) -> (Vec<Host<K>>, Result<(), End>)
where
    K: Keeper<Global> + Send,
    C: Keeper<Global>,
    T: Threads + Wait + Clock + Net + Sync,
{
    let ending = Ending::new();
    let asking = Asking {
        rt,
        net: threads,
        plan,
        keeper,
        link,
        names,
    };
    host_beside(rt, threads, hosts, &ending, asking)
}

// Starts a thread for each node, does the client's task in this one, and waits for all.
fn host_beside<K, S, T>(
    rt: &HostRuntime,
    threads: &T,
    mut hosts: Vec<Host<K>>,
    ending: &Ending,
    task: S,
) -> (Vec<Host<K>>, Result<(), End>)
where
    K: Keeper<Global> + Send,
    S: Task<Result<(), End>>,
    T: Threads + Wait + Clock + Sync,
{
    let lent = hosts.as_mut_slice();
    let ran = thread::scope(thread::scope_env(), threads, move |scope| {
        for host in lent.iter_mut() {
            let spawned = scope.spawn(move || host.run(rt, threads, ending));
            if spawned.is_err() {
                report_no_thread(rt);
            }
        }
        let ran = task.run();
        ending.ask();
        ran
    });
    (hosts, ran)
}

fn report_no_thread(rt: &HostRuntime) {
    report(rt, "a node has no thread");
    hint(
        rt,
        Hints::Always,
        "the operating system refuses more threads: end other programs",
    );
}

// Runs the client with the lines of standard input.
fn ask<K: Keeper<Global>, T: Net>(
    rt: &HostRuntime,
    net: &T,
    plan: &ClientPlan<'_>,
    keeper: &mut K,
    link: TurningLink<UdpLink>,
    names: &[StoreName],
) -> Result<(), End> {
    let alloc = rt.alloc();
    let mut lines = Keyboard::new(rt, net, plan.system(), names)?;
    let mut output = BufWriter::new(alloc, io::writer(rt)).map_err(|_| OutOfMemory)?;
    client_run(
        alloc,
        plan,
        keeper,
        link,
        None::<Journal<&JournalFile>>,
        &mut lines,
        rt.stderr(),
        rt.stderr(),
        &mut Backoff::new(rt, plan.place().client),
        &mut output,
        &mut rt.stderr(),
    )?;
    Ok(())
}
