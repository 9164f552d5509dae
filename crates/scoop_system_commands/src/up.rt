//! `scoop up`: all nodes of a system in one process, and a client.

use crate::ending::{End, Party, report_end, report_plainly, report_range};
use crate::folder::{choice_of, make_folder, store_path};
use crate::going_on::go_on;
use crate::host::{Host, report_node};
use crate::joining::run_beside;
use crate::owning::{check_owner, note_owner};
use crate::stores::{open_client_store, open_node_store};
use crate::system_file::{read_system, report_fault};
use scoop_command_line::{StoreChoice, UpOptions};
use scoop_etcd_place::begins_as_etcd;
use scoop_files::{FileError, FiledStore, NamedKeeper, StoreName, close_named, report_file};
use scoop_journal::Owner;
use scoop_keeper::{Keeper, MemoryKeeper};
use scoop_message::{ClientId, OutOfMemory};
use scoop_record::Store;
use scoop_report::{Hints, Status, hint, report};
use scoop_runtime::{
    ClientPlan, FileFault, OutOfRange, RuntimeError, Serving, TurningLink, open_client_link,
};
use scoop_system::{ClientPlace, NodePlace, System};
use sqlite::Alter;
use std::alloc::Global;
use std::io::IsTerminal;
use std::mem;
use std::net::Net;
use std::sync::Wait;
use std::thread::Threads;
use std::time::Clock;

// The settings of the nodes: those that `scoop node` has by default.
const EXECUTORS: u32 = 2;

const HISTORY: usize = 100_000;

// The turns of a command of the client: those that `scoop client` has by default.
const TURNS: u64 = 100_000;

/// Runs all nodes of the options' system, and a client whose commands are the lines of standard input. At the end of the
/// client the nodes are asked to end.
pub fn run_up<T: Threads + Wait + Clock + Net + Sync>(
    rt: &HostRuntime,
    threads: &T,
    options: &UpOptions<'_>,
) -> Result<(), Status> {
    require_folder(rt, options)?;
    let serving = match Serving::new(EXECUTORS, HISTORY, u64::MAX) {
        Ok(serving) => serving,
        Err(range) => return Err(report_range(rt, range)),
    };
    let system = read_system(rt, options.system)?;
    let Some(place) = client_place(&system, options.client) else {
        return Err(report_no_client(rt, options));
    };
    match plan_of(rt, &system, place, options.is_strict) {
        Ok(plan) => run_in(rt, threads, options, serving, &plan),
        Err(range) => Err(report_range(rt, range)),
    }
}

// Refuses a place in an etcd: the stores are files of a folder.
fn require_folder(rt: &HostRuntime, options: &UpOptions<'_>) -> Result<(), Status> {
    match options.dir {
        Some(dir) if begins_as_etcd(dir) => {}
        _ => return Ok(()),
    }
    report(rt, "--dir takes a folder, and no etcd");
    hint(
        rt,
        Hints::Always,
        "run the nodes over an etcd by scoop node N --system FILE --new etcd://HOST:PORT/NAME",
    );
    Err(Status(2))
}

// Reports that the system's file lacks the client that the options name, or any client.
fn report_no_client(rt: &HostRuntime, options: &UpOptions<'_>) -> Status {
    let (path, fault) = (options.system, FileFault::NoClient);
    match options.client {
        Some(number) => report_fault(rt, path, format_args!("no client {number}"), fault),
        None => report_fault(rt, path, "it has no clients", fault),
    }
}

// The client that the options name, or the first one.
fn client_place(system: &System, client: Option<u32>) -> Option<&ClientPlace> {
    match client {
        Some(number) => system.client(ClientId(number)),
        None => system.clients().first(),
    }
}

fn plan_of<'a>(
    rt: &HostRuntime,
    system: &'a System,
    place: &ClientPlace,
    is_strict: bool,
) -> Result<ClientPlan<'a>, OutOfRange> {
    let is_typed = rt.stdin().is_terminal();
    if is_strict {
        ClientPlan::new_strict(system, *place, TURNS, is_typed)
    } else {
        ClientPlan::new(system, *place, TURNS, is_typed)
    }
}

// Runs the parties over stores in the folder of the options, or over memory alone.
fn run_in<T: Threads + Wait + Clock + Net + Sync>(
    rt: &HostRuntime,
    threads: &T,
    options: &UpOptions<'_>,
    serving: Serving,
    plan: &ClientPlan<'_>,
) -> Result<(), Status> {
    match options.dir {
        Some(dir) => run_stored(rt, threads, serving, plan, dir),
        None => run_unstored(rt, threads, serving, plan),
    }
}

// Runs the parties, and stores nothing. The nodes are borrowed by what can fail, so that no early return has to drop them.
fn run_unstored<T: Threads + Wait + Clock + Net + Sync>(
    rt: &HostRuntime,
    threads: &T,
    serving: Serving,
    plan: &ClientPlan<'_>,
) -> Result<(), Status> {
    report(rt, "no --dir: nothing is stored");
    let mut hosts = Vec::new(rt.alloc());
    let mut keeper = MemoryKeeper::new(rt.alloc());
    run_unstored_in(rt, threads, serving, plan, &mut hosts, &mut keeper)
}

// The same over these nodes, which are none yet, and this record of the client.
fn run_unstored_in<T: Threads + Wait + Clock + Net + Sync>(
    rt: &HostRuntime,
    threads: &T,
    serving: Serving,
    plan: &ClientPlan<'_>,
    hosts: &mut Vec<Host<MemoryKeeper>>,
    keeper: &mut MemoryKeeper,
) -> Result<(), Status> {
    for place in plan.system().nodes() {
        let record = MemoryKeeper::new(rt.alloc());
        add_host(
            rt,
            threads,
            plan.system(),
            place,
            serving,
            record,
            None,
            hosts,
        )?;
    }
    run_together(rt, threads, &[], hosts, plan, keeper)?;
    for host in hosts.iter() {
        host.report(rt, plan.system())?;
    }
    Ok(())
}

// Adds the node at this place, over its port and this keeper, whose store has this name if it has one.
fn add_host<K: Keeper<Global> + Send, T: Net>(
    rt: &HostRuntime,
    net: &T,
    system: &System,
    place: &NodePlace,
    serving: Serving,
    keeper: K,
    name: Option<StoreName>,
    hosts: &mut Vec<Host<K>>,
) -> Result<(), Status> {
    match Host::open(rt, net, system, place, serving, keeper, name) {
        Ok(host) => keep(rt, host, hosts),
        Err(error) => Err(report_node(rt, system, place.address, None, error)),
    }
}

fn keep<K: Keeper<Global>>(
    rt: &HostRuntime,
    host: Host<K>,
    hosts: &mut Vec<Host<K>>,
) -> Result<(), Status> {
    match hosts.push(host) {
        Ok(()) => Ok(()),
        Err(_) => Err(report_plainly(rt, RuntimeError::from(OutOfMemory))),
    }
}

// Runs the parties over the stores in this folder.
fn run_stored<T: Threads + Wait + Clock + Net + Sync>(
    rt: &HostRuntime,
    threads: &T,
    serving: Serving,
    plan: &ClientPlan<'_>,
    dir: &str,
) -> Result<(), Status> {
    make_folder(rt, dir)?;
    let names = names_in(rt, plan.system(), dir)?;
    let mut hosts = Vec::new(rt.alloc());
    let ran = run_stored_in(
        rt,
        threads,
        serving,
        plan,
        dir,
        names.as_slice(),
        &mut hosts,
    );
    let ended = close_hosts(rt, plan.system(), hosts);
    let lost = names.iter().find(|name| name.is_lost());
    end_of(rt, lost, ran, ended)
}

// The end of the parties, whose nodes ended so. It is that of a store that was found to be lost, if there is one.
fn end_of(
    rt: &HostRuntime,
    lost: Option<&StoreName>,
    ran: Result<(), Status>,
    ended: Result<(), Status>,
) -> Result<(), Status> {
    match (lost, ran, ended) {
        (Some(_), _, Err(status)) => Err(status),
        (Some(name), _, Ok(())) => {
            let lost = FileError::Lost;
            Err(report_file(rt, Hints::Always, name.path(), lost))
        }
        (None, Err(status), _) => Err(status),
        (None, Ok(()), ended) => ended,
    }
}

// The names of the nodes' stores in this folder.
fn names_in(rt: &HostRuntime, system: &System, dir: &str) -> Result<Vec<StoreName>, Status> {
    let mut names = Vec::new(rt.alloc());
    for place in system.nodes() {
        let name = name_in(rt, dir, "node", place.number)?;
        if names.push(name).is_err() {
            return Err(report_plainly(rt, RuntimeError::from(OutOfMemory)));
        }
    }
    Ok(names)
}

// The name of a party's store in this folder.
fn name_in(rt: &HostRuntime, dir: &str, kind: &str, number: u32) -> Result<StoreName, Status> {
    let path = store_path(rt, dir, kind, number)?;
    name_of(rt, &path)
}

fn name_of(rt: &HostRuntime, path: &str) -> Result<StoreName, Status> {
    match StoreName::new(rt.alloc(), path) {
        Ok(name) => Ok(name),
        Err(error) => Err(report_plainly(rt, RuntimeError::from(error))),
    }
}

// The same over these nodes, which are none yet, and whose stores have these names.
fn run_stored_in<T: Threads + Wait + Clock + Net + Sync>(
    rt: &HostRuntime,
    threads: &T,
    serving: Serving,
    plan: &ClientPlan<'_>,
    dir: &str,
    names: &[StoreName],
    hosts: &mut Vec<Host<FiledStore>>,
) -> Result<(), Status> {
    for (place, name) in plan.system().nodes().iter().zip(names) {
        add_stored(rt, threads, plan.system(), place, serving, name, hosts)?;
    }
    let client = plan.place().client;
    let name = name_in(rt, dir, "client", client.0)?;
    let choice = choice_of(rt, name.path())?;
    check_owner(rt, choice, plan.system(), Owner::Client(client))?;
    match open_client_store(rt, choice, None, client) {
        Ok(store) => run_filed(rt, threads, plan, names, hosts, choice, store, &name),
        Err(error) => Err(report_file(rt, Hints::Always, name.path(), error)),
    }
}

// The same over the client's store of this name, which is closed then.
fn run_filed<T: Threads + Wait + Clock + Net + Sync>(
    rt: &HostRuntime,
    threads: &T,
    plan: &ClientPlan<'_>,
    names: &[StoreName],
    hosts: &mut Vec<Host<FiledStore>>,
    choice: StoreChoice<'_>,
    store: FiledStore,
    name: &StoreName,
) -> Result<(), Status> {
    let (ran, store) = run_kept(rt, threads, plan, names, hosts, choice, store, name);
    let closed = close_store(rt, name, store);
    match ran {
        Ok(()) => closed,
        Err(status) => Err(status),
    }
}

// The same over a store in any place, which knows its owner from then on and is returned. The text beside it gets the client's
// incarnation.
fn run_kept<S: Alter + Drop + Send, T: Threads + Wait + Clock + Net + Sync>(
    rt: &HostRuntime,
    threads: &T,
    plan: &ClientPlan<'_>,
    names: &[StoreName],
    hosts: &mut Vec<Host<Store<S>>>,
    choice: StoreChoice<'_>,
    store: Store<S>,
    name: &StoreName,
) -> (Result<(), Status>, Store<S>) {
    let owner = Owner::Client(plan.place().client);
    note_owner(rt, choice, plan.system(), owner);
    let mut keeper = NamedKeeper::new(rt, store, name);
    let ran = run_together(rt, threads, names, hosts, plan, &mut keeper);
    (ran, keeper.into_inner())
}

// Adds the node at this place, over its store of this name.
fn add_stored<T: Net>(
    rt: &HostRuntime,
    net: &T,
    system: &System,
    place: &NodePlace,
    serving: Serving,
    name: &StoreName,
    hosts: &mut Vec<Host<FiledStore>>,
) -> Result<(), Status> {
    let choice = choice_of(rt, name.path())?;
    check_owner(rt, choice, system, Owner::Node(place.number))?;
    add_filed(rt, net, system, place, serving, choice, name, hosts)
}

// Adds the node over the store in this file. A function that names the files' type does one thing alone: the prover takes too
// many steps at more.
fn add_filed<T: Net>(
    rt: &HostRuntime,
    net: &T,
    system: &System,
    place: &NodePlace,
    serving: Serving,
    choice: StoreChoice<'_>,
    name: &StoreName,
    hosts: &mut Vec<Host<FiledStore>>,
) -> Result<(), Status> {
    match open_node_store(rt, choice) {
        Ok(store) => add_opened(rt, net, system, place, serving, choice, store, name, hosts),
        Err(error) => Err(report_file(rt, Hints::Always, name.path(), error)),
    }
}

// Adds the node over the store that was opened by this choice, and goes on with what it holds if it is old.
fn add_opened<S: Alter + Drop + Send, T: Net>(
    rt: &HostRuntime,
    net: &T,
    system: &System,
    place: &NodePlace,
    serving: Serving,
    choice: StoreChoice<'_>,
    mut store: Store<S>,
    name: &StoreName,
    hosts: &mut Vec<Host<Store<S>>>,
) -> Result<(), Status> {
    go_on(rt, choice, system, place.number, &mut store)?;
    let serving = match choice {
        StoreChoice::Old(_) => serving.going_on(),
        StoreChoice::New(_) | StoreChoice::None => serving,
    };
    let own = name_of(rt, name.path())?;
    add_host(rt, net, system, place, serving, store, Some(own), hosts)
}

// Runs the nodes beside the client, and reports why the client ends early. It ends when a store of these names is lost.
fn run_together<K, C, T>(
    rt: &HostRuntime,
    threads: &T,
    names: &[StoreName],
    hosts: &mut Vec<Host<K>>,
    plan: &ClientPlan<'_>,
    keeper: &mut C,
) -> Result<(), Status>
where
    K: Keeper<Global> + Send,
    C: Keeper<Global>,
    T: Threads + Wait + Clock + Net + Sync,
{
    let place = plan.place();
    let link = match open_client_link(threads, rt.alloc(), plan.system(), &place) {
        Ok(link) => link,
        Err(error) => return Err(report_client(rt, plan, End::Runtime(error))),
    };
    let link = match TurningLink::new(rt.alloc(), link, plan.system()) {
        Ok(link) => link,
        Err(error) => return Err(report_client(rt, plan, End::from(error))),
    };
    let lent = mem::replace(hosts, Vec::new(rt.alloc()));
    let (lent, ran) = run_beside(rt, threads, lent, plan, keeper, link, names);
    *hosts = lent;
    match ran {
        Ok(()) => Ok(()),
        Err(end) => Err(report_client(rt, plan, end)),
    }
}

// Reports why the client ends early.
fn report_client(rt: &HostRuntime, plan: &ClientPlan<'_>, end: End) -> Status {
    let party = Party {
        system: plan.system(),
        address: plan.place().address,
        store: None,
        journal: None,
    };
    report_end(rt, &party, end)
}

// Closes the stores of the nodes. Returns the status of the first node that ended early.
fn close_hosts(
    rt: &HostRuntime,
    system: &System,
    hosts: Vec<Host<FiledStore>>,
) -> Result<(), Status> {
    let mut ended = Ok(());
    for host in hosts {
        let closed = close_host(rt, system, host);
        if ended.is_ok() {
            ended = closed;
        }
    }
    ended
}

// Reports why a node ended early, or closes its store.
fn close_host(rt: &HostRuntime, system: &System, host: Host<FiledStore>) -> Result<(), Status> {
    match store_of(rt, system, host) {
        Ok((store, name)) => close_kept(rt, name, store),
        Err(status) => Err(status),
    }
}

// Reports why a node ended early, or returns its store and the name of that.
fn store_of<S: Alter + Drop + Send>(
    rt: &HostRuntime,
    system: &System,
    host: Host<Store<S>>,
) -> Result<(Option<Store<S>>, Option<StoreName>), Status> {
    match host.report(rt, system) {
        Ok(()) => Ok(host.into_keeper()),
        Err(status) => Err(status),
    }
}

// Closes the store of a node.
fn close_kept(
    rt: &HostRuntime,
    name: Option<StoreName>,
    store: Option<FiledStore>,
) -> Result<(), Status> {
    match (name, store) {
        (Some(name), Some(store)) => close_store(rt, &name, store),
        _ => Ok(()),
    }
}

// Closes the store of this name, unless it has lost that.
fn close_store(rt: &HostRuntime, name: &StoreName, store: FiledStore) -> Result<(), Status> {
    match close_named(store, name) {
        Ok(()) => Ok(()),
        Err(error) => Err(report_file(rt, Hints::Always, name.path(), error)),
    }
}
