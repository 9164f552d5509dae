//! `scoop client`: a client of a system, whose commands are the lines of standard input.

use crate::ending::{End, Party, fated_end, report_end, report_plainly, report_range};
use crate::journaling::{open_journal, with_journal};
use crate::keys::read_key;
use crate::owning::{check_owner, note_owner};
use crate::places::{check_choice, place_chosen};
use crate::stores::{open_client_store, open_shared_client};
use crate::system_file::{read_system, read_text, report_fault};
use crate::tasks::{ClientTask, Cut, Input, Program, Script};
use crate::typed_lines::TypedLines;
use scoop_command_line::{ClientOptions, StoreChoice};
use scoop_etcd_place::EtcdPlace;
use scoop_etcd_stores::{Fate, FatefulKeeper};
use scoop_files::{NamedKeeper, StoreName, close};
use scoop_journal::{JournalFile, Owner};
use scoop_keeper::Keeper;
use scoop_link::{Link, SetsAddress};
use scoop_message::ClientId;
use scoop_pacing::{MeasuredLink, SystemTimes};
use scoop_report::{Hints, Status, hint, report};
use scoop_runtime::{
    ClientPlan, ClientProgram, FileFault, TurningLink, check_script, open_client_link,
};
use scoop_seal::{Key, SealedLink};
use scoop_system::System;
use std::alloc::Global;
use std::io::IsTerminal;
use std::net::Net;

/// Runs the client of the options. Its system, its key and its port come first, and then its store.
pub fn run_client<T: Net>(
    rt: &HostRuntime,
    net: &T,
    options: &ClientOptions<'_>,
) -> Result<(), Status> {
    if let StoreChoice::None = options.store {
        return Err(report_no_store(rt));
    }
    check_choice(rt, options.store)?;
    let system = read_system(rt, options.system)?;
    run_in(rt, net, options, &system)
}

fn report_no_store(rt: &HostRuntime) -> Status {
    report(rt, "a client needs a store");
    hint(
        rt,
        Hints::Always,
        "use --new FILE for a client that never ran, and --store FILE to resume the store that it made. If that store is lost, \
        use --new FILE --after N",
    );
    Status(2)
}

// Runs the client of this system, which is borrowed, so that no early return has to drop it.
fn run_in<T: Net>(
    rt: &HostRuntime,
    net: &T,
    options: &ClientOptions<'_>,
    system: &System,
) -> Result<(), Status> {
    if options.only_cuts {
        return run_task(rt, net, options, system, false, &mut Cut);
    }
    let Some(path) = options.lines else {
        let is_typed = rt.stdin().is_terminal();
        return run_task(rt, net, options, system, is_typed, &mut Input { net });
    };
    let text = read_text(rt, path)?;
    check_lines(rt, options, system, path, &text)?;
    run_task(rt, net, options, system, false, &mut Script { text: &text })
}

/// Runs a program as the client of the options. With `only_cuts` it cuts the block of a run that was killed, and the program
/// doesn't run. The order of what it opens and refuses is that of [`run_client`].
pub fn run_own_client<T: Net, G: ClientProgram>(
    rt: &HostRuntime,
    net: &T,
    options: &ClientOptions<'_>,
    program: &mut G,
) -> Result<(), Status> {
    if let StoreChoice::None = options.store {
        return Err(report_no_store(rt));
    }
    check_choice(rt, options.store)?;
    let system = read_system(rt, options.system)?;
    run_program_in(rt, net, options, &system, program)
}

// Runs the program in this system, which is borrowed, so that no early return has to drop it.
fn run_program_in<T: Net, G: ClientProgram>(
    rt: &HostRuntime,
    net: &T,
    options: &ClientOptions<'_>,
    system: &System,
    program: &mut G,
) -> Result<(), Status> {
    if options.only_cuts {
        return run_task(rt, net, options, system, false, &mut Cut);
    }
    run_task(rt, net, options, system, false, &mut Program { program })
}

// Checks the lines of a file, before anything is sent.
fn check_lines(
    rt: &HostRuntime,
    options: &ClientOptions<'_>,
    system: &System,
    path: &str,
    text: &str,
) -> Result<(), Status> {
    let mut lines = TypedLines::new(text.as_bytes());
    let client = system.client(ClientId(options.number));
    match check_script(system, client, &mut lines, &mut rt.stderr()) {
        Ok(true) => Ok(()),
        Ok(false) => Err(report_fault(rt, path, "nothing was sent", FileFault::NoScript)),
        Err(error) => Err(report_plainly(rt, error)),
    }
}

// Runs the client for this task. A user may type its lines.
fn run_task<T: Net, C: ClientTask>(
    rt: &HostRuntime,
    net: &T,
    options: &ClientOptions<'_>,
    system: &System,
    is_typed: bool,
    task: &mut C,
) -> Result<(), Status> {
    let client = ClientId(options.number);
    let Some(place) = system.client(client) else {
        return Err(report_fault(
            rt,
            options.system,
            format_args!("no client {client}"),
            FileFault::NoClient,
        ));
    };
    let made = if options.is_strict {
        ClientPlan::new_strict(system, *place, options.turns, is_typed)
    } else {
        ClientPlan::new(system, *place, options.turns, is_typed)
    };
    let plan = match made {
        Ok(plan) => plan,
        Err(range) => return Err(report_range(rt, range)),
    };
    let key = read_key(rt, options.key, system)?;
    check_owner(rt, options.store, system, Owner::Client(client))?;
    let party = Party {
        system,
        address: place.address,
        store: options.store.path(),
        journal: options.journal.path,
    };
    match run_journaled(rt, net, options, &plan, key, task) {
        Ok(()) => Ok(()),
        Err(end) => Err(report_end(rt, &party, end)),
    }
}

// Runs the client with its journal, if it writes one.
fn run_journaled<T: Net, C: ClientTask>(
    rt: &HostRuntime,
    net: &T,
    options: &ClientOptions<'_>,
    plan: &ClientPlan<'_>,
    key: Option<Key>,
    task: &mut C,
) -> Result<(), End> {
    let owner = Owner::Client(plan.place().client);
    let journal = open_journal(rt, options.journal, owner)?;
    let journal = journal.as_ref();
    let ended = run_at(rt, net, options, plan, key, journal, task);
    with_journal(journal, ended)
}

// Runs the client at its place.
fn run_at<T: Net, C: ClientTask>(
    rt: &HostRuntime,
    net: &T,
    options: &ClientOptions<'_>,
    plan: &ClientPlan<'_>,
    key: Option<Key>,
    journal: Option<&JournalFile>,
    task: &mut C,
) -> Result<(), End> {
    let link = open_client_link(net, rt.alloc(), plan.system(), &plan.place())?;
    let link = SealedLink::new(link, key);
    run_measured(rt, options, plan, journal, link, task)
}

// Runs the client over this link to the nodes' addresses. Its round trips decide when a datagram goes again.
fn run_measured<L: SetsAddress, C: ClientTask>(
    rt: &HostRuntime,
    options: &ClientOptions<'_>,
    plan: &ClientPlan<'_>,
    journal: Option<&JournalFile>,
    link: L,
    task: &mut C,
) -> Result<(), End> {
    let handlers = plan.system().handlers().len();
    let client = plan.place().client;
    let clock = SystemTimes::new(rt);
    let link = TurningLink::new(rt.alloc(), link, plan.system())?;
    let link = MeasuredLink::new(rt.alloc(), link, clock, handlers, client.0)?;
    run_stored(rt, options, plan, journal, link, task)
}

// Runs the client over the store of its options, and closes it.
fn run_stored<L: Link, C: ClientTask>(
    rt: &HostRuntime,
    options: &ClientOptions<'_>,
    plan: &ClientPlan<'_>,
    journal: Option<&JournalFile>,
    link: L,
    task: &mut C,
) -> Result<(), End> {
    let choice = options.store;
    if let Some(place) = place_chosen(choice) {
        return run_shared(rt, options, &place, plan, journal, link, task);
    }
    let name = StoreName::new(rt.alloc(), choice.path().unwrap_or(""))?;
    let store = open_client_store(rt, choice, options.after, plan.place().client)?;
    let (ran, store) = run_over(rt, choice, plan, store, &name, journal, link, task);
    let closed = close(store);
    ran?;
    Ok(closed?)
}

// Runs the client over this store and this link, and returns the store, which knows its owner from then on. The text beside it
// gets the client's incarnation. A function that names the files' type does one thing alone: the prover takes too many steps at
// more.
fn run_over<K: Keeper<Global>, L: Link, C: ClientTask>(
    rt: &HostRuntime,
    choice: StoreChoice<'_>,
    plan: &ClientPlan<'_>,
    store: K,
    name: &StoreName,
    journal: Option<&JournalFile>,
    link: L,
    task: &mut C,
) -> (Result<(), End>, K) {
    note_owner(
        rt,
        choice,
        plan.system(),
        Owner::Client(plan.place().client),
    );
    let mut keeper = NamedKeeper::new(rt, store, name);
    let ran = task.run(rt, plan, &mut keeper, journal, link);
    (ran, keeper.into_inner())
}

// Runs the client over its store at this place in an etcd, which knows its owner from then on.
fn run_shared<L: Link, C: ClientTask>(
    rt: &HostRuntime,
    options: &ClientOptions<'_>,
    place: &EtcdPlace<'_>,
    plan: &ClientPlan<'_>,
    journal: Option<&JournalFile>,
    link: L,
    task: &mut C,
) -> Result<(), End> {
    let (choice, client) = (options.store, plan.place().client);
    let fate = Fate::new();
    let store = open_shared_client(rt, choice, place, options.after, client)?;
    note_owner(rt, choice, plan.system(), Owner::Client(client));
    let mut keeper = FatefulKeeper::new(store, &fate);
    match task.run(rt, plan, &mut keeper, journal, link) {
        Ok(()) => Ok(()),
        Err(end) => Err(fated_end(&fate, end)),
    }
}
