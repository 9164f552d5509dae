//! A node that runs beside the thread that shows it.

use crate::ending::End;
use crate::hearing::run_hearing;
use mio::net::TcpListener;
use scoop_command_line::{LogChoice, NodeOptions};
use scoop_errors::PartyError;
use scoop_journal::JournalFile;
use scoop_keeper::Keeper;
use scoop_link::Link;
use scoop_message::{ClientId, OutOfMemory};
use scoop_pacing::{SlowNotes, SystemTimes};
use scoop_report::report;
use scoop_runtime::{Ending, NodePlan, Objects, RuntimeError, Serving};
use scoop_seal::SealedLink;
use scoop_status::{About, Log};
use scoop_status_server::{Server, show};
use scoop_system::{NodePlace, System};
use scoop_watch::{
    LogLevel, Settings, Watch, WatchedKeeper, WatchedLink, WatchedOutput, WatchedStrangers,
};
use std::alloc::Global;
use std::hash::RandomState;
use std::io::{BufWriter, Stderr, Stdout, Write};
use std::net::SocketAddr;
use std::sync::Wait;
use std::thread::Threads;
use std::time::Clock;
use std::{io, thread};

/// How a node is shown: what is known of it, and its log's level.
#[derive(Clone, Copy)]
pub(crate) struct Shown<'a> {
    pub(crate) about: About<'a>,
    pub(crate) log: LogLevel,
    /// The address of its status, if it has one.
    pub(crate) status: Option<SocketAddr>,
    /// Whether it goes on if its status can't be served there.
    pub(crate) may_lack_page: bool,
}

impl<'a> Shown<'a> {
    /// The same of the node at this place.
    pub(crate) fn at(&self, place: NodePlace) -> Shown<'a> {
        let about = About {
            system: self.about.system,
            place,
            store: self.about.store,
            is_sealed: self.about.is_sealed,
            started: self.about.started,
        };
        Shown {
            about,
            log: self.log,
            status: self.status,
            may_lack_page: self.may_lack_page,
        }
    }
}

/// A node that is served, with its journal if it writes one, and how it is shown.
#[derive(Drop)]
pub(crate) struct Served<'a, O: Objects> {
    pub(crate) plan: &'a NodePlan<O>,
    pub(crate) serving: &'a Serving,
    pub(crate) journal: Option<&'a JournalFile>,
    pub(crate) shown: &'a Shown<'a>,
}

/// The level of the log that the command line asks for.
pub(crate) fn level_of(options: &NodeOptions<'_>) -> LogLevel {
    match options.log {
        LogChoice::Off => LogLevel::Off,
        LogChoice::Warn => LogLevel::Warn,
        LogChoice::Info => LogLevel::Info,
        LogChoice::Debug => LogLevel::Debug,
    }
}

/// Opens the server of a node's status, if it has one. It says so if other machines can reach it, and if a node that may stand at
/// another machine goes on without.
pub(crate) fn open_server(rt: &HostRuntime, shown: &Shown<'_>) -> Result<Option<Server>, End> {
    let Some(address) = shown.status else {
        return Ok(None);
    };
    if !address.ip().is_loopback() {
        report(
            rt,
            format_args!(
                "status: {address} is no loopback address: whoever reaches it can read this node's status"
            ),
        );
    }
    match listen(rt, address) {
        Ok(server) => Ok(Some(server)),
        Err(_) if shown.may_lack_page => {
            report(
                rt,
                format_args!("status: Refused, and the node goes on without {address}"),
            );
            Ok(None)
        }
        Err(_) => Err(End::Status(address)),
    }
}

// The server of what comes to this address.
fn listen(rt: &HostRuntime, address: SocketAddr) -> io::Result<Server> {
    let keys = RandomState::new(rt)?;
    let listener = TcpListener::bind(rt, address)?;
    Ok(Server::new(rt.alloc(), keys, listener)?)
}

// The watch of the node that is shown so. States are copied only if there is a status that shows them, or a log that needs
// them.
fn watch_of(alloc: Global, shown: &Shown<'_>) -> Watch {
    let settings = Settings {
        log: shown.log,
        shows_states: shown.status.is_some(),
    };
    Watch::new(alloc, settings)
}

/// The clients that the system's file names.
pub(crate) fn clients_of(alloc: Global, system: &System) -> Result<Vec<ClientId>, OutOfMemory> {
    let mut clients = Vec::new(alloc);
    for place in system.clients() {
        clients.push(place.client).map_err(OutOfMemory::from)?;
    }
    Ok(clients)
}

// The clients of the system whose node is shown so.
fn clients_shown(alloc: Global, shown: &Shown<'_>) -> Result<Vec<ClientId>, OutOfMemory> {
    clients_of(alloc, shown.about.system)
}

// A node under its watch, before it runs.
#[derive(Drop)]
struct WatchedNode<'s, 'w, K: Keeper<Global>, L: Link, T, O: Objects> {
    plan: &'s NodePlan<O>,
    serving: &'s Serving,
    watch: &'w Watch,
    clients: Vec<ClientId>,
    keeper: WatchedKeeper<'w, K, T>,
    link: WatchedLink<'w, L>,
}

impl<'s, 'w, K, L, T, O> WatchedNode<'s, 'w, K, L, T, O>
where
    K: Keeper<Global> + Send,
    L: Link,
    T: Threads + Wait + Clock + Sync,
    O: Objects + Sync,
{
    // Runs the node, lets its watch end, and returns the keeper.
    fn run(
        self,
        threads: &T,
        alloc: Global,
        output: Stdout,
        notes: Stderr,
    ) -> Result<K, RuntimeError> {
        let watch = self.watch;
        let ended = self.serve(threads, alloc, output, notes);
        watch.end();
        ended
    }

    fn serve(
        self,
        threads: &T,
        alloc: Global,
        output: Stdout,
        notes: Stderr,
    ) -> Result<K, RuntimeError> {
        let WatchedNode {
            plan,
            serving,
            watch,
            clients,
            keeper,
            link,
        } = self;
        let output = BufWriter::new(alloc, output).map_err(|_| OutOfMemory)?;
        let mut output = WatchedOutput::new(output, threads, watch);
        let notes = SlowNotes::new(notes, SystemTimes::new(threads));
        let strangers = WatchedStrangers::new(threads, watch);
        let ending = Ending::new();
        match run_hearing(
            threads,
            alloc,
            plan,
            serving,
            keeper,
            link,
            clients,
            strangers,
            notes,
            &mut output,
            &ending,
        ) {
            Ok(keeper) => Ok(keeper.into_inner()),
            Err(error) => Err(error),
        }
    }
}

/// The task of one thread while nodes run in others. Its type stays a parameter where a thread starts. The reason is a
/// limit of the prover: it looks into at most 128 of the structs that a closure captures, and a task has more.
pub(crate) trait Task<R>: Drop {
    fn run(self) -> R;
}

// The status and the log of a node that another thread runs.
#[derive(Drop)]
struct Screen<'a, 's, T> {
    threads: &'a T,
    alloc: Global,
    watch: &'a Watch,
    about: &'a About<'s>,
    server: Option<Server>,
    log: Log<Stderr>,
}

impl<'a, 's, T: Wait + Clock> Task<()> for Screen<'a, 's, T> {
    // Shows the node until it has ended.
    fn run(self) {
        let Screen {
            threads,
            alloc,
            watch,
            about,
            server,
            log,
        } = self;
        show(threads, alloc, watch, about, server, log);
    }
}

/// Runs the node over this keeper and link, with its watch over both, and returns the keeper. It hears only the clients of its
/// file. The server of its status, if it has one, and its log run beside it.
pub(crate) fn run_watched<K, L, T, O>(
    rt: &HostRuntime,
    threads: &T,
    served: &Served<'_, O>,
    server: &mut Option<Server>,
    keeper: K,
    link: SealedLink<L>,
) -> Result<K, RuntimeError>
where
    K: Keeper<Global> + Send,
    L: Link + Send,
    T: Threads + Wait + Clock + Sync,
    O: Objects + Sync,
{
    let (alloc, shown) = (rt.alloc(), served.shown);
    let clients = clients_shown(alloc, shown)?;
    let watch = watch_of(alloc, shown);
    let node = WatchedNode {
        plan: served.plan,
        serving: served.serving,
        watch: &watch,
        clients,
        keeper: WatchedKeeper::new(keeper, threads, &watch),
        link: WatchedLink::new(link, &watch),
    };
    let screen = Screen {
        threads,
        alloc,
        watch: &watch,
        about: &shown.about,
        server: server.take(),
        log: Log::new(rt.stderr(), shown.about.place.number, shown.log),
    };
    run_beside(rt, threads, node, screen)
}

// Starts a thread for the node, does the task in this one, and returns the node's keeper when both have ended.
fn run_beside<K, L, T, O, S>(
    rt: &HostRuntime,
    threads: &T,
    node: WatchedNode<'_, '_, K, L, T, O>,
    task: S,
) -> Result<K, RuntimeError>
where
    K: Keeper<Global> + Send,
    L: Link + Send,
    T: Threads + Wait + Clock + Sync,
    O: Objects + Sync,
    S: Task<()>,
{
    let (alloc, output, notes) = (rt.alloc(), rt.stdout(), rt.stderr());
    thread::scope(thread::scope_env(), threads, move |scope| {
        match scope.spawn(move || node.run(threads, alloc, output, notes)) {
            Ok(running) => {
                task.run();
                running.join(threads)
            }
            Err(_) => Err(RuntimeError::from(PartyError::NoThread)),
        }
    })
}
