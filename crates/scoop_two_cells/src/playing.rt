//! The threads of a demo's nodes and clients.

ghost use Rattle.std.specs.Prelude.{◌≡◌, IfOk, is_some};

use crate::alarm::Alarm;
use crate::client::{Painter, Player, Wire, read};
use crate::host::Host;
use crate::outcome::Outcome;
use crate::plan::Plan;
use crate::progress::Progress;
use scoop_driver::Diary;
use scoop_errors::PartyError;
use scoop_link::Link;
use scoop_object::Behaviour;
use std::alloc::Global;
use std::io::Write;
use std::sync::Wait;
use std::thread;
use std::thread::Threads;
use std::time::Clock;

/// The clients: those that paint, and the one that reads.
#[derive(Drop)]
pub(crate) struct Clients<L: Link, D: Diary<Global>> {
    pub(crate) painters: Vec<Painter<L, D>>,
    pub(crate) reader: Player<L, D>,
}

// Lets the clients paint, each in a thread.
fn paint_all<
    L: Link + Send,
    D: Diary<Global> + Send,
    W: Write + Drop + Send,
    R: Threads + Wait + Sync,
>(
    rt: &R,
    mut painters: Vec<Painter<L, D>>,
    plan: &Plan,
    progress: &Progress<W>,
    alarm: &Alarm,
) -> Vec<Painter<L, D>> {
    let lent = painters.as_mut_slice();
    thread::scope(thread::scope_env(), rt, move |scope| {
        for painter in lent.iter_mut() {
            let spawned = scope.spawn(move || painter.paint(rt, plan, progress, alarm));
            if spawned.is_err() {
                alarm.ring(rt, PartyError::NoThread);
            }
        }
    });
    painters
}

// One client deposits while the other waits and withdraws, each in a thread.
fn wait_all<L: Link + Send, D: Diary<Global> + Send, R: Threads + Wait + Sync>(
    rt: &R,
    mut painters: Vec<Painter<L, D>>,
    alarm: &Alarm,
) -> Vec<Painter<L, D>> {
    let lent = painters.as_mut_slice();
    thread::scope(thread::scope_env(), rt, move |scope| {
        for painter in lent.iter_mut() {
            let spawned = scope.spawn(move || painter.wait(rt, alarm));
            if spawned.is_err() {
                alarm.ring(rt, PartyError::NoThread);
            }
        }
    });
    painters
}

// Does the wait if there is one. Returns whether its condition was met.
fn wait_where_asked<L: Link + Send, D: Diary<Global> + Send, R: Threads + Wait + Sync>(
    rt: &R,
    painters: Vec<Painter<L, D>>,
    waits: bool,
    alarm: &Alarm,
) -> (Vec<Painter<L, D>>, Option<bool>)
    ensures { is_some result.1 ≡ waits }
{
    if !waits {
        return (painters, None);
    }
    let painters = wait_all(rt, painters, alarm);
    let met = painters.iter().all(|painter| painter.has_met());
    (painters, Some(met))
}

// Runs the clients' parts, one after the other, and returns the clients. An error has rung the alarm.
fn play<L, D, W, R>(
    rt: &R,
    clients: Clients<L, D>,
    plan: &Plan,
    waits: bool,
    progress: Option<W>,
    alarm: &Alarm,
) -> (Result<Outcome, PartyError>, Clients<L, D>)
where
    L: Link + Send,
    D: Diary<Global> + Send,
    W: Write + Drop + Send,
    R: Threads + Wait + Sync,
    ensures { IfOk result.0 (λ outcome. is_some outcome.waited ≡ waits) }
{
    let Clients {
        painters,
        mut reader,
    } = clients;
    let progress = Progress::new(progress, plan.rounds);
    let painters = paint_all(rt, painters, plan, &progress, alarm);
    progress.finish();
    let (painters, withdrew) = wait_where_asked(rt, painters, waits, alarm);
    match read(&mut reader.driver, plan.turns, withdrew) {
        Ok(outcome) => (Ok(outcome), Clients { painters, reader }),
        Err(error) => {
            let error = PartyError::from(error);
            alarm.ring(rt, error);
            (Err(error), Clients { painters, reader })
        }
    }
}

/// The outcome of a demo, and its parties.
#[derive(Drop)]
pub(crate) struct Played<B: Behaviour, L: Link, D: Diary<Global>> {
    pub(crate) outcome: Result<Outcome, PartyError>,
    pub(crate) hosts: Vec<Host<B>>,
    pub(crate) clients: Clients<L, D>,
}

/// Serves the nodes, each in a thread, while the clients run, and joins all threads. An error has rung the alarm.
pub(crate) fn play_beside<'a, B, D, W, R>(
    rt: &R,
    alloc: Global,
    mut hosts: Vec<Host<B>>,
    clients: Clients<Wire<'a>, D>,
    plan: &Plan,
    waits: bool,
    progress: Option<W>,
    alarm: &Alarm,
) -> Played<B, Wire<'a>, D>
where
    B: Behaviour + Send,
    D: Diary<Global> + Send,
    W: Write + Drop + Send,
    R: Threads + Wait + Clock + Sync,
    ensures { IfOk result.outcome (λ outcome. is_some outcome.waited ≡ waits) }
{
    let turns = plan.node_turns();
    let lent = hosts.as_mut_slice();
    let (outcome, clients) = thread::scope(
        thread::scope_env(),
        rt,
        move |scope| -> (Result<Outcome, PartyError>, Clients<Wire, D>)
            ensures { IfOk result.0 (λ outcome. is_some outcome.waited ≡ waits) }
        {
            for host in lent.iter_mut() {
                let spawned = scope.spawn(move || host.serve(rt, alloc, turns, alarm));
                if spawned.is_err() {
                    alarm.ring(rt, PartyError::NoThread);
                }
            }
            let played = play(rt, clients, plan, waits, progress, alarm);
            alarm.stop().ask();
            played
        },
    );
    Played {
        outcome,
        hosts,
        clients,
    }
}
