//! The threads of a running connector.
ghost use denote.Param.Send.{IsSend, IsSync};

use crate::accepting::{Accepted, Acceptor, accept_all};
use crate::actors::{Keeping, Turning, WatcherLinks};
use crate::fault::Unprinted;
use crate::sweeping::sweep;
use crate::watching::{Watcher, watch};
use crossbeam_channel::{Receiver, Sender, bounded};
use ilp_desk::{Desk, End, Naming};
use ilp_keeping::SharedKeeper;
use ilp_loops::ServingLoop;
use ilp_notices::closing;
use ilp_settler::Sweeper;
use ilp_settling::{SettlerBell, SettlingLoop};
use ilp_shared::{
    Job, KeepRunning, LOCAL_AT_ONCE, OnDisk, Shared, Shutdown, keep_for_loops, shutdown_pair,
};
use ilp_workers::{Clock, Keeper};
use std::io::Eprint;
use std::net::{Net, TcpListener, TcpStream};
use std::sync::Wait;
use std::thread::{JoinHandle, Scope, Threads};
use std::{thread, time};

/// What takes connections in, at both sides.
#[derive(Drop)]
pub(crate) struct Acceptors {
    pub(crate) peers: Acceptor,
    pub(crate) engines: Acceptor,
}

impl Acceptors {
    // Closes both sides where somebody asked for that when neither handed anything on any more: it need not
    // wait for what comes between two periods.
    fn closed_as_asked<J: Naming, R: Wait + time::Clock>(
        self,
        shared: &Shared<'_, J, R>,
    ) -> Acceptors {
        if !shared.intakes.has_closers(shared.rt) {
            return self;
        }
        let Acceptors { peers, engines } = self;
        Acceptors {
            peers: peers.close(shared),
            engines: engines.close(shared),
        }
    }
}

// The threads of the sweeper, the settler and the watcher.
#[derive(Drop)]
struct TurnThreads<J: Naming> {
    sweeping: JoinHandle<End<J>>,
    settling: JoinHandle<Option<End<J>>>,
    watching: JoinHandle<()>,
}

// Starts a thread for each worker's loop.
fn start_loops<'s, S, J, C, K, R>(
    scope: &'s Scope<'s, S>,
    shared: &Shared<'s, J, R>,
    loops: Vec<ServingLoop<J, C, K>>,
    jobs: &Receiver<Job>,
) -> Result<Vec<JoinHandle<Option<End<J>>>>, Unprinted>
where
    J: Naming + Send + Sync + 's,
    C: Clock + Drop + Send + 's,
    K: Keeper<J> + Drop + Send + 's,
    R: Net<Listener = TcpListener, Stream = TcpStream> + Wait + time::Clock + Eprint + Sync + 's,
{
    let mut threads = Vec::new(shared.desk.config().allocator());
    for own in loops {
        let thread = start_loop(scope, shared, own, jobs)?;
        if threads.push(thread).is_err() {
            return Err(Unprinted::Memory);
        }
    }
    Ok(threads)
}

// Starts the thread of a worker's loop.
fn start_loop<'s, S, J, C, K, R>(
    scope: &'s Scope<'s, S>,
    shared: &Shared<'s, J, R>,
    own: ServingLoop<J, C, K>,
    jobs: &Receiver<Job>,
) -> Result<JoinHandle<Option<End<J>>>, Unprinted>
where
    J: Naming + Send + Sync + 's,
    C: Clock + Drop + Send + 's,
    K: Keeper<J> + Drop + Send + 's,
    R: Net<Listener = TcpListener, Stream = TcpStream> + Wait + time::Clock + Eprint + Sync + 's,
{
    let jobs = jobs.clone()?;
    let shared = shared.another();
    match scope.spawn(move || own.run(shared, jobs)) {
        Ok(thread) => Ok(thread),
        Err(_) => Err(Unprinted::Spawn),
    }
}

// Starts the thread that keeps the journal for the loops.
fn start_keeping<'s, S, J, K, R>(
    scope: &'s Scope<'s, S>,
    shared: &Shared<'s, J, R>,
    keeping: Keeping<J, K>,
) -> Result<JoinHandle<()>, Unprinted>
where
    J: Naming + Send + Sync + 's,
    K: Keeper<J> + Drop + Send + 's,
    R: Wait + time::Clock + Sync + 's,
{
    let shared = shared.another();
    let Keeping { keeper, asks } = keeping;
    Ok(scope.spawn(move || keep_for_loops(shared, keeper, asks))?)
}

// Starts the thread of the sweeper.
fn start_sweeper<'s, S, J, C, R>(
    scope: &'s Scope<'s, S>,
    shared: &Shared<'s, J, R>,
    sweeper: Sweeper<J, C>,
    shutdown: Shutdown,
) -> Result<JoinHandle<End<J>>, Unprinted>
where
    J: Naming + Send + Sync + 's,
    C: Clock + Drop + Send + 's,
    R: Wait + time::Clock + Sync + 's,
{
    let (rt, desk) = (shared.rt, shared.desk);
    Ok(scope.spawn(move || sweep(rt, desk, sweeper, shutdown))?)
}

// Starts the thread of the settler.
fn start_settler<'s, S, J, C, K, R>(
    scope: &'s Scope<'s, S>,
    shared: &Shared<'s, J, R>,
    settling: SettlingLoop<J, C, K>,
    shutdown: Shutdown,
) -> Result<JoinHandle<Option<End<J>>>, Unprinted>
where
    J: Naming + Send + Sync + 's,
    C: Clock + Drop + Send + 's,
    K: Keeper<J> + Drop + Send + 's,
    R: Net<Listener = TcpListener, Stream = TcpStream> + Wait + time::Clock + Eprint + Sync + 's,
{
    let shared = shared.another();
    match scope.spawn(move || settling.run(shared, shutdown)) {
        Ok(thread) => Ok(thread),
        Err(_) => Err(Unprinted::Spawn),
    }
}

// Starts the thread of the watcher, who is given these.
fn start_watcher<'s, S, J, C, K, P, R>(
    scope: &'s Scope<'s, S>,
    shared: &Shared<'s, J, R>,
    links: WatcherLinks<J, C, K>,
    on_disk: P,
    shutdown: Shutdown,
) -> Result<JoinHandle<()>, Unprinted>
where
    J: Naming + Send + Sync + 's,
    C: Clock + Drop + Send + 's,
    K: SharedKeeper<J> + Drop + Send + 's,
    P: OnDisk + Drop + Send + 's,
    R: Wait + time::Clock + Eprint + Sync + 's,
{
    let rt = shared.rt;
    let watcher = Watcher {
        desk: shared.desk,
        links,
        places: shared.places,
        intakes: shared.intakes,
        disk: shared.disk,
        notices: shared.notices,
        seen: shared.seen,
        moments: shared.moments,
        reloading: shared.reloading,
        due: shared.due,
        on_disk,
        is_lost: false,
    };
    Ok(scope.spawn(move || watch(rt, watcher, shutdown))?)
}

// Starts the threads of the sweeper, the settler and the watcher.
fn start_turns<'s, S, J, C, K, P, R>(
    scope: &'s Scope<'s, S>,
    shared: &Shared<'s, J, R>,
    turning: Turning<J, C, K>,
    on_disk: P,
    shutdown: &Shutdown,
) -> Result<TurnThreads<J>, Unprinted>
where
    J: Naming + Send + Sync + 's,
    C: Clock + Drop + Send + 's,
    K: SharedKeeper<J> + Drop + Send + 's,
    P: OnDisk + Drop + Send + 's,
    R: Net<Listener = TcpListener, Stream = TcpStream> + Wait + time::Clock + Eprint + Sync + 's,
{
    let Turning {
        sweeper,
        settling,
        watching,
    } = turning;
    let sweeping = start_sweeper(scope, shared, sweeper, shutdown.try_clone()?)?;
    let settling = start_settler(scope, shared, settling, shutdown.try_clone()?)?;
    let watching = start_watcher(scope, shared, watching, on_disk, shutdown.try_clone()?)?;
    Ok(TurnThreads {
        sweeping,
        settling,
        watching,
    })
}

// What takes connections in at both sides, once neither hands any on.
#[derive(Drop)]
struct BothAccepted {
    acceptors: Acceptors,
    goes_on: bool,
}

impl BothAccepted {
    fn of(peers: Accepted, engines: Accepted) -> BothAccepted {
        let goes_on = peers.goes_on || engines.goes_on;
        let acceptors = Acceptors {
            peers: peers.acceptor,
            engines: engines.acceptor,
        };
        BothAccepted { acceptors, goes_on }
    }
}

// Accepts connections at both sides, each in a thread, until both are closed, or the period is over.
fn accept_at_both<'s, S, J, R>(
    scope: &'s Scope<'s, S>,
    shared: &Shared<'s, J, R>,
    acceptors: Acceptors,
    jobs: Sender<Job>,
) -> Result<BothAccepted, Unprinted>
where
    J: Naming + Send + Sync + 's,
    R: Threads + Wait + time::Clock + Sync + 's,
{
    let rt = shared.rt;
    let Acceptors { peers, engines } = acceptors;
    let engine_jobs = jobs.clone()?;
    let (of_peers, of_engines) = (shared.another(), shared.another());
    let peer_thread = scope.spawn(move || accept_all(of_peers, peers, jobs))?;
    match scope.spawn(move || accept_all(of_engines, engines, engine_jobs)) {
        Ok(thread) => {
            let engines = thread.join(rt);
            Ok(BothAccepted::of(peer_thread.join(rt), engines))
        }
        Err(_) => {
            shared.intakes.accept_no_more();
            drop(peer_thread.join(rt));
            Err(Unprinted::Spawn)
        }
    }
}

// What the workers hand in.
fn ends_of<J: Naming, R: Threads>(
    rt: &R,
    threads: Vec<JoinHandle<Option<End<J>>>>,
    room: Vec<End<J>>,
) -> Result<Vec<End<J>>, Unprinted> {
    let mut ends = room;
    for thread in threads {
        let Some(end) = thread.join(rt) else {
            continue;
        };
        if ends.push(end).is_err() {
            return Err(Unprinted::Memory);
        }
    }
    Ok(ends)
}

// What the sweeper and the settler hand in, after what the workers did. The watcher is over then too.
fn with_turns<J: Naming, R: Threads>(
    rt: &R,
    turns: TurnThreads<J>,
    workers: Vec<End<J>>,
) -> Result<Vec<End<J>>, Unprinted> {
    let mut ends = workers;
    let TurnThreads {
        sweeping,
        settling,
        watching,
    } = turns;
    let (swept, settled) = (sweeping.join(rt), settling.join(rt));
    watching.join(rt);
    if ends.push(swept).is_err() {
        return Err(Unprinted::Memory);
    }
    if let Some(settled) = settled {
        if ends.push(settled).is_err() {
            return Err(Unprinted::Memory);
        }
    }
    Ok(ends)
}

// The threads of the actors, and what keeps the sweeper and the settler running.
#[derive(Drop)]
struct ActorThreads<J: Naming> {
    workers: Vec<JoinHandle<Option<End<J>>>>,
    // What keeps the journal for them, which ends with the last of them.
    keeping: Option<JoinHandle<()>>,
    turns: TurnThreads<J>,
    keep_running: KeepRunning,
    // Room for what they hand in.
    room: Vec<End<J>>,
}

/// The actors that run, each in a thread, and where the watcher reads the configuration again.
#[derive(Drop)]
pub(crate) struct Running<J: Naming, C: Clock + Drop, K: Keeper<J> + Drop, P> {
    pub(crate) loops: Vec<ServingLoop<J, C, K>>,
    pub(crate) keeping: Option<Keeping<J, K>>,
    pub(crate) turning: Turning<J, C, K>,
    pub(crate) on_disk: P,
}

// Starts the threads of all actors. The loops serve the jobs that are sent.
fn start_actors<'s, S, J, C, K, P, R>(
    scope: &'s Scope<'s, S>,
    shared: &Shared<'s, J, R>,
    actors: Running<J, C, K, P>,
    jobs: Receiver<Job>,
) -> Result<ActorThreads<J>, Unprinted>
where
    J: Naming + Send + Sync + 's,
    C: Clock + Drop + Send + 's,
    K: SharedKeeper<J> + Drop + Send + 's,
    P: OnDisk + Drop + Send + 's,
    R: Net<Listener = TcpListener, Stream = TcpStream> + Wait + time::Clock + Eprint + Sync + 's,
{
    let Running {
        loops,
        keeping,
        turning,
        on_disk,
    } = actors;
    let alloc = shared.desk.config().allocator();
    let room = Vec::with_capacity(alloc, loops.len().saturating_add(2))?;
    let workers = start_loops(scope, shared, loops, &jobs)?;
    let keeping = match keeping {
        Some(keeping) => Some(start_keeping(scope, shared, keeping)?),
        None => None,
    };
    let (keep_running, shutdown) = shutdown_pair(alloc)?;
    let turns = start_turns(scope, shared, turning, on_disk, &shutdown)?;
    Ok(ActorThreads {
        workers,
        keeping,
        turns,
        keep_running,
        room,
    })
}

// Ends the threads of the actors, once nothing more is sent to the workers, and gives what they hand
// in.
fn join_actors<J: Naming, R: Threads>(
    rt: &R,
    threads: ActorThreads<J>,
    settler_bell: &SettlerBell,
) -> Result<Vec<End<J>>, Unprinted> {
    let ActorThreads {
        workers,
        keeping,
        turns,
        keep_running,
        room,
    } = threads;
    let ends = ends_of(rt, workers, room);
    if let Some(keeping) = keeping {
        keeping.join(rt);
    }
    drop(keep_running);
    settler_bell.ring();
    with_turns(rt, turns, ends?)
}

/// What a period of a desk comes to.
#[derive(Drop)]
pub(crate) struct RunPeriod<J: Naming> {
    /// What its actors hand in.
    pub(crate) ends: Vec<End<J>>,
    /// What takes connections in for the next period; none where the connector was closed.
    pub(crate) acceptors: Option<Acceptors>,
}

/// Runs the actors of a desk, each in a thread, until the connector is closed and what was accepted
/// is answered, or the period of the desk is over, and gives what they hand in. Where a thread can't be
/// started those that run are ended and joined: workers end once all senders of jobs are dropped, the
/// sweeper and the settler once `KeepRunning` is, and an intake once it is closed.
pub(crate) fn run<J, C, K, P, R>(
    shared: Shared<'_, J, R>,
    actors: Running<J, C, K, P>,
    acceptors: Acceptors,
    settler_bell: &SettlerBell,
) -> Result<RunPeriod<J>, Unprinted>
where
    J: Naming + Send + Sync,
    C: Clock + Drop + Send,
    K: SharedKeeper<J> + Drop + Send,
    P: OnDisk + Drop + Send,
    R: Net<Listener = TcpListener, Stream = TcpStream>
        + Threads
        + Wait
        + time::Clock
        + Eprint
        + Sync,
{
    let config = shared.desk.config();
    // As many as there are places at most, so that no intake waits for a loop.
    let most = LOCAL_AT_ONCE.saturating_add(config.in_flight() as usize);
    let (sender, jobs) = bounded(config.allocator(), most)?;
    thread::scope(
        thread::scope_env(),
        shared.rt,
        move |scope| -> Result<RunPeriod<J>, Unprinted>
            requires { IsSend J.row × IsSync J.row × IsSend C.row × IsSend K.row × IsSend P.row × IsSync R.row }
        {
            let threads = match start_actors(scope, &shared, actors, jobs) {
                Ok(threads) => threads,
                Err(fault) => {
                    drop(sender);
                    shared.bells.ring_out();
                    settler_bell.ring();
                    return Err(fault);
                }
            };
            let accepted = accept_at_both(scope, &shared, acceptors, sender);
            // No job comes any more.
            shared.bells.ring_out();
            let BothAccepted { acceptors, goes_on } = match accepted {
                Ok(accepted) => accepted,
                Err(fault) => {
                    drop(threads);
                    settler_bell.ring();
                    return Err(fault);
                }
            };
            let acceptors = if goes_on {
                Some(acceptors)
            } else {
                drop(acceptors);
                closing(shared.rt);
                None
            };
            let ends = join_actors(shared.rt, threads, settler_bell)?;
            let acceptors = match acceptors {
                Some(acceptors) => Some(acceptors.closed_as_asked(&shared)),
                None => None,
            };
            Ok(RunPeriod { ends, acceptors })
        },
    )
}
