//! The two sides of a connector, and the run of a desk between them.
ghost use Rattle.std.specs.Prelude.{◌≤◌, vec_len};

use crate::accepting::{Acceptor, SideRoom, last_sender};
use crate::actors::{Actors, KeptBy, actors_of};
use crate::busy::Busy;
use crate::fault::Unprinted;
use crate::open_files::{in_flight_by, open_files, waiting_by, wanted};
use crate::threads::{Acceptors, RunPeriod, Running, run};
use ilp_accounts::Config;
use ilp_desk::{Desk, End, Naming, Share};
use ilp_http::Buffer;
use ilp_intake::{Intake, IntakeHandle, MOST_WAITING, listen};
use ilp_keeping::SharedKeeper;
use ilp_links::Links;
use ilp_notices::{ListensAt, few_files, listening, no_thread, not_listening};
use ilp_server::Side;
use ilp_shared::{
    Asker, Intakes, KeptJournal, Moments, NextConfig, OnDisk, Payouts, PeriodDue, Places,
    Reloading, Seen, Shared, ending_after,
};
use std::alloc::AllocError;
use std::io::{Eprint, ErrorKind};
use std::net::{Net, SocketAddr, TcpListener, TcpStream};
use std::rt::Files;
use std::sync::Wait;
use std::thread::Threads;
use std::time::{Clock, Duration};

// After how many milliseconds a period may end again behind which no other could begin.
const AGAIN_MS: u64 = 60_000;

/// What takes connections in at both sides, and what reaches it.
#[derive(Drop)]
pub struct Sides {
    acceptors: Acceptors,
    intakes: Intakes,
    reloading: Reloading,
    // Whose payouts are paused, until the connector ends.
    payouts: Payouts,
    // How many files the process may have open, where the system says so.
    open_files: Option<u64>,
    // Whether periods of the desk may end by themselves.
    has_periods: bool,
    // When one may, by the clock that never goes back.
    not_before: Duration,
    // Whether no desk was run between them yet.
    is_first: bool,
    // Where they listen.
    at: ListensAt,
    // What time their threads have read.
    moments: Moments,
}

impl Sides {
    /// Has no period of a desk end by itself for a minute: the last one had none behind it.
    pub fn go_on_for_now(&mut self, rt: &impl Clock) {
        let now = self.moments.now(rt);
        self.not_before = now.saturating_add(Duration::from_millis(AGAIN_MS));
    }

    /// Listens at both sides, at the places of the configuration. Periods of a desk between them may end by
    /// themselves, or not.
    ///
    /// Refusals: `Listen` where a side can't be listened at, and a line says so; `Memory`.
    pub fn open<R>(rt: &R, config: &Config, has_periods: bool) -> Result<Sides, Unprinted>
    where
        R: Net<Listener = TcpListener, Stream = TcpStream> + Clock + Eprint + Files,
    {
        let open_files = open_files(rt, config.allocator());
        let most = most_waiting(open_files, config);
        let peers = open_side(rt, config, Side::Ilp, config.listen(), most)?;
        let engines = open_side(rt, config, Side::Engine, config.engine_listen(), most)?;
        let at = ListensAt {
            peers: peers.at,
            engines: engines.at,
        };
        let after = ending_after(config.max_hold_ms());
        let alloc = config.allocator();
        Ok(Sides {
            acceptors: Acceptors {
                peers: peers.acceptor,
                engines: engines.acceptor,
            },
            intakes: Intakes::new(alloc, peers.handle, engines.handle, after)?,
            reloading: Reloading::new(),
            payouts: Payouts::new(alloc),
            open_files,
            has_periods,
            not_before: Duration::ZERO,
            is_first: true,
            at,
            moments: Moments::new(),
        })
    }

    /// By which configuration the next period is to begin, where somebody asked for it to be read again.
    pub fn take_next(&self, rt: &impl Wait) -> Option<NextConfig> {
        self.reloading.take_next(rt)
    }

    /// Who asked for that is told that it is in force, as this line says.
    pub fn tell_taken(&self, rt: &impl Wait, asker: Asker, line: &str) {
        self.reloading.free();
        asker.taken(rt, &self.intakes, line);
    }

    /// Who asked for that is told that it is not taken, as this line says.
    pub fn tell_refused(&self, rt: &impl Wait, asker: Asker, line: &str) {
        self.reloading.free();
        asker.refused(rt, &self.intakes, line);
    }

    /// Room for another configuration, so that taking it over needs no memory.
    pub fn room_for(&self, config: &Config) -> Result<SidesRoom, AllocError> {
        Ok(SidesRoom {
            peers: self.acceptors.peers.room_for(config)?,
            engines: self.acceptors.engines.room_for(config)?,
            after: ending_after(config.max_hold_ms()),
        })
    }

    /// Takes over the configuration for which this room was made, for the desk that is run between them
    /// next. They listen on where they do.
    pub fn take_over(&mut self, room: SidesRoom) {
        let SidesRoom {
            peers,
            engines,
            after,
        } = room;
        self.acceptors.peers.take_over(peers, after);
        self.acceptors.engines.take_over(engines, after);
        self.intakes.serve_for(after);
    }
}

/// Room that the sides want for another configuration.
#[derive(Drop)]
pub struct SidesRoom {
    peers: SideRoom,
    engines: SideRoom,
    // For how long connections are given on after a close.
    after: Duration,
}

// How many connections may wait at each side. Where the system does not say how many files may be open,
// as many wait as ever do.
fn most_waiting(open_files: Option<u64>, config: &Config) -> usize {
    match open_files {
        Some(limit) => waiting_by(limit, config.workers(), config.peers()),
        None => MOST_WAITING,
    }
}

// A side that listens.
#[derive(Drop)]
struct OpenedSide {
    acceptor: Acceptor,
    handle: IntakeHandle,
    // Where, as far as the system says.
    at: Option<SocketAddr>,
}

fn open_side<R>(
    rt: &R,
    config: &Config,
    side: Side,
    place: &str,
    most: usize,
) -> Result<OpenedSide, Unprinted>
where
    R: Net<Listener = TcpListener, Stream = TcpStream> + Clock + Eprint,
{
    let alloc = config.allocator();
    let buffer = Buffer::new(alloc)?;
    let busy = Busy::new(alloc, config)?;
    let after = ending_after(config.max_hold_ms());
    let mut at = None;
    let opened = match listen(rt, place) {
        Ok(listener) => {
            at = listener.address().ok();
            Intake::new(rt, alloc, listener, most, last_sender(config), after)
        }
        Err(error) => Err(error),
    };
    match opened {
        Ok((intake, handle)) => Ok(OpenedSide {
            acceptor: Acceptor {
                side,
                intake,
                buffer,
                busy,
            },
            handle,
            at,
        }),
        Err(error) if error.kind() == ErrorKind::OutOfMemory => Err(Unprinted::Memory),
        Err(error) => {
            not_listening(rt, place, &error);
            Err(Unprinted::Listen(side))
        }
    }
}

/// What a run of a desk comes to.
#[derive(Drop)]
pub struct RunDesk<J: Naming> {
    /// What its actors hand in.
    pub ends: Vec<End<J>>,
    /// The sides, where connections wait for the next period; none where the connector was closed.
    pub sides: Option<Sides>,
}

/// Runs the actors whose shares of the desk these are, the settler's last and the sweeper's before it,
/// between these sides, until the connector is closed and what was accepted is answered, or the period of
/// the desk ends and nothing waits for anybody outside. Then it gives what they hand in. Each has a keeper
/// of its own of the same journal, which is kept in that way before senders are told. Where somebody asks for
/// the configuration to be read again, that is done there, and the period ends where it is taken. Where the journal
/// is had no more the sides accept nobody, and it ends as at a close.
///
/// Refusals: `Spawn` where a thread can't be started, and a line says so; `Memory`. All that ran has ended
/// then, and the sides are closed.
pub fn run_desk<J, R, L, K, P>(
    rt: &R,
    desk: &Desk<J>,
    shares: Vec<Share<J>>,
    links: &L,
    on_disk: P,
    sides: Sides,
    kept_by: KeptBy<'_, K>,
) -> Result<RunDesk<J>, Unprinted>
where
    J: Naming + Send + Sync,
    R: Net<Listener = TcpListener, Stream = TcpStream> + Threads + Wait + Clock + Eprint + Sync,
    L: Links,
    K: SharedKeeper<J> + Drop + Send,
    P: OnDisk + Drop + Send,
    requires { 2 ≤ vec_len shares }
{
    let config = desk.config();
    let Sides {
        acceptors,
        intakes,
        reloading,
        payouts,
        open_files,
        has_periods,
        not_before,
        is_first,
        at,
        moments,
    } = sides;
    let KeptBy { keeper, way, disk } = kept_by;
    let in_flight = most_in_flight(open_files, config);
    let Actors {
        loops,
        bells,
        keeping,
        turning,
        settler_bell,
    } = actors_of(rt, desk, shares, links, keeper, way)?;
    let kept = KeptJournal::new();
    let places = Places::new(config.allocator(), in_flight, config.peers())?;
    let seen = Seen::new();
    let due = if has_periods {
        PeriodDue::of(desk.lock(rt).book(), not_before)
    } else {
        None
    };
    if is_first {
        tell_start(rt, config, at, in_flight, places.room(), open_files);
    }
    let shared = Shared {
        rt,
        desk,
        places: &places,
        intakes: &intakes,
        bells: &bells,
        kept: &kept,
        disk,
        notices: links.notices(),
        seen: &seen,
        moments: &moments,
        reloading: &reloading,
        payouts: &payouts,
        due,
    };
    let running = Running {
        loops,
        keeping,
        turning,
        on_disk,
    };
    match run(shared, running, acceptors, &settler_bell) {
        Ok(RunPeriod { ends, acceptors }) => {
            let sides = match acceptors {
                Some(acceptors) => Some(Sides {
                    acceptors,
                    intakes,
                    reloading,
                    payouts,
                    open_files,
                    has_periods,
                    not_before,
                    is_first: false,
                    at,
                    moments,
                }),
                None => {
                    reloading.turn_away(rt, &intakes);
                    None
                }
            };
            Ok(RunDesk { ends, sides })
        }
        Err(fault) => {
            if let Unprinted::Spawn = fault {
                no_thread(rt);
            }
            Err(fault)
        }
    }
}

// How many packets and messages may be in flight.
fn most_in_flight(open_files: Option<u64>, config: &Config) -> u32 {
    match open_files {
        Some(limit) => in_flight_by(limit, config.workers(), config.peers(), config.in_flight()),
        None => config.in_flight(),
    }
}

// Tells that the connector listens, and where it may have fewer open files than it wants.
fn tell_start<R: Clock + Eprint>(
    rt: &R,
    config: &Config,
    at: ListensAt,
    in_flight: u32,
    octets: u64,
    open_files: Option<u64>,
) {
    listening(rt, config, at, in_flight, octets);
    let wanted = wanted(config.workers(), config.peers(), config.in_flight());
    if let Some(limit) = open_files {
        if limit < wanted {
            few_files(rt, limit, wanted);
        }
    }
}
