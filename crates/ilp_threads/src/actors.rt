//! The actors of a desk, ready to be started.
ghost use Rattle.std.specs.Prelude.{◌≤◌, vec_len};

use ilp_desk::{Desk, JournalReceipt, Naming, Share};
use ilp_keeping::SharedKeeper;
use ilp_links::Links;
use ilp_log_keeper::DiskWait;
use ilp_loops::{Seat, ServingLoop};
use ilp_notices::no_seat;
use ilp_settler::{Settler, Sweeper};
use ilp_settling::{SettlerBell, SettlingLoop};
use ilp_shared::{Bells, KeepingAsker, KeepingAsks, Nobody, keeping_pair};
use ilp_workers::{Clock, JournalKeeper, Keeper, Worker};
use std::alloc::AllocError;
use std::io::{Eprint, ErrorKind};
use std::net::Net;
use std::sync::Wait;
use std::{io, time};

/// What the watcher is given: a clock, a keeper, and what was seen of the journal.
#[derive(Drop)]
pub(crate) struct WatcherLinks<J: Naming, C: Clock + Drop, K: Keeper<J> + Drop> {
    pub(crate) clock: C,
    pub(crate) keeper: K,
    pub(crate) receipt: JournalReceipt<J>,
}

/// The sweeper and the settler, who take turns and rest between them, and what the watcher is given, who
/// does so too.
#[derive(Drop)]
pub(crate) struct Turning<J: Naming, C: Clock + Drop, K: Keeper<J> + Drop> {
    pub(crate) sweeper: Sweeper<J, C>,
    pub(crate) settling: SettlingLoop<J, C, K>,
    pub(crate) watching: WatcherLinks<J, C, K>,
}

/// The actors of a desk, with all the memory that they are given, and what wakes their loops.
#[derive(Drop)]
pub(crate) struct Actors<J: Naming, C: Clock + Drop, K: Keeper<J> + Drop> {
    pub(crate) loops: Vec<ServingLoop<J, C, K>>,
    pub(crate) bells: Bells,
    /// What keeps the journal for the loops, where they don't have that done themselves.
    pub(crate) keeping: Option<Keeping<J, K>>,
    pub(crate) turning: Turning<J, C, K>,
    pub(crate) settler_bell: SettlerBell,
}

/// What keeps the journal for the loops, and by what it hears that they ask.
#[derive(Drop)]
pub(crate) struct Keeping<J: Naming, K: Keeper<J> + Drop> {
    pub(crate) keeper: JournalKeeper<J, K>,
    pub(crate) asks: KeepingAsks,
}

/// By what the journal of a desk is kept before senders are told: a keeper, and the same for others; how; and for how
/// long these have waited for the disk.
#[derive(Drop)]
pub struct KeptBy<'k, K: Drop> {
    pub keeper: K,
    pub way: KeepingWay,
    pub disk: &'k DiskWait,
}

/// How the journal is kept before senders are told.
#[derive(Clone, Copy, Debug, PartialEq, Eq)]
pub enum KeepingWay {
    /// By each loop, which waits for it.
    InLoops,
    /// By a thread of its own, while the loops go on.
    Beside,
}

// The actors whose links are made by `L`, and whose keepers are `K`.
type ActorsOf<J, L, K> = Actors<J, <L as Links>::Clock, K>;

// A worker's loop whose clock is made by `L`.
type LoopOf<J, L, K> = ServingLoop<J, <L as Links>::Clock, K>;

/// The actors whose shares these are, the settler's last and the sweeper's before it. Each has a keeper of
/// its own of the same journal. It is refused where memory is denied, or what a loop waits with.
pub(crate) fn actors_of<
    J: Naming,
    N: Wait + Net + time::Clock + Eprint,
    L: Links,
    K: SharedKeeper<J> + Drop,
>(
    rt: &N,
    desk: &Desk<J>,
    shares: Vec<Share<J>>,
    links: &L,
    keeper: K,
    way: KeepingWay,
) -> Result<ActorsOf<J, L, K>, AllocError>
    requires { 2 ≤ vec_len shares }
{
    let alloc = desk.config().allocator();
    let mut shares = shares;
    let (Some(settlers), Some(sweepers)) = (shares.pop(), shares.pop()) else {
        unreachable!();
    };
    let (settling, settler_bell) = new_settling(rt, desk, settlers, links, keeper.another())?;
    let sweeper = Sweeper::new(alloc, sweepers, links.clock());
    let (asker, asks) = keeping_pair(alloc)?;
    let (asker, keeping) = match way {
        KeepingWay::InLoops => (None, None),
        KeepingWay::Beside => {
            let keeper = JournalKeeper::new(desk.receipt(rt), keeper.another());
            (Some(asker), Some(Keeping { keeper, asks }))
        }
    };
    let (loops, bells) = new_loops(rt, desk, shares, links, &keeper, asker)?;
    let watching = WatcherLinks {
        clock: links.clock(),
        keeper,
        receipt: desk.receipt(rt),
    };
    let turning = Turning {
        sweeper,
        settling,
        watching,
    };
    Ok(Actors {
        loops,
        bells,
        keeping,
        turning,
        settler_bell,
    })
}

// That memory is short, where it isn't the limit of open files that refuses what a thread waits with, of which a line
// tells.
fn told<R: time::Clock + Eprint>(rt: &R, error: &io::Error) -> AllocError {
    if error.kind() != ErrorKind::OutOfMemory {
        no_seat(rt, error);
    }
    AllocError
}

fn new_loops<J: Naming, N: Wait + Net + time::Clock + Eprint, L: Links, K: SharedKeeper<J> + Drop>(
    rt: &N,
    desk: &Desk<J>,
    shares: Vec<Share<J>>,
    links: &L,
    keeper: &K,
    asker: Option<KeepingAsker>,
) -> Result<(Vec<LoopOf<J, L, K>>, Bells), AllocError> {
    let alloc = desk.config().allocator();
    let mut loops = Vec::new(alloc);
    let mut bells = Bells::new(alloc);
    for (number, share) in shares.into_iter().enumerate() {
        let (seat, waker) = match Seat::new(rt, alloc, number) {
            Ok(made) => made,
            Err(error) => return Err(told(rt, &error)),
        };
        bells.add(waker)?;
        let asker = match &asker {
            Some(asker) => Some(asker.try_clone()?),
            None => None,
        };
        loops.push(new_loop(rt, desk, seat, share, links, keeper.another(), asker)?)?;
    }
    Ok((loops, bells))
}

fn new_loop<J: Naming, L: Links, K: Keeper<J> + Drop>(
    rt: &impl Wait,
    desk: &Desk<J>,
    seat: Seat,
    share: Share<J>,
    links: &L,
    keeper: K,
    asker: Option<KeepingAsker>,
) -> Result<LoopOf<J, L, K>, AllocError> {
    let alloc = desk.config().allocator();
    let receipt = desk.receipt(rt);
    match Worker::new(alloc, share, receipt, links.clock(), Nobody, Nobody, keeper) {
        Ok(worker) => match ServingLoop::new(alloc, seat, worker, links.clock(), asker) {
            Ok(own) => Ok(own),
            Err(_) => Err(AllocError),
        },
        Err(_) => Err(AllocError),
    }
}

fn new_settling<J: Naming, N: Wait + Net + time::Clock + Eprint, L: Links, K: Keeper<J> + Drop>(
    rt: &N,
    desk: &Desk<J>,
    share: Share<J>,
    links: &L,
    keeper: K,
) -> Result<(SettlingLoop<J, L::Clock, K>, SettlerBell), AllocError> {
    let config = desk.config();
    let alloc = config.allocator();
    let receipt = desk.receipt(rt);
    match Settler::new(alloc, share, receipt, links.clock(), Nobody, keeper) {
        Ok(settler) => match SettlingLoop::new(rt, alloc, settler, config.peers()) {
            Ok(settling) => Ok(settling),
            Err(error) => Err(told(rt, &error)),
        },
        Err(_) => Err(AllocError),
    }
}
