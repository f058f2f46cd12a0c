//! How many connections of each kind the loops have at once, and whose turn it is.
ghost use Rattle.ilp_flow.specs.Counts.{IsKnownTo, AreKnownTo};

use crate::jobs::LOCAL_AT_ONCE;
use ilp_flow::{Flow, Passage};
use ilp_intake::MOST_WAITING;
use ilp_server::{Side, Work};
use std::alloc::{AllocError, Global};
use std::sync::atomic::{AtomicBool, Ordering};
use std::sync::{Mutex, Wait};
use std::time::{Clock, Duration};

/// What the loops have. What waits for nobody outside never waits behind what does, and of the latter
/// the senders take turns. Where a period of the desk ends, nothing is begun any more that waits for
/// somebody outside, and nothing at all once none does. Threads share it by reference.
#[derive(Drop)]
pub struct Places {
    in_flight: u32,
    room: u64,
    taken: Mutex<Taken>,
    // Whether the period is over.
    over: AtomicBool,
}

// How far a period of the desk is.
#[derive(Clone, Copy, PartialEq, Eq)]
enum Course {
    GoesOn,
    // What waits for somebody outside is not begun any more.
    Ends,
}

// What the loops have now.
#[derive(Drop)]
struct Taken {
    flow: Flow,
    local: usize,
    remote: Remote,
    held_back: HeldBack,
    waits: Waits,
    course: Course,
}

// Of the connections that are ready at a side those that wait for somebody outside: what each is, and its
// place among all that are ready. The list is made anew each time.
#[derive(Drop)]
struct Remote {
    passages: Vec<Passage>,
    places: Vec<usize>,
}

impl Remote {
    fn new(alloc: Global) -> Result<Remote, AllocError> {
        Ok(Remote {
            passages: Vec::with_capacity(alloc, MOST_WAITING)?,
            places: Vec::with_capacity(alloc, MOST_WAITING)?,
        })
    }

    // There is room for as many as may wait, so none is left out.
    fn list(&mut self, flow: &Flow, ready: &[Work])
        ensures { AreKnownTo flow.now self.new.passages.items }
    {
        self.passages.clear();
        self.places.clear();
        for (place, work) in ready.iter().enumerate() {
            if let Work::Remote { passage } = *work {
                if flow.knows(passage) {
                    self.add(flow, passage, place);
                }
            }
        }
    }

    // Adds one that stands at this place.
    fn add(&mut self, flow: &Flow, passage: Passage, place: usize)
        requires known { IsKnownTo flow.now passage }
        requires others { AreKnownTo flow.now self.old.passages.items }
        ensures { AreKnownTo flow.now self.new.passages.items }
    {
        let _ = self.passages.push(passage);
        let _ = self.places.push(place);
    }
}

/// At which sides a connection was not given to the loops for want of a place.
#[derive(Clone, Copy)]
pub struct HeldBack {
    pub peers: bool,
    pub engines: bool,
}

impl HeldBack {
    const NONE: HeldBack = HeldBack {
        peers: false,
        engines: false,
    };

    const BOTH: HeldBack = HeldBack {
        peers: true,
        engines: true,
    };

    fn at(&mut self, side: Side) -> &mut bool {
        match side {
            Side::Ilp => &mut self.peers,
            Side::Engine => &mut self.engines,
        }
    }
}

// Since when connections have waited for a place at each side, and none there was given one; by the
// clock that never goes back.
#[derive(Clone, Copy, Drop)]
struct Waits {
    peers: Option<Duration>,
    engines: Option<Duration>,
}

impl Waits {
    fn at(&mut self, side: Side) -> &mut Option<Duration> {
        match side {
            Side::Ilp => &mut self.peers,
            Side::Engine => &mut self.engines,
        }
    }

    // The earlier of both.
    fn since(self) -> Option<Duration> {
        match (self.peers, self.engines) {
            (Some(one), Some(other)) => Some(one.min(other)),
            (one, None) => one,
            (None, other) => other,
        }
    }
}

impl Places {
    /// None is taken. So many packets and messages of so many peers and their engines may be in flight.
    pub fn new(alloc: Global, in_flight: u32, peers: u32) -> Result<Places, AllocError> {
        let flow = Flow::new(alloc, in_flight, peers.saturating_mul(2))?;
        Ok(Places {
            in_flight,
            room: flow.room(),
            taken: Mutex::new(Taken {
                flow,
                local: 0,
                remote: Remote::new(alloc)?,
                held_back: HeldBack::NONE,
                waits: Waits {
                    peers: None,
                    engines: None,
                },
                course: Course::GoesOn,
            }),
            over: AtomicBool::new(false),
        })
    }

    /// Has the period end: what waits for somebody outside is not begun any more. Tells which sides are to
    /// ask again.
    pub fn end_period(&self, rt: &impl Wait) -> HeldBack {
        let mut taken = self.taken.lock(rt);
        taken.course = Course::Ends;
        self.look_at_end(&taken)
    }

    /// Whether the period ends, or is over.
    pub fn is_ending(&self, rt: &impl Wait) -> bool {
        self.taken.lock(rt).course == Course::Ends
    }

    /// Whether the period is over: it ends, and nothing waits for anybody outside.
    pub fn is_over(&self) -> bool {
        self.over.load(Ordering::SeqCst)
    }

    // Notes where the period is over now, which both sides are to learn then.
    fn look_at_end(&self, taken: &Taken) -> HeldBack {
        if taken.course != Course::Ends || taken.flow.flying() != 0 {
            return HeldBack::NONE;
        }
        self.over.store(true, Ordering::SeqCst);
        HeldBack::BOTH
    }

    /// Whether one packet or message is in flight, and the loops have nothing else.
    pub fn has_one_alone(&self, rt: &impl Wait) -> bool {
        let taken = self.taken.lock(rt);
        taken.flow.flying() == 1 && taken.local == 0
    }

    /// How many may be in flight at once.
    pub fn in_flight(&self) -> u32 {
        self.in_flight
    }

    /// How many octets may be in flight at once.
    pub fn room(&self) -> u64 {
        self.room
    }

    /// Takes a place for one of these connections of a side, those that came first in front, and tells
    /// which it is: the first that waits for nobody outside, and else the one that the flow begins next.
    pub fn admit<R: Wait + Clock>(&self, rt: &R, side: Side, ready: &[Work]) -> Option<usize> {
        let mut taken = self.taken.lock(rt);
        let taken = &mut *taken;
        match taken.choose(ready) {
            Some(place) => {
                taken.take(*ready.get(place)?);
                *taken.waits.at(side) = None;
                Some(place)
            }
            None => {
                taken.hold_back(rt, side, !ready.is_empty());
                None
            }
        }
    }

    /// For how long connections have waited for a place, while none beside them was given one.
    pub fn waited<R: Wait + Clock>(&self, rt: &R) -> Option<Duration> {
        let since = self.taken.lock(rt).waits.since()?;
        Some(rt.monotonic().ok()?.saturating_sub(since))
    }

    /// Gives the place of a connection back that was served. Tells at which sides others wait for one:
    /// they are to ask again.
    pub fn give_back_served(&self, rt: &impl Wait, work: Work) -> HeldBack {
        let mut taken = self.taken.lock(rt);
        let taken = &mut *taken;
        taken.give_back(work);
        if self.look_at_end(taken).peers {
            return HeldBack::BOTH;
        }
        let held_back = taken.held_back;
        taken.held_back = HeldBack::NONE;
        held_back
    }

    /// Gives the place of a connection back that was lost before it was served. Whoever waits for one
    /// asks again once another was served. Tells which sides are to ask again all the same.
    pub fn give_back(&self, rt: &impl Wait, work: Work) -> HeldBack {
        let mut taken = self.taken.lock(rt);
        taken.give_back(work);
        self.look_at_end(&taken)
    }
}

impl Taken {
    // Notes whether connections of this side wait for a place now.
    fn hold_back(&mut self, rt: &impl Clock, side: Side, waits: bool) {
        if waits {
            *self.held_back.at(side) = true;
        }
        let since = self.waits.at(side);
        if !waits {
            *since = None;
        } else if since.is_none() {
            *since = rt.monotonic().ok();
        }
    }

    // The place of the one that is given to the loops next.
    fn choose(&mut self, ready: &[Work]) -> Option<usize> {
        let local = ready.iter().position(|work| *work == Work::Local);
        if local.is_some() && self.local < LOCAL_AT_ONCE {
            return local;
        }
        if self.course == Course::Ends {
            return None;
        }
        self.remote.list(&self.flow, ready);
        let next = self.flow.next(self.remote.passages.as_slice())?;
        self.remote.places.get(next).copied()
    }

    fn take(&mut self, work: Work) {
        match work {
            Work::Local => self.local = self.local.saturating_add(1),
            Work::Remote { passage } => {
                if self.flow.knows(passage) {
                    let _ = self.flow.begin(passage);
                }
            }
        }
    }

    fn give_back(&mut self, work: Work) {
        match work {
            Work::Local => self.local = self.local.saturating_sub(1),
            Work::Remote { passage } => {
                if self.flow.knows(passage) {
                    self.flow.end(passage);
                }
            }
        }
    }
}
