//! The turns of a settler's peers, side by side.
ghost use Rattle.std.specs.Prelude.{◌≡◌, IfSome};
ghost use Rattle.ilp_book.specs.Configured.{IsKnown};

use crate::course::{Course, PeerTurns};
use crate::telling::tell_turn;
use crate::waiting::{has_waited, is_at_threshold, reached_after};
use ilp_accounts::Config;
use ilp_desk::{End, Naming};
use ilp_http::Buffer;
use ilp_keeping::Keeper;
use ilp_link_traits::{Clock, EngineReply};
use ilp_links::EngineCall;
use ilp_settler::{Asking, BegunTurn, Settler, Turn};
use ilp_shared::{Nobody, Shared};
use mio::{Registry, Token};
use std::alloc::{AllocError, Global};
use std::io::Eprint;
use std::net::Net;
use std::sync::Wait;
use std::time::Duration;
use std::{mem, time};

/// A settler, and how far the turns of its peers are: one a peer.
#[derive(Drop)]
pub(crate) struct Turns<J: Naming, C: Clock + Drop, K: Keeper<J> + Drop> {
    settler: Settler<J, C, Nobody, K>,
    peers: Vec<PeerTurns>,
    buffer: Buffer,
    // Whether the connector ends.
    ends: bool,
}

impl<J: Naming, C: Clock + Drop, K: Keeper<J> + Drop> Turns<J, C, K> {
    /// The first turns of so many peers.
    pub(crate) fn new(
        alloc: Global,
        settler: Settler<J, C, Nobody, K>,
        peers: u32,
    ) -> Result<Turns<J, C, K>, AllocError> {
        let mut turns = Vec::new(alloc);
        for _ in 0..peers {
            let Ok(()) = turns.push(PeerTurns::new()) else {
                return Err(AllocError);
            };
        }
        Ok(Turns {
            settler,
            peers: turns,
            buffer: Buffer::new(alloc)?,
            ends: false,
        })
    }

    /// When one of them is to be looked at, whatever comes.
    pub(crate) fn due(&self) -> Option<Duration> {
        let mut due: Option<Duration> = None;
        for peer in self.peers.iter() {
            if let Some(next) = peer.course.due(self.ends) {
                due = Some(due.unwrap_or(next).min(next));
            }
        }
        due
    }

    /// Has the turns go on which the period before left: its end is none of a wait, and none of a rest behind a refusal.
    pub(crate) fn take_over<R: Wait>(&mut self, shared: &Shared<'_, J, R>) {
        let config = shared.desk.config();
        for peer in 0..config.peers() {
            if let Some(turns) = self.peers.get_mut(peer as usize)
                && let Some(left) = shared.payouts.left(shared.rt, config.name(peer))
            {
                turns.take_over(left, config.settle_after_ms(peer) > 0);
            }
        }
    }

    /// Leaves the turns of peers to the next period.
    pub(crate) fn leave<R: Wait>(&self, shared: &Shared<'_, J, R>) {
        let config = shared.desk.config();
        let payouts = shared.payouts;
        payouts.forget_left(shared.rt);
        for peer in 0..config.peers() {
            if let Some(turns) = self.peers.get(peer as usize) {
                payouts.leave(
                    shared.rt,
                    config.allocator(),
                    config.name(peer),
                    turns.left(),
                );
            }
        }
    }

    /// The connector ends: no turn begins any more, and engines that are asked have little time left.
    pub(crate) fn hurry(&mut self, now: Duration) {
        if self.ends {
            return;
        }
        self.ends = true;
        for peer in self.peers.iter_mut() {
            peer.course.hurry(now);
        }
    }

    /// Whether the connector ends and no engine is asked.
    pub(crate) fn are_over(&self) -> bool {
        self.ends && self.peers.iter().all(|peer| peer.course.is_resting())
    }

    /// What the settler hands in; none where a settlement is pending, which the loop waits for.
    pub(crate) fn into_end(self) -> Option<End<J>> {
        if self.settler.pending() > 0 {
            return None;
        }
        Some(self.settler.into_end())
    }

    /// Goes on with the turn of the peer at this place, of whose engine an event tells.
    pub(crate) fn go_on<R: Wait + time::Clock + Eprint + Net>(
        &mut self,
        shared: &Shared<'_, J, R>,
        registry: &Registry,
        place: usize,
        now: Duration,
    ) {
        let Some(peer) = peer_at(shared.desk.config(), place) else {
            return;
        };
        let Some(course) = self.take(peer) else {
            return;
        };
        let course = self.go_on_from(shared, registry, peer, course, now);
        self.keep(peer, course);
    }

    /// Begins the turns that are due, and gives engines up whose time is over.
    pub(crate) fn look<R: Wait + time::Clock + Eprint + Net>(
        &mut self,
        shared: &Shared<'_, J, R>,
        registry: &Registry,
        now: Duration,
    ) {
        for peer in 0..shared.desk.config().peers() {
            let Some(course) = self.take(peer) else {
                continue;
            };
            let course = self.look_at(shared, registry, peer, course, now);
            self.keep(peer, course);
        }
    }

    // What becomes of the peer's turn by this time.
    fn look_at<R: Wait + time::Clock + Eprint + Net>(
        &mut self,
        shared: &Shared<'_, J, R>,
        registry: &Registry,
        peer: u32,
        course: Course,
        now: Duration,
    ) -> Course
        requires known { IsKnown J.desk.config peer }
    {
        match course {
            Course::Rests { until } => {
                if self.ends || now < until {
                    return Course::Rests { until };
                }
                let course = self.begin(shared, peer);
                self.go_on_from(shared, registry, peer, course, now)
            }
            Course::AsksForAccount(call) => {
                if call.give_up(&shared.outside(), now) {
                    return rest(shared, 0);
                }
                Course::AsksForAccount(call)
            }
            Course::Settles { asking, call } => {
                if call.give_up(&shared.outside(), now) {
                    return self.finish(shared, peer, asking, UNHEARD);
                }
                Course::Settles { asking, call }
            }
        }
    }

    // Begins a turn, as far as its first question to the engine.
    fn begin<R: Wait + time::Clock + Eprint + Net>(
        &mut self,
        shared: &Shared<'_, J, R>,
        peer: u32,
    ) -> Course
        requires known { IsKnown J.desk.config peer }
    {
        match self.begin_settling(shared, peer) {
            Ok(BegunTurn::NeedsAccount) => {
                let now = shared.now();
                match shared.outside().ask_for_account(peer, now) {
                    Some(call) => Course::AsksForAccount(call),
                    None => rest(shared, 0),
                }
            }
            Ok(BegunTurn::Asks(asking)) => self.ask(shared, peer, asking),
            Ok(BegunTurn::Over(turn)) => self.end(shared, peer, turn),
            // Where memory is denied, a later turn tries again.
            Err(AllocError) => rest(shared, 0),
        }
    }

    // Has the settler begin a turn. Where nothing new may be asked for, what is open goes on.
    fn begin_settling<R: Wait + time::Clock>(
        &mut self,
        shared: &Shared<'_, J, R>,
        peer: u32,
    ) -> Result<BegunTurn, AllocError>
        requires known { IsKnown J.desk.config peer }
    {
        let now = shared.now();
        self.look_at_balance(shared, peer, now);
        let may_ask = self.may_ask(shared, peer, now);
        if let Some(turns) = self.peers.get_mut(peer as usize) {
            turns.note_asking(may_ask);
        }
        if !may_ask {
            return self.settler.take_up(shared.rt, shared.desk, peer);
        }
        let begun = self.settler.begin(shared.rt, shared.desk, peer);
        // What was asked for has left the balance. Where that is below the threshold now, the next settlement
        // waits anew. Where it is not, since none is of more than `settle_max`, the next doesn't wait.
        self.look_at_balance(shared, peer, shared.now());
        begun
    }

    // Whether a new settlement may be asked for by this time: the peer's payouts are not paused, and its
    // balance has been at its threshold for long enough.
    fn may_ask<R: Wait>(&self, shared: &Shared<'_, J, R>, peer: u32, now: Duration) -> bool
        requires known { IsKnown J.desk.config peer }
    {
        let config = shared.desk.config();
        if shared.payouts.is_paused(shared.rt, config.name(peer)) {
            return false;
        }
        match self.peers.get(peer as usize) {
            Some(turns) => has_waited(turns.reached, now, config.settle_after_ms(peer)),
            None => false,
        }
    }

    // Looks at the balance of a peer whose settlements wait, where its payouts are paused too. That is once a
    // turn, so each `settle_ms`: where the balance falls below the threshold and rises again between two looks,
    // that is not seen, and the wait goes on. The lock is held for the look alone.
    fn look_at_balance<R: Wait>(&mut self, shared: &Shared<'_, J, R>, peer: u32, now: Duration)
        requires known { IsKnown J.desk.config peer }
    {
        if shared.desk.config().settle_after_ms(peer) == 0 {
            return;
        }
        let reaches = is_at_threshold(shared.desk.lock(shared.rt).book(), peer);
        if let Some(turns) = self.peers.get_mut(peer as usize) {
            turns.reached = reached_after(turns.reached, reaches, now);
        }
    }

    // Begins to ask the peer's engine for a settlement.
    fn ask<R: Wait + time::Clock + Eprint + Net>(
        &mut self,
        shared: &Shared<'_, J, R>,
        peer: u32,
        asking: Asking,
    ) -> Course {
        let now = shared.now();
        let (amount, scale) = (asking.amount(), asking.scale());
        match shared
            .outside()
            .ask_for_settlement(peer, amount, scale, now)
        {
            Some(call) => Course::Settles { asking, call },
            None => self.finish(shared, peer, asking, UNHEARD),
        }
    }

    // Goes on with a turn, as far as that is possible without waiting.
    fn go_on_from<R: Wait + time::Clock + Eprint + Net>(
        &mut self,
        shared: &Shared<'_, J, R>,
        registry: &Registry,
        peer: u32,
        course: Course,
        now: Duration,
    ) -> Course
        requires known { IsKnown J.desk.config peer }
    {
        let course = match course {
            Course::AsksForAccount(call) => {
                self.go_on_to_account(shared, registry, peer, call, now)
            }
            other => other,
        };
        match course {
            Course::Settles { asking, call } => {
                self.go_on_to_settlement(shared, registry, peer, asking, call)
            }
            other => other,
        }
    }

    // The settlement follows an account at once, also where the connector ends.
    fn go_on_to_account<R: Wait + time::Clock + Eprint + Net>(
        &mut self,
        shared: &Shared<'_, J, R>,
        registry: &Registry,
        peer: u32,
        call: EngineCall,
        now: Duration,
    ) -> Course
        requires known { IsKnown J.desk.config peer }
    {
        let mut call = call;
        let token = Token(peer as usize);
        match call.go_on_for_account(&shared.outside(), registry, token, &mut self.buffer) {
            None => Course::AsksForAccount(call),
            Some(false) => rest(shared, 0),
            Some(true) => {
                self.settler.note_account(shared.desk.config(), peer);
                let mut course = self.begin(shared, peer);
                if self.ends {
                    course.hurry(now);
                }
                course
            }
        }
    }

    fn go_on_to_settlement<R: Wait + time::Clock + Eprint + Net>(
        &mut self,
        shared: &Shared<'_, J, R>,
        registry: &Registry,
        peer: u32,
        asking: Asking,
        call: EngineCall,
    ) -> Course {
        let mut call = call;
        let token = Token(peer as usize);
        match call.go_on_for_settlement(
            &shared.outside(),
            registry,
            token,
            asking.key(),
            &mut self.buffer,
        ) {
            None => Course::Settles { asking, call },
            Some(said) => self.finish(shared, peer, asking, said),
        }
    }

    // Books what the engine said of a settlement. One that was given out is pending.
    fn finish<R: Wait + time::Clock + Eprint>(
        &mut self,
        shared: &Shared<'_, J, R>,
        peer: u32,
        asking: Asking,
        said: EngineReply,
    ) -> Course {
        if self.settler.pending() == 0 {
            return rest(shared, 0);
        }
        let turn = self.settler.finish(shared.rt, shared.desk, asking, said);
        self.end(shared, peer, turn)
    }

    // Tells what became of a turn. The next one comes after a rest, which is longer after a refusal.
    fn end<R: time::Clock + Eprint>(
        &mut self,
        shared: &Shared<'_, J, R>,
        peer: u32,
        turn: Turn,
    ) -> Course {
        let Some(turns) = self.peers.get_mut(peer as usize) else {
            return rest(shared, 0);
        };
        match tell_turn(shared, peer, turn, turns.pause) {
            Some(0) => {
                turns.pause = 0;
                rest(shared, 0)
            }
            Some(pause) => {
                turns.note_refusal(pause);
                rest(shared, pause)
            }
            None => rest(shared, 0),
        }
    }

    // Takes out how far the peer's turn is.
    fn take(&mut self, peer: u32) -> Option<Course> {
        let turns = self.peers.get_mut(peer as usize)?;
        let none = Course::Rests {
            until: Duration::ZERO,
        };
        Some(mem::replace(&mut turns.course, none))
    }

    fn keep(&mut self, peer: u32, course: Course) {
        if let Some(turns) = self.peers.get_mut(peer as usize) {
            turns.course = course;
        }
    }
}

// What an engine says that gives no answer.
const UNHEARD: EngineReply = EngineReply::Unknown { status: None };

// The peer's next turn comes after `settle_ms`, and after this pause in milliseconds.
fn rest<J: Naming, R: time::Clock>(shared: &Shared<'_, J, R>, pause: u64) -> Course {
    let rest = u64::from(shared.desk.config().settle_ms()).max(pause);
    Course::Rests {
        until: shared.now().saturating_add(Duration::from_millis(rest)),
    }
}

// The peer whose number is this place, if there is one.
fn peer_at(config: &Config, place: usize) -> Option<u32>
    ensures { IfSome result (IsKnown config.now) }
{
    let peer = u32::try_from(place).ok()?;
    if peer < config.peers() {
        Some(peer)
    } else {
        None
    }
}
