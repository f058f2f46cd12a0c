//! What an intake's thread does: it hands connections to the loops of the workers.

use crate::busy::Busy;
use crossbeam_channel::Sender;
use ilp_accounts::Config;
use ilp_desk::Naming;
use ilp_http::Buffer;
use ilp_intake::{Admission, Intake, Next, RoomForSenders};
use ilp_notices::Notices;
use ilp_replies::LocalReject;
use ilp_server::{Side, Work, work_of};
use ilp_shared::{Intakes, Job, Places, Shared};
use mio::net::TcpStream;
use std::alloc::AllocError;
use std::sync::Wait;
use std::time::{Clock, Duration};

/// What takes connections in at one side.
#[derive(Drop)]
pub(crate) struct Acceptor {
    pub(crate) side: Side,
    pub(crate) intake: Intake<Work>,
    /// Room for a request, by which it is found out what that asks for.
    pub(crate) buffer: Buffer,
    /// What is told whoever is turned away.
    pub(crate) busy: Busy,
}

/// Room that one side wants for another configuration.
#[derive(Drop)]
pub(crate) struct SideRoom {
    busy: Busy,
    senders: RoomForSenders,
}

impl Acceptor {
    /// Room for another configuration.
    pub(crate) fn room_for(&self, config: &Config) -> Result<SideRoom, AllocError> {
        Ok(SideRoom {
            busy: Busy::new(config.allocator(), config)?,
            senders: self.intake.room_for(last_sender(config))?,
        })
    }

    /// Takes over the configuration for which this room was made. Once it is closed, connections are given
    /// on for so long.
    pub(crate) fn take_over(&mut self, room: SideRoom, after: Duration) {
        let SideRoom { busy, senders } = room;
        self.busy = busy;
        self.intake.take_over(senders, after);
    }

    /// Accepts no more, as was asked for while it handed nothing on.
    pub(crate) fn close<J: Naming, R: Wait + Clock>(self, shared: &Shared<'_, J, R>) -> Acceptor {
        let (mut intake, mut placing) = self.begin(shared);
        intake.close(&mut placing);
        placing.into_acceptor(intake)
    }

    // What takes connections in, and what gives them on.
    fn begin<'a, J: Naming, R>(self, shared: &Shared<'a, J, R>) -> (Intake<Work>, Placing<'a, R>) {
        let Acceptor {
            side,
            intake,
            buffer,
            busy,
        } = self;
        let placing = Placing {
            rt: shared.rt,
            config: shared.desk.config(),
            places: shared.places,
            intakes: shared.intakes,
            side,
            buffer,
            busy,
            notices: shared.notices,
        };
        (intake, placing)
    }
}

// Gives a connection on where there is a place for it with the loops.
#[derive(Drop)]
struct Placing<'a, R> {
    rt: &'a R,
    config: &'a Config,
    places: &'a Places,
    intakes: &'a Intakes,
    side: Side,
    buffer: Buffer,
    busy: Busy,
    notices: &'a Notices,
}

impl<R> Placing<'_, R> {
    // What takes connections in at this side by this intake, as it was.
    fn into_acceptor(self, intake: Intake<Work>) -> Acceptor {
        let Placing {
            side,
            buffer,
            busy,
            ..
        } = self;
        Acceptor {
            side,
            intake,
            buffer,
            busy,
        }
    }
}

impl<R: Wait + Clock> Admission for Placing<'_, R> {
    type Kind = Work;

    fn kind_of(&mut self, octets: &[u8]) -> Work {
        let config = self.config;
        work_of(
            config.allocator(),
            config,
            self.side,
            octets,
            &mut self.buffer,
        )
    }

    fn admit(&mut self, ready: &[Work]) -> Option<usize> {
        self.places.admit(self.rt, self.side, ready)
    }

    fn pauses(&self) -> bool {
        self.places.is_over()
    }

    fn sender_of(&self, kind: Work) -> u32 {
        match kind {
            Work::Remote { passage } => passage.sender,
            Work::Local => last_sender(self.config),
        }
    }

    fn turn_away(&mut self, kind: Work, stream: &TcpStream) {
        let Work::Remote { passage } = kind else {
            return;
        };
        if let Some(peer) = self.busy.tell(passage, stream) {
            let busy = LocalReject::ConnectorBusy;
            self.notices.rejected(self.rt, peer, busy.code());
        }
    }

    fn give_back(&mut self, kind: Work) {
        // This intake asks again at once, and the other one when the next job is done, or the period is over.
        let asks = self.places.give_back(self.rt, kind);
        self.intakes.look_again(asks);
    }

    fn note_closed(&mut self) {
        self.intakes.note_closed(self.rt, self.side);
    }
}

/// The last number of those who send requests: peers have the first, their engines those behind, and all
/// others have this one.
pub(crate) fn last_sender(config: &Config) -> u32 {
    config.peers() * 2
}

/// What takes connections in at one side, once it handed none on any more.
#[derive(Drop)]
pub(crate) struct Accepted {
    pub(crate) acceptor: Acceptor,
    /// Whether those that wait there are for the next period of the desk.
    pub(crate) goes_on: bool,
}

/// Hands the connections of one side to the loops, as far as there are places for them, until the
/// intake is closed and none waits there, or its time is over, or the period of the desk is. Then its
/// sender of jobs is dropped: once both sides' are, the loops know that no more come.
pub(crate) fn accept_all<J: Naming, R: Wait + Clock>(
    shared: Shared<'_, J, R>,
    acceptor: Acceptor,
    jobs: Sender<Job>,
) -> Accepted {
    let (rt, side) = (shared.rt, acceptor.side);
    let (mut intake, mut placing) = acceptor.begin(&shared);
    // The desk's configuration may be another one than that by which those that wait were looked at.
    intake.look_anew(&mut placing);
    let mut goes_on = false;
    for _ in rt.forever() {
        match intake.next(rt, &mut placing) {
            Next::Ready(connection) => {
                if jobs.send(rt, Job { side, connection }).is_err() {
                    break;
                }
                shared.bells.ring_one();
            }
            Next::Paused => {
                goes_on = true;
                break;
            }
            Next::Ended => break,
        }
    }
    let acceptor = placing.into_acceptor(intake);
    Accepted { acceptor, goes_on }
}
