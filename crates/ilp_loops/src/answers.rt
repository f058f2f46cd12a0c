//! What comes next of a connection once the answer is known, and how it leaves.

use crate::deeds::tell_deed;
use crate::guest::{Guest, Stage};
use ilp_desk::Naming;
use ilp_oer::Octets;
use ilp_server::{Response, Work};
use ilp_shared::{Asker, Shared};
use ilp_workers::{EngineMessage, HandedJournal};
use mio::Registry;
use std::io::Eprint;
use std::sync::Wait;
use std::time;
use std::time::Duration;

/// When the keeper was handed a journal behind which somebody is to be told.
#[derive(Clone, Copy, PartialEq, Eq)]
pub(crate) enum Handed {
    /// For those who wait now.
    Now,
    /// Perhaps before they came, so a refusal says nothing of what is kept by now.
    Before,
}

/// What comes next of a connection behind this journal: who waits for what is booked is answered, where the journal has
/// it. Of a credit nobody is told that an earlier journal wasn't kept.
pub(crate) fn behind<J: Naming>(
    stage: Stage<J>,
    handed: &HandedJournal<J>,
    when: Handed,
    now: Duration,
) -> Stage<J> {
    match stage {
        Stage::Booked { sender, booked } => {
            if booked.behind() > handed.entries() {
                return Stage::Booked { sender, booked };
            }
            let response = Response::to_packet(sender, booked.tell(handed));
            Stage::responds(response, now)
        }
        Stage::Credited(pending) => {
            if pending.behind() > handed.entries() {
                return Stage::Credited(pending);
            }
            if when == Handed::Before && handed.said().is_err() {
                return Stage::Credited(pending);
            }
            Stage::responds(pending.tell(handed), now)
        }
        other => other,
    }
}

/// A response is to be written from now on. What its request brought about is told whatever becomes of it.
pub(crate) fn responds<J: Naming, R: Wait + time::Clock + Eprint>(
    shared: &Shared<'_, J, R>,
    response: Response,
    now: Duration,
) -> Stage<J> {
    tell_deed(shared, response.deed());
    Stage::responds(response, now)
}

/// A message of a peer's engine is answered by what came from the engine here.
pub(crate) fn answered_message<J: Naming, R: Wait + time::Clock + Eprint>(
    shared: &Shared<'_, J, R>,
    message: EngineMessage,
    came: Option<Octets>,
    now: Duration,
) -> Stage<J> {
    let sender = message.from();
    let answer = message.answer(shared.desk.config(), came);
    responds(shared, Response::to_packet(sender, answer), now)
}

/// A message of the engine here is answered by what came from the peer.
pub(crate) fn answered_peer<J: Naming, R: Wait + time::Clock + Eprint>(
    shared: &Shared<'_, J, R>,
    came: Option<Octets>,
    now: Duration,
) -> Stage<J> {
    let alloc = shared.desk.config().allocator();
    let octets = came.as_ref().map(|octets| octets.as_slice());
    responds(shared, Response::to_message(alloc, octets), now)
}

/// A connection whose service is over gives its place back. Its client may still send: what comes is read on
/// elsewhere for a moment, since a connection that is closed before it was read takes the answer with it.
pub(crate) fn leave<J: Naming, R: Wait>(
    shared: &Shared<'_, J, R>,
    registry: &Registry,
    guest: Guest<J>,
) {
    let (side, work) = (guest.side, guest.work);
    if let Some(stream) = guest.into_stream(registry) {
        shared.intakes.linger(shared.rt, side, stream);
    }
    give_back(shared, work);
}

/// A connection leaves to wait until the configuration was read again, and gives its place back.
pub(crate) fn ask_reload<J: Naming, R: Wait>(
    shared: &Shared<'_, J, R>,
    registry: &Registry,
    guest: Guest<J>,
) {
    let (side, work) = (guest.side, guest.work);
    match guest.into_stream(registry) {
        Some(stream) => shared.reloading.ask(shared.rt, Asker::new(side, stream)),
        None => shared.reloading.free(),
    }
    give_back(shared, work);
}

/// A connection leaves to wait until the connector accepts nobody any more, and gives its place back.
pub(crate) fn ask_close<J: Naming, R: Wait + time::Clock>(
    shared: &Shared<'_, J, R>,
    registry: &Registry,
    guest: Guest<J>,
) {
    let (side, work) = (guest.side, guest.work);
    if let Some(stream) = guest.into_stream(registry) {
        shared.intakes.close(shared.rt, Asker::new(side, stream));
    }
    give_back(shared, work);
}

/// A place is free again. The intakes ask again where others wait for one.
pub(crate) fn give_back<J: Naming, R: Wait>(shared: &Shared<'_, J, R>, work: Work) {
    let held_back = shared.places.give_back_served(shared.rt, work);
    shared.intakes.look_again(held_back);
}
