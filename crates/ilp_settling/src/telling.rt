//! What is told of a settler's turn, and how long the peer's turns rest behind it.

use crate::pauses::pause_after;
use ilp_book::AskFault;
use ilp_desk::Naming;
use ilp_link_traits::EngineReply;
use ilp_settler::Turn;
use ilp_shared::Shared;
use std::io::Eprint;
use std::time::{Clock, Duration};

/// Tells what became of a settlement with a peer, whose last pause was so many milliseconds long. Gives the
/// length of the one that counts from now on, where the engine said yes or no.
pub(crate) fn tell_turn<J: Naming, R: Clock + Eprint>(
    shared: &Shared<'_, J, R>,
    peer: u32,
    turn: Turn,
    pause: u64,
) -> Option<u64> {
    let (rt, config, notices) = (shared.rt, shared.desk.config(), shared.notices);
    match turn {
        Turn::NoAccount => None,
        Turn::Idle(AskFault::Full) => {
            shared.seen.note_full();
            None
        }
        Turn::Idle(_) => None,
        Turn::Withheld => None,
        // The keeper tells that itself.
        Turn::Unwritten { .. } => None,
        Turn::Kept { number, .. } => {
            notices.settlement_kept_open(rt, config, peer, number);
            None
        }
        Turn::Closed {
            number,
            amount,
            said: EngineReply::Accepted,
        } => {
            notices.settlement_confirmed(rt, config, peer, number, amount);
            Some(0)
        }
        Turn::Closed {
            number,
            amount,
            said: EngineReply::Refused { status },
        } => {
            let pause = pause_after(pause);
            let rest = Duration::from_millis(pause);
            notices.settlement_refused(rt, config, peer, number, amount, status, rest);
            Some(pause)
        }
        // No turn closes a settlement by that.
        Turn::Closed {
            said: EngineReply::Unknown { .. },
            ..
        } => None,
    }
}
