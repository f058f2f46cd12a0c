//! How a hold ends by what came back for it.
ghost use Rattle.std.specs.Prelude.{◌≡◌};
ghost use Rattle.ilp_book.specs.AnswerStep.{judged_reply};

use crate::calls::PeerReply;
use ilp_journal::{Cause, Hold};
use ilp_terms::meets;

/// The preimage that fulfills a hold, or the cause of its release. Lateness is seen first.
#[tactic(auto, unfolding(crate::specs::AnswerStep::judged_reply))]
pub(crate) fn judge_reply(hold: &Hold, moment: i64, reply: PeerReply) -> Result<[u8; 32], Cause>
    ensures { result ≡ judged_reply hold.now moment reply }
{
    if hold.deadline <= moment {
        return Err(Cause::Late);
    }
    let preimage = match reply {
        PeerReply::Fulfill(preimage) => preimage,
        PeerReply::BadFulfill => return Err(Cause::WrongPreimage),
        PeerReply::Reject(code) => return Err(Cause::Peer(code)),
        PeerReply::NoReply => return Err(Cause::NoReply),
    };
    if !meets(&hold.condition, &preimage) {
        return Err(Cause::WrongPreimage);
    }
    Ok(preimage)
}
