//! Whether the entry of a call is the one that is to be.

use crate::calls::{Call, Change, Made, Payment, Reply, key_octets};
use crate::terms::terms;
use ilp_book::{Book, EngineVerdict, Outcome, PeerReply};
use ilp_journal::{Ask, Cause, CreditKind, Credited, What};

/// Whether the last entry is the one that a call booked at this moment, by its reply.
pub(crate) fn is_booked(book: &Book, moment: i64, made: &Made, reply: &Reply) -> bool {
    match book.entry(book.len().wrapping_sub(1)) {
        Some(entry) => {
            entry.moment == moment
                && entry.actor == made.actor
                && says(&entry.what, moment, &made.call, reply)
        }
        None => false,
    }
}

// Whether this is what happened by a call.
fn says(what: &What, moment: i64, call: &Call, reply: &Reply) -> bool {
    match what {
        What::Hold(hold) => match call {
            Call::Hold(sent) => terms(moment, sent) == Ok(*hold),
            _ => false,
        },
        What::Fulfilled { hold, preimage } => fulfills(*hold, preimage, call, reply),
        What::Released { hold, cause } => releases(*hold, *cause, call, reply),
        What::Credited(credited) => match call {
            Call::Credit(payment) => credits(credited, payment, reply),
            _ => false,
        },
        What::Asked(ask) => match call {
            Call::Ask { peer } => asks(ask, *peer, reply),
            _ => false,
        },
        What::Confirmed { ask } => closes(*ask, EngineVerdict::Accepted, call),
        What::Undone { ask } => closes(*ask, EngineVerdict::Refused, call),
        // No call brings anything forward.
        What::Opened { .. } | What::Known(_) | What::Pending { .. } => false,
    }
}

fn fulfills(hold: u32, preimage: &[u8; 32], call: &Call, reply: &Reply) -> bool {
    let is_told = match reply {
        Reply::Answer(Ok(Outcome::Fulfilled { .. })) => true,
        _ => false,
    };
    match call {
        Call::Answer { number, reply } => {
            is_told && *number == hold && *reply == PeerReply::Fulfill(*preimage)
        }
        _ => false,
    }
}

fn releases(hold: u32, cause: Cause, call: &Call, reply: &Reply) -> bool {
    match call {
        Call::Answer { number, .. } => match reply {
            Reply::Answer(Ok(Outcome::Released { cause: told, .. })) => {
                *number == hold && *told == cause
            }
            _ => false,
        },
        Call::Expire => *reply == Reply::Expire(Some(hold)) && cause == Cause::Late,
        _ => false,
    }
}

fn credits(credited: &Credited, payment: &Payment, reply: &Reply) -> bool {
    let Reply::Credit(Ok(kept)) = reply else {
        return false;
    };
    credited.peer == payment.peer
        && credited.key.as_slice() == key_octets(payment.key).as_slice()
        && credited.named == payment.quantity.amount
        && credited.scale == payment.quantity.scale
        && credited.credited == kept.amount
        && is_change(&credited.kind, payment.change)
}

// Whether it is the settlement or the correction that was made.
fn is_change(kind: &CreditKind, change: Change) -> bool {
    match (kind, change) {
        (CreditKind::Settled, Change::Settled) => true,
        (CreditKind::Raised(reason), Change::Raised(told)) => reason.as_slice()
            == [told].as_slice(),
        (CreditKind::Lowered(reason), Change::Lowered(told)) => {
            reason.as_slice() == [told].as_slice()
        }
        _ => false,
    }
}

fn asks(ask: &Ask, peer: u32, reply: &Reply) -> bool {
    match reply {
        Reply::Ask(Ok(asked)) => ask.peer == peer && ask.amount == asked.amount,
        _ => false,
    }
}

fn closes(ask: u32, said: EngineVerdict, call: &Call) -> bool {
    match call {
        Call::Close { number, verdict } => *number == ask && *verdict == said,
        _ => false,
    }
}
