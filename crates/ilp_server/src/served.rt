//! What a worker made of a request.
ghost use Rattle.std.specs.Prelude.{◌≡◌};
ghost use Rattle.ilp_server.specs.Deeds.{deed_of, credit_deed, refusal_deed, uncredited_deed};

use crate::handled::{Deed, ToldChange};
use crate::unserved::NotServed;
use ilp_book::{CreditFault, Kept};
use ilp_oer::Octets;
use ilp_workers::{NotCredited, ToldReject};

/// What the response to a request has as its body, if it has one.
#[derive(Drop)]
pub(crate) enum Served {
    // The octets by which the worker answers the peer's packet, and which Reject they are, if any.
    Packet {
        peer: u32,
        rejected: Option<ToldReject>,
    },
    // The JSON of what the balance was moved by, and what is kept of the peer's settlement or of the
    // correction.
    Booked {
        peer: u32,
        kept: Kept,
        text: Octets,
    },
    // The JSON of the balance that would fall below its least by a correction.
    BelowLeast(Octets),
    // What the peer's engine answered.
    Message,
    // The report of the book.
    Report(Vec<u8>),
    // Nothing: the connector is asked to close.
    Close,
}

/// What was done, by what became of the request.
pub(crate) fn deed_of(outcome: &Result<Served, NotServed>) -> Deed
    ensures { result ≡ deed_of outcome.now }
{
    match outcome {
        Ok(Served::Packet { peer, rejected }) => match rejected {
            Some(reject) => Deed::Rejected {
                peer: *peer,
                reject: *reject,
            },
            None => Deed::Nothing,
        },
        Ok(Served::Booked { peer, kept, .. }) => credit_deed(*peer, *kept),
        Err(NotServed::Credit { peer, told, fault }) => uncredited_deed(*peer, *told, *fault),
        _ => Deed::Nothing,
    }
}

// A settlement or a correction that is not answered as booked. It may be booked all the same.
fn uncredited_deed(peer: u32, told: ToldChange, fault: NotCredited) -> Deed
    ensures { result ≡ uncredited_deed peer told fault }
{
    match fault {
        NotCredited::Refused(fault) => refusal_deed(peer, told, fault),
        NotCredited::NotKept { credit } => credit_deed(peer, credit),
    }
}

// One that is not booked, if that is since its key is taken.
fn refusal_deed(peer: u32, told: ToldChange, fault: CreditFault) -> Deed
    ensures { result ≡ refusal_deed peer told fault }
{
    match fault {
        CreditFault::KeyTaken { kept } => Deed::KeyTaken {
            peer,
            number: kept,
            told,
        },
        _ => Deed::Nothing,
    }
}

// A credit, if it was made now.
fn credit_deed(peer: u32, kept: Kept) -> Deed
    ensures { result ≡ credit_deed peer kept }
{
    if kept.fresh {
        Deed::Credited {
            peer,
            number: kept.number,
            amount: kept.amount,
        }
    } else {
        Deed::Nothing
    }
}
