//! The line of an entry, printed with no call of the writer. Alice is the peer 0, and bob the peer 1.

use ilp_journal::{Cause, Credited, Entry, What};
use std::alloc::{AllocError, Global};

/// The line of an entry.
pub(crate) fn line_of(alloc: Global, entry: &Entry) -> Result<String, AllocError> {
    let told = told_of(alloc, &entry.what)?;
    format!(in alloc; "{} {} {told}\n", entry.moment, entry.actor)
}

fn told_of(alloc: Global, what: &What) -> Result<String, AllocError> {
    match what {
        What::Hold(hold) => {
            let condition = hex::encode(alloc, hold.condition)?;
            let from = name_of(hold.from);
            let to = name_of(hold.to);
            format!(in alloc;
                "hold {from} {to} {} {} {} {} {condition}",
                hold.amount, hold.fee, hold.out, hold.deadline
            )
        }
        What::Fulfilled { hold, preimage } => {
            let preimage = hex::encode(alloc, *preimage)?;
            format!(in alloc; "fulfilled {hold} {preimage}")
        }
        What::Released { hold, cause } => {
            let cause = cause_of(alloc, *cause)?;
            format!(in alloc; "released {hold} {cause}")
        }
        What::Credited(credited) => credit_of(alloc, "credited", credited),
        What::Known(credited) => credit_of(alloc, "known", credited),
        What::Asked(ask) => {
            let peer = name_of(ask.peer);
            format!(in alloc; "asked {peer} {}", ask.amount)
        }
        What::Confirmed { ask } => format!(in alloc; "confirmed {ask}"),
        What::Undone { ask } => format!(in alloc; "undone {ask}"),
        What::Opened { peer, balance } => {
            let peer = name_of(*peer);
            format!(in alloc; "opened {peer} {balance}")
        }
        What::Pending { peer, amount, key } => {
            let key = hex::encode(alloc, key.as_slice())?;
            let peer = name_of(*peer);
            format!(in alloc; "pending {peer} {amount} {key}")
        }
    }
}

fn credit_of(alloc: Global, word: &str, credited: &Credited) -> Result<String, AllocError> {
    let key = hex::encode(alloc, credited.key.as_slice())?;
    let peer = name_of(credited.peer);
    format!(in alloc;
        "{word} {peer} {key} {} {} {}",
        credited.named, credited.scale, credited.credited
    )
}

fn cause_of(alloc: Global, cause: Cause) -> Result<String, AllocError> {
    match cause {
        Cause::Late => String::from_str(alloc, "Late"),
        Cause::WrongPreimage => String::from_str(alloc, "WrongPreimage"),
        Cause::NoReply => String::from_str(alloc, "NoReply"),
        Cause::Restart => String::from_str(alloc, "Restart"),
        Cause::Peer(code) => {
            let code = hex::encode(alloc, code)?;
            format!(in alloc; "Peer {code}")
        }
    }
}

fn name_of(peer: u32) -> &'static str {
    match peer {
        0 => "alice",
        1 => "bob",
        _ => "?",
    }
}
