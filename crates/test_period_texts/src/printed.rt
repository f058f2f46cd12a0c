//! The lines of a text, printed with no call of the writer. Alice is the peer 0, and bob the peer 1.

use ilp_journal::{Credited, Entry, What};
use std::alloc::{AllocError, Global};

/// The first line of the text of a period.
pub(crate) fn first_line_of(alloc: Global, period: u32) -> Result<String, AllocError> {
    if period == 0 {
        return String::from_str(alloc, "ilp-journal 1\n");
    }
    format!(in alloc; "ilp-journal 2 {period}\n")
}

/// The line of an entry.
pub(crate) fn line_of(alloc: Global, entry: &Entry) -> Result<String, AllocError> {
    let told = told_of(alloc, &entry.what)?;
    format!(in alloc; "{} {} {told}\n", entry.moment, entry.actor)
}

fn told_of(alloc: Global, what: &What) -> Result<String, AllocError> {
    match what {
        What::Opened { peer, balance } => {
            let peer = name_of(*peer);
            format!(in alloc; "opened {peer} {balance}")
        }
        What::Known(credit) => {
            let fields = fields_of(alloc, credit)?;
            format!(in alloc; "known {fields}")
        }
        What::Pending { peer, amount, key } => {
            let peer = name_of(*peer);
            let key = hex::encode(alloc, key.as_slice())?;
            format!(in alloc; "pending {peer} {amount} {key}")
        }
        What::Credited(credit) => {
            let fields = fields_of(alloc, credit)?;
            format!(in alloc; "credited {fields}")
        }
        What::Asked(ask) => {
            let peer = name_of(ask.peer);
            format!(in alloc; "asked {peer} {}", ask.amount)
        }
        What::Confirmed { ask } => format!(in alloc; "confirmed {ask}"),
        What::Undone { ask } => format!(in alloc; "undone {ask}"),
        What::Hold(_) | What::Fulfilled { .. } | What::Released { .. } => {
            String::from_str(alloc, "a hold")
        }
    }
}

fn fields_of(alloc: Global, credit: &Credited) -> Result<String, AllocError> {
    let key = hex::encode(alloc, credit.key.as_slice())?;
    let peer = name_of(credit.peer);
    format!(in alloc;
        "{peer} {key} {} {} {}",
        credit.named, credit.scale, credit.credited
    )
}

fn name_of(peer: u32) -> &'static str {
    match peer {
        0 => "alice",
        1 => "bob",
        _ => "?",
    }
}
