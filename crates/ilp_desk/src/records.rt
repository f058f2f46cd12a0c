//! What the entries of a book are kept as.
ghost use Rattle.std.specs.Prelude.{◌≡◌, ◌==◌, None, option_map, if◌then◌else◌};
ghost use Rattle.ilp_journal.specs.Journal.{hold_at, ask_at};
ghost use Rattle.ilp_desk.specs.Records.{answered_hold, closed, record_at, record_by};

use crate::record::{AnsweredHold, HoldEnd, Record, Recorded};
use ilp_book::{Book, EngineVerdict};
use ilp_journal::{Ask, Cause, What};

// The record of the entry of this number, if it is the actor's.
pub(crate) fn record_by(book: &Book, number: u32, actor: u32) -> Option<Record>
    ensures { result ≡ record_by book.now.entries number actor }
{
    let entry = book.entry(number)?;
    if actor == entry.actor {
        record_of(book, number)
    } else {
        None
    }
}

// The record of the entry of this number, if anything is kept of it.
fn record_of(book: &Book, number: u32) -> Option<Record>
    ensures { result ≡ record_at book.now.entries number }
{
    let entry = book.entry(number)?;
    let what = match &entry.what {
        What::Hold(_) | What::Asked(_) => return None,
        What::Opened { .. } | What::Known(_) | What::Pending { .. } => return None,
        What::Fulfilled { hold, .. } => answered_hold(book, *hold, HoldEnd::Fulfilled)?,
        What::Released { hold, cause } => {
            if *cause == Cause::Late {
                return None;
            }
            answered_hold(book, *hold, HoldEnd::Released(*cause))?
        }
        What::Credited(credit) => Recorded::Credited {
            peer: credit.peer,
            amount: credit.credited,
            lowers: credit.kind.lowers(),
        },
        What::Confirmed { ask } => closed(book, *ask, EngineVerdict::Accepted)?,
        What::Undone { ask } => closed(book, *ask, EngineVerdict::Refused)?,
    };
    Some(Record { number, what })
}

// The hold of this number, if there is one, and how it ended.
fn answered_hold(book: &Book, number: u32, ended: HoldEnd) -> Option<Recorded>
    ensures { result ≡ option_map (answered_hold number ended) (hold_at book.now.entries number) }
{
    let entry = book.entry(number)?;
    let What::Hold(hold) = &entry.what else {
        return None;
    };
    Some(Recorded::Answered(AnsweredHold {
        hold: number,
        from: hold.from,
        to: hold.to,
        amount: hold.amount,
        out: hold.out,
        condition: hold.condition,
        ended,
    }))
}

// The settlement of this number, if there is one, and what its engine said of it.
fn closed(book: &Book, number: u32, verdict: EngineVerdict) -> Option<Recorded>
    ensures { result ≡ option_map (closed number verdict) (ask_at book.now.entries number) }
{
    let ask = ask_at(book, number)?;
    Some(Recorded::Closed {
        ask: number,
        peer: ask.peer,
        amount: ask.amount,
        verdict,
    })
}

// The settlement of this number, of this period or of an earlier one, if there is one.
fn ask_at(book: &Book, number: u32) -> Option<Ask>
    ensures { result ≡ ask_at book.now.entries number }
{
    match &book.entry(number)?.what {
        What::Asked(ask) => Some(*ask),
        What::Pending { peer, amount, .. } => Some(Ask {
            peer: *peer,
            amount: *amount,
        }),
        _ => None,
    }
}
