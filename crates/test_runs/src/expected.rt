//! What a call is to be answered, by the rules and by walks over the book.

use crate::calls::{Call, Change, Made, Payment, Reply, Sent};
use crate::configured::{Levels, account_of, asset_of, scale_of};
use crate::locks::meets;
use crate::terms::terms;
use crate::walks::{self, Ends};
use ilp_book::{
    AskFault, Asked, Book, CreditFault, Held, HoldFault, Kept, NotOpen, Outcome, PeerReply,
};
use ilp_journal::{Cause, Hold};
use ilp_settlement::Quantity;

const MOST: u128 = 18_446_744_073_709_551_615;

/// How many settlements to a peer may be open at once.
pub(crate) const MOST_OPEN: u32 = 4;

/// What a call at this moment is to be answered.
pub(crate) fn expected(book: &Book, ends: &Ends, moment: i64, made: &Made) -> Reply {
    match &made.call {
        Call::Hold(sent) => Reply::Hold(held(book, ends, moment, sent)),
        Call::Answer { number, reply } => Reply::Answer(answered(
            book, ends, moment, *number, *reply,
        )),
        Call::Expire => Reply::Expire(expired(book, ends, moment)),
        Call::Credit(payment) => Reply::Credit(credited(book, ends, payment)),
        Call::Ask { peer } => Reply::Ask(asked(book, ends, *peer)),
        Call::Close { number, .. } => Reply::Close(closed(book, ends, *number)),
    }
}

// Whether so many more entries fit, beside those that end what is open.
fn has_room(book: &Book, ends: &Ends, more: u64) -> bool {
    let used = u64::from(book.len()).wrapping_add(u64::from(walks::open_count(book, ends)));
    used.wrapping_add(more) <= u64::from(book.config().journal())
}

fn held(book: &Book, ends: &Ends, moment: i64, sent: &Sent) -> Result<Held, HoldFault> {
    let hold = terms(moment, sent)?;
    if !has_room(book, ends, 2) {
        return Err(HoldFault::Full);
    }
    if !has_total(book, ends, &hold) {
        return Err(HoldFault::TotalFull);
    }
    let balance = walks::balance(book, hold.from);
    if balance.wrapping_sub(i128::from(hold.amount)) < account_of(hold.from).least {
        return Err(HoldFault::BelowLeast { balance });
    }
    Ok(Held {
        number: book.len(),
        to: hold.to,
        out: hold.out,
        deadline: hold.deadline,
    })
}

// Whether with this hold the totals of both assets stay within what one packet can carry.
fn has_total(book: &Book, ends: &Ends, hold: &Hold) -> bool {
    let paid = walks::total_in(book, ends, asset_of(hold.from)).wrapping_add(u128::from(
        hold.amount,
    ));
    let got = walks::total_out(book, ends, asset_of(hold.to)).wrapping_add(u128::from(hold.out));
    paid <= MOST && got <= MOST
}

fn answered(
    book: &Book,
    ends: &Ends,
    moment: i64,
    number: u32,
    reply: PeerReply,
) -> Result<Outcome, NotOpen> {
    let Some(hold) = walks::open_hold_at(book, ends, number) else {
        return Err(NotOpen {
            closer: walks::answer_of(book, ends, number),
        });
    };
    let entry = book.len();
    match cause_of(hold, moment, reply) {
        Some(cause) => Ok(Outcome::Released { entry, cause }),
        None => Ok(Outcome::Fulfilled { entry }),
    }
}

// Why a hold is released by a reply, if it is.
fn cause_of(hold: &Hold, moment: i64, reply: PeerReply) -> Option<Cause> {
    if moment >= hold.deadline {
        return Some(Cause::Late);
    }
    match reply {
        PeerReply::Fulfill(preimage) if meets(&hold.condition, &preimage) => None,
        PeerReply::Fulfill(_) | PeerReply::BadFulfill => Some(Cause::WrongPreimage),
        PeerReply::Reject(code) => Some(Cause::Peer(code)),
        PeerReply::NoReply => Some(Cause::NoReply),
    }
}

fn expired(book: &Book, ends: &Ends, moment: i64) -> Option<u32> {
    let (number, hold) = walks::earliest(book, ends)?;
    if moment < hold.deadline {
        return None;
    }
    Some(number)
}

fn credited(book: &Book, ends: &Ends, payment: &Payment) -> Result<Kept, CreditFault> {
    let quantity = &payment.quantity;
    let come = in_units(quantity, scale_of(payment.peer));
    let Ok(amount) = u64::try_from(come) else {
        return Err(CreditFault::TooLarge);
    };
    if let Some(kept) = walks::kept_under(book, payment.peer, payment.key) {
        return kept_reply(&kept, payment);
    }
    if !has_room(book, ends, 1) {
        return Err(CreditFault::Full);
    }
    check_least(book, payment, amount)?;
    Ok(Kept {
        number: book.len(),
        amount,
        fresh: true,
    })
}

// A correction downwards leaves the balance at its least or above it.
fn check_least(book: &Book, payment: &Payment, amount: u64) -> Result<(), CreditFault> {
    let Change::Lowered(_) = payment.change else {
        return Ok(());
    };
    let balance = walks::balance(book, payment.peer);
    let least = account_of(payment.peer).least;
    if balance.wrapping_sub(i128::from(amount)) >= least {
        return Ok(());
    }
    // The configured one has 64 bits.
    let least = i64::try_from(least).unwrap_or(i64::MIN);
    Err(CreditFault::BelowLeast { balance, least })
}

fn kept_reply(kept: &walks::Kept, payment: &Payment) -> Result<Kept, CreditFault> {
    let number = kept.number;
    let quantity = &payment.quantity;
    let is_same = kept.named == quantity.amount
        && kept.scale == quantity.scale
        && kept.change == payment.change;
    if !is_same {
        return Err(CreditFault::KeyTaken { kept: number });
    }
    Ok(Kept {
        number,
        amount: kept.credited,
        fresh: false,
    })
}

// What a quantity comes to at a scale, rounded down.
fn in_units(quantity: &Quantity, scale: u8) -> u128 {
    let mut amount = quantity.amount;
    for _place in quantity.scale..scale {
        amount = amount.wrapping_mul(10);
    }
    for _place in scale..quantity.scale {
        amount /= 10;
    }
    amount
}

fn asked(book: &Book, ends: &Ends, peer: u32) -> Result<Asked, AskFault> {
    if let Some(fault) = still_open(book, ends, peer) {
        return Err(fault);
    }
    let balance = walks::balance(book, peer);
    let Some(amount) = due(balance, account_of(peer).levels) else {
        return Err(AskFault::NotDue { balance });
    };
    if !has_room(book, ends, 2) {
        return Err(AskFault::Full);
    }
    Ok(Asked {
        number: book.len(),
        amount,
    })
}

// The refusal where as many settlements to a peer are open as may be. It names the first.
fn still_open(book: &Book, ends: &Ends, peer: u32) -> Option<AskFault> {
    if walks::open_asks(book, ends, peer) < MOST_OPEN {
        return None;
    }
    let Asked { number, amount } = walks::open_settlement(book, ends, peer, None)?;
    Some(AskFault::StillOpen { number, amount })
}

// What lies above the level to which a settlement goes, as far as one may go, where the balance is at
// the threshold.
fn due(balance: i128, levels: Option<Levels>) -> Option<u64> {
    let levels = levels?;
    if balance < levels.threshold {
        return None;
    }
    let above = balance.wrapping_sub(levels.settle_to);
    let above = u64::try_from(above).unwrap_or(u64::MAX);
    Some(above.min(levels.settle_max))
}

fn closed(book: &Book, ends: &Ends, number: u32) -> Result<u32, NotOpen> {
    match walks::open_ask_at(book, ends, number) {
        Some(_) => Ok(book.len()),
        None => Err(NotOpen {
            closer: walks::closing_of(book, ends, number),
        }),
    }
}
