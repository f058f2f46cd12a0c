//! Calls that are made.

use crate::calls::{Call, Change, Made, Payment, Reply, Sent, key_octets};
use crate::configured::destination;
use ilp_book::Book;
use ilp_journal::{CreditKind, Key, Reason};
use ilp_packet::Prepare;
use std::alloc::{AllocError, Global};

/// What the book answers. `AllocError` tells that memory for a key is short.
pub(crate) fn make(alloc: Global, book: &mut Book, made: &Made) -> Result<Reply, AllocError> {
    let (actor, now) = (made.actor, made.now);
    match &made.call {
        Call::Hold(sent) => Ok(hold(book, actor, sent, now)),
        Call::Answer { number, reply } => {
            Ok(Reply::Answer(book.answer(actor, *number, *reply, now)))
        }
        Call::Expire => Ok(Reply::Expire(book.expire_one(actor, now))),
        Call::Credit(payment) => credit(alloc, book, actor, payment, now),
        Call::Ask { peer } => Ok(ask(book, actor, *peer, now)),
        Call::Close { number, verdict } => {
            Ok(Reply::Close(book.settle_close(actor, *number, *verdict, now)))
        }
    }
}

fn hold(book: &mut Book, actor: u32, sent: &Sent, now: i64) -> Reply {
    if sent.from >= book.config().peers() {
        return Reply::NotMade;
    }
    let prepare = Prepare {
        amount: sent.amount,
        expires: sent.expires,
        condition: &sent.condition,
        destination: destination(sent.to),
        payload: b"",
    };
    Reply::Hold(book.hold(actor, sent.from, &prepare, now))
}

fn credit(
    alloc: Global,
    book: &mut Book,
    actor: u32,
    payment: &Payment,
    now: i64,
) -> Result<Reply, AllocError> {
    if payment.peer >= book.config().peers() {
        return Ok(Reply::NotMade);
    }
    let octets = key_octets(payment.key);
    let Some(key) = Key::new(alloc, octets.as_slice())? else {
        return Ok(Reply::NotMade);
    };
    let Some(kind) = kind_of(alloc, payment.change)? else {
        return Ok(Reply::NotMade);
    };
    let reply = book.credit(actor, payment.peer, key, &payment.quantity, kind, now);
    Ok(Reply::Credit(reply))
}

// The kind of a payment, as the book is told it.
fn kind_of(alloc: Global, change: Change) -> Result<Option<CreditKind>, AllocError> {
    match change {
        Change::Settled => Ok(Some(CreditKind::Settled)),
        Change::Raised(reason) => match Reason::new(alloc, &[reason])? {
            Some(reason) => Ok(Some(CreditKind::Raised(reason))),
            None => Ok(None),
        },
        Change::Lowered(reason) => match Reason::new(alloc, &[reason])? {
            Some(reason) => Ok(Some(CreditKind::Lowered(reason))),
            None => Ok(None),
        },
    }
}

fn ask(book: &mut Book, actor: u32, peer: u32, now: i64) -> Reply {
    if peer >= book.config().peers() {
        return Reply::NotMade;
    }
    Reply::Ask(book.ask(actor, peer, now))
}
