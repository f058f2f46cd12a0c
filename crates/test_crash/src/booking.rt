//! What an actor books.
ghost use Rattle.std.specs.Prelude.{◌≡◌, ◌<◌, length, IfSome};
ghost use Rattle.ilp_book.specs.Book.{by};
ghost use Rattle.ilp_book.specs.Configured.{IsKnown};
ghost use Rattle.ilp_book.specs.SettleStep.{payment, credit_growth, credit_step};
ghost use Rattle.test_crash.specs.Whole.{IsLeftBy};

use ilp_book::Kept;
use ilp_desk::{Desk, JournalReceipt, Naming, Share};
use ilp_journal::{CreditKind, Key};
use ilp_settlement::Quantity;
use std::sync::Wait;

/// What an actor has seen of a desk, twice.
#[derive(Drop)]
pub(crate) struct Seen<J: Naming> {
    pub(crate) receipt: JournalReceipt<J>,
    pub(crate) again: JournalReceipt<J>,
}

/// A credit that an actor booked, and what it has seen then: all that is booked by then.
#[derive(Drop)]
pub(crate) struct Booked<J: Naming> {
    pub(crate) reply: Kept,
    pub(crate) seen: Seen<J>,
}

/// Books a credit of a peer under a key.
pub(crate) fn credit<J: Naming>(
    rt: &impl Wait,
    desk: &Desk<J>,
    share: &mut Share<J>,
    peer: u32,
    key: Key,
    quantity: &Quantity,
    now: i64,
) -> Option<Booked<J>>
    requires known { IsKnown J.desk.config peer }
    ensures twice { IfSome result (λ b. b.seen.again ≡ b.seen.receipt) }
    ensures left { IfSome result (λ b. IsLeftBy J.desk
        (λ book. credit_step book (by share.old.actor now)
        (payment peer key quantity.now CreditKind.Settled) (credit_growth (Ok b.reply)))
        share.old share.new (Ok b.reply) b.seen.receipt) }
{
    let mut book = desk.lock(rt);
    match book.credit(share, peer, key, quantity, CreditKind::Settled, now) {
        Ok(reply) => {
            let receipt = book.receipt();
            let again = book.receipt();
            let seen = Seen { receipt, again };
            Some(Booked { reply, seen })
        }
        Err(_) => None,
    }
}
