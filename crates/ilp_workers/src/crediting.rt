//! Settlements from peers, which their engines tell of, and corrections of balances.
ghost use Rattle.std.specs.Prelude.{◌≡◌};
ghost use Rattle.ilp_book.specs.Configured.{IsKnown};
ghost use Rattle.ilp_book.specs.SettleStep.{Payment, payment};
ghost use Rattle.ilp_journal.specs.Credits.{lowers as kind_lowers};
ghost use Rattle.ilp_workers.specs.Worker.{seat};
ghost use Rattle.ilp_workers.specs.Crediting.{record_of_credit, CreditsAt};

use crate::parts::{Parts, reserve_beside};
use ilp_book::{CreditFault, Kept};
use ilp_desk::{Desk, Naming, Record, Recorded};
use ilp_journal::{CreditKind, Key};
use ilp_keeping::Keeper;
use ilp_link_traits::{Clock, EngineLink, Uplink};
use ilp_settlement::{Quantity, credited};
use std::alloc::Allocator;
use std::sync::Wait;
use thiserror::Error;

/// Why a settlement is not answered as credited, or a correction as booked.
#[derive(Clone, Copy, Debug, PartialEq, Eq, Error)]
pub enum NotCredited {
    /// It is not credited, for this reason.
    #[error("{0}")]
    Refused(CreditFault),
    /// It is credited and stays so, now or from before, but nothing says that its entry is kept. Told
    /// again under its key, it is kept then or refused so again.
    #[error("the journal is not kept")]
    NotKept { credit: Kept },
}

impl<
    J: Naming,
    C: Clock + Drop,
    U: Uplink + Drop,
    E: EngineLink + Drop,
    K: Keeper<J> + Drop,
    A: Allocator,
> Parts<J, C, U, E, K, A> {
    // Makes room for the record, and then has the desk credit the settlement at the clock's moment.
    pub(crate) fn book_credit(
        &mut self,
        rt: &impl Wait,
        desk: &Desk<J>,
        peer: u32,
        key: Key,
        quantity: &Quantity,
        kind: CreditKind,
    ) -> Result<Kept, CreditFault>
        requires known { IsKnown J.desk.config peer }
        ensures told { CreditsAt J.desk (payment peer key quantity.now kind)
            (seat self.old.share self.old.records.items (C.told self.old.clock) self.old.receipt
            (K.told self.old.keeper))
            (seat self.new.share self.new.records.items (C.told self.new.clock) self.new.receipt
            (K.told self.new.keeper)) result }
        ensures links { (self.new.uplink ≡ self.old.uplink) × (self.new.engine ≡ self.old.engine) }
        ensures reply_in { self.new.reply_in ≡ self.old.reply_in }
        ensures pending { self.new.pending ≡ self.old.pending }
        ensures actor { self.new.share.actor ≡ self.old.share.actor }
        ensures buffers { (self.new.incoming ≡ self.old.incoming)
            × (self.new.outgoing ≡ self.old.outgoing) × (self.new.rejected ≡ self.old.rejected) }
    {
        let Ok(_) = credited(quantity, desk.config().scale(peer)) else {
            return Err(CreditFault::TooLarge);
        };
        let Ok(()) = reserve_beside(&mut self.records, self.pending) else {
            return Err(CreditFault::Memory);
        };
        let lowers = kind.lowers();
        let now = self.clock.now();
        match desk.credit_shown(
            rt,
            &mut self.share,
            &mut self.receipt,
            peer,
            key,
            quantity,
            kind,
            now,
        ) {
            Ok(kept) => {
                if kept.fresh {
                    self.records.push_reserved(record_of(peer, kept, lowers));
                }
                Ok(kept)
            }
            Err(fault) => Err(fault),
        }
    }
}

// The record of a settlement that was credited, or of a correction.
fn record_of(peer: u32, kept: Kept, lowers: bool) -> Record
    ensures { (p : Payment) → p.peer ≡ peer → kind_lowers p.kind ≡ lowers
        → result ≡ record_of_credit p kept }
{
    Record {
        number: kept.number,
        what: Recorded::Credited {
            peer,
            amount: kept.amount,
            lowers,
        },
    }
}
