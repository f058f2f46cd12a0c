//! Settlements from peers, and corrections: which one is kept under a key, and what is answered by it.
ghost use Rattle.std.specs.Prelude.{◌≡◌, option_map};
ghost use Rattle.ilp_journal.specs.Keys.{IsKey};
ghost use Rattle.ilp_book.specs.SettleStep as settles;
ghost use Rattle.ilp_rules.specs.CreditTables.{AreKept};

use crate::calls::Kept;
use crate::fault::CreditFault;
use ilp_journal::{CreditKind, Journal, Key};
use ilp_rules::CreditTable;
use ilp_settlement::Quantity;
use std::alloc::Allocator;

/// What is answered where a credit of the peer, or a correction, is kept under the key.
pub(crate) fn kept_reply<A: Allocator>(
    journal: &Journal<A>,
    keys: &CreditTable<A>,
    peer: u32,
    key: &Key,
    quantity: &Quantity,
    kind: &CreditKind,
) -> Option<Result<Kept, CreditFault>>
    requires { AreKept journal.now.entries keys.now }
    ensures value { result ≡ option_map (settles.credit_kept quantity.now kind.now)
        (settles.kept journal.now.entries peer key.now) }
    ensures key { IsKey key.now }
{
    let number = keys.find(peer, key.as_slice())?;
    let credited = journal.credit(number)?;
    let is_same = credited.named == quantity.amount
        && credited.scale == quantity.scale
        && credited.kind.is_same(kind);
    if !is_same {
        return Some(Err(CreditFault::KeyTaken { kept: number }));
    }
    Some(Ok(Kept {
        number,
        amount: credited.credited,
        fresh: false,
    }))
}
