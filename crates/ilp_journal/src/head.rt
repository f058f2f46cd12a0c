//! The entries of a period's head: what the one before brings forward.

ghost use Rattle.std.specs.Prelude.{◌≡◌, IfOk, option_map};
ghost use Rattle.ilp_journal.specs.declared.entry.What.TheVariants as what;
ghost use Rattle.ilp_journal.specs.BroughtForward.{credited_to, head_entry, opening_of};

use crate::entry::{Credited, Entry, What};
use crate::key::Key;
use std::alloc::{AllocError, Global};

// An entry that is booked as the books are closed, by no part of the connector that serves.
fn head_entry(moment: i64, what: What) -> Entry
    ensures { result ≡ head_entry moment what }
{
    Entry {
        moment,
        actor: 0,
        what,
    }
}

/// The opening of a peer's balance, and `None` where that is 0.
pub fn opened(moment: i64, peer: u32, balance: i64) -> Option<Entry>
    ensures { result ≡ option_map (head_entry moment) (opening_of peer balance) }
{
    if balance == 0 {
        return None;
    }
    Some(head_entry(moment, What::Opened { peer, balance }))
}

/// A credit or a correction of the period that ends, of the peer at this place. `AllocError` tells that memory for its
/// key or its reason is short.
pub fn known(
    alloc: Global,
    moment: i64,
    peer: u32,
    credited: &Credited,
) -> Result<Entry, AllocError>
    ensures { IfOk result (λ e. e ≡ head_entry moment (what.Known (credited_to peer credited.now))) }
{
    let same = Credited {
        peer,
        key: credited.key.copied(alloc)?,
        named: credited.named,
        scale: credited.scale,
        credited: credited.credited,
        kind: credited.kind.copied(alloc)?,
    };
    Ok(head_entry(moment, What::Known(same)))
}

/// A settlement that is still open, to the peer at this place, under the key that it has. `AllocError`
/// tells that memory for the key is short.
pub fn pending(
    alloc: Global,
    moment: i64,
    peer: u32,
    amount: u64,
    key: &Key,
) -> Result<Entry, AllocError>
    ensures { IfOk result (λ e. e ≡ head_entry moment (what.Pending peer amount key.now)) }
{
    let key = key.copied(alloc)?;
    Ok(head_entry(moment, What::Pending { peer, amount, key }))
}
