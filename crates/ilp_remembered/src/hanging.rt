//! What of a book hangs on a run and on the assets of its peers.
ghost use Rattle.std.specs.Prelude.{◌≡◌, ◌↔◌, IsTrue, IsSomeAnd};
ghost use Rattle.ilp_journal.specs.Credits.{credit_at};
ghost use Rattle.ilp_remembered.specs.Remembered as remembered;

use ilp_book::Book;

/// Whether something is counted in units of a peer's asset.
pub(crate) fn is_counted(book: &Book, peer: u32) -> bool
    ensures { IsTrue result ↔ remembered.IsCounted book.now.entries peer }
{
    book.balance(peer) != 0
        || book.open_holds(peer) != 0
        || is_unsettled(book, peer)
        || keeps_key(book, peer)
}

/// Whether a settlement to a peer is open.
pub(crate) fn is_unsettled(book: &Book, peer: u32) -> bool
    ensures { IsTrue result ↔ remembered.IsUnsettled book.now.entries peer }
{
    book.open_settlement(peer, None).is_some()
}

// Whether a key of a credit of a peer is kept, of this period or of an earlier one.
#[tactic(auto, using(crate::proofs::KeptKeys::kept, crate::proofs::KeptKeys::not_kept))]
fn keeps_key(book: &Book, peer: u32) -> bool
    ensures { IsTrue result ↔ ¬ (remembered.KeepsNoKey book.now.entries peer) }
{
    for number in 0..book.len() {
        if is_credit_of(book, number, peer) {
            return true;
        }
    }
    false
}

// Whether the entry of this number keeps the key of a credit of a peer.
fn is_credit_of(book: &Book, number: u32, peer: u32) -> bool
    ensures { IsTrue result ↔ IsSomeAnd (credit_at book.now.entries number) (λ credit. credit.peer ≡ peer) }
{
    match book.entry(number) {
        Some(entry) => match entry.what.credit() {
            Some(credit) => credit.peer == peer,
            None => false,
        },
        None => false,
    }
}
