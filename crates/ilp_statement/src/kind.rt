//! What an entry is to a peer.
ghost use Rattle.std.specs.Prelude.{◌≡◌};
ghost use Rattle.ilp_journal.specs.Journal.{ask_at, hold_at};
ghost use Rattle.ilp_statement.specs.Statement.{kind_at, kind_by, kind_of, owner_is, side_of};

use crate::standing::{ask_at, hold_at};
use ilp_book::Book;
use ilp_journal::{CreditKind, Hold, What};
use std::alloc::Allocator;

/// What an entry is to the peer whose statement lists it.
#[derive(Clone, Copy, Debug, PartialEq, Eq)]
pub enum Kind {
    /// Its balance was brought forward from the period before.
    Opened,
    /// It sent a packet, whose amount is held.
    Sent,
    /// A packet that it sent was fulfilled: what was held is spent.
    Paid,
    /// A packet that it sent was not: it has the amount back.
    Returned,
    /// A packet that went to it was fulfilled: it has the amount.
    Received,
    /// A packet that went to it was not.
    Refused,
    /// It settled.
    Credited,
    /// Its balance was corrected.
    Corrected,
    /// A settlement to it was asked for.
    Asked,
    /// That was accepted by its engine.
    Confirmed,
    /// It was refused: the peer has the amount back.
    Undone,
}

impl Kind {
    /// What the entry of a number is to the peer; none where it isn't the peer's.
    pub fn at<A: Allocator>(book: &Book<A>, peer: u32, number: u32) -> Option<Kind>
        ensures { result ≡ kind_at book.now.entries peer number }
    {
        let entry = book.entry(number)?;
        Kind::of(book, peer, &entry.what)
    }

    /// The word by which it is printed.
    pub fn word(self) -> &'static str {
        match self {
            Kind::Opened => "opened",
            Kind::Sent => "sent",
            Kind::Paid => "paid",
            Kind::Returned => "returned",
            Kind::Received => "received",
            Kind::Refused => "refused",
            Kind::Credited => "credited",
            Kind::Corrected => "corrected",
            Kind::Asked => "asked",
            Kind::Confirmed => "confirmed",
            Kind::Undone => "undone",
        }
    }

    // What an entry is to the peer.
    fn of<A: Allocator>(book: &Book<A>, peer: u32, what: &What) -> Option<Kind>
        ensures { result ≡ kind_of book.now.entries peer what.now }
    {
        match what {
            What::Hold(hold) => owner_is(peer, hold.from, Kind::Sent),
            What::Fulfilled { hold, .. } => {
                side_of(peer, hold_at(book, *hold)?, Kind::Paid, Kind::Received)
            }
            What::Released { hold, .. } => {
                side_of(peer, hold_at(book, *hold)?, Kind::Returned, Kind::Refused)
            }
            What::Credited(credited) => owner_is(peer, credited.peer, kind_by(&credited.kind)),
            What::Asked(ask) => owner_is(peer, ask.peer, Kind::Asked),
            What::Confirmed { ask } => owner_is(peer, ask_at(book, *ask)?.peer, Kind::Confirmed),
            What::Undone { ask } => owner_is(peer, ask_at(book, *ask)?.peer, Kind::Undone),
            What::Opened { peer: opened, .. } => owner_is(peer, *opened, Kind::Opened),
            What::Known(_) | What::Pending { .. } => None,
        }
    }
}

// Whether it is a settlement or a correction.
fn kind_by(kind: &CreditKind) -> Kind
    ensures { result ≡ kind_by kind.now }
{
    match kind {
        CreditKind::Settled => Kind::Credited,
        CreditKind::Raised(_) | CreditKind::Lowered(_) => Kind::Corrected,
    }
}

// Of which kind a hold's entry is by the side at which the peer stands.
fn side_of(peer: u32, hold: Hold, sent: Kind, went: Kind) -> Option<Kind>
    ensures { result ≡ side_of peer hold sent went }
{
    if hold.from == peer {
        Some(sent)
    } else if hold.to == peer {
        Some(went)
    } else {
        None
    }
}

// The kind, where the owner is the peer.
fn owner_is(peer: u32, owner: u32, kind: Kind) -> Option<Kind>
    ensures { result ≡ owner_is peer owner kind }
{
    if owner == peer { Some(kind) } else { None }
}
