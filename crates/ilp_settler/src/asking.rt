//! A settlement that a peer's engine is to be asked for.
ghost use Rattle.std.specs.Prelude.{◌≡◌};
ghost use Rattle.ilp_settler.specs.Asking.{asking_for, settlement_of};

use crate::turn::Turn;
use ilp_book::Asked;
use ilp_oer::Octets;
use std::alloc::{Allocator, Global};
use std::marker::Model;

/// What a peer's engine is to be asked for (RFC 0038), until the settler that gave it out finishes it
/// with what the engine said. It owns the octets of its key; room for its record is kept in the
/// settler. It can't be cloned. A settler of which one was let go never again has none pending.
#[derive(Drop)]
pub struct Asking<A: Allocator = Global> {
    peer: u32,
    asked: Asked,
    scale: u8,
    key: Octets<A>,
}

impl<A: Allocator> Model for Asking<A> {
    ghost use Rattle.ilp_settler.specs.Asking.{PlainAsking, asking_for};

    ghost Value = { PlainAsking };

    ghost view = { λ a. asking_for a.peer a.asked a.scale a.key.octets };
}

impl<A: Allocator> Asking<A> {
    pub(crate) fn new(peer: u32, asked: Asked, scale: u8, key: Octets<A>) -> Asking<A>
        ensures { result ≡ asking_for peer asked scale key.octets }
    {
        Asking {
            peer,
            asked,
            scale,
            key,
        }
    }

    /// The peer whose engine is to be asked.
    pub fn peer(&self) -> u32
        ensures { result ≡ self.now.peer }
    {
        self.peer
    }

    /// The settlement's number in the book.
    pub fn number(&self) -> u32
        ensures { result ≡ self.now.number }
    {
        self.asked.number
    }

    /// What is to be paid, in units of the peer's asset.
    pub fn amount(&self) -> u64
        ensures { result ≡ self.now.amount }
    {
        self.asked.amount
    }

    /// The scale of those units.
    pub fn scale(&self) -> u8
        ensures { result ≡ self.now.scale }
    {
        self.scale
    }

    /// The key under which the engine takes the settlement once, however often it is asked.
    pub fn key(&self) -> &[u8]
        ensures { result.now ≡ self.now.key }
    {
        self.key.as_slice()
    }

    // The settlement that the engine is to be asked for.
    pub(crate) fn asked(&self) -> Asked
        ensures { result ≡ settlement_of self.now }
    {
        self.asked
    }
}

/// What becomes of a turn before the peer's engine is asked for a settlement.
#[derive(Drop)]
pub enum BegunTurn<A: Allocator = Global> {
    /// The peer's engine is to be asked first whether it has an account of the peer. Nothing was done.
    NeedsAccount,
    /// The engine is to be asked for this settlement, whose entry is kept.
    Asks(Asking<A>),
    /// The turn is over, as `Idle`, `Withheld` or `Unwritten`. No engine is to be asked.
    Over(Turn),
}
