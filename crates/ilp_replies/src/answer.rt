//! What the sender of a Prepare is answered.
ghost use Rattle.std.specs.Prelude.{◌≡◌};
ghost use Rattle.ilp_replies.specs.Replies.{unbooked};

use crate::rejects::ToldReject;
use ilp_oer::Octets;
use std::alloc::{Allocator, Global};

/// What became of a Prepare: the numbers of the entries that were booked, and the Reject that its
/// sender was told.
#[derive(Clone, Copy, Debug, PartialEq, Eq)]
pub struct Receipt {
    /// The hold.
    pub hold: Option<u32>,
    /// What ended it.
    pub answer: Option<u32>,
    /// The Reject that the sender was told; none where it was told a Fulfill.
    pub rejected: Option<ToldReject>,
}

impl Receipt {
    /// Nothing was booked.
    pub fn unbooked(rejected: Option<ToldReject>) -> Receipt
        ensures { result ≡ unbooked rejected }
    {
        Receipt {
            hold: None,
            answer: None,
            rejected,
        }
    }
}

/// What the sender of a packet is answered: the octets of a Fulfill or of a Reject, and what became
/// of its Prepare.
#[derive(Drop)]
pub struct Answer<A: Allocator = Global> {
    pub receipt: Receipt,
    pub octets: Octets<A>,
}
