//! The calls of a book, and what they are answered.

use ilp_book::{
    AskFault, Asked, CreditFault, EngineVerdict, Held, HoldFault, Kept, NotOpen, Outcome, PeerReply,
};
use ilp_settlement::Quantity;

/// A call, with who makes it and what the clock tells.
#[derive(Clone, Copy, Debug)]
pub(crate) struct Made {
    pub(crate) call: Call,
    pub(crate) actor: u32,
    pub(crate) now: i64,
}

/// One of the six calls of a book.
#[derive(Clone, Copy, Debug)]
pub(crate) enum Call {
    Hold(Sent),
    Answer { number: u32, reply: PeerReply },
    Expire,
    Credit(Payment),
    Ask { peer: u32 },
    Close { number: u32, verdict: EngineVerdict },
}

/// A Prepare from a peer.
#[derive(Clone, Copy, Debug)]
pub(crate) struct Sent {
    pub(crate) from: u32,
    /// Whom its destination leads to; a place of no peer stands for one without a route.
    pub(crate) to: u32,
    pub(crate) amount: u64,
    pub(crate) expires: i64,
    pub(crate) condition: [u8; 32],
}

/// A settlement from a peer, or a correction of its balance, under one of the peer's keys.
#[derive(Clone, Copy, Debug)]
pub(crate) struct Payment {
    pub(crate) peer: u32,
    pub(crate) key: u8,
    pub(crate) quantity: Quantity,
    pub(crate) change: Change,
}

/// What a payment is.
#[derive(Clone, Copy, Debug, PartialEq, Eq)]
pub(crate) enum Change {
    Settled,
    /// Corrections, for a reason of one octet.
    Raised(u8),
    Lowered(u8),
}

/// The octets of a key. All peers use the same.
pub(crate) fn key_octets(key: u8) -> [u8; 2] {
    [b'k', key]
}

/// What a call is answered.
#[derive(Clone, Copy, Debug, PartialEq, Eq)]
pub(crate) enum Reply {
    Hold(Result<Held, HoldFault>),
    Answer(Result<Outcome, NotOpen>),
    Expire(Option<u32>),
    Credit(Result<Kept, CreditFault>),
    Ask(Result<Asked, AskFault>),
    Close(Result<u32, NotOpen>),
    /// The call could not be made: there is no such peer or no such key.
    NotMade,
}

impl Reply {
    /// Whether an entry is appended by it.
    pub(crate) fn books(&self) -> bool {
        match self {
            Reply::Hold(reply) => reply.is_ok(),
            Reply::Answer(reply) => reply.is_ok(),
            Reply::Expire(number) => number.is_some(),
            Reply::Credit(Ok(kept)) => kept.fresh,
            Reply::Credit(Err(_)) | Reply::NotMade => false,
            Reply::Ask(reply) => reply.is_ok(),
            Reply::Close(reply) => reply.is_ok(),
        }
    }
}
