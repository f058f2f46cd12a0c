//! Why a call of a book is refused.
ghost use Rattle.std.specs.Prelude.{◌≡◌};
ghost use Rattle.ilp_book.specs.declared.fault.HoldFault.TheVariants as hold_fault;
ghost use Rattle.ilp_book.specs.declared.fault.CreditFault.TheVariants as credit_fault;
ghost use Rattle.ilp_book.specs.declared.fault.AskFault.TheVariants as ask_fault;
ghost use Rattle.ilp_book.specs.RejectCode.{reject_code};

use ilp_assets::QuoteFault;
use ilp_settlement::TooLarge;
use std::alloc::AllocError;
use thiserror::Error;

/// Why a Prepare was refused, in the order in which these are looked for.
#[derive(Clone, Copy, Debug, PartialEq, Eq, Error)]
pub enum HoldFault {
    /// The sender sends at most `max` in one packet.
    #[error("a packet of this sender carries at most {max}")]
    AmountTooLarge { max: u64 },
    /// The destination is routed to no peer.
    #[error("the destination is routed to no peer")]
    NoRoute,
    /// The destination is routed to the sender.
    #[error("the destination is routed to the sender")]
    BackToSender,
    /// The Prepare expires at this moment or before it.
    #[error("the Prepare has expired")]
    Expired,
    /// The Prepare leaves too little time to pass it on.
    #[error("the Prepare leaves too little time")]
    TooShort,
    /// The amount can't pass from the sender's asset to the receiver's.
    #[error("{0}")]
    Quote(QuoteFault),
    /// The journal has no room for the hold and the entry that ends it.
    #[error("the journal is full")]
    Full,
    /// The open and the fulfilled holds since the base would come to more than a packet carries, in
    /// the sender's asset or in the receiver's.
    #[error("the holds of an asset come to too much")]
    TotalFull,
    /// The sender's balance, which is this, would fall below its least.
    #[error("the balance {balance} would fall below its least")]
    BelowLeast { balance: i128 },
    /// Memory was denied.
    #[error("memory is short")]
    Memory,
}

impl HoldFault {
    /// The code of the Reject that the sender gets (RFC 0027, "Error Codes").
    pub fn reject_code(&self) -> [u8; 3]
        ensures { result ≡ reject_code self.now }
    {
        match self {
            HoldFault::AmountTooLarge { .. } => *b"F08",
            HoldFault::NoRoute | HoldFault::BackToSender => *b"F02",
            HoldFault::Quote(QuoteFault::NoPrice) => *b"F02",
            HoldFault::Quote(QuoteFault::OutTooLarge) => *b"F03",
            HoldFault::Quote(QuoteFault::RoundsToNothing) => *b"R01",
            HoldFault::Expired => *b"R00",
            HoldFault::TooShort => *b"R02",
            HoldFault::Full => *b"T03",
            HoldFault::TotalFull | HoldFault::BelowLeast { .. } => *b"T04",
            HoldFault::Memory => *b"T00",
        }
    }
}

impl From<AllocError> for HoldFault {
    ghost from_gives = { λ _ e. e ≡ hold_fault.Memory };

    fn from(_e: AllocError) -> HoldFault {
        HoldFault::Memory
    }
}

impl From<QuoteFault> for HoldFault {
    ghost from_gives = { λ fault e. e ≡ hold_fault.Quote fault };

    fn from(fault: QuoteFault) -> HoldFault {
        HoldFault::Quote(fault)
    }
}

/// Nothing is open under a number.
#[derive(Clone, Copy, Debug, PartialEq, Eq, Error)]
#[error("nothing is open under this number")]
pub struct NotOpen {
    /// The entry that ended what was open there, if one did.
    pub closer: Option<u32>,
}

/// A hold is open.
#[derive(Clone, Copy, Debug, PartialEq, Eq, Error)]
#[error("the hold {number} is open")]
pub struct HoldOpen {
    /// Its number: of several that of the one whose deadline comes first.
    pub number: u32,
}

/// Why a settlement from a peer, or a correction of its balance, was refused, in the order in which these
/// are looked for.
#[derive(Clone, Copy, Debug, PartialEq, Eq, Error)]
pub enum CreditFault {
    /// It is more than 18446744073709551615 units of the peer's asset.
    #[error("the settlement is too large")]
    TooLarge,
    /// The key of the peer was used for another quantity, or another kind, at this entry.
    #[error("the key names another settlement, at the entry {kept}")]
    KeyTaken { kept: u32 },
    /// The journal has no room for it.
    #[error("the journal is full")]
    Full,
    /// The peer's balance, which is this, would fall below its least, which is that.
    #[error("the balance {balance} would fall below its least {least}")]
    BelowLeast { balance: i128, least: i64 },
    /// Memory was denied.
    #[error("memory is short")]
    Memory,
}

impl From<AllocError> for CreditFault {
    ghost from_gives = { λ _ e. e ≡ credit_fault.Memory };

    fn from(_e: AllocError) -> CreditFault {
        CreditFault::Memory
    }
}

impl From<TooLarge> for CreditFault {
    ghost from_gives = { λ _ e. e ≡ credit_fault.TooLarge };

    fn from(_e: TooLarge) -> CreditFault {
        CreditFault::TooLarge
    }
}

/// Why no settlement to a peer is asked for, in the order in which these are looked for.
#[derive(Clone, Copy, Debug, PartialEq, Eq, Error)]
pub enum AskFault {
    /// As many to this peer are open as may be; this is the first of them.
    #[error("the settlement {number} of {amount} is still open")]
    StillOpen { number: u32, amount: u64 },
    /// The peer's balance, which is this, is below its threshold, or it has none.
    #[error("the balance {balance} is below its threshold")]
    NotDue { balance: i128 },
    /// The journal has no room for it and the entry that ends it.
    #[error("the journal is full")]
    Full,
    /// Memory was denied.
    #[error("memory is short")]
    Memory,
}

impl From<AllocError> for AskFault {
    ghost from_gives = { λ _ e. e ≡ ask_fault.Memory };

    fn from(_e: AllocError) -> AskFault {
        AskFault::Memory
    }
}
