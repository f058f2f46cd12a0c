//! Why the books of a period can't be closed for a next one.
ghost use Rattle.std.specs.Prelude.{◌≡◌};
ghost use Rattle.ilp_next_period.specs.declared.forward_fault.ForwardFault.TheVariants as forward_fault;

use std::alloc::AllocError;
use thiserror::Error;

/// Why a book is not brought forward by a configuration. Peers are named by their places in the book's
/// own configuration.
#[derive(Clone, Copy, Debug, PartialEq, Eq, Error)]
pub enum ForwardFault {
    /// The configuration has another run, so keys of settlements could come again.
    #[error("the configuration has another run")]
    OtherRun,
    /// The period has the greatest number of all.
    #[error("no period has a greater number")]
    LastPeriod,
    /// A hold is open, and this is the one of least deadline.
    #[error("the hold {hold} is open")]
    HoldOpen { hold: u32 },
    /// A balance is 2^63 or more, and can't be brought forward.
    #[error("the balance {balance} is too large to be brought forward")]
    BalanceTooLarge { peer: u32, balance: i128 },
    /// The configuration lacks a peer that has a balance or an open settlement.
    #[error("the peer is left out, has the balance {balance}, and is not settled")]
    PeerRemoved { peer: u32, balance: i128 },
    /// A peer has another asset, but also a balance, an open settlement or a kept key in its own.
    #[error("the asset differs of a peer that has the balance {balance}, an open settlement or a key")]
    OtherAsset { peer: u32, balance: i128 },
    /// A balance lies below the least that the configuration allows its peer.
    #[error("the balance {balance} lies below the least of the configuration")]
    BelowLeast { peer: u32, balance: i128 },
    /// The configuration's journal has no room for what is brought forward.
    #[error("the configured journal has no room for what is brought forward")]
    Full,
    /// Memory was denied.
    #[error("memory is short")]
    Memory,
}

impl From<AllocError> for ForwardFault {
    ghost from_gives = { λ _ e. e ≡ forward_fault.Memory };

    fn from(_e: AllocError) -> ForwardFault {
        ForwardFault::Memory
    }
}
