//! What a turn of the settler comes to.

use ilp_book::AskFault;
use ilp_link_traits::EngineReply;

/// What became of a settlement to a peer (RFC 0038).
#[derive(Clone, Copy, Debug, PartialEq, Eq)]
pub enum Turn {
    /// The peer's engine was asked whether it has an account of the peer, and said that it has none.
    NoAccount,
    /// No settlement is due, or the book can't have another; this is why. None is open.
    Idle(AskFault),
    /// Nothing new was to be asked for, and no settlement to the peer is open.
    Withheld,
    /// The settlement of this number is open, and no engine was asked for it, since nothing says that its
    /// entry is kept. Later turns try it again. The amount is in units of the peer's asset.
    Unwritten {
        number: u32,
        amount: u64,
    },
    /// The settlement of this number is not closed by this turn: the engine did not say what became
    /// of it, or the book had it open no more when it did. While it is open, later turns try it again
    /// under the same key. The amount is in units of the peer's asset.
    Kept {
        number: u32,
        amount: u64,
        said: EngineReply,
    },
    /// The settlement of this number is closed by what the engine said: it accepted it, or refused
    /// it, and then the peer has its amount back. That is in units of the peer's asset.
    Closed {
        number: u32,
        amount: u64,
        said: EngineReply,
    },
}
