//! What moves a balance under a key.
ghost use Rattle.std.specs.Prelude.{◌≡◌, IfOk};
ghost use Rattle.ilp_journal.specs.Credits.{raising, lowering, lowers, same_kind};

use crate::reason::Reason;
use std::alloc::{AllocError, Global};

/// What moves a balance under a key.
#[derive(Drop)]
pub enum CreditKind {
    /// The peer settled: its balance rises.
    Settled,
    /// The operator corrected the balance, which rises.
    Raised(Reason),
    /// The operator corrected the balance, which falls: an engine told a settlement of another peer, say,
    /// or one that was charged back.
    Lowered(Reason),
}

impl CreditKind {
    /// By how much an amount of this kind raises the balance.
    pub fn raising(&self, amount: u64) -> u64
        ensures { result ≡ raising self.now amount }
    {
        match self {
            CreditKind::Settled | CreditKind::Raised(_) => amount,
            CreditKind::Lowered(_) => 0,
        }
    }

    /// By how much an amount of this kind lowers the balance.
    pub fn lowering(&self, amount: u64) -> u64
        ensures { result ≡ lowering self.now amount }
    {
        match self {
            CreditKind::Lowered(_) => amount,
            CreditKind::Settled | CreditKind::Raised(_) => 0,
        }
    }

    /// Whether it lowers the balance.
    pub fn lowers(&self) -> bool
        ensures { result ≡ lowers self.now }
    {
        matches!(self, CreditKind::Lowered(_))
    }

    /// Whether the other is the same: a settlement both, or a correction in one direction, for one reason.
    pub fn is_same(&self, other: &CreditKind) -> bool
        ensures { result ≡ same_kind self.now other.now }
    {
        match (self, other) {
            (CreditKind::Settled, CreditKind::Settled) => true,
            (CreditKind::Raised(reason), CreditKind::Raised(told)) => {
                reason.as_slice() == told.as_slice()
            }
            (CreditKind::Lowered(reason), CreditKind::Lowered(told)) => {
                reason.as_slice() == told.as_slice()
            }
            _ => false,
        }
    }

    /// The same kind again. `AllocError` tells that memory for its reason is short.
    pub fn copied(&self, alloc: Global) -> Result<CreditKind, AllocError>
        ensures { IfOk result (λ kind. kind ≡ self.now) }
    {
        match self {
            CreditKind::Settled => Ok(CreditKind::Settled),
            CreditKind::Raised(reason) => Ok(CreditKind::Raised(reason.copied(alloc)?)),
            CreditKind::Lowered(reason) => Ok(CreditKind::Lowered(reason.copied(alloc)?)),
        }
    }
}
