//! Why one text does not follow another.
ghost use Rattle.std.specs.Prelude.{◌≡◌};
ghost use Rattle.ilp_follows.specs.declared.fault.FollowFault.TheVariants as follow_fault;
ghost use Rattle.ilp_follows.specs.Follows.{reading_fault};

use ilp_journal_text::TextFault;
use ilp_next_period::ForwardFault;
use std::alloc::AllocError;
use thiserror::Error;

/// Why the text of a period does not follow that of the one before. Peers are named by their places among those of the
/// one before.
#[derive(Clone, Copy, Debug, PartialEq, Eq, Error)]
pub enum FollowFault {
    /// This line of the text before, counted from 1, is none of a journal's with these peers.
    #[error("the line {line} is no line of a journal")]
    BadLine { line: u64 },
    /// This entry of it answers no hold that stands there, or closes no settlement.
    #[error("the entry {entry} names nothing before it")]
    NamesNothing { entry: u32 },
    /// Its books can't be closed for a period of the next peers.
    #[error("{0}")]
    Closing(ForwardFault),
    /// The next text is of this period, and not of the next one, or of none.
    #[error("the period is another one")]
    OtherPeriod { period: Option<u32> },
    /// This entry of the next text is another one than what was brought forward.
    #[error("the entry {entry} is another one")]
    Differs { entry: u32 },
    /// Memory was denied, or there are more entries than numbers.
    #[error("memory is short")]
    Memory,
}

impl From<AllocError> for FollowFault {
    ghost from_gives = { λ _ e. e ≡ follow_fault.Memory };

    fn from(_denied: AllocError) -> FollowFault {
        FollowFault::Memory
    }
}

impl From<TextFault> for FollowFault {
    ghost from_gives = { λ fault e. e ≡ reading_fault fault };

    fn from(fault: TextFault) -> FollowFault {
        match fault {
            TextFault::BadLine { line } => FollowFault::BadLine { line },
            TextFault::Memory => FollowFault::Memory,
        }
    }
}

impl From<ForwardFault> for FollowFault {
    ghost from_gives = { λ fault e. e ≡ follow_fault.Closing fault };

    fn from(fault: ForwardFault) -> FollowFault {
        FollowFault::Closing(fault)
    }
}
