//! Why a text is not carried over, or not recovered with what was logged behind it.
ghost use Rattle.std.specs.Prelude.{◌≡◌};
ghost use Rattle.ilp_rules.specs.declared.fault.RecoverFault.TheVariants as recover_fault;
ghost use Rattle.ilp_rules.specs.declared.fault.Stop.TheVariants as stop;
ghost use Rattle.ilp_rules.specs.Recover.{of_saved, of_logged, of_stop};

use crate::rule::BrokenRule;
use ilp_journal_text::TextFault;
use std::alloc::AllocError;
use thiserror::Error;

/// Why a text is not carried over, in the order in which these are looked for; want of memory may come
/// in the place of each.
#[derive(Clone, Copy, Debug, PartialEq, Eq, Error)]
pub enum CarryFault {
    /// This line, counted from 1, is the first that is no line of a journal of the configuration, or
    /// it is missing.
    #[error("the line {line} is no line of a journal")]
    BadJournalText { line: u64 },
    /// Before this entry the journal is lawful by the configuration, and with it not: it breaks the
    /// rule.
    #[error("the entry {entry} is not lawful: {rule}")]
    Unlawful { entry: u32, rule: BrokenRule },
    /// Memory was denied.
    #[error("memory is short")]
    Memory,
}

/// Why a text and the lines that were logged behind it are not recovered, in the order in which these
/// are looked for; want of memory may come in the place of each.
#[derive(Clone, Copy, Debug, PartialEq, Eq, Error)]
pub enum RecoverFault {
    /// This line of the text, counted from 1, is the first that is no line of a journal of the
    /// configuration, or it is missing.
    #[error("the line {line} is no line of a journal")]
    BadJournalText { line: u64 },
    /// This line of what was logged, counted from 1, is the first that is no line of an entry, or has no
    /// end.
    #[error("the line {line} of the log is no line of an entry")]
    BadLogLine { line: u64 },
    /// Before this entry, of those of the text and behind them those that were logged, the journal is
    /// lawful by the configuration, and with it not: it breaks the rule.
    #[error("the entry {entry} is not lawful: {rule}")]
    Unlawful { entry: u32, rule: BrokenRule },
    /// Memory was denied.
    #[error("memory is short")]
    Memory,
}

impl RecoverFault {
    /// A fault of the saved text.
    pub(crate) fn of_saved(fault: TextFault) -> RecoverFault
        ensures { result ≡ of_saved fault }
    {
        match fault {
            TextFault::BadLine { line } => RecoverFault::BadJournalText { line },
            TextFault::Memory => RecoverFault::Memory,
        }
    }

    /// A fault of the logged lines.
    pub(crate) fn of_logged(fault: TextFault) -> RecoverFault
        ensures { result ≡ of_logged fault }
    {
        match fault {
            TextFault::BadLine { line } => RecoverFault::BadLogLine { line },
            TextFault::Memory => RecoverFault::Memory,
        }
    }
}

impl From<AllocError> for RecoverFault {
    ghost from_gives = { λ _ e. e ≡ recover_fault.Memory };

    fn from(_e: AllocError) -> RecoverFault {
        RecoverFault::Memory
    }
}

/// Why not all entries that came were taken up.
#[derive(Clone, Copy, Debug, PartialEq, Eq)]
pub(crate) enum Stop {
    /// Before this entry the journal is lawful, and with it not: it breaks the rule.
    Unlawful { entry: u32, rule: BrokenRule },
    /// Memory was denied.
    Memory,
}

impl From<AllocError> for Stop {
    ghost from_gives = { λ _ e. e ≡ stop.Memory };

    fn from(_e: AllocError) -> Stop {
        Stop::Memory
    }
}

impl From<Stop> for RecoverFault {
    ghost from_gives = { λ stop e. e ≡ of_stop stop };

    fn from(stop: Stop) -> RecoverFault {
        match stop {
            Stop::Unlawful { entry, rule } => RecoverFault::Unlawful { entry, rule },
            Stop::Memory => RecoverFault::Memory,
        }
    }
}
