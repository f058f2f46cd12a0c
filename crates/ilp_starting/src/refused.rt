//! Why a connector does not start, or does not end as it is to.
ghost use Rattle.std.specs.Prelude.{◌≡◌};
ghost use Rattle.ilp_refusals.specs.Refusals.{config_refusal};

use ilp_accounts::{ConfigFault, explain};
use ilp_journal_file::FileFault;
use ilp_refusals::Refusal;
use std::alloc::{AllocError, Global};
use thiserror::Error;

/// A refusal, and a line that says why it came, where there is one and there was memory for it.
#[derive(Debug, Drop, Error)]
#[error("{refusal}")]
pub struct Refused {
    pub refusal: Refusal,
    pub why: Option<String>,
}

impl Refused {
    /// A refusal with the line that says why.
    pub fn because(refusal: Refusal, why: Result<String, AllocError>) -> Refused
        ensures { result.refusal ≡ refusal }
    {
        Refused {
            refusal,
            why: why.ok(),
        }
    }

    /// The refusal of a configuration by this fault of its octets, with where the fault is and what was
    /// expected there.
    pub fn of_config(alloc: Global, octets: &[u8], fault: ConfigFault) -> Refused
        ensures { result.refusal ≡ config_refusal fault }
    {
        Refused::because(Refusal::from(fault), explain(alloc, octets, fault))
    }
}

/// A refusal of which nothing more is said.
impl From<Refusal> for Refused {
    ghost use Rattle.std.specs.Prelude.{◌≡◌};

    ghost from_gives = { λ refusal result. result.refusal ≡ refusal };

    fn from(refusal: Refusal) -> Refused {
        Refused { refusal, why: None }
    }
}

/// Memory was denied.
impl From<AllocError> for Refused {
    ghost use Rattle.std.specs.Prelude.{◌≡◌};
    ghost use Rattle.ilp_refusals.specs.declared.refusal.Refusal.TheVariants as refusals;

    ghost from_gives = { λ _ result. result.refusal ≡ refusals.Memory };

    fn from(_denied: AllocError) -> Refused {
        Refused::from(Refusal::Memory)
    }
}

/// A journal's file that can't be used. A line on standard error has said why.
impl From<FileFault> for Refused {
    fn from(fault: FileFault) -> Refused {
        Refused::from(match fault {
            FileFault::Unread => Refusal::JournalUnread,
            FileFault::Unwritten => Refusal::WriteFault,
            FileFault::Memory => Refusal::Memory,
        })
    }
}

/// Why a connector did not run, or did not end with its report printed and its journal saved.
#[derive(Debug, Drop, Error)]
pub enum RunFault {
    /// It is refused.
    #[error("{0}")]
    Refused(Refused),
    /// Standard output could not be written. The report was told on standard error, as far as there is
    /// one.
    #[error("standard output could not be written")]
    OutputFailed,
}

/// What refused it.
impl From<Refused> for RunFault {
    fn from(refused: Refused) -> RunFault {
        RunFault::Refused(refused)
    }
}

/// Memory was denied.
impl From<AllocError> for RunFault {
    fn from(denied: AllocError) -> RunFault {
        RunFault::Refused(Refused::from(denied))
    }
}

/// A journal's file that can't be used. A line on standard error has said why.
impl From<FileFault> for RunFault {
    fn from(fault: FileFault) -> RunFault {
        RunFault::Refused(Refused::from(fault))
    }
}
