//! Why a statement isn't printed.

use ilp_refusals::Refusal;
use ilp_starting::{Refused, RunFault};
use ilp_statement_text::StatementFault;
use std::alloc::AllocError;

/// Why a statement isn't printed.
#[derive(Debug, Drop)]
pub enum InquiryFault {
    /// The words of the inquiry can't be meant so. A line on standard error has said why.
    Misused,
    /// It is refused, or standard output failed.
    Run(RunFault),
}

impl From<Refused> for InquiryFault {
    ghost use Rattle.std.specs.Prelude.{◌≡◌};
    ghost use Rattle.ilp_starting.specs.declared.refused.RunFault.TheVariants as run_fault;
    ghost use Rattle.ilp_inquiry.specs.declared.fault.InquiryFault.TheVariants as inquiry_fault;

    ghost from_gives = { λ refused e. e ≡ inquiry_fault.Run (run_fault.Refused refused) };

    fn from(refused: Refused) -> InquiryFault {
        InquiryFault::Run(RunFault::Refused(refused))
    }
}

impl From<AllocError> for InquiryFault {
    ghost use Rattle.ilp_inquiry.specs.Faults.{LacksMemory};

    ghost from_gives = { λ _ e. LacksMemory e };

    fn from(denied: AllocError) -> InquiryFault {
        InquiryFault::from(Refused::from(denied))
    }
}

impl From<StatementFault> for InquiryFault {
    ghost use Rattle.ilp_inquiry.specs.Faults.{TellsOf};

    ghost from_gives = { λ fault e. TellsOf fault e };

    fn from(fault: StatementFault) -> InquiryFault {
        match fault {
            StatementFault::Memory => InquiryFault::from(Refused::from(Refusal::Memory)),
            StatementFault::Write => InquiryFault::Run(RunFault::OutputFailed),
        }
    }
}
