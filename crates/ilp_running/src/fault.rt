//! Why a connector printed no report.
ghost use Rattle.std.specs.Prelude.{◌≡◌};
ghost use Rattle.ilp_running.specs.Serving.{fault_refusal};

use ilp_desk::WhyNotGathered;
use ilp_refusals::Refusal;
use ilp_threads::Unprinted;
use thiserror::Error;

/// Why a connector printed no report, or not all of it.
#[derive(Clone, Copy, Debug, PartialEq, Eq, Error)]
pub enum ServeFault {
    /// Nothing was printed.
    #[error("{0}")]
    Unprinted(Unprinted),
    /// Nothing was printed, since what the actors handed in is not what the book has.
    #[error("{0}")]
    NotGathered(WhyNotGathered),
    /// Nothing was printed, since no next period could be begun.
    #[error("{0}")]
    NextRefused(Refusal),
    /// A write of the report failed or took no octet. A part of it was printed.
    #[error("a write failed or took no octet")]
    Write,
}

impl ServeFault {
    /// The refusal that it is printed as.
    pub fn refusal(self) -> Refusal
        ensures { result ≡ fault_refusal self }
    {
        match self {
            ServeFault::Write => Refusal::WriteFault,
            ServeFault::NextRefused(refusal) => refusal,
            ServeFault::Unprinted(Unprinted::Memory) => Refusal::Memory,
            ServeFault::NotGathered(WhyNotGathered::Missing { actor }) => {
                Refusal::MissingEnd { actor }
            }
            ServeFault::NotGathered(WhyNotGathered::Double { actor }) => {
                Refusal::DoubleEnd { actor }
            }
            ServeFault::NotGathered(WhyNotGathered::Disagrees { actor }) => {
                Refusal::Disagrees { actor }
            }
            ServeFault::Unprinted(Unprinted::Listen(_)) => Refusal::ListenFault,
            ServeFault::Unprinted(Unprinted::Spawn) => Refusal::SpawnFault,
        }
    }
}
