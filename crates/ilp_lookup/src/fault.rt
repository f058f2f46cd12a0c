//! Why an index takes no more.
ghost use Rattle.std.specs.Prelude.{◌≡◌};
ghost use Rattle.ilp_lookup.specs.declared.fault.LookupFault.TheVariants.{Memory};

use std::alloc::{AllocError, AllocFailed};
use std::error::Error;
use std::fmt;

/// Why a text or a route was not added. The index is as before.
#[derive(Clone, Copy, Debug, PartialEq, Eq)]
pub enum LookupFault {
    /// The text, or a route of that prefix, is there already.
    Double,
    /// Memory was denied.
    Memory,
}

impl fmt::Display for LookupFault {
    fn fmt<W: fmt::Write>(&self, f: &mut fmt::Formatter<W>) -> fmt::Result {
        match self {
            LookupFault::Double => write!(f, "it is there already"),
            LookupFault::Memory => write!(f, "memory is short"),
        }
    }
}

impl Error for LookupFault {}

impl From<AllocError> for LookupFault {
    ghost from_gives = { λ _ fault. fault ≡ Memory };

    fn from(_error: AllocError) -> LookupFault {
        LookupFault::Memory
    }
}

impl<T: Drop> From<AllocFailed<T>> for LookupFault {
    ghost from_gives = { λ _ fault. fault ≡ Memory };

    fn from(_error: AllocFailed<T>) -> LookupFault {
        LookupFault::Memory
    }
}
