//! Why a statement is not written whole.

use ilp_io::WriteFault;
use std::alloc::AllocError;
use thiserror::Error;

/// Why a statement is not written whole.
#[derive(Clone, Copy, Debug, PartialEq, Eq, Error)]
pub enum StatementFault {
    /// Memory for its lines was denied.
    #[error("memory is short")]
    Memory,
    /// A write failed or took no octet.
    #[error("a write failed or took no octet")]
    Write,
}

impl From<AllocError> for StatementFault {
    fn from(_denied: AllocError) -> StatementFault {
        StatementFault::Memory
    }
}

impl From<WriteFault> for StatementFault {
    fn from(_fault: WriteFault) -> StatementFault {
        StatementFault::Write
    }
}
