//! Why a journal's file can't be used.
ghost use Rattle.std.specs.Prelude.{◌≡◌};
ghost use Rattle.ilp_journal_file.specs.declared.fault.FileFault.TheVariants as file_fault;

use std::alloc::AllocError;
use thiserror::Error;

/// Why a journal's file can't be used. A line on standard error has said more, except where memory was
/// denied.
#[derive(Clone, Copy, Debug, PartialEq, Eq, Error)]
pub enum FileFault {
    /// It can't be read or is too long, what stands at its path or beside it is no file that it can be, another
    /// connector has it, or one has stopped without saving it.
    #[error("the journal can't be read, is in use, or was not saved")]
    Unread,
    /// It can't be written, or what stands beside it.
    #[error("the journal can't be written")]
    Unwritten,
    /// Memory was denied.
    #[error("memory is short")]
    Memory,
}

/// Memory was denied.
impl From<AllocError> for FileFault {
    ghost from_gives = { λ _ e. e ≡ file_fault.Memory };

    fn from(_denied: AllocError) -> FileFault {
        FileFault::Memory
    }
}
