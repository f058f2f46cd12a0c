//! Why the threads of a connector hand in nothing.

use ilp_server::Side;
use std::alloc::AllocError;
use std::thread::SpawnError;
use thiserror::Error;

/// Why nothing was printed, where no actor's end was looked at.
#[derive(Clone, Copy, Debug, PartialEq, Eq, Error)]
pub enum Unprinted {
    /// Memory was denied.
    #[error("memory is short")]
    Memory,
    /// The address of this side can't be listened at.
    #[error("the address of a side can't be listened at")]
    Listen(Side),
    /// A thread can't be started.
    #[error("a thread can't be started")]
    Spawn,
}

/// Memory was denied.
impl From<AllocError> for Unprinted {
    fn from(_denied: AllocError) -> Unprinted {
        Unprinted::Memory
    }
}

/// A thread could not be started.
impl<F: Drop> From<SpawnError<F>> for Unprinted {
    fn from(_refused: SpawnError<F>) -> Unprinted {
        Unprinted::Spawn
    }
}
