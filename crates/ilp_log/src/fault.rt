//! Why entries are not on the disk.
ghost use Rattle.std.specs.Prelude.{◌≡◌};
ghost use Rattle.ilp_log.specs.declared.fault.LogFault.TheVariants as log_fault;

use ilp_line_file::DeviceFault;
use std::alloc::AllocError;
use thiserror::Error;

/// Why nothing says that entries are on the disk. They may be, or a part of them.
#[derive(Clone, Copy, Debug, PartialEq, Eq, Error)]
pub enum LogFault {
    /// Memory for their lines was denied. Nothing was written, and a later commit may succeed.
    #[error("memory is short")]
    Memory,
    /// A call of the device has failed, now or earlier, or the file is as long as can be. The log fails
    /// from then on, until it is mended.
    #[error("the log can't be written")]
    Failed,
}

/// Memory was denied.
impl From<AllocError> for LogFault {
    ghost from_gives = { λ _ e. e ≡ log_fault.Memory };

    fn from(_denied: AllocError) -> LogFault {
        LogFault::Memory
    }
}

/// A call of the device has failed.
impl From<DeviceFault> for LogFault {
    ghost from_gives = { λ _ e. e ≡ log_fault.Failed };

    fn from(_fault: DeviceFault) -> LogFault {
        LogFault::Failed
    }
}
