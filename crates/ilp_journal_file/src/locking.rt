//! Files that are locked.

use std::fs::{File, TryLockError};

/// A file that can be locked, as those of the system can, and those of a test.
pub trait LockFile {
    /// Locks it against all others. It answers at once.
    fn try_lock_alone(&self) -> Result<(), TryLockError>;

    /// Locks it beside others that do the same. It answers at once.
    fn try_lock_beside(&self) -> Result<(), TryLockError>;
}

impl LockFile for File {
    fn try_lock_alone(&self) -> Result<(), TryLockError> {
        self.try_lock()
    }

    fn try_lock_beside(&self) -> Result<(), TryLockError> {
        self.try_lock_shared()
    }
}
