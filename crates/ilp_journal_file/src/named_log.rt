//! Which file has the name of a journal's log.

use crate::placing::FileIdentity;
use std::alloc::{AllocError, Global};
use std::sync::Arc;
use std::sync::atomic::{AtomicBool, AtomicU64, Ordering};

/// The file that was given the name of a journal's log last. Threads share it by reference. While one is given that
/// name, who looks may see half of it.
#[derive(Drop)]
pub(crate) struct NamedLog {
    device: AtomicU64,
    inode: AtomicU64,
    // Whether there is one.
    is_there: AtomicBool,
}

impl NamedLog {
    /// None was yet.
    pub(crate) fn shared(alloc: Global) -> Result<Arc<NamedLog, Global>, AllocError> {
        let none = NamedLog {
            device: AtomicU64::new(0),
            inode: AtomicU64::new(0),
            is_there: AtomicBool::new(false),
        };
        Ok(Arc::new(alloc, none)?)
    }

    /// This one was.
    pub(crate) fn set(&self, identity: FileIdentity) {
        self.device.store(identity.device, Ordering::SeqCst);
        self.inode.store(identity.inode, Ordering::SeqCst);
        self.is_there.store(true, Ordering::SeqCst);
    }

    /// Whether there is one.
    pub(crate) fn is_there(&self) -> bool {
        self.is_there.load(Ordering::SeqCst)
    }

    /// Whether it is this one, if there is one.
    pub(crate) fn is(&self, identity: FileIdentity) -> bool {
        let named = FileIdentity {
            device: self.device.load(Ordering::SeqCst),
            inode: self.inode.load(Ordering::SeqCst),
        };
        !self.is_there() || named == identity
    }
}
