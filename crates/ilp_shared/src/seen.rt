//! What threads have seen that an operator is to know.

use std::sync::atomic::{AtomicBool, Ordering};

/// What threads have seen that the watcher is to tell. They share it by reference.
#[derive(Drop)]
pub struct Seen {
    full: AtomicBool,
}

impl Seen {
    /// Nothing.
    pub fn new() -> Seen {
        Seen {
            full: AtomicBool::new(false),
        }
    }

    /// The journal had no room for an entry.
    pub fn note_full(&self) {
        self.full.store(true, Ordering::SeqCst);
    }

    /// Whether the journal had no room for an entry.
    pub fn was_full(&self) -> bool {
        self.full.load(Ordering::SeqCst)
    }
}
