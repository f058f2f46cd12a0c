//! Connections that wait at a side.

/// A connection that waits.
#[derive(Clone, Copy, Debug, PartialEq, Eq)]
pub enum Waiter {
    /// It is answered, and what its client still sends is read on.
    Lingers,
    /// Its request hasn't come whole.
    Partial,
    /// The request of this sender has come whole.
    Whole { sender: u32 },
}
