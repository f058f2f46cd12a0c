//! How far a connection is.

/// How far a connection is.
#[derive(Clone, Copy)]
pub(crate) enum Stage<K> {
    /// Its request has not come whole.
    Waiting,
    /// It is to be given on, and of this kind.
    Ready { kind: K },
    /// It is to be closed without an answer: a read failed, or memory for its octets was denied.
    Lost,
}
