//! What an engine says of a settlement.

/// What an engine says of a settlement that it was asked for (RFC 0038): it takes it on, or never
/// will under this key. An answer that says neither is no verdict.
#[derive(Clone, Copy, Debug, PartialEq, Eq)]
pub enum EngineVerdict {
    /// The engine takes the settlement on.
    Accepted,
    /// The engine never will: the peer gets the amount back.
    Refused,
}
