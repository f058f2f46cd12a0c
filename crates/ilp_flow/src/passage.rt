//! Whose a packet or a message is, and to whom it goes.

/// A packet or a message on its way. Senders and receivers are peers and their engines, each with a
/// number of its own.
#[derive(Clone, Copy, Debug, PartialEq, Eq)]
pub struct Passage {
    /// Who sent it.
    pub sender: u32,
    /// Who is to be handed it.
    pub receiver: u32,
    /// How many octets it has, all of which are kept while it is in flight.
    pub octets: u32,
}
