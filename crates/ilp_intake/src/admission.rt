//! Who decides which connections are given on.

use mio::net::TcpStream;

/// Decides which connections an intake gives on, and when.
///
/// It is asked of all connections that are ready at once. So those of one kind can wait, for a worker
/// or for their turn, while others behind them are given on.
pub trait Admission {
    /// What it knows of a connection by its octets.
    type Kind: Copy;

    /// The kind of a connection whose request has come whole or is refused as it stands, or whose
    /// client sends nothing more.
    fn kind_of(&mut self, octets: &[u8]) -> Self::Kind;

    /// The place of the connection that is given on next, of those that are ready, which stand in the
    /// order in which they came; none where none may be given on now. It counts as given on then.
    fn admit(&mut self, ready: &[Self::Kind]) -> Option<usize>;

    /// Whether nothing is given on for now, also of what is ready.
    fn pauses(&self) -> bool;

    /// The number of whoever sent the request of a connection of this kind. Of many that wait, those of
    /// one sender are closed first.
    fn sender_of(&self, kind: Self::Kind) -> u32;

    /// A connection of this kind is closed, since too many wait: its client is told where that can be
    /// written without waiting.
    fn turn_away(&mut self, kind: Self::Kind, stream: &TcpStream);

    /// A connection of this kind does not count as given on after all: it was lost.
    fn give_back(&mut self, kind: Self::Kind);

    /// No connection is accepted any more: the intake was closed, and its listener is gone.
    fn note_closed(&mut self);
}
