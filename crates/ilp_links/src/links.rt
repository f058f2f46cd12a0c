//! What the actors of a desk are given.

use ilp_link_traits::Clock;
use ilp_notices::Notices;

/// Makes what the actors of a desk are given: one of each for each actor, which may take it into a
/// thread of its own.
pub trait Links {
    /// An actor's clock.
    type Clock: Clock + Drop + Send;

    /// A clock.
    fn clock(&self) -> Self::Clock;

    /// What is told on standard error of peers and engines, and of the connector beside them.
    fn notices(&self) -> &Notices;
}

/// The links of a connector that calls peers and engines over TCP, and tells its notices what comes of
/// that.
#[derive(Drop)]
pub struct TcpLinks<C: Clock + Copy> {
    clock: C,
    notices: Notices,
}

impl<C: Clock + Copy> TcpLinks<C> {
    /// Links with this clock, whose calls these notices are told of.
    pub fn new(clock: C, notices: Notices) -> TcpLinks<C> {
        TcpLinks { clock, notices }
    }
}

impl<C: Clock + Copy + Drop + Send> Links for TcpLinks<C> {
    type Clock = C;

    fn clock(&self) -> C {
        self.clock
    }

    fn notices(&self) -> &Notices {
        &self.notices
    }
}
