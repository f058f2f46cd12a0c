//! What an intake hands to the loops.

use ilp_intake::ReadyConnection;
use ilp_server::{Side, Work};

/// How many connections that wait for nobody outside are handed over at once, taken up or not.
pub const LOCAL_AT_ONCE: usize = 256;

/// A connection that is to be served, and the side at which it came.
#[derive(Drop)]
pub struct Job {
    pub side: Side,
    pub connection: ReadyConnection<Work>,
}
