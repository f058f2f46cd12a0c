//! The peers of the configurations that scenes are played over, and the moments of their packets.

/// 2025-01-01T00:00:00Z, in milliseconds since 1970.
pub(crate) const START: i64 = 1_735_689_600_000;

/// When the hold of a Prepare ends that expires 30 seconds after the start.
pub(crate) const DEADLINE: i64 = START + 29_000;

/// The first peer.
pub(crate) const ALICE: u32 = 0;

/// The second peer.
pub(crate) const BOB: u32 = 1;
