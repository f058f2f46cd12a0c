//! A worker together with the packets that it began and that wait, each under a key.
//!
//! # What is proved
//!
//! - All that waits is the worker's, and nothing else of the worker's waits: so what waits can be
//!   finished, and the worker ends just where nothing waits.
//! - `Flight::begin` begins what a peer sent as `Worker::begin` does. Where there is no memory for one
//!   more that waits, nothing is begun.
//! - `Flight::finish` and `Flight::book` end the packet under the key with what came, and no other.
//!   Where nothing waits under it all is as it was.
#![tactic(auto)]

mod flight;

pub use flight::{Flight, NoStart, Started};
