//! Exact look-ups in a connector's configuration: the place of a text among distinct texts, and the
//! route of an address (RFC 0015) by its longest prefix.
//!
//! # What is proved
//!
//! - `TextIndex::find` is the one place of a text among distinct texts, or none. `RouteIndex::find`
//!   is the peer of the longest prefix that matches (`specs/Route.antt`), or none; it is none for
//!   octets that begin with `peer.`.
//! - `insert` adds one as the last, and says `Double` just where it is there. `copy` gives an equal
//!   index.
//! - `laws`: octets have one route or none, which `routed_peer` names; a text has one place or
//!   none.
#![tactic(auto)]

mod fault;
mod laws;
mod routes;
mod texts;

pub use fault::LookupFault;
pub use laws::{one_match_of_a_length, one_place, one_route, routed_peer_has_a_route};
pub use routes::RouteIndex;
pub use texts::TextIndex;
