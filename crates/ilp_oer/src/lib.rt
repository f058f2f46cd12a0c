//! Octets in memory, and the octet strings of OER (RFC 0030): a length, and then that many octets.
//!
//! # What is proved
//!
//! - `Octets::append` appends. `reserve` makes room, and is refused by the same rule. `clear` keeps
//!   the room.
//! - `read_octets` answers content and rest just where the input begins with the spelling of an
//!   octet string (RFC 0030), else the first fault in the stated order.
//! - `write_octets` appends the spelling; `octets_len` is its length. `append_reserved`,
//!   `put_octets` and `put_prefix` add octets, spelling or prefix where room is known to be.
//! - `laws`: an input begins with at most one octet string, and has no fault just where it begins
//!   with one.
#![tactic(auto)]

mod fault;
mod laws;
mod octets;
mod strings;

pub use fault::OerFault;
pub use laws::{faulty_exactly_where_unspelled, one_spelling};
pub use octets::Octets;
pub use strings::{MAX_CONTENT, octets_len, put_octets, put_prefix, read_octets, write_octets};
