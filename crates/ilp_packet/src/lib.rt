//! Packets of the Interledger Protocol version 4 (RFC 0027), read from octets and written: Prepare,
//! Fulfill and Reject.
//!
//! # What is proved
//!
//! - `Packet::read` is Ok just where the octets stand for a packet (RFC 0027), with its fields, and
//!   else answers the first fault from left to right. It takes no memory.
//! - `write_prepare`, `write_fulfill` and `write_reject` append the octets that stand for a packet
//!   whose fields are within their limits.
//! - `is_address` is the address grammar (RFC 0015), `is_scheme` the list of its schemes.
//! - `laws`: a packet has one spelling, which is not the beginning of another's; octets stand for
//!   at most one packet; what was written is read back, and whatever octets follow, it is the only
//!   packet there; the tests for addresses and expiries agree with their grammars.
#![tactic(auto)]

mod address;
mod contents;
mod fault;
mod fields;
mod laws;
mod packet;
mod writing;

pub use address::{is_address, is_scheme};
pub use fault::PacketFault;
pub use laws::{
    addresses_are_tested, expiries_are_tested, octets_spell_one_packet, packets_have_one_spelling,
    readings_are_spellings, written_packets_are_read,
};
pub use packet::{Fulfill, Packet, Prepare, Reject};
pub use writing::{write_fulfill, write_prepare, write_reject};
