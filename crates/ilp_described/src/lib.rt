//! Configurations, journals and packets, each told in a line.
//!
//! # What is proved
//!
//! - `describe_packet` gives the line of a packet in hexadecimal (`specs/PacketText.antt`), or 9
//!   `BadHex`, or the first fault of the octets; 44 `Memory` may come instead.
//! - `reject_words` gives what code and message of a Reject in hexadecimal say as text, and nothing
//!   of all else.
//! - `check`, on octets that TOML reads, is the line of their configuration, or its first fault;
//!   `NotToml` on others. `Memory` may come instead. `check_book` is that line of a book's
//!   configuration, with the number of its entries.
//! - `decode` gives the octets of a text just where it is hexadecimal, or want of memory, and
//!   `is_printable` tells whether all octets are spaces or visible ASCII (`specs/Printable.antt`).
#![tactic(auto)]

mod checking;
mod describe;
mod text;

pub use checking::{check, check_book, line_of};
pub use describe::{describe_packet, reject_words};
pub use text::{decode, is_printable};
