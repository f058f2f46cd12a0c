//! Settlements (RFC 0038): quantities, read from JSON, brought to an account's scale, printed; what
//! an engine says of one; where they are posted. And which entry is kept under which key of a peer.
//!
//! # What is proved
//!
//! - `Quantity::read`, on what `serde_json` reads, is the amount (below 10^38) and the scale of the
//!   object, or its first fault; on all else `NotJson`. Want of memory may come instead.
//! - `Correction::read` is alike, of a quantity with a direction and a reason.
//! - `credited` is the floor of the quantity at the account's scale, for all scales from 0 to 255,
//!   and refuses just where that has more than 64 bits.
//! - `print` appends the JSON of an amount at a scale. `put_quantity` writes it in place of what is
//!   there, into room for the longest.
//! - `KeyTable::find` is the entry kept under a key of a peer, or none; two keys are one just where
//!   their octets are equal. It takes no memory. `keep` keeps an entry there, and leaves every
//!   other key of every peer as it was; `new` is a table with no key. Want of memory changes
//!   nothing. What a look-up costs has no clause.
#![tactic(auto)]

mod correction;
mod credit;
mod json;
mod key_table;
mod printed;
mod quantity;
mod verdict;

pub use correction::{Correction, CorrectionFault};
pub use credit::{TooLarge, credited};
pub use key_table::KeyTable;
pub use printed::{LONGEST_QUANTITY, print, put_quantity};
pub use quantity::{Quantity, QuantityFault};
pub use verdict::EngineVerdict;
