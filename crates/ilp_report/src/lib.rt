//! The balance report: what peers are owed, and what the books of each asset come to, in lines of
//! fixed columns.
//!
//! A `Snapshot` is taken of a book, which takes memory. Its lines are written later, without the
//! book and without memory.
//!
//! # What is proved
//!
//! - `Snapshot::of` is what the definitions tell of the book (`specs/Report.antt`): sums over the
//!   whole journal, and the number of its period.
//! - `print` writes out its lines, so both together the report of the book (`report_text`). It has
//!   no allocator, and no error for want of memory.
//! - `Snapshot` keeps that its lines balance, by the trial balance (docs/PROTOCOL.md, "balances and
//!   the journal"). `assets` tells it.
//! - `PeerAccount` keeps that its balance is not below the peer's least. It and `AssetBooks` keep
//!   that names and numbers fit their columns.
//! - `laws`: such a line has 60 octets before its LF.
#![tactic(auto)]

mod accounts;
pub mod laws;
mod line;
mod printing;
mod snapshot;

pub use accounts::{AssetBooks, PeerAccount};
pub use printing::print;
pub use snapshot::Snapshot;
