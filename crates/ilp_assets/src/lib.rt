//! Assets of the Interledger, their prices, and what an amount becomes on its way from one to
//! another: exact to the unit, with each rounding in the connector's favour.
//!
//! # What is proved
//!
//! - `AssetTable::new` is Ok just where assets and prices have no fault, and holds just these; else
//!   it answers the first fault in the stated order, or want of memory.
//! - `AssetTable` keeps that it has none. `copy` gives an equal one.
//! - `quote` is the value of the fractions: the fee rounded up, what goes out rounded down, with
//!   `NoPrice`, `OutTooLarge` and `RoundsToNothing` in this order. It takes no memory. `Asset::is`:
//!   code and scale are equal.
#![tactic(auto)]

mod asset;
mod fault;
mod given;
mod laws;
mod listed;
mod quote;
mod table;

pub use asset::{Asset, Price};
pub use fault::AssetFault;
pub use laws::rows;
pub use quote::{Quote, QuoteFault};
pub use table::AssetTable;
