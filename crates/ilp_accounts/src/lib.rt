//! The configuration of a connector, read from TOML.
//!
//! # What is proved
//!
//! - `Config::read`, on octets that TOML reads as a table, is Ok just where the table has no fault
//!   (`specs/Faults.antt`), with the configuration that it stands for (`specs/Configuration.antt`);
//!   else it answers the first fault. On other octets it is `NotToml`. Want of memory may come
//!   instead.
//! - `Config` keeps that it is valid (`specs/Valid.antt`): forms and ranges, levels in order, known
//!   assets and peers, distinct names, tokens and prefixes, and how many there are at most.
//!   `peers`, `journal`, `assets` and `route` tell it.
//! - `peer_by_token` and `peer_by_name` are the one peer that has it, or none; `route` is the peer
//!   of the longest prefix.
//! - `copy` gives an equal configuration. `explain` has no clause.
#![tactic(auto)]

mod arrays;
mod assets;
mod config;
mod expected;
mod explanation;
mod peer;
mod peers;
mod place;
mod route;
mod settings;

pub use config::Config;
pub use explanation::explain;
pub use ilp_fields::{ConfigFault, Field};
pub use peer::Levels;
pub use settings::LogSync;
