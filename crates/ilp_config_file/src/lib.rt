//! Where the octets of a configuration come from: any reader, or the configuration of a connector that
//! is given none.
//!
//! # What is proved
//!
//! - `read_config`, where Ok, answers all octets of its reader, at most 1,048,576. `ConfigUnread`
//!   comes just where a read failed, else only where there are more, which never give Ok.
#![tactic(auto)]

mod built_in;
mod config_file;

pub use built_in::BUILT_IN;
pub use config_file::{CONFIG_LIMIT, read_config};
