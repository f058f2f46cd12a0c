//! What the actors of a desk are given: a clock, and ways to peers and to settlement engines. These
//! are their traits, and what comes back over them.
//!
//! # What is proved
//!
//! - `Clock`, `Uplink` and `EngineLink` each have a member, `told`: the list of what such a link
//!   was handed, with what came back, or nothing. Each call adds just itself to that list. Over a
//!   link that tells nothing, the clauses on what it was handed say nothing.
//! - Links require an empty room for the reply.
#![tactic(auto)]

mod links;

pub use links::{Clock, EngineLink, EngineReply, LinkFault, ReplyKind, Uplink};
