//! The configuration that is examined.

use ilp_accounts::Config;
use std::alloc::Global;
use toml::Table;

/// What warnings are told of: a configuration, the table that it was read from, and the peers to which its
/// routes lead, route by route.
#[derive(Clone, Copy)]
pub(crate) struct Examined<'a> {
    pub(crate) alloc: Global,
    pub(crate) table: &'a Table,
    pub(crate) config: &'a Config,
    pub(crate) targets: &'a [u32],
}
