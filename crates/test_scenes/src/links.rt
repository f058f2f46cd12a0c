//! Clocks and links in memory, which print what they are handed.

pub(crate) mod bob;
pub(crate) mod clocks;
pub(crate) mod engine;
pub(crate) mod keeper;
pub(crate) mod noting;
