//! Values from outside for the calls of the lower crates and of `test_allocator`: a standard's vectors,
//! what a Python script worked out, and what was worked out by hand.
//!
//! `read_to_limit` and `put_all` are among them, where reads and writes fail.
#![tactic(auto)]

#[cfg(test)]
mod tests;
