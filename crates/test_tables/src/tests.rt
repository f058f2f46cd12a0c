//! A file for each table.

mod holds;
mod keys;

// More growths than any of these calls makes.
const GROWTHS: u64 = 1_000;
