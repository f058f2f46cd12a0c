//! Growths that are denied, crate by crate; then readers that fail or give a few octets at a time, and
//! writers that fail, stop or take a few.

mod assets;
mod configurations;
mod journals;
mod lookups;
mod octet_strings;
mod quantities;
mod reading;
mod reporting;
mod writing;
mod writing_packets;

// More growths than any of these calls makes.
const GROWTHS: u64 = 1_000;
