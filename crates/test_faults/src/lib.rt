//! Tests of want of memory and of faults of readers and writers, across crates.
//!
//! Each growth of each call below the book is denied in turn: a call that is denied memory answers so,
//! and leaves what it worked on as it was. Reads and writes fail, stop or come in pieces.
//!
//! Each call succeeds with ample memory. Each growth that it asks of `test_allocator` (whose
//! counting is proved), denied in turn, is answered as want of memory, with everything left as it
//! was: `octet_strings` for `Octets::reserve` and `append` and `write_octets`; `writing_packets`
//! for the three writers of packets, behind others; `assets` for `AssetTable::new` and `copy`;
//! `journals` for `Journal::new` (which takes its list of pages at once), `reserve` and `Key::new`;
//! `quantities` for `print`. Readers fail at each octet or give one at a time, and writers stop or
//! fail at each octet and take just those before, a report's too (`reporting`). A configuration of
//! 1,048,576 octets is read and one of 1,048,577 is not (`configurations`).
#![tactic(auto)]

#[cfg(test)]
mod tests;
