//! Tests of memory of the book, and of what stands on it: each growth of each call denied in turn.
//!
//! A call that wants memory and is denied it answers so, and leaves what it worked on as it was.
//!
//! `books` has `Book::new` and `hold`, `settlements` has `credit` and `ask`, and `carrying` has
//! `carry_over`, each with every growth denied, in books of 3,000 entries. What ends something
//! takes none after any entry (`ending_takes_no_memory_after_any_entry`,
//! `ending_holds_takes_no_memory`), and neither does `save`, whose writer stops at each octet
//! (`a_writer_that_stops_at_each_octet`). A settlement that was saved before `settle_max` was
//! configured is carried over where it is of no more; four open ones are, and a fifth is not.
//! `reports` has `Snapshot::of`: after each denied growth the next snapshot is taken. Reports are
//! compared octet for octet; one has 834 lines, of 256 peers and 64 assets with the longest names:
//! a balance at a least of -2^63, totals that are just full, balances and settlements beyond 64
//! bits.
#![tactic(auto)]

#[cfg(test)]
mod tests;
