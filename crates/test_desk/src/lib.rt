//! Tests of the desk: threads that book at once, the report then, and desks that aren't opened.
//!
//! `all_actors_at_once`: eight actors of one desk book at once, in threads of their own. Each hold
//! and answer succeeds, the shares add up to the book, its report is compared, and each growth of
//! `Desk::snapshot` is denied. `opening`: desks of 1 and 64 workers open, those of 0 and 65 don't,
//! and each growth of `Desk::open` is denied.
#![tactic(auto)]

#[cfg(test)]
mod tests;
