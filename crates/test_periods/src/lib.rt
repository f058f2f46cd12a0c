//! Tests of books that are brought forward from one period to the next.
//!
//! `runs`: random calls over three periods, between which prices, fees, leasts, the order of peers and
//! that of assets change, one peer is left out and comes again, and one is new. A plain walk over the
//! entries of all periods but what they began with says what each period is to begin with. The text of
//! the book that is brought forward is compared with one that is printed from the walk, and each kept
//! key and each open settlement is called for. The walk also finds the terms of each hold, by the prices
//! and fees of its period.
//!
//! `alike`: a book that is brought forward by its own configuration is asked the same as the one that it
//! came from, and answers the same but for numbers.
//!
//! `faults` has each refusal, by name, on a small book, and what mends it. `denied` has each growth
//! denied in turn. `heads` has texts of later periods, and what of them is not lawful.
#![tactic(auto)]

#[cfg(test)]
mod alike;
#[cfg(test)]
mod configured;
#[cfg(test)]
mod denied;
#[cfg(test)]
mod faults;
#[cfg(test)]
mod heads;
#[cfg(test)]
mod runs;
