//! What comes first: of refusals, of checks, and in a list.
//!
//! There is no code here. `specs/` has words of no crate's own subject, by which the definitions of
//! the layers above are written. `Refusals` is for a computation that goes on where nothing was
//! refused, `Checks` for a list of checks, of which the first that fails counts: both say in which
//! order refusals come. `Places` has sums, first places and facts of each element over a list whose
//! elements are named by their places, as a journal's are, and `Found` says what an answer of a
//! search means. `proofs/` has what follows of these, what texts of decimal digits are read as, and what
//! stands in a list of which one place was written.
#![tactic(auto)]
