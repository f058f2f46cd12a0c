//! Tests of a journal's file, over a disk in memory (`test_disk`) on which each call fails, once or from
//! there on.
//!
//! - The journal is at each moment the text of before or that of the run, as a whole.
//! - The log has at each moment its head and a beginning of what was appended, and all that was told to be
//!   on the disk. What it has besides is no whole line.
//! - A log goes, or makes way for another, only once the device has what it has by the journal's name.
//! - A run is told to be saved, or not to be, just as the journal is.
//! - An old journal is read, and what is remembered is a front of what was written.
//! - A journal that another has, or that was not saved, is refused, and nothing is changed. So is each change of one whose
//!   lock was removed or replaced, and its log takes no more lines.
//! - A log that somebody removes or cuts, or that would become too large, takes no more lines.
//! - A log that has failed is made anew: it is at each moment the old one or the new one, as a whole, and the
//!   new one once that was told. Where that failed it can be done again.
//! - A period that ends is kept as a whole before the next one is there, and what is kept is never written again. A
//!   stop in between leaves what the same calls go on from.
//! - A log is set aside as a whole or not at all, and its period is then kept as a whole, or a start does that.
//! - A journal beside which a text lies that it lacks is refused, and all files stay. A look at the files says what a
//!   start does.
//! - Where no next period can begin, the one that goes on has at each moment all that it had, and what is done again
//!   behind a sync that failed is done as a whole.
#![tactic(auto)]

#[cfg(test)]
mod copies;
#[cfg(test)]
mod ended;
#[cfg(test)]
mod failures;
#[cfg(test)]
mod locks;
#[cfg(test)]
mod periods;
#[cfg(test)]
mod renewals;
#[cfg(test)]
mod tests;
