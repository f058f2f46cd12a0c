//! Tests of the text of a journal of a period above 0, with values that stand in no law.
//!
//! A text with each kind that a period begins with, and the greatest numbers, is cut at each octet, and
//! each octet of it is changed. It is read as an oracle that shares no code with the reader says, and
//! what is read is written as the same text. Rows of bad first lines and bad lines stand beside it: of
//! each form what the other one has alone is bad, and so it is in a log.
#![tactic(auto)]

#[cfg(test)]
mod oracle;
#[cfg(test)]
mod printed;
#[cfg(test)]
mod reading;
