//! Tests of the text of a journal, with values that stand in no law.
//!
//! The text of a journal with the greatest numbers goes into a sink that stops at each octet. A
//! text cut at each octet, and with each octet changed, is read as an oracle that shares no code
//! with the reader says, and what is read is written as the same text. Rows of bad texts stand
//! beside it.
#![tactic(auto)]

#[cfg(test)]
mod oracle;
#[cfg(test)]
mod printed;
#[cfg(test)]
mod reading;
#[cfg(test)]
mod tests;
