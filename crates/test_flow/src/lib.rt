//! Random runs of what is in flight, beside plain lists that are counted anew each time.
//!
//! Eight flows of one to 60 in flight, each over 3,000 steps: passages begin, end and are chosen from
//! lists of those that wait. Each cause for which one may not begin must come up. 4,000 lists of
//! connections that wait stand beside a plain choice.
#![tactic(auto)]

#[cfg(test)]
mod tests;
