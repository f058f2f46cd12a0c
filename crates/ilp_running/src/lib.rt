//! A connector from its beginning to its end: its desk, the log of that, and its report.
//!
//! The threads that run between are `ilp_threads`.
//!
//! # What is proved
//!
//! - `serve`, over any links and any sink (`specs/Serving.antt`), from a book at its base: on Ok it
//!   gives back a book of the desk that has the configuration, as many actors as its workers and
//!   two, and at its opening the journal that it was given (`closed`: lawful, that journal in
//!   front, its length as base), and wrote the whole report of that book (`printed`). That ends of
//!   these actors add up to what was booked since is there as a fact of the book: there are such
//!   ends, and the clause does not say that they are those of the threads that ran.
//! - After a failed write a proper front of such a report was written; after any other refusal
//!   nothing (`refused`). `NotGathered` comes only where ends are not gathered with a book of the
//!   desk, for that reason. `ServeFault::refusal` is the table of what each fault is printed as.
//! - `run_to_close` does as `serve` without the report, beside a log where one is given. Where its
//!   device claims what a device does (`specs/Logging.antt`, `EndsLog`), a log that is given back has
//!   the lines of all entries of the closed book and no other, and has them behind a crash too. A crash
//!   at any moment of the run left its head and the lines of the first so many of these entries. No
//!   clause says when it is given back, nor that the threads that ran had its keeper
//!   (`ilp_log_keeper`).
//! - `run_begun` does as `run_to_close`, between sides that are given, for one period.
//! - `serve` says nothing of what was served (README.md, "what is only tested and what is
//!   neither").
#![tactic(auto)]

mod fault;
mod logging;
mod nothing_on_disk;
mod periods;
mod printing;
mod serving;

pub use fault::ServeFault;
pub use ilp_threads::{
    Asker, MEMORY_IS_SHORT, NextConfig, OnDisk, Sides, SidesRoom, Unprinted, without_end,
};
pub use logging::ClosedRun;
pub use periods::{BegunPeriod, RunPeriod};
pub use serving::{open_sides, run_begun, run_to_close, serve, write_report};
