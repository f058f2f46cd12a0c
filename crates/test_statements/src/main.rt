//! Rows of statements, of amounts and of moments. What goes in lies in `data/`, and what is to be printed of it in
//! `stdout`. Both were written from the rules, by hand or by a Python script that shares nothing with the crates, and
//! the stored run compares them. `README.md` says how rows are written.
//!
//! Behind the rows each statement goes into a sink of little room: what it took is a front of the statement, and the
//! call answers that a write failed.
#![tactic(auto)]

mod books;
mod cuts;
mod statements;
mod values;

use statements::print_statements;
use std::io;
use values::print_values;

fn main(rt: HostRuntime) -> io::Result<()> {
    print_values(&rt)?;
    print_statements(&rt)
}
