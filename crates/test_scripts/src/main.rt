//! Rows of scripts. What goes in lies in `data/`, and what is to be printed of it in `stdout`. Both were
//! written from the rules, by hand or by a Python script that shares nothing with the crates, and the
//! stored run compares them. `README.md` says how rows are written.
//!
//! Behind the rows each growth of each call is denied in turn: a call that is denied memory answers so. Reads and
//! writes fail, stop or come in pieces.
#![tactic(auto)]

mod configurations;
mod cuts;
mod examples;
mod memory;
mod scripts;

use cuts::print_cuts;
use examples::print_examples;
use memory::print_tried;
use scripts::print_scripts;
use std::io;

fn main(rt: HostRuntime) -> io::Result<()> {
    print_scripts(&rt)?;
    print_cuts(&rt)?;
    print_examples(&rt)?;
    print_tried(&rt)
}
