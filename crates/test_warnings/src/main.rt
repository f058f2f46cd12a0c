//! What is told of configurations: each row of `data/rows.txt` changes lines of `data/base.toml`. What
//! is to be printed was written by hand from the rules (docs/OPERATING.md), never from what the
//! program prints.
//! There are 46 configurations, some of which give no line.
#![tactic(auto)]

mod draft;
mod rows;

use rows::print_rows;
use std::io;

fn main(rt: HostRuntime) -> io::Result<()> {
    print_rows(&rt)
}
