//! Rows of packets in words. What goes in lies in `data/`, and what is to be printed of it in `stdout`.
//! Both were written from the rules, by hand or by a Python script that shares nothing with the crates,
//! and the stored run compares them. `README.md` says how rows are written.
//!
//! Behind the rows each growth of a call is denied in turn: a call that is denied memory answers so.
#![tactic(auto)]

mod memory;
mod packets;

use memory::print_tried;
use packets::print_packets;
use std::io;

fn main(rt: HostRuntime) -> io::Result<()> {
    print_packets(&rt)?;
    print_tried(&rt)
}
