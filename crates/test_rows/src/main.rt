//! Rows: what goes in lies in `data/`, and what is to be printed of it in `stdout`. Both were written
//! from the rules, by hand or by a Python script that shares nothing with the crates, and the stored
//! run compares them. `README.md` says how rows are written.
#![tactic(auto)]

mod configurations;
mod expiries;
mod packets;
mod quantities;
mod quotes;
mod routes;

use configurations::print_configurations;
use expiries::print_expiries;
use packets::print_packets;
use quantities::print_quantities;
use quotes::print_quotes;
use routes::print_routes;
use std::io;

fn main(rt: HostRuntime) -> io::Result<()> {
    print_configurations(&rt)?;
    print_packets(&rt)?;
    print_expiries(&rt)?;
    print_quotes(&rt)?;
    print_routes(&rt)?;
    print_quantities(&rt)
}
