//! Routes by their prefixes, and where octets go.

use ilp_lookup::{LookupFault, RouteIndex};
use std::alloc::{AllocError, Global};
use std::rt::Files;
use std::{fs, io};

/// Prints where the octets go that a row asks for. A row `== NAME` begins with no routes, `+PREFIX`
/// adds the next, to a peer of its number from 0, and `?OCTETS` asks.
pub(crate) fn print_routes<R: Files + Print + AllocGlobal>(rt: &R) -> io::Result<()> {
    let rows = fs::read_to_string(rt, "routes/routes.txt")?;
    let mut table = Table::new(rt.alloc());
    for row in rows.lines() {
        table.take(rt, row)?;
    }
    Ok(())
}

// Routes, and the number of the next one's peer.
#[derive(Drop)]
struct Table {
    routes: RouteIndex,
    next: u32,
}

impl Table {
    fn new(alloc: Global) -> Table {
        Table {
            routes: RouteIndex::new(alloc),
            next: 0,
        }
    }

    fn take<R: Print + AllocGlobal>(&mut self, rt: &R, row: &str) -> io::Result<()> {
        if let Some(octets) = row.strip_prefix('?') {
            self.print_route(rt, octets)
        } else if let Some(prefix) = row.strip_prefix('+') {
            self.add(rt, prefix)
        } else {
            *self = Table::new(rt.alloc());
            println!(rt; "{row}")
        }
    }

    fn add(&mut self, rt: &impl Print, prefix: &str) -> io::Result<()> {
        let peer = self.next;
        self.next = peer.saturating_add(1);
        match self.routes.insert(prefix.as_bytes(), peer) {
            Ok(()) => Ok(()),
            Err(LookupFault::Memory) => Err(io::Error::from(AllocError)),
            Err(fault) => println!(rt; "'{prefix}': {fault}"),
        }
    }

    fn print_route(&self, rt: &impl Print, octets: &str) -> io::Result<()> {
        match self.routes.find(octets.as_bytes()) {
            Some(peer) => println!(rt; "'{octets}' to {peer}"),
            None => println!(rt; "'{octets}' to none"),
        }
    }
}
