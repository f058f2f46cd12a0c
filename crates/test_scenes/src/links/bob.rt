//! Bob as a peer in memory.

use crate::told::print_octets;
use ilp_oer::Octets;
use ilp_workers::{LinkFault, Uplink};
use std::alloc::{Allocator, Global};

/// Puts what a peer replies, if it does.
pub(crate) fn put<A: Allocator>(
    came: Option<&[u8]>,
    reply: &mut Octets<A>,
) -> Result<(), LinkFault> {
    let Some(octets) = came else {
        return Err(LinkFault);
    };
    match reply.append(octets) {
        Ok(()) => Ok(()),
        Err(_) => Err(LinkFault),
    }
}

/// Bob, who replies the same each time, and prints what he is handed.
#[derive(Drop)]
pub(crate) struct Bob<'a, R: Print> {
    /// Where he prints.
    pub(crate) rt: &'a R,
    /// Where lines take their memory.
    pub(crate) alloc: Global,
    /// What he replies, if he does.
    pub(crate) came: Option<&'a [u8]>,
}

impl<R: Print> Uplink for Bob<'_, R> {
    fn send<A: Allocator>(
        &mut self,
        to: u32,
        packet: &[u8],
        deadline: i64,
        reply: &mut Octets<A>,
    ) -> Result<(), LinkFault> {
        let _ = println!(self.rt; "peer {to} is handed, up to {deadline}:");
        let _ = print_octets(self.rt, self.alloc, "packet", packet);
        put(self.came, reply)
    }
}

/// A peer who replies the same each time, if he does, and prints nothing.
#[derive(Drop)]
pub(crate) struct Silent<'a>(pub(crate) Option<&'a [u8]>);

impl Uplink for Silent<'_> {
    fn send<A: Allocator>(
        &mut self,
        _to: u32,
        _packet: &[u8],
        _deadline: i64,
        reply: &mut Octets<A>,
    ) -> Result<(), LinkFault> {
        put(self.0, reply)
    }
}
