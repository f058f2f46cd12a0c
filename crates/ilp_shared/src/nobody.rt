//! A way to nobody.

use ilp_link_traits::{EngineLink, EngineReply, LinkFault, Uplink};
use ilp_oer::Octets;
use std::alloc::Allocator;

/// A way to nobody: no peer and no engine answers. A worker has it whose packets and messages are handed
/// on by a loop.
#[derive(Clone, Copy)]
pub struct Nobody;

impl Uplink for Nobody {
    fn send<A: Allocator>(
        &mut self,
        _to: u32,
        _packet: &[u8],
        _deadline: i64,
        _reply: &mut Octets<A>,
    ) -> Result<(), LinkFault> {
        Err(LinkFault)
    }
}

impl EngineLink for Nobody {
    fn account(&mut self, _peer: u32) -> bool {
        false
    }

    fn settle(&mut self, _peer: u32, _key: &[u8], _amount: u64, _scale: u8) -> EngineReply {
        EngineReply::Unknown { status: None }
    }

    fn message<A: Allocator>(
        &mut self,
        _peer: u32,
        _octets: &[u8],
        _reply: &mut Octets<A>,
    ) -> Result<(), LinkFault> {
        Err(LinkFault)
    }
}
