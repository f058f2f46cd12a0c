//! A peer of whom nothing is printed.

use super::Given;
use crate::links::bob::put;
use crate::peers::{BOB, DEADLINE};
use ilp_oer::Octets;
use ilp_workers::{LinkFault, Uplink};
use std::alloc::Allocator;
use std::sync::atomic::{AtomicU64, Ordering};

/// A peer who prints nothing, but counts how often he is asked; 1,000 times for each packet that
/// isn't bob's, with its deadline.
#[derive(Drop)]
pub(crate) struct Quiet<'a, 'b> {
    expected: &'a [u8],
    came: Option<&'a [u8]>,
    asked: &'b AtomicU64,
}

impl<'a, 'b> Quiet<'a, 'b> {
    pub(crate) fn new(given: &Given<'a>, asked: &'b AtomicU64) -> Quiet<'a, 'b> {
        Quiet {
            expected: given.other,
            came: given.came,
            asked,
        }
    }

    /// Whether he is as he was made.
    pub(crate) fn is_for(&self, given: &Given<'_>) -> bool {
        let is_same_packet = self.expected == given.other;
        let is_same_reply = self.came == given.came;
        is_same_packet && is_same_reply
    }
}

impl Uplink for Quiet<'_, '_> {
    fn send<A: Allocator>(
        &mut self,
        to: u32,
        packet: &[u8],
        deadline: i64,
        reply: &mut Octets<A>,
    ) -> Result<(), LinkFault> {
        let is_his = to == BOB && packet == self.expected && deadline == DEADLINE;
        let asked = if is_his { 1 } else { 1_000 };
        self.asked.fetch_add(asked, Ordering::SeqCst);
        put(self.came, reply)
    }
}
