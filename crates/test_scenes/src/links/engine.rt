//! Settlement engines in memory.

use crate::links::bob::put;
use crate::told::print_octets;
use ilp_oer::Octets;
use ilp_workers::{EngineLink, EngineReply, LinkFault};
use std::alloc::{Allocator, Global};
use std::str;
use test_allocator::DenyingAllocator;

/// An engine that has no account and takes nothing on.
#[derive(Drop)]
pub struct NoEngine;

impl EngineLink for NoEngine {
    fn account(&mut self, _peer: u32) -> bool {
        false
    }

    fn settle(&mut self, _peer: u32, _key: &[u8], _amount: u64, _scale: u8) -> EngineReply {
        EngineReply::Refused { status: 400 }
    }

    fn message<A: Allocator>(
        &mut self,
        _peer: u32,
        _octets: &[u8],
        _reply: &mut Octets<A>,
    ) -> Result<(), LinkFault> {
        Err(LinkFault)
    }
}

/// What an engine says, in words: of an account `account` or `no-account`, and behind a space of a
/// settlement `accepted`, `refused`, with the status 400, or `unknown`, without a response. Behind each
/// comma stands what it says the next time. The last is what it says from then on.
#[derive(Clone, Copy)]
pub(crate) struct Sayings<'a>(pub(crate) &'a str);

impl<'a> Sayings<'a> {
    // What it says this time.
    fn next(&mut self) -> (&'a str, &'a str) {
        let (words, later) = self.0.split_once(", ").unwrap_or((self.0, self.0));
        self.0 = later;
        words.split_once(' ').unwrap_or((words, ""))
    }

    // Whether it has the account.
    fn next_account(&mut self) -> bool {
        let (account, _settlement) = self.next();
        account == "account"
    }

    // What it says of a settlement.
    fn next_settlement(&mut self) -> EngineReply {
        let (_account, settlement) = self.next();
        match settlement {
            "accepted" => EngineReply::Accepted,
            "refused" => EngineReply::Refused { status: 400 },
            _ => EngineReply::Unknown { status: None },
        }
    }
}

/// An engine that prints what it is handed.
#[derive(Drop)]
pub(crate) struct Engine<'a, R: Print> {
    /// Where it prints.
    pub(crate) rt: &'a R,
    /// Where lines take their memory.
    pub(crate) alloc: Global,
    /// What it says of accounts.
    pub(crate) accounts: Sayings<'a>,
    /// What it says of settlements.
    pub(crate) settlements: Sayings<'a>,
    /// What it answers each message, if it does.
    pub(crate) answer: Option<&'a [u8]>,
}

impl<R: Print> EngineLink for Engine<'_, R> {
    fn account(&mut self, peer: u32) -> bool {
        let account = self.accounts.next_account();
        let _ = println!(self.rt; "the engine is asked for the account of peer {peer}: {account}");
        account
    }

    fn settle(&mut self, peer: u32, key: &[u8], amount: u64, scale: u8) -> EngineReply {
        let reply = self.settlements.next_settlement();
        let key = str::from_utf8(key).unwrap_or("no text");
        let _ = println!(self.rt;
            "the engine is asked for {amount} at scale {scale} to peer {peer} under {key}: {reply:?}"
        );
        reply
    }

    fn message<A: Allocator>(
        &mut self,
        peer: u32,
        octets: &[u8],
        reply: &mut Octets<A>,
    ) -> Result<(), LinkFault> {
        let _ = println!(self.rt; "the engine is handed of peer {peer}:");
        let _ = print_octets(self.rt, self.alloc, "message", octets);
        put(self.answer, reply)
    }
}

/// A way to an engine that wants memory for each question of an account and of a settlement. Where it
/// is denied that, the engine is not asked: so there is no account, and nothing is known of the
/// settlement.
#[derive(Drop)]
pub(crate) struct Wanting<'a, E: EngineLink + Drop> {
    /// The engine.
    pub(crate) engine: E,
    /// The memory for questions of accounts.
    pub(crate) accounts: &'a DenyingAllocator<Global>,
    /// The memory for questions of settlements.
    pub(crate) settlements: &'a DenyingAllocator<Global>,
}

impl<E: EngineLink + Drop> EngineLink for Wanting<'_, E> {
    fn account(&mut self, peer: u32) -> bool {
        has_room(self.accounts) && self.engine.account(peer)
    }

    fn settle(&mut self, peer: u32, key: &[u8], amount: u64, scale: u8) -> EngineReply {
        if has_room(self.settlements) {
            self.engine.settle(peer, key, amount, scale)
        } else {
            EngineReply::Unknown { status: None }
        }
    }

    fn message<A: Allocator>(
        &mut self,
        peer: u32,
        octets: &[u8],
        reply: &mut Octets<A>,
    ) -> Result<(), LinkFault> {
        self.engine.message(peer, octets, reply)
    }
}

// Whether there is room for an octet.
fn has_room(heap: &DenyingAllocator<Global>) -> bool {
    let mut room = Octets::new(heap);
    room.reserve(1).is_ok()
}
