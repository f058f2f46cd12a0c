//! Calls by chance.

use crate::configured::{ACTIVE, Name, Terms, destination};
use ilp_book::{Book, EngineVerdict, PeerReply};
use ilp_journal::{CreditKind, Key};
use ilp_packet::Prepare;
use ilp_settlement::Quantity;
use std::alloc::{AllocError, Global};
use test_chance::Chance;

// The SHA-256 digest of 32 zero octets (by Python's hashlib).
const CONDITION: [u8; 32] = [
    0x66, 0x68, 0x7a, 0xad, 0xf8, 0x62, 0xbd, 0x77, 0x6c, 0x8f, 0xc1, 0x8b, 0x8e, 0x9f, 0x8e, 0x20,
    0x08, 0x97, 0x14, 0x85, 0x6e, 0xe2, 0x33, 0xb3, 0x90, 0x2a, 0x59, 0x1d, 0x0d, 0x5f, 0x29, 0x25,
];

// Erin is credited 0 alone, so that she can be left out.
const ERIN: Name = 4;

/// Who calls: by chance, at what a clock tells.
#[derive(Drop)]
pub(crate) struct Caller {
    chance: Chance,
    clock: i64,
}

impl Caller {
    /// The caller of this seed, with a clock that begins at this time.
    pub(crate) fn new(seed: u64, clock: i64) -> Caller {
        Caller {
            chance: Chance::new(seed),
            clock,
        }
    }

    /// What the clock tells so many milliseconds later.
    pub(crate) fn wait(&mut self, milliseconds: i64) -> i64 {
        self.clock = self.clock.wrapping_add(milliseconds);
        self.clock
    }

    /// Makes a call. What it is answered shows in the entries. `AllocError` tells that memory for a key
    /// is short.
    pub(crate) fn call(
        &mut self,
        alloc: Global,
        book: &mut Book,
        terms: &Terms,
    ) -> Result<(), AllocError> {
        let passed = self.chance.below(200);
        let now = self.wait(i64::from(passed));
        match self.chance.below(20) {
            0..=6 => self.hold(book, terms, now),
            7..=11 => self.answer(book, now),
            12 => {
                let _ = book.expire_one(1, now);
            }
            13 | 14 => self.credit(alloc, book, terms, now)?,
            15..=17 => self.ask(book, terms, now),
            _ => self.close(book, terms, now),
        }
        Ok(())
    }

    // The place of a peer that sends packets.
    fn place(&mut self, terms: &Terms) -> Option<u32> {
        terms.place_of(self.chance.below(ACTIVE) as usize)
    }

    fn hold(&mut self, book: &mut Book, terms: &Terms, now: i64) {
        let Some(from) = self.place(terms) else {
            return;
        };
        let life = i64::from(self.chance.below(40_000));
        let prepare = Prepare {
            amount: u64::from(self.chance.below(3_000)),
            expires: now.wrapping_add(life),
            condition: &CONDITION,
            destination: destination(self.chance.below(ACTIVE) as usize),
            payload: b"",
        };
        if from < book.config().peers() {
            let _ = book.hold(0, from, &prepare, now);
        }
    }

    // Answers some recent entry, which may be a hold.
    fn answer(&mut self, book: &mut Book, now: i64) {
        let back = self.chance.below(20).wrapping_add(1);
        let number = book.len().saturating_sub(back);
        let reply = match self.chance.below(5) {
            0 => PeerReply::Reject(*b"T04"),
            _ => PeerReply::Fulfill([0; 32]),
        };
        let _ = book.answer(2, number, reply, now);
    }

    fn credit(
        &mut self,
        alloc: Global,
        book: &mut Book,
        terms: &Terms,
        now: i64,
    ) -> Result<(), AllocError> {
        let name = self.name();
        let octets = [b'k', u8::try_from(self.chance.below(40)).unwrap_or(0)];
        let amount = if name == ERIN {
            0
        } else {
            u128::from(self.chance.below(5_000))
        };
        let quantity = Quantity { amount, scale: 2 };
        if let (Some(place), Some(key)) = (
            terms.place_of(name),
            Key::new(alloc, octets.as_slice())?,
        ) {
            if place < book.config().peers() {
                let _ = book.credit(3, place, key, &quantity, CreditKind::Settled, now);
            }
        }
        Ok(())
    }

    // A peer that is credited: erin, or one that sends packets.
    fn name(&mut self) -> Name {
        match self.chance.below(ACTIVE + 1) {
            ACTIVE => ERIN,
            name => name as usize,
        }
    }

    fn ask(&mut self, book: &mut Book, terms: &Terms, now: i64) {
        if let Some(place) = self.place(terms) {
            if place < book.config().peers() {
                let _ = book.ask(4, place, now);
            }
        }
    }

    // Closes an open settlement, more often as refused than not.
    fn close(&mut self, book: &mut Book, terms: &Terms, now: i64) {
        let verdict = if self.chance.is_one_in(3) {
            EngineVerdict::Accepted
        } else {
            EngineVerdict::Refused
        };
        let tried = Some(self.chance.below(book.len()));
        if let Some(place) = self.place(terms) {
            if let Some(asked) = book.open_settlement(place, tried) {
                let _ = book.settle_close(5, asked.number, verdict, now);
            }
        }
    }
}
