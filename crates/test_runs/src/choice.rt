//! Which call comes next, and with what.

use crate::calls::{Call, Change, Made, Payment, Sent};
use crate::configured::PEERS;
use crate::locks::{condition, preimage};
use crate::walks::{Ends, ask_at, ended_by, open_hold_at, open_settlement};
use ilp_book::{Book, EngineVerdict, PeerReply};
use ilp_settlement::Quantity;
use test_chance::Chance;

// How many keys each peer has.
const KEYS: u32 = 30;

/// Who calls: by chance, at what a clock tells.
#[derive(Drop)]
pub(crate) struct Caller {
    chance: Chance,
    clock: i64,
}

impl Caller {
    /// The caller of this seed, with a clock that begins at this time.
    pub(crate) fn new(seed: u64, clock: i64) -> Caller {
        Caller {
            chance: Chance::new(seed),
            clock,
        }
    }

    /// The next call. Most moments rise by a few milliseconds, some by seconds, and some fall.
    pub(crate) fn next_call(&mut self, book: &Book, ends: &Ends) -> Made {
        let passed = pass(&mut self.chance);
        let now = self.wait(passed);
        Made {
            call: choose(&mut self.chance, book, ends, now),
            actor: self.chance.below(6),
            now: told(&mut self.chance, now),
        }
    }

    /// What the clock tells so many milliseconds later; it may be set back.
    pub(crate) fn wait(&mut self, milliseconds: i64) -> i64 {
        self.clock = self.clock.wrapping_add(milliseconds);
        self.clock
    }
}

// By how much the clock goes on.
fn pass(chance: &mut Chance) -> i64 {
    if chance.is_one_in(25) {
        return i64::from(chance.below(9_000));
    }
    i64::from(chance.below(40))
}

// What the clock tells; it may go wrong.
fn told(chance: &mut Chance, now: i64) -> i64 {
    match chance.below(40) {
        0 => i64::MIN,
        1 => 0,
        2 | 3 => now.wrapping_sub(i64::from(chance.below(5_000))),
        _ => now,
    }
}

fn choose(chance: &mut Chance, book: &Book, ends: &Ends, now: i64) -> Call {
    match chance.below(20) {
        0..=6 => Call::Hold(sent(chance, now)),
        7..=11 => Call::Answer {
            number: hold_number(chance, book, ends),
            reply: reply(chance),
        },
        12 | 13 => Call::Expire,
        14 | 15 => Call::Credit(payment(chance)),
        16..=18 => Call::Ask {
            peer: chance.below(PEERS),
        },
        _ => Call::Close {
            number: ask_number(chance, book, ends),
            verdict: verdict(chance),
        },
    }
}

fn verdict(chance: &mut Chance) -> EngineVerdict {
    if chance.is_one_in(2) {
        EngineVerdict::Accepted
    } else {
        EngineVerdict::Refused
    }
}

// Expiries are whole seconds, so that several holds have one deadline.
fn sent(chance: &mut Chance, now: i64) -> Sent {
    let from = chance.below(PEERS);
    let life = i64::from(chance.below(45_000));
    let expires = now.wrapping_add(life);
    Sent {
        from,
        to: receiver(chance, from),
        amount: amount(chance),
        expires: expires.wrapping_sub(expires % 1_000),
        condition: condition(!chance.is_one_in(4)),
    }
}

// Another peer, as a rule; else any, or none.
fn receiver(chance: &mut Chance, from: u32) -> u32 {
    if chance.is_one_in(12) {
        return chance.below(PEERS + 1);
    }
    let step = chance.below(PEERS - 1).wrapping_add(1);
    from.wrapping_add(step) % PEERS
}

fn amount(chance: &mut Chance) -> u64 {
    let small = u64::from(chance.below(400));
    match chance.below(50) {
        0 => u64::MAX.wrapping_sub(small),
        1 => (1u64 << 63).wrapping_sub(small),
        2 => (1u64 << 60).wrapping_sub(small),
        3 => small % 10,
        _ => small,
    }
}

// A recent entry, as a rule; else any, and some after the last.
fn number(chance: &mut Chance, book: &Book) -> u32 {
    let len = book.len();
    if chance.is_one_in(8) {
        return chance.below(len.wrapping_add(5));
    }
    let back = chance.below(30).wrapping_add(1);
    len.saturating_sub(back)
}

// An open hold that stands a little before some entry, or what that entry ended; else that entry.
fn hold_number(chance: &mut Chance, book: &Book, ends: &Ends) -> u32 {
    let number = number(chance, book);
    if chance.is_one_in(3) {
        return ended_by(book, number).unwrap_or(number);
    }
    for back in 0..30 {
        let before = number.saturating_sub(back);
        if open_hold_at(book, ends, before).is_some() {
            return before;
        }
    }
    number
}

// The first open settlement to some peer, or any settlement that stands a little before some entry.
fn ask_number(chance: &mut Chance, book: &Book, ends: &Ends) -> u32 {
    if chance.is_one_in(3) {
        if let Some(asked) = open_settlement(book, ends, chance.below(PEERS), None) {
            return asked.number;
        }
    }
    let number = number(chance, book);
    for back in 0..30 {
        let before = number.saturating_sub(back);
        if ask_at(book, before).is_some() {
            return before;
        }
    }
    number
}

fn reply(chance: &mut Chance) -> PeerReply {
    match chance.below(10) {
        0 => PeerReply::BadFulfill,
        1 => PeerReply::NoReply,
        2 => PeerReply::Reject(*b"F99"),
        3 => PeerReply::Reject(*b"T04"),
        _ => PeerReply::Fulfill(preimage(!chance.is_one_in(4))),
    }
}

fn payment(chance: &mut Chance) -> Payment {
    let peer = chance.below(PEERS);
    let key = chance.below(KEYS);
    Payment {
        peer,
        key: u8::try_from(key).unwrap_or(0),
        quantity: quantity(chance, key),
        change: change(chance),
    }
}

// A settlement as a rule, else a correction, for one of two reasons.
fn change(chance: &mut Chance) -> Change {
    let reason = if chance.is_one_in(8) { b'b' } else { b'a' };
    match chance.below(8) {
        0 => Change::Raised(reason),
        1 | 2 => Change::Lowered(reason),
        _ => Change::Settled,
    }
}

// As a rule the quantity that goes with a key.
fn quantity(chance: &mut Chance, key: u32) -> Quantity {
    if chance.is_one_in(8) {
        return Quantity {
            amount: u128::from(chance.below(50)),
            scale: 1,
        };
    }
    if chance.is_one_in(12) {
        return Quantity {
            amount: u128::from(u64::MAX).wrapping_sub(u128::from(chance.below(9))),
            scale: u8::try_from(chance.below(4)).unwrap_or(0),
        };
    }
    Quantity {
        amount: u128::from(key).wrapping_mul(137),
        scale: u8::try_from(key % 5).unwrap_or(0),
    }
}
