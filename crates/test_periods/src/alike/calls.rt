//! Calls by chance, and what they are answered, without the numbers of entries.

use ilp_book::{AskFault, Book, CreditFault, EngineVerdict, HoldFault, Outcome, PeerReply};
use ilp_journal::{Cause, CreditKind, Key};
use ilp_packet::Prepare;
use ilp_settlement::Quantity;
use std::alloc::{AllocError, Global};
use test_chance::Chance;

// The SHA-256 digest of 32 zero octets (by Python's hashlib).
const CONDITION: [u8; 32] = [
    0x66, 0x68, 0x7a, 0xad, 0xf8, 0x62, 0xbd, 0x77, 0x6c, 0x8f, 0xc1, 0x8b, 0x8e, 0x9f, 0x8e, 0x20,
    0x08, 0x97, 0x14, 0x85, 0x6e, 0xe2, 0x33, 0xb3, 0x90, 0x2a, 0x59, 0x1d, 0x0d, 0x5f, 0x29, 0x25,
];

const ADDRESSES: [&[u8]; 3] = [b"test.alice", b"test.bob", b"test.carol"];

/// A call of a book. Peers are named by their places.
#[derive(Clone, Copy, Debug)]
pub(super) enum Call {
    Hold {
        from: u32,
        to: u32,
        amount: u64,
        life: i64,
    },
    Answer {
        number: u32,
        reply: PeerReply,
    },
    Expire,
    Credit {
        peer: u32,
        key: u8,
        amount: u128,
    },
    Ask {
        peer: u32,
    },
    Close {
        number: u32,
        verdict: EngineVerdict,
    },
}

/// What a call is answered, without numbers.
#[derive(Clone, Copy, Debug, PartialEq, Eq)]
pub(super) enum Reply {
    Held { to: u32, out: u64, deadline: i64 },
    NotHeld(HoldFault),
    Fulfilled,
    Released(Cause),
    NotOpen { has_closer: bool },
    Swept,
    NothingDue,
    Credited { amount: u64, fresh: bool },
    KeyTaken,
    NotCredited(CreditFault),
    Asked { amount: u64 },
    StillOpen { amount: u64 },
    NotAsked(AskFault),
    Closed,
    NotMade,
}

impl Reply {
    /// Whether an entry was booked.
    pub(super) fn is_booked(&self) -> bool {
        match self {
            Reply::Held { .. }
            | Reply::Fulfilled
            | Reply::Released(_)
            | Reply::Swept
            | Reply::Asked { .. }
            | Reply::Closed => true,
            Reply::Credited { fresh, .. } => *fresh,
            _ => false,
        }
    }
}

impl Call {
    /// What a book answers. `AllocError` tells that memory for a key is short.
    pub(super) fn make(
        &self,
        alloc: Global,
        book: &mut Book,
        now: i64,
    ) -> Result<Reply, AllocError> {
        match *self {
            Call::Hold {
                from,
                to,
                amount,
                life,
            } => Ok(hold(book, from, to, amount, now, life)),
            Call::Answer { number, reply } => Ok(answer(book, number, reply, now)),
            Call::Expire => Ok(expire(book, now)),
            Call::Credit { peer, key, amount } => credit(alloc, book, peer, key, amount, now),
            Call::Ask { peer } => Ok(ask(book, peer, now)),
            Call::Close { number, verdict } => Ok(close(book, number, verdict, now)),
        }
    }
}

fn hold(book: &mut Book, from: u32, to: u32, amount: u64, now: i64, life: i64) -> Reply {
    let Some(destination) = ADDRESSES.get(to as usize) else {
        return Reply::NotMade;
    };
    let prepare = Prepare {
        amount,
        expires: now.wrapping_add(life),
        condition: &CONDITION,
        destination,
        payload: b"",
    };
    if from >= book.config().peers() {
        return Reply::NotMade;
    }
    match book.hold(1, from, &prepare, now) {
        Ok(held) => Reply::Held {
            to: held.to,
            out: held.out,
            deadline: held.deadline,
        },
        Err(fault) => Reply::NotHeld(fault),
    }
}

fn answer(book: &mut Book, number: u32, reply: PeerReply, now: i64) -> Reply {
    match book.answer(2, number, reply, now) {
        Ok(Outcome::Fulfilled { .. }) => Reply::Fulfilled,
        Ok(Outcome::Released { cause, .. }) => Reply::Released(cause),
        Err(over) => Reply::NotOpen {
            has_closer: over.closer.is_some(),
        },
    }
}

fn expire(book: &mut Book, now: i64) -> Reply {
    match book.expire_one(3, now) {
        Some(_) => Reply::Swept,
        None => Reply::NothingDue,
    }
}

fn credit(
    alloc: Global,
    book: &mut Book,
    peer: u32,
    key: u8,
    amount: u128,
    now: i64,
) -> Result<Reply, AllocError> {
    let octets = [b'k', key];
    let Some(key) = Key::new(alloc, octets.as_slice())? else {
        return Ok(Reply::NotMade);
    };
    let quantity = Quantity { amount, scale: 2 };
    if peer >= book.config().peers() {
        return Ok(Reply::NotMade);
    }
    match book.credit(4, peer, key, &quantity, CreditKind::Settled, now) {
        Ok(kept) => Ok(Reply::Credited {
            amount: kept.amount,
            fresh: kept.fresh,
        }),
        Err(CreditFault::KeyTaken { .. }) => Ok(Reply::KeyTaken),
        Err(fault) => Ok(Reply::NotCredited(fault)),
    }
}

fn ask(book: &mut Book, peer: u32, now: i64) -> Reply {
    if peer >= book.config().peers() {
        return Reply::NotMade;
    }
    match book.ask(5, peer, now) {
        Ok(asked) => Reply::Asked {
            amount: asked.amount,
        },
        Err(AskFault::StillOpen { amount, .. }) => Reply::StillOpen { amount },
        Err(fault) => Reply::NotAsked(fault),
    }
}

fn close(book: &mut Book, number: u32, verdict: EngineVerdict, now: i64) -> Reply {
    match book.settle_close(6, number, verdict, now) {
        Ok(_) => Reply::Closed,
        Err(over) => Reply::NotOpen {
            has_closer: over.closer.is_some(),
        },
    }
}

/// Who asks: by chance, at what a clock tells, which isn't set back behind its beginning.
#[derive(Drop)]
pub(super) struct Asker {
    chance: Chance,
    clock: i64,
    // The last settlement that was closed, which may be closed again.
    closed: Option<u32>,
    // How many entries the book had at first.
    first: Option<u32>,
}

impl Asker {
    /// The asker of this seed, with a clock that begins at this time.
    pub(super) fn new(seed: u64, clock: i64) -> Asker {
        Asker {
            chance: Chance::new(seed),
            clock,
            closed: None,
            first: None,
        }
    }

    /// The next call of a book, and its time.
    pub(super) fn next_call(&mut self, book: &Book) -> (Call, i64) {
        let first = self.first.unwrap_or(book.len());
        self.first = Some(first);
        self.clock = self.clock.wrapping_add(i64::from(self.chance.below(2_000)));
        let peers = book.config().peers();
        let call = match self.chance.below(16) {
            0..=4 => self.hold(peers),
            5..=7 => self.answer(book.len(), first),
            8 => Call::Expire,
            9 | 10 => Call::Credit {
                peer: self.chance.below(peers),
                key: u8::try_from(self.chance.below(60)).unwrap_or(0),
                amount: u128::from(self.chance.below(4).wrapping_mul(900)),
            },
            11..=13 => Call::Ask {
                peer: self.chance.below(peers),
            },
            _ => self.close(book),
        };
        (call, self.clock)
    }

    fn hold(&mut self, peers: u32) -> Call {
        Call::Hold {
            from: self.chance.below(peers),
            to: self.chance.below(3),
            amount: u64::from(self.chance.below(3_000)),
            life: i64::from(self.chance.below(40_000)),
        }
    }

    // Answers what was booked since the beginning.
    fn answer(&mut self, len: u32, first: u32) -> Call {
        let back = self.chance.below(12).wrapping_add(1);
        let reply = match self.chance.below(4) {
            0 => PeerReply::Reject(*b"T04"),
            _ => PeerReply::Fulfill([0; 32]),
        };
        Call::Answer {
            number: len.saturating_sub(back).max(first),
            reply,
        }
    }

    // Closes an open settlement, or the last one again.
    fn close(&mut self, book: &Book) -> Call {
        let verdict = if self.chance.is_one_in(2) {
            EngineVerdict::Accepted
        } else {
            EngineVerdict::Refused
        };
        let peer = self.chance.below(book.config().peers());
        let open = book.open_settlement(peer, self.closed);
        if let Some(asked) = open {
            if !self.chance.is_one_in(4) {
                self.closed = Some(asked.number);
            }
        }
        match self.closed {
            Some(number) => Call::Close { number, verdict },
            None => Call::Expire,
        }
    }
}
