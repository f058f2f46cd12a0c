//! Calls at a desk, as chance has them.

use ilp_book::{EngineVerdict, PeerReply};
use ilp_desk::{Desk, Naming, Share};
use ilp_journal::{CreditKind, Key};
use ilp_packet::Prepare;
use ilp_settlement::Quantity;
use std::sync::Wait;
use test_chance::Chance;

/// 2025-01-01T00:00:00Z.
pub(crate) const START: i64 = 1_735_689_600_000;

/// When the connector is started again. By then some of the holds are late.
pub(crate) const RESTART: i64 = START + 20_000;

// The SHA-256 digest of 32 zero octets (by Python's hashlib).
const CONDITION: [u8; 32] = [
    0x66, 0x68, 0x7a, 0xad, 0xf8, 0x62, 0xbd, 0x77, 0x6c, 0x8f, 0xc1, 0x8b, 0x8e, 0x9f, 0x8e, 0x20,
    0x08, 0x97, 0x14, 0x85, 0x6e, 0xe2, 0x33, 0xb3, 0x90, 0x2a, 0x59, 0x1d, 0x0d, 0x5f, 0x29, 0x25,
];

/// Two peers in one asset, each of which may owe 10,000 units. A settlement is due from 100 on.
pub(crate) const TWO_PEERS: &str = r#"address = "test.hub"
run = "r1"
[[asset]]
code = "USD"
scale = 2
[[peer]]
name = "alice"
asset = "USD/2"
token = "a-token"
out_token = "to-alice"
host = "127.0.0.1:7001"
least = -10000
engine = "127.0.0.1:7004"
threshold = 100
settle_to = 0
[[peer]]
name = "bob"
asset = "USD/2"
token = "b-token"
out_token = "to-bob"
host = "127.0.0.1:7002"
least = -10000
engine = "127.0.0.1:7004"
threshold = 100
settle_to = 0
[[route]]
prefix = "test.alice"
peer = "alice"
[[route]]
prefix = "test.bob"
peer = "bob"
"#;

// How much later a call is at most than one before which an entry less was booked; milliseconds.
const STEP: u32 = 2_000;

/// Makes calls at a desk, fewer than so many. Some of them book an entry.
pub(crate) fn book_some<J: Naming>(
    rt: &impl Wait,
    desk: &Desk<J>,
    share: &mut Share<J>,
    chance: &mut Chance,
    most: u32,
) {
    for _ in 0..chance.below(most) {
        book_one(rt, desk, share, chance);
    }
}

fn book_one<J: Naming>(rt: &impl Wait, desk: &Desk<J>, share: &mut Share<J>, chance: &mut Chance) {
    let passed = u64::from(desk.receipt(rt).len()) * u64::from(STEP);
    let now = START.wrapping_add(passed as i64);
    match chance.below(12) {
        0..=2 => hold(rt, desk, share, chance, now),
        3..=6 => answer(rt, desk, share, chance, now),
        7 | 8 => credit(rt, desk, share, chance, now),
        9 => ask(rt, desk, share, now),
        _ => close(rt, desk, share, chance, now),
    }
}

// Holds for one peer's packet to the other. It has 5 or 60 seconds.
fn hold<J: Naming>(
    rt: &impl Wait,
    desk: &Desk<J>,
    share: &mut Share<J>,
    chance: &mut Chance,
    now: i64,
) {
    let from = chance.below(2);
    let prepare = Prepare {
        amount: 100 + u64::from(chance.below(100)),
        expires: now.wrapping_add(if chance.below(2) == 0 { 5_000 } else { 60_000 }),
        condition: &CONDITION,
        destination: if from == 0 {
            b"test.bob"
        } else {
            b"test.alice"
        },
        payload: b"",
    };
    if from < desk.config().peers() {
        let _ = desk.hold(rt, share, from, &prepare, now);
    }
}

// Answers one of the last entries, which may be an open hold, or takes a hold that is late.
fn answer<J: Naming>(
    rt: &impl Wait,
    desk: &Desk<J>,
    share: &mut Share<J>,
    chance: &mut Chance,
    now: i64,
) {
    let back = chance.below(12).saturating_add(1);
    let number = desk.receipt(rt).len().saturating_sub(back);
    match chance.below(6) {
        0 => {
            let _ = desk.expire_one(rt, share, now);
        }
        1 => {
            let _ = desk.answer(rt, share, number, PeerReply::Reject(*b"F99"), now);
        }
        _ => {
            let _ = desk.answer(rt, share, number, PeerReply::Fulfill([0; 32]), now);
        }
    }
}

// Credits a settlement from a peer, under one of some keys.
fn credit<J: Naming>(
    rt: &impl Wait,
    desk: &Desk<J>,
    share: &mut Share<J>,
    chance: &mut Chance,
    now: i64,
) {
    let peer = chance.below(2);
    let octets = chance.below(1_000).to_be_bytes();
    let Ok(Some(key)) = Key::new(desk.config().allocator(), &octets) else {
        return;
    };
    let quantity = Quantity {
        amount: 1 + u128::from(chance.below(400)),
        scale: 2,
    };
    if peer < desk.config().peers() {
        let _ = desk.credit(rt, share, peer, key, &quantity, CreditKind::Settled, now);
    }
}

// Asks for settlements to peers, where they are due.
fn ask<J: Naming>(rt: &impl Wait, desk: &Desk<J>, share: &mut Share<J>, now: i64) {
    for peer in 0..desk.config().peers() {
        let _ = desk.ask(rt, share, peer, now);
    }
}

// Closes a settlement to a peer, if one is open.
fn close<J: Naming>(
    rt: &impl Wait,
    desk: &Desk<J>,
    share: &mut Share<J>,
    chance: &mut Chance,
    now: i64,
) {
    let verdict = if chance.below(2) == 0 {
        EngineVerdict::Accepted
    } else {
        EngineVerdict::Refused
    };
    for peer in 0..desk.config().peers() {
        if let Some(asked) = desk.open_settlement(rt, peer, None) {
            let _ = desk.settle_close(rt, share, asked.number, verdict, now);
        }
    }
}
