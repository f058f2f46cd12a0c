//! Texts of later periods: which of them are taken up, and which entry of the others is the first that is not lawful.

use crate::faults::{Peer, config_of, text_of};
use ilp_accounts::Config;
use ilp_book::{Book, BrokenRule, CarryFault};
use std::process::Abort;
use std::test::Fail;

// 2025-01-01T00:00:00Z.
const START: i64 = 1_735_689_600_000;

const PEERS: &[Peer] = &[("alice", "USD/2", -200), ("bob", "USD/2", -200)];

// Entries, by their words behind moment and actor, and why they are no journal of the period 2, if they are none.
type Row = (&'static [&'static str], Option<(u32, BrokenRule)>);

const ROWS: [Row; 21] = [
    (
        &["opened alice -200", "opened bob 9223372036854775807"],
        None,
    ),
    (&["opened alice 0"], Some((0, BrokenRule::Opening))),
    (&["opened alice -201"], Some((0, BrokenRule::Least))),
    (
        &["opened alice 5", "opened bob 1", "opened alice 5"],
        Some((2, BrokenRule::Opening)),
    ),
    // A peer that has an Opened may have a Known before it.
    (&["known alice 6b00 5 255 0", "opened alice 5"], None),
    (
        &["credited bob 6b00 5 2 5", "opened alice 5"],
        Some((1, BrokenRule::Head)),
    ),
    (
        &["credited bob 6b00 5 2 5", "known alice 6b00 5 2 5"],
        Some((1, BrokenRule::Head)),
    ),
    (
        &["credited bob 6b00 5 2 5", "pending alice 5 6b"],
        Some((1, BrokenRule::Head)),
    ),
    // A key is one of its peer.
    (&["known alice 6b00 5 2 5", "known bob 6b00 5 2 5"], None),
    (
        &["known alice 6b00 5 2 5", "known alice 6b00 7 2 7"],
        Some((1, BrokenRule::KeyTaken)),
    ),
    (
        &["known alice 6b00 5 2 5", "credited alice 6b00 5 2 5"],
        Some((1, BrokenRule::KeyTaken)),
    ),
    // r1-3, r1.1-3 and x.2-3 are of none of this run's periods from 2 on.
    (
        &[
            "pending alice 5 72312d33",
            "pending alice 5 72312e312d33",
            "pending alice 5 782e322d33",
        ],
        None,
    ),
    // r1.2-3 and r1.3-3 are, and so is what begins as r1.2-.
    (
        &["pending alice 5 72312e322d33"],
        Some((0, BrokenRule::SettlementKey)),
    ),
    (
        &["pending alice 5 72312e332d33"],
        Some((0, BrokenRule::SettlementKey)),
    ),
    (
        &["pending alice 5 72312e322d7e7e"],
        Some((0, BrokenRule::SettlementKey)),
    ),
    (
        &["pending alice 5 6b", "pending bob 5 6b"],
        Some((1, BrokenRule::SettlementKey)),
    ),
    // A line's end, a space and an octet above those of ASCII go out in no field.
    (
        &["pending alice 5 6b0a"],
        Some((0, BrokenRule::SettlementKey)),
    ),
    (
        &["pending alice 5 6b206b"],
        Some((0, BrokenRule::SettlementKey)),
    ),
    (
        &["pending alice 5 ff"],
        Some((0, BrokenRule::SettlementKey)),
    ),
    (
        &[
            "pending alice 5 6b31",
            "pending alice 5 6b32",
            "pending alice 5 6b33",
            "pending alice 5 6b34",
            "pending alice 5 6b35",
        ],
        Some((4, BrokenRule::StillOpen)),
    ),
    (
        &["pending alice 5 6b31", "undone 0", "undone 0"],
        Some((2, BrokenRule::NoOpenAsk)),
    ),
];

#[test]
fn heads_are_judged(rt: HostRuntime) -> Result<(), Fail> {
    let config = config_of(&rt, "r1", 4096, PEERS)?;
    for (entries, broken) in ROWS {
        let text = text_of(rt.alloc(), "2 2", entries)?;
        assert_eq!(rt;
            first_broken(&rt, &config, text.as_str()),
            broken,
            "of {text}"
        );
    }
    Ok(())
}

// Under the form of the first period the words of heads are bad, at their lines.
#[test]
fn first_periods_have_no_head(rt: HostRuntime) -> Result<(), Fail> {
    let config = config_of(&rt, "r1", 4096, PEERS)?;
    for told in [
        "opened alice 5",
        "known alice 6b00 5 2 5",
        "pending alice 5 6b",
    ] {
        let text = text_of(rt.alloc(), "1", &[told])?;
        match Book::carry_over(rt.alloc(), &config, text.as_bytes(), START) {
            Err(CarryFault::BadJournalText { line }) => assert_eq!(rt; line, 2),
            _ => panic!(rt; "it is no bad line: {told}"),
        }
    }
    Ok(())
}

// The first entry that is not lawful, and the rule that it breaks, if a text isn't taken up.
fn first_broken(
    rt: &(impl Abort + AllocGlobal),
    config: &Config,
    text: &str,
) -> Option<(u32, BrokenRule)> {
    match Book::carry_over(rt.alloc(), config, text.as_bytes(), START) {
        Ok(_book) => None,
        Err(CarryFault::Unlawful { entry, rule }) => Some((entry, rule)),
        Err(fault) => panic!(rt; "{fault}: {text}"),
    }
}
