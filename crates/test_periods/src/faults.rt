//! Each refusal of a book that is to be brought forward, and what mends it.

use ilp_accounts::Config;
use ilp_book::{Book, ForwardFault};
use ilp_packet::Prepare;
use std::alloc::{AllocError, Global};
use std::process::Abort;
use std::test::Fail;

// 2025-01-01T00:00:00Z.
const START: i64 = 1_735_689_600_000;

// The SHA-256 digest of 32 zero octets (by Python's hashlib).
const CONDITION: [u8; 32] = [
    0x66, 0x68, 0x7a, 0xad, 0xf8, 0x62, 0xbd, 0x77, 0x6c, 0x8f, 0xc1, 0x8b, 0x8e, 0x9f, 0x8e, 0x20,
    0x08, 0x97, 0x14, 0x85, 0x6e, 0xe2, 0x33, 0xb3, 0x90, 0x2a, 0x59, 0x1d, 0x0d, 0x5f, 0x29, 0x25,
];

// A peer: its name, its asset, and what its balance comes to at least.
pub(crate) type Peer = (&'static str, &'static str, i64);

// What configurations differ in.
#[derive(Clone, Copy)]
struct Given {
    run: &'static str,
    journal: u32,
    peers: &'static [Peer],
}

const ALICE: Peer = ("alice", "USD/2", -200);

const BOB: Peer = ("bob", "USD/2", -200);

const ASSETS: &str = "[[asset]]
code = \"USD\"
scale = 2
[[asset]]
code = \"USD\"
scale = 3
[[asset]]
code = \"EUR\"
scale = 3
";

// The peers of each book here.
const BOTH: &[Peer] = &[ALICE, BOB];

// Journals, as their lines behind moment and actor.
const NOTHING: &[&str] = &[];

const CREDITED: &[&str] = &["credited bob 6b00 100 2 100"];

const OPEN: &[&str] = &["credited bob 6b00 1000 2 1000", "asked bob 1000"];

const CONFIRMED: &[&str] = &[
    "credited bob 6b00 1000 2 1000",
    "asked bob 1000",
    "confirmed 1",
];

const UNDONE: &[&str] = &[
    "credited bob 6b00 1000 2 1000",
    "asked bob 1000",
    "undone 1",
];

// Alice owes 100.
const PAID: &[&str] = &[
    "hold alice bob 100 0 100 1735689629000 66687aadf862bd776c8fc18b8e9f8e20089714856ee233b3902a591d0d5f2925",
    "fulfilled 0 0000000000000000000000000000000000000000000000000000000000000000",
];

const PAID_AND_CREDITED: &[&str] = &[
    "hold alice bob 100 0 100 1735689629000 66687aadf862bd776c8fc18b8e9f8e20089714856ee233b3902a591d0d5f2925",
    "fulfilled 0 0000000000000000000000000000000000000000000000000000000000000000",
    "credited bob 6b00 100 2 100",
];

const LARGEST: &[&str] = &["credited bob 6b00 9223372036854775807 2 9223372036854775807"];

const TOO_LARGE: &[&str] = &["credited bob 6b00 9223372036854775808 2 9223372036854775808"];

// A journal, the peers by which it is to be brought forward, and why it is not.
#[derive(Clone, Copy)]
struct Row {
    name: &'static str,
    journal: &'static [&'static str],
    peers: &'static [Peer],
    fault: Option<ForwardFault>,
}

const ROWS: [Row; 17] = [
    Row {
        name: "the same",
        journal: CREDITED,
        peers: BOTH,
        fault: None,
    },
    Row {
        name: "another order",
        journal: PAID,
        peers: &[BOB, ALICE],
        fault: None,
    },
    Row {
        name: "left out with a balance",
        journal: CREDITED,
        peers: &[ALICE],
        fault: Some(ForwardFault::PeerRemoved {
            peer: 1,
            balance: 100,
        }),
    },
    Row {
        name: "left out with an open settlement",
        journal: OPEN,
        peers: &[ALICE],
        fault: Some(ForwardFault::PeerRemoved {
            peer: 1,
            balance: 0,
        }),
    },
    Row {
        name: "left out with an undone settlement",
        journal: UNDONE,
        peers: &[ALICE],
        fault: Some(ForwardFault::PeerRemoved {
            peer: 1,
            balance: 1000,
        }),
    },
    Row {
        name: "left out with a debt",
        journal: PAID,
        peers: &[BOB],
        fault: Some(ForwardFault::PeerRemoved {
            peer: 0,
            balance: -100,
        }),
    },
    Row {
        name: "left out once it is settled",
        journal: CONFIRMED,
        peers: &[ALICE],
        fault: None,
    },
    Row {
        name: "another asset and a balance",
        journal: CREDITED,
        peers: &[ALICE, ("bob", "EUR/3", -200)],
        fault: Some(ForwardFault::OtherAsset {
            peer: 1,
            balance: 100,
        }),
    },
    Row {
        name: "another scale and a balance",
        journal: CREDITED,
        peers: &[("bob", "USD/3", -200), ALICE],
        fault: Some(ForwardFault::OtherAsset {
            peer: 1,
            balance: 100,
        }),
    },
    Row {
        name: "another asset and an open settlement",
        journal: OPEN,
        peers: &[ALICE, ("bob", "EUR/3", -200)],
        fault: Some(ForwardFault::OtherAsset {
            peer: 1,
            balance: 0,
        }),
    },
    Row {
        name: "another asset and a kept key",
        journal: CONFIRMED,
        peers: &[ALICE, ("bob", "EUR/3", -200)],
        fault: Some(ForwardFault::OtherAsset {
            peer: 1,
            balance: 0,
        }),
    },
    Row {
        name: "another asset of a peer that has nothing",
        journal: CREDITED,
        peers: &[("alice", "EUR/3", -200), BOB],
        fault: None,
    },
    Row {
        name: "a balance below the least",
        journal: PAID,
        peers: &[("alice", "USD/2", -99), BOB],
        fault: Some(ForwardFault::BelowLeast {
            peer: 0,
            balance: -100,
        }),
    },
    Row {
        name: "a balance at the least",
        journal: PAID,
        peers: &[("alice", "USD/2", -100), BOB],
        fault: None,
    },
    Row {
        name: "nothing, and a least above 0",
        journal: NOTHING,
        peers: &[ALICE, ("bob", "USD/2", 0)],
        fault: None,
    },
    Row {
        name: "a balance of 2^63",
        journal: TOO_LARGE,
        peers: BOTH,
        fault: Some(ForwardFault::BalanceTooLarge {
            peer: 1,
            balance: 9_223_372_036_854_775_808,
        }),
    },
    Row {
        name: "the greatest balance",
        journal: LARGEST,
        peers: BOTH,
        fault: None,
    },
];

#[test]
fn each_refusal_of_peers(rt: HostRuntime) -> Result<(), Fail> {
    let config = config_of(&rt, "r1", 4096, BOTH)?;
    for row in ROWS {
        let book = book_of(&rt, &config, row.journal)?;
        let next = config_of(&rt, "r1", 4096, row.peers)?;
        assert_eq!(rt;
            fault_of(rt.alloc(), &book, &next),
            row.fault,
            "of {}",
            row.name
        );
    }
    Ok(())
}

// Journals, and the least room in which they are brought forward: for two balances and a key; and for a
// key, an open settlement, and what closes that.
const ROOMS: [(&[&str], u32); 2] = [(PAID_AND_CREDITED, 3), (OPEN, 3)];

#[test]
fn too_little_room(rt: HostRuntime) -> Result<(), Fail> {
    let config = config_of(&rt, "r1", 4096, BOTH)?;
    for (journal, room) in ROOMS {
        let book = book_of(&rt, &config, journal)?;
        let full = config_of(&rt, "r1", room.saturating_sub(1), BOTH)?;
        assert_eq!(rt;
            fault_of(rt.alloc(), &book, &full),
            Some(ForwardFault::Full)
        );
        let enough = config_of(&rt, "r1", room, BOTH)?;
        assert_eq!(rt; fault_of(rt.alloc(), &book, &enough), None);
    }
    Ok(())
}

#[test]
fn another_run(rt: HostRuntime) -> Result<(), Fail> {
    let config = config_of(&rt, "r1", 4096, BOTH)?;
    let other = config_of(&rt, "r2", 4096, BOTH)?;
    let book = Book::new(rt.alloc(), &config)?;
    assert_eq!(rt;
        fault_of(rt.alloc(), &book, &other),
        Some(ForwardFault::OtherRun)
    );
    Ok(())
}

// The book of a journal.
fn book_of(
    rt: &(impl Abort + AllocGlobal),
    config: &Config,
    journal: &[&str],
) -> Result<Book, Fail> {
    let text = text_of(rt.alloc(), "1", journal)?;
    Ok(carried(rt, config, text.as_str()))
}

// The text of a journal whose first line says this form, and each of whose entries has these words.
pub(crate) fn text_of(alloc: Global, form: &str, journal: &[&str]) -> Result<String, AllocError> {
    let mut text = format!(in alloc; "ilp-journal {form}\n")?;
    for told in journal {
        let line = format!(in alloc; "{START} 0 {told}\n")?;
        text.push_str(line.as_str())?;
    }
    let last = format!(in alloc; "end {}\n", journal.len())?;
    text.push_str(last.as_str())?;
    Ok(text)
}

fn carried(rt: &(impl Abort + AllocGlobal), config: &Config, text: &str) -> Book {
    match Book::carry_over(rt.alloc(), config, text.as_bytes(), START) {
        Ok(book) => book,
        Err(fault) => panic!(rt; "not carried over: {fault}: {text}"),
    }
}

// Why a book is not brought forward by a configuration.
fn fault_of(alloc: Global, book: &Book, next: &Config) -> Option<ForwardFault> {
    match book.bring_forward(alloc, next, START) {
        Ok(_next) => None,
        Err(fault) => Some(fault),
    }
}

pub(crate) fn config_of(
    rt: &(impl Abort + AllocGlobal),
    run: &str,
    journal: u32,
    peers: &[Peer],
) -> Result<Config, Fail> {
    let text = config_text(rt.alloc(), run, journal, peers)?;
    match Config::read(rt.alloc(), text.as_bytes()) {
        Ok(config) => Ok(config),
        Err(fault) => panic!(rt; "{fault}"),
    }
}

fn config_text(
    alloc: Global,
    run: &str,
    journal: u32,
    peers: &[Peer],
) -> Result<String, AllocError> {
    let mut text = format!(in alloc;
        "address = \"test.hub\"\nrun = \"{run}\"\njournal = {journal}\n"
    )?;
    text.push_str(ASSETS)?;
    for (name, asset, least) in peers {
        let peer = format!(in alloc;
            "[[peer]]\nname = \"{name}\"\nasset = \"{asset}\"\ntoken = \"token-{name}\"\nout_token = \"to-{name}\"\nhost = \"127.0.0.1:7001\"\nleast = {least}\nengine = \"127.0.0.1:7003\"\nthreshold = 1000\nsettle_to = 0\n"
        )?;
        text.push_str(peer.as_str())?;
    }
    add_routes(alloc, peers, &mut text)?;
    Ok(text)
}

fn add_routes(alloc: Global, peers: &[Peer], to: &mut String) -> Result<(), AllocError> {
    for (name, _, _) in peers {
        let route = format!(in alloc; "[[route]]\nprefix = \"test.{name}\"\npeer = \"{name}\"\n")?;
        to.push_str(route.as_str())?;
    }
    Ok(())
}

const PREPARE: Prepare<'static> = Prepare {
    amount: 100,
    expires: START + 30_000,
    condition: &CONDITION,
    destination: b"test.bob",
    payload: b"",
};

// Of two open holds the one of least deadline is told, also where another refusal comes later.
#[test]
fn an_open_hold(rt: HostRuntime) -> Result<(), Fail> {
    let config = config_of(&rt, "r1", 4096, BOTH)?;
    let alone = config_of(&rt, "r1", 4096, &[ALICE])?;
    let other = config_of(&rt, "r2", 4096, BOTH)?;
    let mut book = Book::new(rt.alloc(), &config)?;
    let sooner = Prepare {
        expires: START + 20_000,
        ..PREPARE
    };
    assert!(rt; book.config().peers() == 2);
    assert!(rt; book.hold(0, 0, &PREPARE, START).is_ok());
    assert!(rt; book.config().peers() == 2);
    assert!(rt; book.hold(0, 0, &sooner, START).is_ok());
    let open = Some(ForwardFault::HoldOpen { hold: 1 });
    assert_eq!(rt; fault_of(rt.alloc(), &book, &config), open);
    assert_eq!(rt; fault_of(rt.alloc(), &book, &alone), open);
    assert_eq!(rt;
        fault_of(rt.alloc(), &book, &other),
        Some(ForwardFault::OtherRun)
    );
    assert_eq!(rt; book.expire_one(0, START + 19_000), Some(1));
    assert_eq!(rt;
        fault_of(rt.alloc(), &book, &config),
        Some(ForwardFault::HoldOpen { hold: 0 })
    );
    assert_eq!(rt; book.expire_one(0, START + 29_000), Some(0));
    assert_eq!(rt; fault_of(rt.alloc(), &book, &config), None);
    assert_eq!(rt; fault_of(rt.alloc(), &book, &alone), None);
    Ok(())
}

#[test]
fn the_last_period(rt: HostRuntime) -> Result<(), Fail> {
    let config = config_of(&rt, "r1", 4096, BOTH)?;
    let last = carried(&rt, &config, "ilp-journal 2 4294967295\nend 0\n");
    assert_eq!(rt;
        fault_of(rt.alloc(), &last, &config),
        Some(ForwardFault::LastPeriod)
    );
    let before = carried(&rt, &config, "ilp-journal 2 4294967294\nend 0\n");
    match before.bring_forward(rt.alloc(), &config, START) {
        Ok(next) => assert_eq!(rt; next.period(), u32::MAX),
        Err(fault) => panic!(rt; "{fault}"),
    }
    Ok(())
}
