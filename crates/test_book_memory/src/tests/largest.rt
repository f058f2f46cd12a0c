//! The report of a book with as many peers and assets as there may be, each of whose names is as long
//! as it may be, and with numbers at the ends of their ranges.

use super::books::{CONDITION, START};
use super::reports::report_each;
use ilp_accounts::Config;
use ilp_book::{Asked, Book, EngineVerdict, Kept, Outcome, PeerReply};
use ilp_journal::{Cause, CreditKind, Key};
use ilp_packet::Prepare;
use ilp_report::{PeerAccount, Snapshot};
use ilp_settlement::Quantity;
use std::alloc::{AllocError, Global};
use std::process::Abort;
use std::test::Fail;

const PEERS: u32 = 256;

const ASSETS: u32 = 64;

// The greatest amount of a packet and of a settlement.
const MOST: u64 = u64::MAX;

#[test]
fn the_largest(rt: HostRuntime) -> Result<(), Fail> {
    let octets = configuration(rt.alloc())?;
    let config = Config::read(rt.alloc(), octets.as_bytes())?;
    report_extremes(&rt, &config)?;
    Ok(())
}

fn report_extremes(rt: &(impl Abort + AllocGlobal), config: &Config) -> Result<(), AllocError> {
    let mut book = Book::new(rt.alloc(), config)?;
    book_extremes(rt, &mut book)?;
    assert_reports(rt, &book)
}

fn assert_reports(rt: &(impl Abort + AllocGlobal), book: &Book) -> Result<(), AllocError> {
    let text = report(rt.alloc())?;
    report_each(rt, book, text.as_str());
    let snapshot = Snapshot::of(rt.alloc(), book)?;
    assert_accounts(rt, snapshot.peers());
    Ok(())
}

// What is told of peers and stands in no line.
fn assert_accounts(rt: &impl Abort, accounts: &[PeerAccount]) {
    assert_eq!(rt; accounts.len(), PEERS as usize);
    for (place, account) in accounts.iter().enumerate() {
        assert_eq!(rt; account.asset() as usize, place % 64, "of {place}");
        assert_eq!(rt; account.least(), i64::MIN, "of {place}");
    }
}

// ---- the configuration

// A name of 16 octets.
fn peer_name(alloc: Global, peer: u32) -> Result<String, AllocError> {
    format!(in alloc; "peer-of-hubs-{peer:03}")
}

// A name of 16 octets, 12 of which are the code: of the scales 255 down to 192.
fn asset_name(alloc: Global, asset: u32) -> Result<String, AllocError> {
    format!(in alloc; "CURRENCY{asset:04}/{}", scale_of(asset))
}

fn scale_of(asset: u32) -> u32 {
    255u32.saturating_sub(asset)
}

// Four peers have each asset. A price leads from an asset to one whose scale is as far above as it may
// be.
fn configuration(alloc: Global) -> Result<String, AllocError> {
    let mut text = String::new(alloc);
    writeln!(text, "address = \"test.hub\"\nrun = \"r1\"")?;
    for asset in 0..ASSETS {
        let scale = scale_of(asset);
        writeln!(
            text,
            "[[asset]]\ncode = \"CURRENCY{asset:04}\"\nscale = {scale}"
        )?;
    }
    text.push_str(
        "[[price]]\nfrom = \"CURRENCY0012/243\"\nto = \"CURRENCY0003/252\"\np = 4294967295\nq = 1\n",
    )?;
    put_peers(alloc, &mut text)?;
    Ok(text)
}

fn put_peers(alloc: Global, text: &mut String) -> Result<(), AllocError> {
    for peer in 0..PEERS {
        let name = peer_name(alloc, peer)?;
        let asset = asset_name(alloc, peer % ASSETS)?;
        writeln!(text, "[[peer]]\nname = \"{name}\"\nasset = \"{asset}\"")?;
        writeln!(text, "token = \"token-{peer}\"\nout_token = \"to-{peer}\"")?;
        text.push_str(LEVELS)?;
        writeln!(
            text,
            "[[route]]\nprefix = \"test.{name}\"\npeer = \"{name}\""
        )?;
    }
    Ok(())
}

// What all peers have: of each amount they pay a millionth.
const LEVELS: &str = "host = \"127.0.0.1:7001\"\n\
    least = -9223372036854775808\n\
    fee_ppm = 1\n\
    engine = \"127.0.0.1:7003\"\n\
    threshold = 9223372036854775807\n\
    settle_to = -9223372036854775808\n";

// ---- what is booked

// The numbers of the entries stand behind them.
fn book_extremes(rt: &(impl Abort + AllocGlobal), book: &mut Book) -> Result<(), AllocError> {
    // The one peer falls to its least; with both, the totals of the asset are full.
    hold(rt, book, 0, 64, 9_223_372_036_854_775_808)?; // 0
    hold(rt, book, 64, 128, 9_223_372_036_854_775_807)?; // 1
    fulfill(rt, book, 1); // 2

    // A balance of more than 64 bits.
    credit(rt, book, 1, b'a'); // 3
    credit(rt, book, 1, b'b'); // 4
    credit(rt, book, 1, b'c'); // 5
    ask(rt, book, 1); // 6
    close(rt, book, 6, EngineVerdict::Accepted); // 7
    credit(rt, book, 2, b'a'); // 8
    ask(rt, book, 2); // 9
    close(rt, book, 9, EngineVerdict::Refused); // 10

    // By the price 4 units are worth 4 * 4294967295 * 10^9; more is asked for than that.
    hold(rt, book, 12, 3, 5)?; // 11
    fulfill(rt, book, 11); // 12
    ask(rt, book, 3); // 13

    // The last peer has two holds open; a third was released.
    hold(rt, book, 255, 191, 1_000_000)?; // 14
    hold(rt, book, 255, 191, 2)?; // 15
    hold(rt, book, 255, 191, 2_000_001)?; // 16
    release(rt, book, 16); // 17
    Ok(())
}

fn hold(
    rt: &(impl Abort + AllocGlobal),
    book: &mut Book,
    from: u32,
    to: u32,
    amount: u64,
) -> Result<(), AllocError> {
    let destination = format!(in rt.alloc(); "test.peer-of-hubs-{to:03}")?;
    let prepare = Prepare {
        amount,
        expires: START + 30_000,
        condition: &CONDITION,
        destination: destination.as_bytes(),
        payload: b"",
    };
    assert!(rt; from < book.config().peers());
    let outcome = book.hold(0, from, &prepare, START);
    assert_eq!(rt; outcome.map(|held| held.to), Ok(to), "of {from}");
    Ok(())
}

fn fulfill(rt: &impl Abort, book: &mut Book, number: u32) {
    let entry = book.len();
    let outcome = book.answer(0, number, PeerReply::Fulfill([0; 32]), START);
    assert_eq!(rt; outcome, Ok(Outcome::Fulfilled { entry }));
}

fn release(rt: &impl Abort, book: &mut Book, number: u32) {
    let entry = book.len();
    let outcome = book.answer(0, number, PeerReply::NoReply, START);
    let cause = Cause::NoReply;
    assert_eq!(rt; outcome, Ok(Outcome::Released { entry, cause }));
}

// Credits the most that a settlement can come to, told at the scale of the peer's asset.
fn credit(rt: &(impl Abort + AllocGlobal), book: &mut Book, peer: u8, letter: u8) {
    let number = book.len();
    let Ok(Some(key)) = Key::new(rt.alloc(), &[letter]) else {
        panic!(rt; "a key of one octet");
    };
    let quantity = Quantity {
        amount: u128::from(MOST),
        scale: u8::MAX - peer,
    };
    let peer = u32::from(peer);
    assert!(rt; peer < book.config().peers());
    let outcome = book.credit(0, peer, key, &quantity, CreditKind::Settled, START);
    let kept = Kept {
        number,
        amount: MOST,
        fresh: true,
    };
    assert_eq!(rt; outcome, Ok(kept));
}

// Asks for a settlement, which is due for more than one can come to.
fn ask(rt: &impl Abort, book: &mut Book, peer: u32) {
    let number = book.len();
    assert!(rt; peer < book.config().peers());
    let outcome = book.ask(0, peer, START);
    let asked = Asked {
        number,
        amount: MOST,
    };
    assert_eq!(rt; outcome, Ok(asked));
}

fn close(rt: &impl Abort, book: &mut Book, number: u32, verdict: EngineVerdict) {
    let entry = book.len();
    assert_eq!(rt; book.settle_close(0, number, verdict, START), Ok(entry));
}

// ---- the report

// By the rules, with Python's integers. A fee is a millionth, rounded up: of 9223372036854775807 it
// is 9223372036855, and of 5 it is 1.
fn report(alloc: Global) -> Result<String, AllocError> {
    let mut text = String::new(alloc);
    put_balances(alloc, &mut text)?;
    put_open_holds(alloc, &mut text)?;
    put_assets(alloc, &mut text)?;
    put_line(&mut text, "entries", "", "18")?;
    put_line(&mut text, "fulfilled", "", "2")?;
    Ok(text)
}

fn put_line(text: &mut String, label: &str, name: &str, number: &str) -> Result<(), AllocError> {
    writeln!(text, "{label:<10}{name:<20}{number:>30}")
}

fn put_balances(alloc: Global, text: &mut String) -> Result<(), AllocError> {
    for peer in 0..PEERS {
        let name = peer_name(alloc, peer)?;
        put_line(text, "balance", name.as_str(), balance_of(peer))?;
    }
    Ok(())
}

fn balance_of(peer: u32) -> &'static str {
    match peer {
        0 => "-9223372036854775808",
        1 => "36893488147419103230",
        2 => "18446744073709551615",
        3 => "-1266874893709551615",
        12 => "-5",
        64 => "-9223372036854775807",
        128 => "9223362813482738952",
        255 => "-1000002",
        _ => "0",
    }
}

fn put_open_holds(alloc: Global, text: &mut String) -> Result<(), AllocError> {
    for peer in 0..PEERS {
        let name = peer_name(alloc, peer)?;
        let count = match peer {
            0 => "1",
            255 => "2",
            _ => "0",
        };
        put_line(text, "open", name.as_str(), count)?;
    }
    Ok(())
}

fn put_assets(alloc: Global, text: &mut String) -> Result<(), AllocError> {
    for asset in 0..ASSETS {
        let name = asset_name(alloc, asset)?;
        put_asset(text, name.as_str(), sums_of(asset))?;
    }
    Ok(())
}

/// What the books of an asset come to.
#[derive(Clone, Copy)]
struct Expected {
    held: &'static str,
    fees: &'static str,
    bought: &'static str,
    sold: &'static str,
    settled: &'static str,
}

const NOTHING: Expected = Expected {
    held: "0",
    fees: "0",
    bought: "0",
    sold: "0",
    settled: "0",
};

fn sums_of(asset: u32) -> Expected {
    match asset {
        0 => Expected {
            held: "9223372036854775808",
            fees: "9223372036855",
            bought: "9223362813482738952",
            sold: "9223362813482738952",
            settled: "0",
        },
        1 => settled("36893488147419103230"),
        2 => settled("18446744073709551615"),
        3 => Expected {
            sold: "17179869180000000000",
            settled: "-18446744073709551615",
            ..NOTHING
        },
        12 => Expected {
            fees: "1",
            bought: "4",
            ..NOTHING
        },
        63 => Expected {
            held: "1000002",
            ..NOTHING
        },
        _ => NOTHING,
    }
}

fn settled(settled: &'static str) -> Expected {
    Expected { settled, ..NOTHING }
}

fn put_asset(text: &mut String, name: &str, sums: Expected) -> Result<(), AllocError> {
    put_line(text, "held", name, sums.held)?;
    put_line(text, "fees", name, sums.fees)?;
    put_line(text, "bought", name, sums.bought)?;
    put_line(text, "sold", name, sums.sold)?;
    put_line(text, "settled", name, sums.settled)
}
