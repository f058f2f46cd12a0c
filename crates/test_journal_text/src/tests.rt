//! A journal with an entry of each kind and the greatest numbers, and its text.

use ilp_accounts::Config;
use ilp_io::{Narrow, WhenFull, WriteFault};
use ilp_journal::{Ask, Cause, CreditKind, Credited, Entry, Hold, Journal, Key, What};
use ilp_journal_text::put_journal;
use std::process::Abort;
use std::test::Fail;

const CONFIG: &str = r#"address = "test.hub"
run = "r1"
[[asset]]
code = "USD"
scale = 2
[[peer]]
name = "alice"
asset = "USD/2"
token = "a-token"
out_token = "to-alice"
host = "127.0.0.1:7001"
least = -100
[[peer]]
name = "a_name-of-16-oct"
asset = "USD/2"
token = "b-token"
out_token = "to-bob"
host = "127.0.0.1:7002"
least = -100
"#;

const TEXT: &str = "\
ilp-journal 1
1735689600000 0 hold alice a_name-of-16-oct 18446744073709551615 1 18446744073709551614 253402300799999 00ff00ff00ff00ff00ff00ff00ff00ff00ff00ff00ff00ff00ff00ff00ff00ff
1735689600001 65 released 0 Peer 463939
1735689600001 4294967295 credited a_name-of-16-oct 2d7e00 340282366920938463463374607431768211455 255 0
1735689600001 1 asked a_name-of-16-oct 10
1735689600002 1 confirmed 3
end 5
";

const LATER_TEXT: &str = "\
ilp-journal 2 4294967295
1735689600000 0 opened alice -9223372036854775808
1735689600000 0 known a_name-of-16-oct 2d7e00 340282366920938463463374607431768211455 255 18446744073709551615
1735689600000 0 pending alice 18446744073709551615 2d7e00
1735689600002 1 undone 2
end 4
";

fn push(rt: &impl Abort, journal: &mut Journal, moment: i64, actor: u32, what: What) {
    assert!(rt; journal.spare() > 0);
    assert!(rt; journal.len() < journal.limit());
    let has_hold = match what.answered() {
        Some(hold) => journal.hold(hold).is_some(),
        None => true,
    };
    let has_ask = match what.closed() {
        Some(ask) => journal.ask(ask).is_some(),
        None => true,
    };
    assert!(rt; has_hold);
    assert!(rt; has_ask);
    journal.push_reserved(Entry {
        moment,
        actor,
        what,
    });
}

fn condition() -> [u8; 32] {
    let mut octets = [0; 32];
    for place in 0..32 {
        if place % 2 == 1 {
            octets[place] = 255;
        }
    }
    octets
}

fn booked(rt: &(impl Abort + AllocGlobal)) -> Result<Journal, Fail> {
    let mut journal = Journal::new(rt.alloc(), 5)?;
    journal.reserve(5)?;
    let hold = What::Hold(Hold {
        from: 0,
        to: 1,
        amount: u64::MAX,
        fee: 1,
        out: u64::MAX - 1,
        deadline: 253402300799999,
        condition: condition(),
    });
    push(rt, &mut journal, 1735689600000, 0, hold);
    let cause = Cause::Peer(*b"F99");
    let released = What::Released { hold: 0, cause };
    push(rt, &mut journal, 1735689600001, 65, released);
    let credited = What::Credited(Credited {
        peer: 1,
        key: key_of(rt),
        named: u128::MAX,
        scale: 255,
        credited: 0,
        kind: CreditKind::Settled,
    });
    push(rt, &mut journal, 1735689600001, u32::MAX, credited);
    let ask = Ask {
        peer: 1,
        amount: 10,
    };
    push(rt, &mut journal, 1735689600001, 1, What::Asked(ask));
    push(
        rt,
        &mut journal,
        1735689600002,
        1,
        What::Confirmed { ask: 3 },
    );
    Ok(journal)
}

#[test]
fn stops_where_a_write_takes_nothing(rt: HostRuntime) -> Result<(), Fail> {
    let Ok(config) = Config::read(rt.alloc(), CONFIG.as_bytes()) else {
        panic!(rt; "no configuration");
    };
    let journal = booked(&rt)?;
    for room in 0..=TEXT.len() {
        let when_full = if room % 2 == 0 {
            WhenFull::Fails
        } else {
            WhenFull::TakesNone
        };
        let mut sink = Narrow::new(rt.alloc(), 7, room, when_full);
        let outcome = put_journal(&config, 0, &journal, &mut sink);
        let whole = room == TEXT.len();
        assert_eq!(rt;
            outcome,
            if whole { Ok(()) } else { Err(WriteFault) },
            "with room for {room}"
        );
        assert_eq!(rt; sink.recording.octets.as_slice(), &TEXT.as_bytes()[..room]);
    }
    Ok(())
}

// What a last period begins with.
fn brought_forward(rt: &(impl Abort + AllocGlobal)) -> Result<Journal, Fail> {
    let mut journal = Journal::new(rt.alloc(), 5)?;
    journal.reserve(5)?;
    let opened = What::Opened {
        peer: 0,
        balance: i64::MIN,
    };
    push(rt, &mut journal, 1735689600000, 0, opened);
    let known = What::Known(Credited {
        peer: 1,
        key: key_of(rt),
        named: u128::MAX,
        scale: 255,
        credited: u64::MAX,
        kind: CreditKind::Settled,
    });
    push(rt, &mut journal, 1735689600000, 0, known);
    let pending = What::Pending {
        peer: 0,
        amount: u64::MAX,
        key: key_of(rt),
    };
    push(rt, &mut journal, 1735689600000, 0, pending);
    push(rt, &mut journal, 1735689600002, 1, What::Undone { ask: 2 });
    Ok(journal)
}

fn key_of(rt: &(impl Abort + AllocGlobal)) -> Key {
    match Key::new(rt.alloc(), b"-~\0") {
        Ok(Some(key)) => key,
        _ => panic!(rt; "no key"),
    }
}

#[test]
fn writes_what_was_brought_forward(rt: HostRuntime) -> Result<(), Fail> {
    let Ok(config) = Config::read(rt.alloc(), CONFIG.as_bytes()) else {
        panic!(rt; "no configuration");
    };
    let journal = brought_forward(&rt)?;
    for room in 0..=LATER_TEXT.len() {
        let mut sink = Narrow::new(rt.alloc(), 7, room, WhenFull::Fails);
        let outcome = put_journal(&config, u32::MAX, &journal, &mut sink);
        let whole = room == LATER_TEXT.len();
        assert_eq!(rt;
            outcome,
            if whole { Ok(()) } else { Err(WriteFault) },
            "with room for {room}"
        );
        assert_eq!(rt;
            sink.recording.octets.as_slice(),
            &LATER_TEXT.as_bytes()[..room]
        );
    }
    Ok(())
}
