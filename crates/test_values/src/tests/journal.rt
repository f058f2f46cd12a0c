use ilp_journal::{Ask, Cause, CreditKind, Credited, Entry, Hold, Journal, Key, What};
use std::process::Abort;
use std::test::Fail;

fn hold(from: u32, to: u32, amount: u64, fee: u64, out: u64) -> What {
    What::Hold(Hold {
        from,
        to,
        amount,
        fee,
        out,
        deadline: 1735689629000,
        condition: [7; 32],
    })
}

fn fulfilled(hold: u32) -> What {
    What::Fulfilled {
        hold,
        preimage: [0; 32],
    }
}

fn released(hold: u32, cause: Cause) -> What {
    What::Released { hold, cause }
}

fn credited(rt: &(impl Abort + AllocGlobal), peer: u32, credited: u64) -> What {
    let Ok(Some(key)) = Key::new(rt.alloc(), b"k") else {
        panic!(rt; "no key");
    };
    What::Credited(Credited {
        peer,
        key,
        named: u128::from(credited),
        scale: 2,
        credited,
        kind: CreditKind::Settled,
    })
}

fn push(rt: &impl Abort, journal: &mut Journal, what: What) {
    push_by(rt, journal, 0, what);
}

fn push_by(rt: &impl Abort, journal: &mut Journal, actor: u32, what: What) {
    assert!(rt; journal.spare() > 0);
    assert!(rt; journal.len() < journal.limit());
    let has_hold = match what.answered() {
        Some(hold) => journal.hold(hold).is_some(),
        None => true,
    };
    let has_ask = match what.closed() {
        Some(ask) => journal.ask(ask).is_some(),
        None => true,
    };
    assert!(rt; has_hold);
    assert!(rt; has_ask);
    journal.push_reserved(Entry {
        moment: 1735689600000,
        actor,
        what,
    });
}

#[test]
fn each_kind_moves_balances(rt: HostRuntime) -> Result<(), Fail> {
    let mut journal = Journal::new(rt.alloc(), 12)?;
    journal.reserve(12)?;
    for (what, balances) in [
        (hold(0, 1, 1000, 13, 987), [-1000, 0]),
        (hold(1, 0, 400, 4, 132), [-1000, -400]),
        (credited(&rt, 1, u64::MAX), [-1000, 18446744073709551215]),
        (fulfilled(0), [-1000, 18446744073709552202]),
        (
            What::Asked(Ask {
                peer: 1,
                amount: 700,
            }),
            [-1000, 18446744073709551502],
        ),
        (released(1, Cause::NoReply), [-1000, 18446744073709551902]),
        (What::Undone { ask: 4 }, [-1000, 18446744073709552602]),
        (
            What::Asked(Ask {
                peer: 1,
                amount: 50,
            }),
            [-1000, 18446744073709552552],
        ),
        (What::Confirmed { ask: 7 }, [-1000, 18446744073709552552]),
        (credited(&rt, 1, u64::MAX), [-1000, 36893488147419104167]),
    ] {
        push(&rt, &mut journal, what);
        assert_eq!(rt; [journal.balance(0), journal.balance(1)], balances);
    }
    assert_eq!(rt; journal.balance(2), 0);
    Ok(())
}

#[test]
fn the_first_answer_is_found(rt: HostRuntime) -> Result<(), Fail> {
    let mut journal = Journal::new(rt.alloc(), 9)?;
    assert!(rt; journal.is_empty());
    journal.reserve(5)?;
    for what in [
        hold(0, 1, 5, 0, 5),
        hold(0, 1, 6, 0, 6),
        released(1, Cause::Peer(*b"T04")),
        fulfilled(0),
        released(0, Cause::WrongPreimage),
    ] {
        push(&rt, &mut journal, what);
    }
    for (number, answer) in [(0, Some(3)), (1, Some(2)), (2, None), (9, None)] {
        assert_eq!(rt; journal.answer_of(number), answer);
    }
    let cause = match journal.get(2) {
        Some(
            Entry {
                what: What::Released { cause, .. },
                ..
            },
        ) => Some(*cause),
        _ => None,
    };
    assert_eq!(rt; cause, Some(Cause::Peer(*b"T04")));
    assert!(rt; journal.get(5).is_none());
    Ok(())
}

#[test]
fn room_is_used_up(rt: HostRuntime) -> Result<(), Fail> {
    let mut journal = Journal::new(rt.alloc(), 2)?;
    journal.reserve(3)?;
    assert_eq!(rt; journal.spare(), 256);
    push(&rt, &mut journal, hold(0, 1, 1000, 13, 987));
    journal.reserve(2)?;
    assert_eq!(rt; journal.spare(), 255);
    assert_eq!(rt; [journal.len(), journal.limit()], [1, 2]);
    assert!(rt; !journal.is_empty());
    push(&rt, &mut journal, fulfilled(0));
    assert_eq!(rt; [journal.balance(0), journal.balance(1)], [-1000, 987]);
    assert_eq!(rt; journal.answer_of(0), Some(1));
    Ok(())
}

#[test]
fn a_key_has_1_to_128_octets(rt: HostRuntime) -> Result<(), Fail> {
    let octets = [b'k'; 129];
    for (len, is_key) in [(0, false), (1, true), (128, true), (129, false)] {
        assert_eq!(rt; Key::is_key(&octets[..len]), is_key);
        let key = Key::new(rt.alloc(), &octets[..len])?;
        assert_eq!(rt; key.is_some(), is_key);
        if let Some(key) = key {
            assert_eq!(rt; key.as_slice(), &octets[..len]);
        }
    }
    Ok(())
}

// The actor of an entry tells its number.
fn push_numbered(rt: &impl Abort, journal: &mut Journal, what: What) {
    let number = journal.len();
    push_by(rt, journal, number, what);
}

#[test]
fn each_entry_is_found_across_pages(rt: HostRuntime) -> Result<(), Fail> {
    let mut journal = Journal::new(rt.alloc(), 600)?;
    journal.reserve(600)?;
    for number in 0..600 {
        let what = match number {
            256 => fulfilled(255),
            257 => released(255, Cause::NoReply),
            511 => released(0, Cause::Late),
            512 => What::Asked(Ask { peer: 1, amount: 7 }),
            513 => What::Undone { ask: 512 },
            _ => hold(0, 1, 5, 0, 5),
        };
        push_numbered(&rt, &mut journal, what);
    }
    for number in [0, 255, 256, 511, 512, 599] {
        assert_eq!(rt; journal.get(number).map(|entry| entry.actor), Some(number));
    }
    assert!(rt; journal.get(600).is_none());
    assert_eq!(rt; [journal.len(), journal.limit()], [600, 600]);
    for (number, answer) in [
        (255, Some(256)),
        (0, Some(511)),
        (254, None),
        (512, None),
        (600, None),
    ] {
        assert_eq!(rt; journal.answer_of(number), answer);
    }
    for (number, closing) in [(512, Some(513)), (255, None), (513, None)] {
        assert_eq!(rt; journal.closing_of(number), closing);
    }
    Ok(())
}

// What a page keeps of an entry: the entry, and the number of the one that closed it.
#[test]
fn an_entry_takes_112_octets_at_most(rt: HostRuntime) {
    assert!(rt; size_of::<(Entry, Option<u32>)>() <= 112);
}
