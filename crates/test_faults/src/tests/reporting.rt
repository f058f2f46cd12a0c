//! Reports whose writing is cut short.

use ilp_accounts::Config;
use ilp_book::{Book, Outcome, PeerReply};
use ilp_config_file::BUILT_IN;
use ilp_io::{Narrow, WhenFull, WriteFault};
use ilp_packet::Prepare;
use ilp_report::{Snapshot, print};
use std::alloc::AllocError;
use std::process::Abort;
use std::test::Fail;

// 2025-01-01T00:00:00Z.
const START: i64 = 1_735_689_600_000;

// The SHA-256 digest of 32 zero octets (by Python's hashlib).
const CONDITION: [u8; 32] = [
    0x66, 0x68, 0x7a, 0xad, 0xf8, 0x62, 0xbd, 0x77, 0x6c, 0x8f, 0xc1, 0x8b, 0x8e, 0x9f, 0x8e, 0x20,
    0x08, 0x97, 0x14, 0x85, 0x6e, 0xe2, 0x33, 0xb3, 0x90, 0x2a, 0x59, 0x1d, 0x0d, 0x5f, 0x29, 0x25,
];

const TO_BOB: Prepare<'static> = Prepare {
    amount: 100,
    expires: START + 30_000,
    condition: &CONDITION,
    destination: b"test.bob",
    payload: b"",
};

const TO_ALICE: Prepare<'static> = Prepare {
    amount: 150,
    expires: START + 30_000,
    condition: &CONDITION,
    destination: b"test.alice",
    payload: b"",
};

// Alice paid bob 100, of whom a hold of 150 is open.
const TEXT: &str = "balance   alice                                         -100
balance   bob                                            -50
open      alice                                            0
open      bob                                              1
held      USD/2                                          150
fees      USD/2                                            0
bought    USD/2                                          100
sold      USD/2                                          100
settled   USD/2                                            0
entries                                                    3
fulfilled                                                  1
";

#[test]
fn takes_a_front_of_the_report(rt: HostRuntime) -> Result<(), Fail> {
    let config = Config::read(rt.alloc(), BUILT_IN.as_bytes())?;
    print_book(&rt, &config)?;
    Ok(())
}

fn print_book(rt: &(impl Abort + AllocGlobal), config: &Config) -> Result<(), AllocError> {
    let mut book = Book::new(rt.alloc(), config)?;
    pay_and_hold(rt, &mut book);
    let snapshot = Snapshot::of(rt.alloc(), &book)?;
    print_in_pieces(rt, &snapshot);
    Ok(())
}

fn print_in_pieces(rt: &(impl Abort + AllocGlobal), snapshot: &Snapshot) {
    for piece in [1, 7, 100] {
        print_into_each(rt, snapshot, TEXT, piece, WhenFull::TakesNone);
        print_into_each(rt, snapshot, TEXT, piece, WhenFull::Fails);
        print_whole(rt, snapshot, TEXT, piece);
    }
}

fn pay_and_hold(rt: &impl Abort, book: &mut Book) {
    assert!(rt; book.config().peers() == 2);
    assert!(rt; book.hold(0, 0, &TO_BOB, START).is_ok());
    let outcome = book.answer(0, 0, PeerReply::Fulfill([0; 32]), START);
    assert_eq!(rt; outcome, Ok(Outcome::Fulfilled { entry: 1 }));
    assert!(rt; book.config().peers() == 2);
    assert!(rt; book.hold(0, 1, &TO_ALICE, START).is_ok());
}

// Prints into sinks that have room for fewer octets than the report has.
fn print_into_each(
    rt: &(impl Abort + AllocGlobal),
    snapshot: &Snapshot,
    text: &str,
    piece: usize,
    when_full: WhenFull,
) {
    assert!(rt; piece > 0);
    for room in 0..text.len() {
        let mut sink = Narrow::new(rt.alloc(), piece, room, when_full);
        let outcome = print(snapshot, &mut sink);
        assert_eq!(rt; outcome, Err(WriteFault), "with room for {room}");
        assert_eq!(rt; sink.recording.failures, 1);
        assert_eq!(rt; sink.recording.octets.as_slice(), &text.as_bytes()[..room]);
    }
}

// Prints into a sink with just the room that the report takes.
fn print_whole(rt: &(impl Abort + AllocGlobal), snapshot: &Snapshot, text: &str, piece: usize) {
    assert!(rt; piece > 0);
    let mut sink = Narrow::new(rt.alloc(), piece, text.len(), WhenFull::Fails);
    assert_eq!(rt; print(snapshot, &mut sink), Ok(()));
    assert_eq!(rt; (sink.recording.failures, sink.room), (0, 0));
    assert_eq!(rt; sink.recording.octets.as_slice(), text.as_bytes());
}
