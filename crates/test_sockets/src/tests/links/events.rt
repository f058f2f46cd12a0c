//! What happens to notices, and what is written then.

use super::hearing::{At, Hearing};
use super::stand_in::config_at;
use ilp_accounts::Config;
use ilp_notices::{Notices, SentHold, ShownKey, ShownReason, ToldPayment, ToldQuantity};
use std::alloc::Global;
use std::io;
use std::io::Eprint;
use std::net::{IpAddr, Ipv4Addr, SocketAddr};
use std::process::Abort;
use std::sync::Wait;
use std::time::{Clock, Duration};

/// What happens, to the peer of this place where there is one: alice, bob and carol.
#[derive(Clone, Copy)]
pub(super) enum Event {
    Looks,
    LooksLast,
    Fails(u32),
    Answers(u32),
    Unreadable(u32),
    UnreadableOfHold(u32),
    EngineFails(u32),
    EngineAnswers(u32),
    Rejected(u32, [u8; 3]),
    // From 192.0.2 and this.
    WrongToken(u8),
    Waits(u32),
    IsOver(u32),
    WaitsForEngine(u32),
    EngineIsOver(u32),
    WorkWaits(u64),
    WorkGoesOn,
    JournalHas(u32),
    JournalIsFull,
    NotKept,
    Kept,
    ClockBehind(u64),
    ClockRight,
    Confirmed(u32),
    Refused(u32),
    KeptOpen(u32),
    Credited(u32),
    KeyTaken(u32),
    Raised(u32),
    Lowered(u32),
    CorrectionKeyTaken(u32),
}

/// At so many milliseconds this happens, and this is written.
#[derive(Clone, Copy)]
pub(super) struct Row(pub(super) u64, pub(super) Event, pub(super) &'static str);

// What happens to peers.
fn happen_to_peers<R: Clock + Eprint>(rt: &R, notices: &Notices, config: &Config, event: Event) {
    match event {
        Event::Fails(peer) => notices.peer_failed(rt, config, peer, "no answer"),
        Event::Answers(peer) => notices.peer_answered(peer),
        Event::Unreadable(peer) => notices.peer_unreadable(rt, config, peer, None),
        Event::UnreadableOfHold(peer) => {
            let hold = SentHold::new(3, 250, &[0xab; 32]);
            notices.peer_unreadable(rt, config, peer, Some(hold));
        }
        Event::EngineFails(peer) => notices.engine_failed(rt, config, peer, "no answer"),
        Event::EngineAnswers(peer) => notices.engine_answered(peer),
        Event::Waits(peer) => notices.waits_for_peer(peer),
        Event::IsOver(peer) => notices.peer_is_over(peer),
        Event::WaitsForEngine(peer) => notices.waits_for_engine(peer),
        Event::EngineIsOver(peer) => notices.engine_is_over(peer),
        _ => {}
    }
}

// What happens to settlements.
fn happen_to_settlements<R: Clock + Eprint>(
    rt: &R,
    notices: &Notices,
    config: &Config,
    event: Event,
) {
    match event {
        Event::Confirmed(peer) => notices.settlement_confirmed(rt, config, peer, 7, 250),
        Event::Refused(peer) => {
            notices.settlement_refused(rt, config, peer, 7, 250, 400, Duration::from_secs(4));
        }
        Event::KeptOpen(peer) => notices.settlement_kept_open(rt, config, peer, 7),
        Event::Credited(peer) => {
            notices.credited(rt, config, peer, 7, 250, ShownKey::new(b"k-1"));
        }
        Event::KeyTaken(peer) => {
            let kept = ToldPayment::Settlement(quantity(250, 2));
            let told = ToldPayment::Settlement(quantity(25, 1));
            notices.key_taken(rt, config, peer, 7, ShownKey::new(b"a \xff"), kept, told);
        }
        _ => happen_to_corrections(rt, notices, config, event),
    }
}

// What happens to corrections.
fn happen_to_corrections<R: Clock + Eprint>(
    rt: &R,
    notices: &Notices,
    config: &Config,
    event: Event,
) {
    let key = ShownKey::new(b"c-1");
    match event {
        Event::Raised(peer) => {
            let reason = ShownReason::new(b"an \"error\"");
            notices.corrected(rt, config, peer, 8, 250, key, reason);
        }
        Event::Lowered(peer) => {
            let reason = ShownReason::new(b"charged back");
            notices.corrected(rt, config, peer, 9, -250, key, reason);
        }
        Event::CorrectionKeyTaken(peer) => {
            let kept = ToldPayment::Rise(quantity(250, 2));
            let told = ToldPayment::Fall(quantity(25, 1));
            notices.key_taken(rt, config, peer, 8, key, kept, told);
        }
        _ => {}
    }
}

fn quantity(amount: u128, scale: u8) -> ToldQuantity {
    ToldQuantity { amount, scale }
}

// What happens to the connector.
fn happen<R: Clock + Eprint + Wait>(rt: &R, notices: &Notices, config: &Config, event: Event) {
    match event {
        Event::Looks => notices.look(rt, config),
        Event::LooksLast => notices.last_look(rt, config),
        Event::WrongToken(last) => {
            notices.wrong_token(rt, Some(IpAddr::V4(Ipv4Addr::new(192, 0, 2, last))));
        }
        Event::Rejected(peer, code) => notices.rejected(rt, peer, code),
        Event::WorkWaits(seconds) => notices.work_waits(rt, config, 4, seconds),
        Event::WorkGoesOn => notices.work_goes_on(),
        Event::JournalHas(entries) => notices.journal(rt, entries, 65_536),
        Event::JournalIsFull => notices.journal_full(rt, 65_536, 65_536),
        Event::NotKept => notices.journal_unkept(rt),
        Event::Kept => notices.journal_kept(),
        Event::ClockBehind(milliseconds) => notices.clock_behind(rt, milliseconds),
        Event::ClockRight => notices.clock_right(),
        _ => {
            happen_to_peers(rt, notices, config, event);
            happen_to_settlements(rt, notices, config, event);
        }
    }
}

/// Alice and the engine of bob are at 127.0.0.1:7000.
pub(super) fn configuration(alloc: Global) -> io::Result<Config> {
    config_at(alloc, SocketAddr::from((Ipv4Addr::LOCALHOST, 7000)))
}

/// Has all happen, one row after the other.
pub(super) fn play<R: Wait + Abort + Copy>(rt: &R, alloc: Global, rows: &[Row]) -> io::Result<()> {
    let config = configuration(alloc)?;
    let notices = Notices::new(alloc, &config)?;
    for row in rows {
        assert!(rt; is_told(rt, alloc, &notices, &config, *row));
    }
    Ok(())
}

// Has this happen. Says whether what is to be written is, and nothing else.
fn is_told<R: Wait + Copy>(
    rt: &R,
    alloc: Global,
    notices: &Notices,
    config: &Config,
    row: Row,
) -> bool {
    let Row(milliseconds, event, text) = row;
    let at = At {
        rt: *rt,
        milliseconds,
    };
    let hearing = Hearing::new(at, alloc, milliseconds);
    happen(&hearing, notices, config, event);
    hearing.wrote_only(text)
}
