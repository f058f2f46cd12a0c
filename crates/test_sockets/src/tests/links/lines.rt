//! What notices tell, and when.

use super::events::{Event, Row, configuration, play};
use super::hearing::{At, Hearing};
use ilp_accounts::{Config, LogSync};
use ilp_notices::{Again, ListensAt, RecoveryNote};
use std::io;
use std::io::{Eprint, ErrorKind};
use std::test::*;
use std::time::Clock;

#[test]
fn lines_are_limited(rt: HostRuntime) -> Result<(), Fail> {
    use Event::*;
    let rows = [
        Row(
            0,
            Fails(1),
            "1970-01-01T00:00:00.000Z warn peer bob at 127.0.0.1:0: no answer\n",
        ),
        Row(0, Fails(1), ""),
        Row(999, Fails(1), ""),
        Row(
            999,
            Fails(0),
            "1970-01-01T00:00:00.999Z warn peer alice at 127.0.0.1:7000: no answer\n",
        ),
        Row(
            1_000,
            Fails(1),
            "1970-01-01T00:00:01.000Z warn peer bob at 127.0.0.1:0: no answer (2 more since the last line)\n",
        ),
        Row(2_999, Fails(1), ""),
        Row(
            3_000,
            Fails(1),
            "1970-01-01T00:00:03.000Z warn peer bob at 127.0.0.1:0: no answer (1 more since the last line)\n",
        ),
        Row(6_999, Fails(3), ""),
        Row(6_999, Fails(1), ""),
        Row(
            7_000,
            Fails(1),
            "1970-01-01T00:00:07.000Z warn peer bob at 127.0.0.1:0: no answer (1 more since the last line)\n",
        ),
    ];
    play(&rt, rt.alloc(), &rows)?;
    Ok(())
}

// Bob fails every other time, and then is well for a minute.
#[test]
fn what_is_over_is_told(rt: HostRuntime) -> Result<(), Fail> {
    use Event::*;
    let rows = [
        Row(
            0,
            Fails(1),
            "1970-01-01T00:00:00.000Z warn peer bob at 127.0.0.1:0: no answer\n",
        ),
        Row(1_000, Looks, ""),
        Row(1_000, Answers(1), ""),
        Row(
            1_000,
            Looks,
            "1970-01-01T00:00:01.000Z info peer bob at 127.0.0.1:0: reached again, after 1 failure\n",
        ),
        Row(1_000, Looks, ""),
        Row(
            1_001,
            Fails(1),
            "1970-01-01T00:00:01.001Z warn peer bob at 127.0.0.1:0: no answer\n",
        ),
        Row(1_002, Answers(1), ""),
        Row(1_003, Fails(1), ""),
        Row(1_004, Answers(1), ""),
        Row(3_000, Looks, ""),
        Row(
            3_001,
            Looks,
            "1970-01-01T00:00:03.001Z info peer bob at 127.0.0.1:0: reached again, after 2 failures\n",
        ),
        Row(
            63_001,
            Fails(1),
            "1970-01-01T00:01:03.001Z warn peer bob at 127.0.0.1:0: no answer\n",
        ),
        Row(64_000, Fails(1), ""),
        Row(
            64_001,
            Fails(1),
            "1970-01-01T00:01:04.001Z warn peer bob at 127.0.0.1:0: no answer (1 more since the last line)\n",
        ),
    ];
    play(&rt, rt.alloc(), &rows)?;
    Ok(())
}

#[test]
fn rejects_are_told_each_minute(rt: HostRuntime) -> Result<(), Fail> {
    use Event::*;
    let rows = [
        Row(0, Looks, ""),
        Row(1, Rejected(1, *b"F02"), ""),
        Row(2, Rejected(0, *b"\xff\0A"), ""),
        Row(3, Rejected(1, *b"T04"), ""),
        Row(4, Rejected(1, *b"F02"), ""),
        Row(5, Rejected(3, *b"F02"), ""),
        Row(59_999, Looks, ""),
        Row(
            60_000,
            Looks,
            "1970-01-01T00:01:00.000Z info rejects to alice: 1 of 0xff0041\n1970-01-01T00:01:00.000Z info rejects to bob: 2 of F02, 1 of T04\n",
        ),
        Row(120_000, Looks, ""),
        Row(120_001, Rejected(2, *b"T00"), ""),
        Row(
            120_002,
            LooksLast,
            "1970-01-01T00:02:00.002Z info rejects to carol: 1 of T00\n",
        ),
    ];
    play(&rt, rt.alloc(), &rows)?;
    Ok(())
}

#[test]
fn wrong_tokens_are_counted(rt: HostRuntime) -> Result<(), Fail> {
    use Event::*;
    let rows = [
        Row(0, Looks, ""),
        Row(1, WrongToken(7), ""),
        Row(2, WrongToken(8), ""),
        Row(3, WrongToken(8), ""),
        Row(
            4,
            Looks,
            "1970-01-01T00:00:00.004Z warn wrong tokens: 3 requests got 401, 2 from 192.0.2.8\n",
        ),
        Row(500, WrongToken(7), ""),
        Row(1_003, Looks, ""),
        Row(
            1_004,
            Looks,
            "1970-01-01T00:00:01.004Z warn wrong tokens: 1 request got 401, 1 from 192.0.2.7\n",
        ),
        Row(1_005, WrongToken(9), ""),
        Row(
            1_006,
            LooksLast,
            "1970-01-01T00:00:01.006Z warn wrong tokens: 1 request got 401, 1 from 192.0.2.9\n",
        ),
        Row(1_007, LooksLast, ""),
    ];
    play(&rt, rt.alloc(), &rows)?;
    Ok(())
}

#[test]
fn who_waits_for_whom(rt: HostRuntime) -> Result<(), Fail> {
    use Event::*;
    let rows = [
        Row(
            0,
            WorkWaits(5),
            "1970-01-01T00:00:00.000Z warn work waits for its turn, for 5 seconds now: of 4 in flight none waits for a peer or an engine\n",
        ),
        Row(1, Waits(1), ""),
        Row(2, Waits(1), ""),
        Row(3, WaitsForEngine(0), ""),
        Row(4, WorkWaits(5), ""),
        Row(
            1_000,
            WorkWaits(6),
            "1970-01-01T00:00:01.000Z warn work waits for its turn, for 6 seconds now: of 4 in flight 2 wait for peer bob, 1 for the engine of alice (1 more since the last line)\n",
        ),
        Row(1_001, IsOver(1), ""),
        Row(1_002, EngineIsOver(0), ""),
        Row(
            3_000,
            WorkWaits(8),
            "1970-01-01T00:00:03.000Z warn work waits for its turn, for 8 seconds now: of 4 in flight 1 waits for peer bob\n",
        ),
        Row(7_000, WorkGoesOn, ""),
        Row(
            7_000,
            Looks,
            "1970-01-01T00:00:07.000Z info no work waits for its turn any more, after 8 seconds\n",
        ),
    ];
    play(&rt, rt.alloc(), &rows)?;
    Ok(())
}

#[test]
fn how_full_the_journal_is(rt: HostRuntime) -> Result<(), Fail> {
    use Event::*;
    let rows = [
        Row(0, JournalHas(52_428), ""),
        Row(
            0,
            JournalHas(52_429),
            "1970-01-01T00:00:00.000Z warn journal: 52429 of 65536 entries, 80 percent\n",
        ),
        Row(0, JournalHas(58_982), ""),
        Row(
            0,
            JournalHas(62_260),
            "1970-01-01T00:00:00.000Z error journal: 62260 of 65536 entries, 95 percent\n",
        ),
        Row(0, JournalHas(65_536), ""),
        Row(
            0,
            JournalIsFull,
            "1970-01-01T00:00:00.000Z error journal: full, with 65536 of 65536 entries: packets get T03, and credits 503\n",
        ),
        Row(0, JournalIsFull, ""),
    ];
    play(&rt, rt.alloc(), &rows)?;
    Ok(())
}

#[test]
fn settlements_and_engines(rt: HostRuntime) -> Result<(), Fail> {
    use Event::*;
    let rows = [
        Row(
            0,
            Confirmed(1),
            "1970-01-01T00:00:00.000Z info settlement 7 with bob of 250: confirmed\n",
        ),
        Row(
            0,
            Refused(1),
            "1970-01-01T00:00:00.000Z warn settlement 7 with bob of 250: refused with the status 400, and the amount is back; the next one waits 4 seconds\n",
        ),
        Row(
            0,
            KeptOpen(1),
            "1970-01-01T00:00:00.000Z warn settlement 7 with bob: kept open, since its engine said neither yes nor no\n",
        ),
        Row(
            0,
            Credited(1),
            "1970-01-01T00:00:00.000Z info credit 7 of bob: 250, key \"k-1\"\n",
        ),
        Row(0, Credited(3), ""),
        Row(
            0,
            Raised(1),
            "1970-01-01T00:00:00.000Z info correction 8 of bob: 250, key \"c-1\": 0x616e20226572726f7222\n",
        ),
        Row(
            0,
            Lowered(1),
            "1970-01-01T00:00:00.000Z info correction 9 of bob: -250, key \"c-1\": \"charged back\"\n",
        ),
        Row(0, Lowered(3), ""),
        Row(
            0,
            CorrectionKeyTaken(2),
            "1970-01-01T00:00:00.000Z error correction of carol refused, and not booked: -25 at scale 1 under the key \"c-1\", which correction 8 has with 250 at scale 2: see which one is meant, and for which reason\n",
        ),
        Row(
            0,
            KeyTaken(1),
            "1970-01-01T00:00:00.000Z error settlement of bob refused, and not credited: 25 at scale 1 under the key 0x6120ff, which credit 7 has with 250 at scale 2: see which one its engine means\n",
        ),
        Row(
            0,
            EngineFails(1),
            "1970-01-01T00:00:00.000Z warn engine of bob at 127.0.0.1:7000: no answer\n",
        ),
        Row(0, EngineAnswers(1), ""),
        Row(999, KeyTaken(1), ""),
        Row(
            999,
            KeyTaken(0),
            "1970-01-01T00:00:00.999Z error settlement of alice refused, and not credited: 25 at scale 1 under the key 0x6120ff, which credit 7 has with 250 at scale 2: see which one its engine means\n",
        ),
        Row(
            1_000,
            Looks,
            "1970-01-01T00:00:01.000Z info engine of bob at 127.0.0.1:7000: reached again, after 1 failure\n",
        ),
    ];
    play(&rt, rt.alloc(), &rows)?;
    Ok(())
}

#[test]
fn a_clock_that_is_behind(rt: HostRuntime) -> Result<(), Fail> {
    use Event::*;
    let rows = [
        Row(
            0,
            ClockBehind(3_600_123),
            "1970-01-01T00:00:00.000Z error clock: 3600.123 seconds behind the last moment of the book, so that packets come too late\n",
        ),
        Row(0, ClockRight, ""),
        Row(
            1_000,
            Looks,
            "1970-01-01T00:00:01.000Z info clock: no longer behind the last moment of the book\n",
        ),
        Row(
            1_000,
            Unreadable(0),
            "1970-01-01T00:00:01.000Z error peer alice at 127.0.0.1:7000: a 200 without a Fulfill or a Reject that can be read: it may have fulfilled the packet, at the connector's cost\n",
        ),
        Row(
            1_000,
            UnreadableOfHold(1),
            "1970-01-01T00:00:01.000Z error peer bob at 127.0.0.1:0: a 200 without a Fulfill or a Reject that can be read: it may have fulfilled the packet, at the connector's cost (hold 3 of 250, condition abababab)\n",
        ),
    ];
    play(&rt, rt.alloc(), &rows)?;
    Ok(())
}

// It is not kept for a second, and once more right after a line has told that it is again.
#[test]
fn a_journal_that_is_not_kept(rt: HostRuntime) -> Result<(), Fail> {
    use Event::*;
    let rows = [
        Row(0, Kept, ""),
        Row(0, Looks, ""),
        Row(
            0,
            NotKept,
            "1970-01-01T00:00:00.000Z error journal: what is booked is not kept: packets get T00, credits 503, and no settlement is asked for\n",
        ),
        Row(999, NotKept, ""),
        Row(
            1_000,
            NotKept,
            "1970-01-01T00:00:01.000Z error journal: what is booked is not kept: packets get T00, credits 503, and no settlement is asked for (1 more since the last line)\n",
        ),
        Row(1_001, Kept, ""),
        Row(2_999, Looks, ""),
        Row(
            3_000,
            Looks,
            "1970-01-01T00:00:03.000Z info journal: all that is booked is kept again\n",
        ),
        Row(3_001, Looks, ""),
        Row(
            3_002,
            NotKept,
            "1970-01-01T00:00:03.002Z error journal: what is booked is not kept: packets get T00, credits 503, and no settlement is asked for\n",
        ),
        Row(7_001, Looks, ""),
        Row(7_001, Kept, ""),
        Row(
            7_002,
            LooksLast,
            "1970-01-01T00:00:07.002Z info journal: all that is booked is kept again\n",
        ),
    ];
    play(&rt, rt.alloc(), &rows)?;
    Ok(())
}

// What is told once.
fn tell_once<R: Clock + Eprint>(rt: &R, config: &Config) {
    let unknown = ListensAt {
        peers: None,
        engines: None,
    };
    ilp_notices::listening(rt, config, unknown, 374, 3_063_808);
    ilp_notices::not_listening(rt, "here", &io::Error::from(ErrorKind::InvalidInput));
    ilp_notices::not_listening(rt, "127.0.0.1:1", &io::Error::from(ErrorKind::AddrInUse));
    ilp_notices::no_thread(rt);
    ilp_notices::few_files(rt, 256, 1_024);
    ilp_notices::closing(rt);
    ilp_notices::report_follows(rt);
}

#[test]
fn what_is_told_once(rt: HostRuntime) -> Result<(), Fail> {
    let config = configuration(rt.alloc())?;
    let at = At {
        rt,
        milliseconds: 0,
    };
    let hearing = Hearing::new(at, rt.alloc(), 1_796_000_715_123);
    tell_once(&hearing, &config);
    assert!(rt;
        hearing.wrote_only(
            "2026-11-30T01:05:15.123Z info listening at 127.0.0.1:7768 for peers and at 127.0.0.1:7769 for engines: 4 workers, 374 in flight with 3063808 octets, 3 peers, alice without an engine, bob with the engine at 127.0.0.1:7000, carol without an engine
2026-11-30T01:05:15.123Z error can't listen at here: it is no IP:PORT in digits
2026-11-30T01:05:15.123Z error can't listen at 127.0.0.1:1: address in use
2026-11-30T01:05:15.123Z error a thread can't be started
2026-11-30T01:05:15.123Z warn open files: 256 at most, and this configuration may need 1024: set ulimit -n 1024
2026-11-30T01:05:15.123Z info closing: no connection is accepted any more
2026-11-30T01:05:15.123Z error the report can't be written to standard output, and follows here
"
        )
    );
    Ok(())
}

// What is told of a journal's file.
fn tell_of_a_journal<R: Clock + Eprint>(rt: &R) {
    let error = io::Error::from(ErrorKind::PermissionDenied);
    ilp_notices::no_journal(rt);
    ilp_notices::journal_absent(rt, "j");
    ilp_notices::journal_carried(rt, "j", 7);
    ilp_notices::journal_saved(rt, "j", 9);
    ilp_notices::not_saved_yet(rt, "j", &error);
    ilp_notices::not_saved(rt, "j", "j.new", "j.log", &error);
    ilp_notices::not_saved_at_start(rt, "j", Again::ByCommand, &error);
    ilp_notices::not_saved_at_start(rt, "j", Again::ByItself, &error);
    ilp_notices::not_synced(rt, "j", "j.log", &error);
    ilp_notices::nothing_to_save(rt, "j", "j.log");
    ilp_notices::log_left(rt, "j.log", &error);
    ilp_notices::log_begun(rt, "j.log", LogSync::Group);
    ilp_notices::log_begun(rt, "j.log", LogSync::Off);
    ilp_notices::log_unwritten(rt, "j.log", &error);
    ilp_notices::journal_in_use(rt, "j");
    ilp_notices::journal_not_locked(rt, "j.lock", &error);
    ilp_notices::not_made(rt, "j.lock", &error);
    ilp_notices::left_unsaved(rt, "j.new");
    ilp_notices::journal_unread(rt, "a\nb", &error);
    ilp_notices::journal_too_long(rt, "j");
    ilp_notices::stopped_unsaved(rt, "j", "j.running", "run r1, begun with 7 entries");
}

#[test]
fn what_is_told_of_a_journal(rt: HostRuntime) -> Result<(), Fail> {
    let at = At {
        rt,
        milliseconds: 0,
    };
    let hearing = Hearing::new(at, rt.alloc(), 0);
    tell_of_a_journal(&hearing);
    assert!(rt;
        hearing.wrote_only(
            "1970-01-01T00:00:00.000Z warn no journal is kept: balances and keys are forgotten at the end, so each start needs a `run` that no earlier one had
1970-01-01T00:00:00.000Z warn journal \"j\": not there yet, so all balances begin at 0: see that this is its path, and that no earlier start had this `run`
1970-01-01T00:00:00.000Z info journal \"j\": begun with its 7 entries
1970-01-01T00:00:00.000Z info journal \"j\": saved with 9 entries
1970-01-01T00:00:00.000Z warn journal \"j\": can't be saved: permission denied: make room for it, it is tried again each second for a minute
1970-01-01T00:00:00.000Z error journal \"j\": not saved: permission denied: it is as at the start, \"j.new\" has what could be written, and what was booked is in \"j.log\", from which the next start goes on: keep all three and the report
1970-01-01T00:00:00.000Z error journal \"j\": can't be saved: permission denied: make room for it, and start again: nothing is lost
1970-01-01T00:00:00.000Z error journal \"j\": can't be saved: permission denied: make room for it, and don't kill the connector: it tries again, and what was booked last may be in its memory alone
1970-01-01T00:00:00.000Z error journal \"j\": it is the new one, but its folder can't be synced: permission denied: see to the disk, and keep \"j.log\", from which the next start goes on, and the report
1970-01-01T00:00:00.000Z error journal \"j\": not saved, since the connector was refused: it is as at the start, and what was booked is in \"j.log\", from which the next start goes on
1970-01-01T00:00:00.000Z warn can't remove \"j.log\": permission denied: the journal has all that it has, and the next start removes it
1970-01-01T00:00:00.000Z info log \"j.log\": begun, and synced before anybody is told
1970-01-01T00:00:00.000Z warn log \"j.log\": begun, and left to the system to sync: a power cut may take what was told
1970-01-01T00:00:00.000Z error can't write \"j.log\": permission denied: what is booked from here on is not on the disk: it is tried anew each second
1970-01-01T00:00:00.000Z error journal \"j\": another connector has it: close that one, or give this one a journal of its own
1970-01-01T00:00:00.000Z error can't lock \"j.lock\": permission denied: keep the journal where files can be locked
1970-01-01T00:00:00.000Z error can't make \"j.lock\": permission denied: see that the journal's folder is there, may be written and has room
1970-01-01T00:00:00.000Z warn \"j.new\" lies there, of a save that did not end: it is not read, and the next save writes over it, which may be this start's
1970-01-01T00:00:00.000Z error can't read \"a\\nb\": permission denied
1970-01-01T00:00:00.000Z error can't read \"j\": more than 8589934592 octets
1970-01-01T00:00:00.000Z error journal \"j\": a connector stopped without saving it (\"j.running\" says \"run r1, begun with 7 entries\"): what it booked is lost, while engines know its keys and a start would use its numbers again
1970-01-01T00:00:00.000Z error compare with peers and engines what was booked since, move \"j\" and \"j.running\" away, and start with a `run` that no earlier start had
"
        )
    );
    Ok(())
}

// What is told of a journal whose connector stopped before it was saved, or ended with a log that lacks something.
fn tell_of_a_log<R: Clock + Eprint>(rt: &R) {
    ilp_notices::recovery_note(rt, "j", RecoveryNote::Logged { entries: 5 });
    ilp_notices::recovery_note(rt, "j", RecoveryNote::OlderLog);
    let open = RecoveryNote::OpenHolds {
        peer: "bob",
        holds: 2,
        out: 170,
    };
    ilp_notices::recovery_note(rt, "j", open);
    ilp_notices::log_incomplete(rt);
}

#[test]
fn what_is_told_of_a_log(rt: HostRuntime) -> Result<(), Fail> {
    let at = At {
        rt,
        milliseconds: 0,
    };
    let hearing = Hearing::new(at, rt.alloc(), 0);
    tell_of_a_log(&hearing);
    assert!(rt;
        hearing.wrote_only(
            "1970-01-01T00:00:00.000Z warn journal \"j\": a connector stopped without saving it, and 5 entries come from its log
1970-01-01T00:00:00.000Z info journal \"j\": its log is of an older text, and the journal has all that it has: a start removes it
1970-01-01T00:00:00.000Z warn journal \"j\": 2 holds that went on to bob were open, of 170 in all: what bob fulfilled of them it may say that it is owed; the last that was handed on may be missing here
1970-01-01T00:00:00.000Z error journal: its log lacks what was booked last: keep the report until the journal is saved
"
        )
    );
    Ok(())
}
