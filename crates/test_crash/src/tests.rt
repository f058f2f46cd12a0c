//! Two actors over a file that tears.

ghost use Rattle.std.specs.Prelude.{◌≡◌, [], None, IfOk, OnOk};
ghost use Rattle.ilp_crash_laws.specs.Crash.{log_behind};
ghost use Rattle.ilp_desk.specs.Desk.{actors_of, base_of};
ghost use Rattle.ilp_line_file.specs.File.{IsSettled};
ghost use Rattle.ilp_line_file.specs.Text.{recovered, text_of};
ghost use Rattle.ilp_log_text.specs.Head.{head_lines};
ghost use Rattle.test_tearing.specs.Files.{left_of, seen_of};

use super::*;
use ilp_accounts::Config;
use ilp_book::Book;
use ilp_desk::{EntryList, Naming};
use ilp_grown_list::NewList;
use ilp_line_file::{LineFile, recover};
use ilp_log::{BegunLog, LogNaming, LogStart};
use ilp_log_text::head_text;
use ilp_starting::book_of;
use std::alloc::Global;
use std::marker::Brand;
use std::sync::Wait;
use std::sync::ledger::Blank;
use std::test::*;
use std::thread::Threads;
use test_tearing::{Loss, Stops, TearingFile};

// 2025-01-01T00:00:00Z.
const START: i64 = 1_735_689_600_000;

// One peer.
const ALICE: &str = r#"address = "test.hub"
run = "r1"
[[asset]]
code = "USD"
scale = 2
[[peer]]
name = "alice"
asset = "USD/2"
token = "a-token"
out_token = "to-alice"
host = "127.0.0.1:7001"
least = -10000
engine = "127.0.0.1:7004"
threshold = 100
settle_to = 0
"#;

// More octets than a line has.
const MOST_LOST: usize = 80;

// A log of no entries, with which a journal begins that has no text yet.
fn begun_log(alloc: Global, config: &Config) -> Result<BegunLog<TearingFile>, Fail>
    ensures settled { IfOk result (λ log. IsSettled seen_of left_of log.file) }
    ensures head { IfOk result
        (λ log. recovered (seen_of log.file.device) ≡ head_lines config.now 0 []) }
    ensures text { IfOk result
        (λ log. log.start.head.items ≡ text_of (head_lines config.now 0 [])) }
    ensures base { IfOk result (λ log. log.start.base ≡ 0) }
{
    let head = head_text(alloc, config, 0, &[])?.into_bytes();
    let octets = head.to_vec(alloc)?;
    let mut device = TearingFile::new(alloc, octets, Stops::after(usize::MAX));
    let text = recover(alloc, &mut device)?;
    let file = LineFile {
        device,
        end: text.len(),
    };
    Ok(BegunLog {
        file,
        start: LogStart { head, base: 0 },
    })
}

// The file of the log once both actors were told, of what is then there whatever crash comes.
fn run<J, K, R>(
    rt: &R,
    config: &Config,
    opening: Opening<TearingFile>,
    blanks: Blank,
) -> Option<TearingFile>
where
    J: Naming + Send + Sync,
    K: LogNaming + Send + Sync,
    R: Threads + Wait + Sync,
    requires config { (config.now ≡ J.desk.config) × (opening.book.config ≡ J.desk.config) }
    requires workers { 1 ≡ J.desk.workers }
    requires period { (0 ≡ J.desk.period) × (opening.book.period ≡ 0) }
    requires entries { ([] ≡ J.desk.opening) × (opening.book.entries ≡ []) }
    requires base { (opening.book.base ≡ 0) × (opening.begun.start.base ≡ 0) }
    requires ledger { (blanks.name ≡ J.name) × (blanks.parts ≡ J.parts) }
    requires parts { J.parts ≡ actors_of J.desk }
    requires list { opening.list ≡ J.list }
    requires form { K.form ≡ log_behind config.now [] None }
    requires settled { IsSettled seen_of left_of opening.begun.file }
    requires head { recovered (seen_of opening.begun.file.device) ≡ head_lines config.now 0 [] }
    requires text { opening.begun.start.head.items ≡ text_of (head_lines config.now 0 []) }
    requires acks { opening.acks ≡ K.table }
{
    let told = told_to_two::<J, K, TearingFile, R>(rt, config, opening, blanks, START);
    let Some(told) = told else {
        return None;
    };
    let BothTold {
        desk,
        log,
        first,
        second,
    } = told;
    let mut log = log;
    find_whole(rt, &desk, &mut log, None, first);
    find_whole(rt, &desk, &mut log, None, second);
    Some(log.into_device())
}

// The same over a book of no entries.
fn run_anew<R: Threads + Wait + Sync>(
    rt: &R,
    config: &Config,
) -> Result<Option<TearingFile>, Fail> {
    let alloc = config.allocator();
    let opening = Opening {
        book: Book::new(alloc, config)?,
        list: EntryList::new(alloc)?,
        begun: begun_log(alloc, config)?,
        acks: NewList::new(alloc)?,
    };
    Ok(run::<Brand, Brand, R>(rt, config, opening, Blank::new(3)))
}

#[test]
fn what_two_actors_were_told_is_recovered(rt: HostRuntime) -> Result<(), Fail> {
    let alloc = rt.alloc();
    let config = Config::read(alloc, ALICE.as_bytes())?;
    let file = run_anew(&rt, &config)?.ok_or("both are told")?;
    for front in 0..MOST_LOST {
        let loss = Loss {
            front,
            ..Loss::NONE
        };
        let left = file.left(&loss)?;
        let carried = book_of(alloc, &config, "journal", None, Some(&left), START + 1)?;
        assert_eq!(rt; carried.book.len(), 2);
        assert_eq!(rt; carried.book.balance(0), 2);
    }
    Ok(())
}
