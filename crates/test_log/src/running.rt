//! A desk whose entries are written to a log, until the log's machine stops.

ghost use Rattle.std.specs.Prelude.{◌≡◌, [], IfOk};
ghost use Rattle.ilp_desk.specs.Desk.{actors_of, base_of};

use crate::booking::book_some;
use crate::tearing::{Failures, TearingDevice};
use ilp_accounts::Config;
use ilp_book::Book;
use ilp_desk::{Desk, EntryList, Naming, Share};
use ilp_grown_list::NewList;
use ilp_journal_text::entry_line;
use ilp_line_file::LineFile;
use ilp_log::{Ack, LogNaming, LogStart, OpenLog};
use std::alloc::{AllocError, Global};
use std::marker::Brand;
use std::sync::Wait;
use std::sync::ledger::Blank;
use test_chance::Chance;

/// More calls than the log of a plan makes.
pub(crate) const MOST_CALLS: u32 = 1_000;

/// The lines of each log before those of entries.
pub(crate) const HEAD: &[u8] = b"first\nsecond\n";

/// What is booked on a desk, and how it is kept.
#[derive(Clone, Copy)]
pub(crate) struct Plan {
    /// What chance begins with.
    pub(crate) seed: u64,
    /// How many groups of calls there are, each of which is kept before the next begins.
    pub(crate) groups: u32,
    /// Each has fewer calls than this.
    pub(crate) calls: u32,
    /// How many zeros the log has behind its head.
    pub(crate) zeros: usize,
    /// Whether a log that has failed is mended.
    pub(crate) mends: bool,
}

impl Plan {
    /// A few entries.
    pub(crate) const SHORT: Plan = Plan {
        seed: 0,
        groups: 4,
        calls: 6,
        zeros: 0,
        mends: false,
    };

    /// Entries of all kinds. The first group has more than are written by one call.
    pub(crate) const LONG: Plan = Plan {
        seed: 7,
        groups: 2,
        calls: 1_000,
        zeros: 0,
        mends: false,
    };
}

/// What is known when the machine has stopped.
#[derive(Drop)]
pub(crate) struct Stopped {
    /// Its disk.
    pub(crate) device: TearingDevice,
    /// What was told, and what was booked.
    pub(crate) course: Course,
}

/// How a run of a desk went.
#[derive(Drop)]
pub(crate) struct Course {
    /// How many entries were told to be on the disk.
    pub(crate) told: u32,
    /// How many were booked when each group was.
    pub(crate) groups: Vec<u32>,
    /// The lines of all that were booked.
    pub(crate) lines: Vec<u8>,
}

/// What a log is opened with.
#[derive(Drop)]
pub(crate) struct LogParts {
    pub(crate) file: LineFile<TearingDevice>,
    pub(crate) start: LogStart,
    pub(crate) acks: NewList<LineFile<TearingDevice>, Ack>,
}

/// What a desk is opened with.
#[derive(Drop)]
pub(crate) struct DeskParts {
    pub(crate) book: Book,
    pub(crate) list: EntryList,
}

// Has all entries so far be kept. How many these are, where they are told to be on the disk.
fn keep<J: Naming, K: LogNaming>(
    rt: &impl Wait,
    desk: &Desk<J>,
    log: &mut OpenLog<J, K, TearingDevice>,
    mends: bool,
) -> Option<u32> {
    let alloc = desk.config().allocator();
    let mut receipt = desk.receipt(rt);
    let booked = receipt.len();
    let kept = if mends {
        log.mend(rt, alloc, desk, &mut receipt)
    } else {
        log.commit(rt, alloc, desk, &mut receipt)
    };
    if kept.is_ok() { Some(booked) } else { None }
}

// Books and keeps group by group, and then once more.
fn run_groups<J: Naming, K: LogNaming>(
    rt: &impl Wait,
    desk: &Desk<J>,
    log: &mut OpenLog<J, K, TearingDevice>,
    share: &mut Share<J>,
    plan: &Plan,
    groups: &mut Vec<u32>,
) -> Result<u32, AllocError> {
    let mut chance = Chance::new(plan.seed);
    let mut told = 0;
    for _ in 0..plan.groups {
        book_some(rt, desk, share, &mut chance, plan.calls);
        groups.push(desk.receipt(rt).len())?;
        if let Some(kept) = keep(rt, desk, log, plan.mends) {
            told = kept;
        }
    }
    Ok(keep(rt, desk, log, plan.mends).unwrap_or(told))
}

// The lines of a book's entries.
fn lines_of(alloc: Global, config: &Config, book: &Book) -> Result<Vec<u8>, AllocError> {
    let mut lines = Vec::new(alloc);
    for number in 0..book.len() {
        if let Some(entry) = book.entry(number) {
            lines.extend_from_slice(entry_line(config, entry).as_slice())?;
        }
    }
    Ok(lines)
}

// The lines of what was booked on a desk.
fn booked_lines<J: Naming>(rt: &impl Wait, desk: &Desk<J>) -> Result<Vec<u8>, AllocError> {
    let book = desk.lock(rt);
    lines_of(desk.config().allocator(), desk.config(), book.book())
}

// How a run goes.
fn course_of<J: Naming, K: LogNaming>(
    rt: &impl Wait,
    desk: &Desk<J>,
    log: &mut OpenLog<J, K, TearingDevice>,
    share: &mut Share<J>,
    plan: &Plan,
) -> Result<Course, AllocError> {
    let mut groups = Vec::new(desk.config().allocator());
    let told = run_groups(rt, desk, log, share, plan, &mut groups)?;
    let lines = booked_lines(rt, desk)?;
    Ok(Course {
        told,
        groups,
        lines,
    })
}

// Runs a desk with a log.
fn run_log<J: Naming, K: LogNaming>(
    rt: &impl Wait,
    desk: &Desk<J>,
    mut log: OpenLog<J, K, TearingDevice>,
    share: &mut Share<J>,
    plan: &Plan,
) -> Option<Stopped> {
    let course = course_of(rt, desk, &mut log, share, plan).ok()?;
    Some(Stopped {
        device: log.into_device(),
        course,
    })
}

/// Opens the log of a desk.
pub(crate) fn open_log<J: Naming, K: LogNaming>(
    rt: &impl Wait,
    desk: &Desk<J>,
    parts: LogParts,
) -> OpenLog<J, K, TearingDevice>
    requires config { K.form.config ≡ J.desk.config }
    requires base { (K.form.base ≡ 0) × (parts.start.base ≡ 0) }
    requires acks { parts.acks ≡ K.table }
{
    let LogParts { file, start, acks } = parts;
    OpenLog::begin(file, desk.receipt(rt), start, acks.named::<K>())
}

// Runs a desk by the first of these shares.
fn run_share<J: Naming, K: LogNaming>(
    rt: &impl Wait,
    desk: &Desk<J>,
    shares: &mut Vec<Share<J>>,
    parts: LogParts,
    plan: &Plan,
) -> Option<Stopped>
    requires config { K.form.config ≡ J.desk.config }
    requires base { (K.form.base ≡ 0) × (parts.start.base ≡ 0) }
    requires acks { parts.acks ≡ K.table }
{
    let mut share = shares.pop()?;
    let log = open_log::<J, K>(rt, desk, parts);
    run_log(rt, desk, log, &mut share, plan)
}

// Opens a desk and its log, and runs them.
fn run_desk<J: Naming, K: LogNaming>(
    rt: &impl Wait,
    config: &Config,
    parts: DeskParts,
    blanks: Blank,
    log: LogParts,
    plan: &Plan,
) -> Option<Stopped>
    requires config { (config.now ≡ J.desk.config) × (parts.book.config ≡ J.desk.config) }
    requires workers { 1 ≡ J.desk.workers }
    requires period { parts.book.period ≡ J.desk.period }
    requires opening { (parts.book.entries ≡ J.desk.opening) × (parts.book.base ≡ base_of J.desk) }
    requires ledger { (blanks.name ≡ J.name) × (blanks.parts ≡ J.parts) }
    requires parts { J.parts ≡ actors_of J.desk }
    requires list { parts.list ≡ J.list }
    requires form { (K.form.config ≡ J.desk.config) × (K.form.base ≡ 0) }
    requires base { log.start.base ≡ 0 }
    requires acks { log.acks ≡ K.table }
{
    let alloc = config.allocator();
    let DeskParts { book, list } = parts;
    let (desk, mut shares) = Desk::<J>::open(alloc, config, book, 1, blanks, list).ok()?;
    run_share::<J, K>(rt, &desk, &mut shares, log, plan)
}

/// What a desk of no entries is opened with.
pub(crate) fn desk_parts(alloc: Global, config: &Config) -> Result<DeskParts, AllocError>
    ensures config { IfOk result (λ parts. parts.book.config ≡ config.now) }
    ensures entries { IfOk result (λ parts. parts.book.entries ≡ []) }
    ensures base { IfOk result (λ parts. parts.book.base ≡ 0) }
{
    let list = EntryList::new(alloc)?;
    let book = Book::new(alloc, config)?;
    Ok(DeskParts { book, list })
}

// A log's file, which has its head with zeros behind it.
fn log_file(
    alloc: Global,
    zeros: usize,
    failures: Failures,
) -> Result<LineFile<TearingDevice>, AllocError> {
    let mut octets = HEAD.to_vec(alloc)?;
    for _ in 0..zeros {
        octets.push(0)?;
    }
    Ok(LineFile {
        device: TearingDevice::new(alloc, octets.as_slice(), failures)?,
        end: HEAD.len(),
    })
}

/// What a log is opened with that has its head.
pub(crate) fn log_parts(
    alloc: Global,
    zeros: usize,
    failures: Failures,
) -> Result<LogParts, AllocError>
    ensures { IfOk result (λ parts. parts.start.base ≡ 0) }
{
    let acks = NewList::new(alloc)?;
    let head = HEAD.to_vec(alloc)?;
    let file = log_file(alloc, zeros, failures)?;
    Ok(LogParts {
        file,
        start: LogStart { head, base: 0 },
        acks,
    })
}

/// Runs a new desk and its log to the end, or until the machine stops. It is none where no desk was
/// opened.
pub(crate) fn run_anew(
    rt: &impl Wait,
    config: &Config,
    plan: &Plan,
    failures: Failures,
) -> Result<Option<Stopped>, AllocError> {
    let alloc = config.allocator();
    let log = log_parts(alloc, plan.zeros, failures)?;
    let desk = desk_parts(alloc, config)?;
    Ok(run_desk::<Brand, Brand>(rt, config, desk, Blank::new(3), log, plan))
}
