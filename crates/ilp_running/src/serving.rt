//! A connector from its beginning to its end.
ghost use Rattle.std.specs.Prelude.{◌≡◌, ◌≤◌, length, IfOk, IfErr, IfSome, vec_len};
ghost use Rattle.std.specs.Io.KnownBytes.{Appends};
ghost use Rattle.ilp_desk.specs.Desk as desk;
ghost use Rattle.ilp_desk.specs.Desk.{base_of};
ghost use Rattle.ilp_report.specs.Report.{report_text};
ghost use Rattle.ilp_running.specs.Logging.{began_at, form_of, told_at, EndsLog, HasHead};
ghost use Rattle.ilp_running.specs.Logging.{IsBegun, IsLogOf};
ghost use Rattle.ilp_running.specs.Serving.{desk_of, desk_of_book, ClosesDesk, IsClosed, IsOfNoDesk};
ghost use Rattle.ilp_running.specs.Serving.{IsWhyUnclosed, Prints, Refuses};

use crate::fault::ServeFault;
use crate::logging::{AckList, ClosedRun, RunningLog};
use crate::nothing_on_disk::NothingOnDisk;
use crate::periods::{BegunPeriod, RunPeriod};
use crate::printing::tell_report;
use ilp_accounts::{Config, LogSync};
use ilp_book::Book;
use ilp_desk::{Closed, Desk, End, EntryList, LockedBook, Naming, Share, gather};
use ilp_io::Sink;
use ilp_keeping::{Forgetful, SharedKeeper};
use ilp_line_file::{Device, MemoryDevice};
use ilp_links::Links;
use ilp_log::{BegunLog, LogNaming};
use ilp_log_keeper::{DiskWait, KeepingState, LogKeeper};
use ilp_report::{Snapshot, print};
use ilp_threads::{KeepingWay, KeptBy, OnDisk, RunDesk, Sides, Unprinted, run_desk};
use std::io::Eprint;
use std::marker::Brand;
use std::net::{Net, TcpListener, TcpStream};
use std::rt::Files;
use std::sync::Wait;
use std::sync::ledger::Blank;
use std::thread::Threads;
use std::time::Clock;

/// Runs a connector of this configuration from this book on, until it is asked to close. Then it prints
/// the report of the book, and gives the book back.
///
/// The book is at its base, as a new one and one that is carried over are. A refusal does not give it
/// back.
#[tactic(auto, using(crate::proofs::Printed::refuses_printed, crate::proofs::Printed::refuses_unprinted))]
pub fn serve<R, L, W>(
    rt: &R,
    config: &Config,
    book: Book,
    links: &L,
    writer: &mut W,
) -> Result<Book, ServeFault>
where
    R: Net<Listener = TcpListener, Stream = TcpStream>
        + Threads
        + Wait
        + Clock
        + Eprint
        + Files
        + Sync,
    L: Links,
    W: Sink,
    requires config { book.config ≡ config.now }
    requires opening { length book.entries ≡ book.base }
    ensures closed { IfOk result (λ b. IsClosed (desk_of config.now book) b) }
    ensures printed { IfOk result (λ b.
        Appends (W.contents writer.old) (W.contents writer.new) (report_text b)) }
    ensures refused { IfErr result (λ fault. Refuses (desk_of config.now book)
        (W.contents writer.old) (W.contents writer.new) fault) }
{
    let unlogged: Option<BegunLog<MemoryDevice>> = None;
    let ClosedRun { book, log: _ } = run_to_close(rt, config, book, links, unlogged)?;
    match write_report(rt, &book, writer) {
        Ok(()) => Ok(book),
        Err(fault) => Err(fault),
    }
}

/// Runs a connector as `serve` does, and gives the book back before its report: so that it can be saved
/// where there is no memory for that. Where there is a log, each entry is written to it before a sender
/// is told a Fulfill by it, an engine that it is booked, or an engine is asked for it. Where it can't be
/// written, a Fulfill is told all the same, the others are not, and it is written anew each second. In
/// the end it has all that was booked, or it is not given back.
///
/// A refusal gives back neither the book nor the log.
pub fn run_to_close<R, L, D>(
    rt: &R,
    config: &Config,
    book: Book,
    links: &L,
    log: Option<BegunLog<D>>,
) -> Result<ClosedRun<D>, ServeFault>
where
    R: Net<Listener = TcpListener, Stream = TcpStream>
        + Threads
        + Wait
        + Clock
        + Eprint
        + Files
        + Sync,
    L: Links,
    D: Device + Drop + Send,
    requires config { book.config ≡ config.now }
    requires opening { length book.entries ≡ book.base }
    requires base { IfSome log (λ l. l.start.base ≤ length book.entries) }
    requires begun { D.claims → IfSome log (IsBegun D.seen D.may_leave) }
    ensures closed { IfOk result (λ run. IsClosed (desk_of config.now book) run.book) }
    ensures logged { D.claims → IfOk result (λ run. EndsLog D.seen D.may_leave D.left_since
        (form_of D.seen config.now log) (began_at D.moment log) run.book.entries run.log) }
    ensures refused { IfErr result (IsWhyUnclosed (desk_of config.now book)) }
{
    let sides = open_sides(rt, config, false)?;
    match run_period(rt, config, book, log, links, NothingOnDisk, sides) {
        Ok(RunPeriod { run, sides: _ }) => Ok(run),
        Err(fault) => Err(fault),
    }
}

/// Runs a connector for a period by the configuration of its book, until it is asked to close or another
/// period is to begin. What it comes to is as `run_to_close` gives it.
///
/// A refusal gives back neither the book nor the log.
pub fn run_begun<R, L, D, P>(
    rt: &R,
    begun: BegunPeriod<D>,
    links: &L,
    on_disk: P,
    sides: Sides,
) -> Result<RunPeriod<D>, ServeFault>
where
    R: Net<Listener = TcpListener, Stream = TcpStream> + Threads + Wait + Clock + Eprint + Sync,
    L: Links,
    D: Device + Drop + Send,
    P: OnDisk + Drop + Send,
    ensures closed { IfOk result (λ period. IsClosed (desk_of_book begun.book) period.run.book) }
    ensures logged { D.claims → IfOk result (λ period. EndsLog D.seen D.may_leave D.left_since
        (form_of D.seen begun.book.config begun.log) (began_at D.moment begun.log)
        period.run.book.entries period.run.log) }
    ensures refused { IfErr result (IsWhyUnclosed (desk_of_book begun.book)) }
{
    let Ok(config) = begun.book.config().copy() else {
        return Err(ServeFault::Unprinted(Unprinted::Memory));
    };
    let BegunPeriod { book, log } = begun;
    run_period(rt, &config, book, log, links, on_disk, sides)
}

/// Listens at both sides, at the places of the configuration. Periods of a desk between them may end by
/// themselves or not.
pub fn open_sides<R>(rt: &R, config: &Config, has_periods: bool) -> Result<Sides, ServeFault>
where
    R: Net<Listener = TcpListener, Stream = TcpStream> + Clock + Eprint + Files,
    ensures refused { IfErr result IsOfNoDesk }
{
    match Sides::open(rt, config, has_periods) {
        Ok(sides) => Ok(sides),
        Err(why) => Err(ServeFault::Unprinted(why)),
    }
}

// Runs a connector of this configuration for a period, between these sides.
fn run_period<R, L, D, P>(
    rt: &R,
    config: &Config,
    book: Book,
    log: Option<BegunLog<D>>,
    links: &L,
    on_disk: P,
    sides: Sides,
) -> Result<RunPeriod<D>, ServeFault>
where
    R: Net<Listener = TcpListener, Stream = TcpStream> + Threads + Wait + Clock + Eprint + Sync,
    L: Links,
    D: Device + Drop + Send,
    P: OnDisk + Drop + Send,
    requires config { book.config ≡ config.now }
    requires opening { length book.entries ≡ book.base }
    requires base { IfSome log (λ l. l.start.base ≤ length book.entries) }
    requires begun { D.claims → IfSome log (IsBegun D.seen D.may_leave) }
    ensures closed { IfOk result (λ period. IsClosed (desk_of config.now book) period.run.book) }
    ensures logged { D.claims → IfOk result (λ period. EndsLog D.seen D.may_leave D.left_since
        (form_of D.seen config.now log) (began_at D.moment log)
        period.run.book.entries period.run.log) }
    ensures refused { IfErr result (IsWhyUnclosed (desk_of config.now book)) }
{
    let blanks = Blank::new(u64::from(config.workers()) + 2);
    let Ok(list) = EntryList::new(config.allocator()) else {
        return Err(ServeFault::Unprinted(Unprinted::Memory));
    };
    let Ok(acks) = AckList::new(config.allocator()) else {
        return Err(ServeFault::Unprinted(Unprinted::Memory));
    };
    let between = Between {
        links,
        on_disk,
        sides,
    };
    serve_desk::<Brand, Brand, R, L, D, P>(rt, config, book, blanks, list, log, acks, between)
}

// Between what a desk is run: its links, what it has on the disk, and its sides.
#[derive(Drop)]
struct Between<'l, L, P> {
    links: &'l L,
    on_disk: P,
    sides: Sides,
}

// Opens a desk over this book, runs it between these sides, and closes it.
fn serve_desk<J, K, R, L, D, P>(
    rt: &R,
    config: &Config,
    book: Book,
    blanks: Blank,
    list: EntryList,
    log: Option<BegunLog<D>>,
    acks: AckList<D>,
    between: Between<'_, L, P>,
) -> Result<RunPeriod<D>, ServeFault>
where
    J: Naming + Send + Sync,
    K: LogNaming + Send + Sync,
    R: Net<Listener = TcpListener, Stream = TcpStream> + Threads + Wait + Clock + Eprint + Sync,
    L: Links,
    D: Device + Drop + Send,
    P: OnDisk + Drop + Send,
    requires config { (config.now ≡ J.desk.config) × (book.config ≡ J.desk.config) }
    requires workers { config.now.settings.workers ≡ J.desk.workers }
    requires period { book.period ≡ J.desk.period }
    requires opening { (book.entries ≡ J.desk.opening) × (book.base ≡ base_of J.desk) }
    requires ledger { (blanks.name ≡ J.name) × (blanks.parts ≡ J.parts) }
    requires parts { J.parts ≡ desk.actors_of J.desk }
    requires list { list ≡ J.list }
    requires acks { acks ≡ K.table }
    requires log { IfSome log (λ l. IsLogOf K.form J.desk l.start.base) }
    requires begun { D.claims → IfSome log (IsBegun D.seen D.may_leave) }
    requires head { D.claims → IfSome log (HasHead D.seen K.form) }
    ensures closed { IfOk result (λ period. IsClosed J.desk period.run.book) }
    ensures logged { D.claims → IfOk result (λ period. EndsLog D.seen D.may_leave D.left_since
        K.form (began_at D.moment log) period.run.book.entries period.run.log) }
    ensures refused { IfErr result (IsWhyUnclosed J.desk) }
{
    let workers = config.workers();
    let Ok((desk, shares)) = Desk::<J>::open(
        config.allocator(),
        config,
        book,
        workers,
        blanks,
        list,
    ) else {
        return Err(ServeFault::Unprinted(Unprinted::Memory));
    };
    match log {
        None => {
            let RunDesk { ends, sides } = run_unlogged(rt, &desk, shares, between)?;
            let book = close_desk(desk, ends)?.into_book();
            let run = ClosedRun { book, log: None };
            Ok(RunPeriod { run, sides })
        }
        Some(begun) => {
            let log = RunningLog::<J, K, D>::begin(begun, desk.receipt(rt), acks);
            serve_logged(rt, desk, shares, log, between)
        }
    }
}

// Runs a desk whose entries are written to this log, and closes it.
fn serve_logged<J, K, R, L, D, P>(
    rt: &R,
    desk: Desk<J>,
    shares: Vec<Share<J>>,
    log: RunningLog<J, K, D>,
    between: Between<'_, L, P>,
) -> Result<RunPeriod<D>, ServeFault>
where
    J: Naming + Send + Sync,
    K: LogNaming + Send + Sync,
    R: Net<Listener = TcpListener, Stream = TcpStream> + Threads + Wait + Clock + Eprint + Sync,
    L: Links,
    D: Device + Drop + Send,
    P: OnDisk + Drop + Send,
    requires shares { 2 ≤ vec_len shares }
    requires begun { D.claims → IfSome log.begun (λ first. first.lines ≡ K.form.head) }
    ensures closed { IfOk result (λ period. IsClosed J.desk period.run.book) }
    ensures logged { D.claims → IfOk result (λ period. EndsLog D.seen D.may_leave D.left_since
        K.form (told_at log.begun) period.run.book.entries period.run.log) }
    ensures refused { IfErr result (IsWhyUnclosed J.desk) }
{
    let state = KeepingState::new();
    let kept_by = KeptBy {
        keeper: LogKeeper::new(rt, &desk, &log.log, &state),
        way: keeping_way(desk.config()),
        disk: state.disk(),
    };
    let RunDesk { ends, sides } = run_between(rt, &desk, shares, between, kept_by)?;
    let book = close_desk(desk, ends)?;
    let run = log.close(rt, book);
    Ok(RunPeriod { run, sides })
}

// Runs a desk between these, whose journal nobody keeps.
fn run_unlogged<J, R, L, P>(
    rt: &R,
    desk: &Desk<J>,
    shares: Vec<Share<J>>,
    between: Between<'_, L, P>,
) -> Result<RunDesk<J>, ServeFault>
where
    J: Naming + Send + Sync,
    R: Net<Listener = TcpListener, Stream = TcpStream> + Threads + Wait + Clock + Eprint + Sync,
    L: Links,
    P: OnDisk + Drop + Send,
    requires shares { 2 ≤ vec_len shares }
    ensures refused { IfErr result (IsWhyUnclosed J.desk) }
{
    let disk = DiskWait::new();
    let kept_by = KeptBy {
        keeper: Forgetful,
        way: KeepingWay::InLoops,
        disk: &disk,
    };
    run_between(rt, desk, shares, between, kept_by)
}

// Runs a desk between these, whose journal is kept so.
fn run_between<J, R, L, P, K>(
    rt: &R,
    desk: &Desk<J>,
    shares: Vec<Share<J>>,
    between: Between<'_, L, P>,
    kept_by: KeptBy<'_, K>,
) -> Result<RunDesk<J>, ServeFault>
where
    J: Naming + Send + Sync,
    R: Net<Listener = TcpListener, Stream = TcpStream> + Threads + Wait + Clock + Eprint + Sync,
    L: Links,
    P: OnDisk + Drop + Send,
    K: SharedKeeper<J> + Drop + Send,
    requires shares { 2 ≤ vec_len shares }
    ensures refused { IfErr result (IsWhyUnclosed J.desk) }
{
    let Between {
        links,
        on_disk,
        sides,
    } = between;
    match run_desk(rt, desk, shares, links, on_disk, sides, kept_by) {
        Ok(run) => Ok(run),
        Err(why) => Err(ServeFault::Unprinted(why)),
    }
}

// Where nothing waits for the disk, each loop has the journal kept.
fn keeping_way(config: &Config) -> KeepingWay {
    match config.sync() {
        LogSync::Group => KeepingWay::Beside,
        LogSync::Off => KeepingWay::InLoops,
    }
}

// Closes a desk whose actors handed these in.
fn close_desk<J: Naming>(desk: Desk<J>, ends: Vec<End<J>>) -> Result<LockedBook<J>, ServeFault>
    ensures { ClosesDesk J.desk result }
{
    match gather(desk, ends) {
        Ok(Closed { book }) => Ok(book),
        Err(left) => Err(ServeFault::NotGathered(left.why)),
    }
}

/// Writes the report of a book. Nothing is written where memory is denied. Where a write fails the report
/// is told on standard error.
pub fn write_report<R: Clock + Eprint, W: Sink>(
    rt: &R,
    book: &Book,
    writer: &mut W,
) -> Result<(), ServeFault>
    ensures { Prints book.now (W.contents writer.old) (W.contents writer.new) result }
{
    let Ok(snapshot) = Snapshot::of(book.config().allocator(), book) else {
        return Err(ServeFault::Unprinted(Unprinted::Memory));
    };
    match print(&snapshot, writer) {
        Ok(()) => Ok(()),
        Err(_) => {
            tell_report(rt, &snapshot);
            Err(ServeFault::Write)
        }
    }
}
