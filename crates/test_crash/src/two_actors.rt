//! Two actors of a desk, in threads of their own.
ghost use Rattle.std.specs.Prelude.{◌≡◌, ◌≤◌, length, IfSome};
ghost use Rattle.std.specs.Thread.{IsSync};
ghost use mathlib.Core.List.{IsPrefix};
ghost use Rattle.ilp_desk.specs.Desk.{actors_of, base_of};
ghost use Rattle.ilp_line_file.specs.File.{IsSettled};
ghost use Rattle.ilp_line_file.specs.Text.{recovered, text_of};
ghost use Rattle.ilp_log.specs.Lines.{lines_of};

use crate::booking::{Booked, credit};
use crate::told::{Told, keep};
use ilp_accounts::Config;
use ilp_book::Book;
use ilp_desk::{Desk, EntryList, Naming, Share};
use ilp_grown_list::NewList;
use ilp_journal::Key;
use ilp_line_file::{Device, LineFile};
use ilp_log::{Ack, BegunLog, Log, LogNaming, OpenLog};
use ilp_settlement::Quantity;
use std::alloc::Global;
use std::sync::Wait;
use std::sync::ledger::Blank;
use std::thread::{Threads, join};

/// What a desk and its log are opened with.
#[derive(Drop)]
pub struct Opening<D: Device + Drop> {
    pub book: Book,
    pub list: EntryList,
    pub begun: BegunLog<D>,
    pub acks: NewList<LineFile<D>, Ack>,
}

/// What both actors were told, and what they share.
#[derive(Drop)]
pub struct BothTold<J: Naming, K: LogNaming, D: Device + Drop> {
    pub desk: Desk<J>,
    pub log: OpenLog<J, K, D>,
    pub first: Told<J, K, D>,
    pub second: Told<J, K, D>,
}

// A credit of one unit from the first peer, when it comes.
const ONE: Quantity = Quantity {
    amount: 1,
    scale: 2,
};

// Books a credit from the first peer under this key, and has it kept.
fn credit_and_keep<J: Naming, K: LogNaming, D: Device + Drop>(
    rt: &impl Wait,
    alloc: Global,
    desk: &Desk<J>,
    log: &Log<J, K, D>,
    mut share: Share<J>,
    key: &[u8],
    now: i64,
) -> Option<Told<J, K, D>>
    ensures { D.claims → IfSome result
        (λ told. IsPrefix (lines_of K.form told.seen) told.kept.lines) }
{
    let Ok(Some(key)) = Key::new(alloc, key) else {
        return None;
    };
    if desk.config().peers() == 0 {
        return None;
    }
    let Some(booked) = credit(rt, desk, &mut share, 0, key, &ONE, now) else {
        return None;
    };
    let Booked { reply: _, seen } = booked;
    match keep(rt, alloc, desk, log, seen) {
        Ok(told) => Some(told),
        Err(_) => None,
    }
}

/// Opens a desk and its log, and has two actors each book a credit and have it kept, at once. It is none where
/// one of them is not told so.
pub fn told_to_two<J, K, D, R>(
    rt: &R,
    config: &Config,
    opening: Opening<D>,
    blanks: Blank,
    now: i64,
) -> Option<BothTold<J, K, D>>
where
    J: Naming + Send + Sync,
    K: LogNaming + Send + Sync,
    D: Device + Drop + Send,
    R: Threads + Wait + Sync,
    requires config { (config.now ≡ J.desk.config) × (opening.book.config ≡ J.desk.config) }
    requires workers { 1 ≡ J.desk.workers }
    requires period { opening.book.period ≡ J.desk.period }
    requires entries { (opening.book.entries ≡ J.desk.opening)
        × (opening.book.base ≡ base_of J.desk) }
    requires ledger { (blanks.name ≡ J.name) × (blanks.parts ≡ J.parts) }
    requires parts { J.parts ≡ actors_of J.desk }
    requires list { opening.list ≡ J.list }
    requires form { K.form.config ≡ J.desk.config }
    requires base { (K.form.base ≡ opening.begun.start.base)
        × (opening.begun.start.base ≤ length J.desk.opening) }
    requires settled { D.claims → IsSettled D.seen D.may_leave opening.begun.file }
    requires head { D.claims → recovered (D.seen opening.begun.file.device) ≡ K.form.head }
    requires text { D.claims → opening.begun.start.head.items ≡ text_of K.form.head }
    requires acks { opening.acks ≡ K.table }
    ensures first { D.claims → IfSome result
        (λ both. IsPrefix (lines_of K.form both.first.seen) both.first.kept.lines) }
    ensures second { D.claims → IfSome result
        (λ both. IsPrefix (lines_of K.form both.second.seen) both.second.kept.lines) }
{
    let alloc = config.allocator();
    let Opening {
        book,
        list,
        begun,
        acks,
    } = opening;
    let (desk, mut shares) = Desk::<J>::open(alloc, config, book, 1, blanks, list).ok()?;
    let log = Log::new(begin::<J, K, D>(rt, &desk, begun, acks));
    let _settler = shares.pop()?;
    let one = shares.pop()?;
    let zero = shares.pop()?;
    let (first, second) = at_once(rt, alloc, &desk, &log, zero, one, now);
    both_told(desk, log.into_inner(), first, second)
}

// The log of a desk that was opened just now.
fn begin<J: Naming, K: LogNaming, D: Device + Drop>(
    rt: &impl Wait,
    desk: &Desk<J>,
    begun: BegunLog<D>,
    acks: NewList<LineFile<D>, Ack>,
) -> OpenLog<J, K, D>
    requires form { K.form.config ≡ J.desk.config }
    requires base { (K.form.base ≡ begun.start.base)
        × (begun.start.base ≤ length J.desk.opening) }
    requires settled { D.claims → IsSettled D.seen D.may_leave begun.file }
    requires head { D.claims → recovered (D.seen begun.file.device) ≡ K.form.head }
    requires text { D.claims → begun.start.head.items ≡ text_of K.form.head }
    requires acks { acks ≡ K.table }
{
    let receipt = desk.receipt(rt);
    // Called for what its contract tells: what the desk was opened with begins what was seen.
    let _ = receipt.len();
    let BegunLog { file, start } = begun;
    OpenLog::begin(file, receipt, start, acks.named::<K>())
}

// Two actors book and have it kept, each in a thread.
fn at_once<J, K, D, R>(
    rt: &R,
    alloc: Global,
    desk: &Desk<J>,
    log: &Log<J, K, D>,
    zero: Share<J>,
    one: Share<J>,
    now: i64,
) -> (Option<Told<J, K, D>>, Option<Told<J, K, D>>)
where
    J: Naming + Send + Sync,
    K: LogNaming + Send + Sync,
    D: Device + Drop + Send,
    R: Threads + Wait + Sync,
    ensures first { D.claims → IfSome result.0
        (λ told. IsPrefix (lines_of K.form told.seen) told.kept.lines) }
    ensures second { D.claims → IfSome result.1
        (λ told. IsPrefix (lines_of K.form told.seen) told.kept.lines) }
{
    join(
        rt,
        || -> Option<Told<J, K, D>>
            ensures { D.claims → IfSome result
                (λ told. IsPrefix (lines_of K.form told.seen) told.kept.lines) }
        { credit_and_keep(rt, alloc, desk, log, zero, b"k", now) },
        || -> Option<Told<J, K, D>>
            ensures { D.claims → IfSome result
                (λ told. IsPrefix (lines_of K.form told.seen) told.kept.lines) }
        { credit_and_keep(rt, alloc, desk, log, one, b"l", now) },
    )
}

// What both were told, where both were.
fn both_told<J: Naming, K: LogNaming, D: Device + Drop>(
    desk: Desk<J>,
    log: OpenLog<J, K, D>,
    first: Option<Told<J, K, D>>,
    second: Option<Told<J, K, D>>,
) -> Option<BothTold<J, K, D>>
    requires first { D.claims → IfSome first
        (λ told. IsPrefix (lines_of K.form told.seen) told.kept.lines) }
    requires second { D.claims → IfSome second
        (λ told. IsPrefix (lines_of K.form told.seen) told.kept.lines) }
    ensures first { D.claims → IfSome result
        (λ both. IsPrefix (lines_of K.form both.first.seen) both.first.kept.lines) }
    ensures second { D.claims → IfSome result
        (λ both. IsPrefix (lines_of K.form both.second.seen) both.second.kept.lines) }
{
    match (first, second) {
        (Some(first), Some(second)) => Some(BothTold {
            desk,
            log,
            first,
            second,
        }),
        _ => None,
    }
}
