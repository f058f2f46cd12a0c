//! What the lock of a desk lends: the book, and its calls as sessions of the desk's actors.
ghost use Rattle.std.specs.Prelude.{◌≡◌, ◌+◌, ◌≤◌, IfOk, IfErr, OnErr, length, sum_by};
ghost use Rattle.std.specs.Option.{option_copied};
ghost use mathlib.Core.List.{IsPrefix};
ghost use Rattle.ilp_packet.specs.Packet.{plain_prepare};
ghost use Rattle.ilp_accounts.specs.Limits.{most_workers};
ghost use Rattle.ilp_journal.specs.BroughtForward.{earlier_key_at};
ghost use Rattle.ilp_book.specs.Book.{by, Does};
ghost use Rattle.ilp_book.specs.Configured.{IsKnown};
ghost use Rattle.ilp_book.specs.HoldStep.{incoming, hold_step, growth_of};
ghost use Rattle.ilp_book.specs.AnswerStep.{answer_step, expire_step};
ghost use Rattle.ilp_book.specs.SettleStep.{payment, open_settlement, credit_growth, credit_step, ask_growth, ask_step, close_step};
ghost use Rattle.ilp_report.specs.Report.{snapshot_of};
ghost use Rattle.ilp_desk.specs.Desk.{IsBookOf, actors_of, base_of};
ghost use Rattle.ilp_desk.specs.Session.{IsSession};
ghost use Rattle.ilp_desk.specs.Portion.{Holding};
ghost use Rattle.ilp_desk.specs.Gathering.{IsWhole};

use crate::end::End;
use crate::naming::Naming;
use crate::receipt::{Booked, Entries, EntryList, JournalReceipt, OfDesk};
use crate::share::Share;
use ilp_book::{
    AskFault, Asked, Book, CreditFault, EngineVerdict, Held, HoldFault, Kept, NotOpen, Outcome,
    PeerReply,
};
use ilp_journal::{CreditKind, Key};
use ilp_packet::Prepare;
use ilp_report::Snapshot;
use ilp_settlement::Quantity;
use std::alloc::{AllocError, Allocator};
use std::marker::Model;
use std::sync::ledger;

/// The book of a desk, and the ledger of what was booked since the desk was opened. Whoever takes
/// the lock finds a lawful book of the desk's configuration, whose journal begins with the opening
/// one and goes on with entries of the desk's actors, as many as the ledger counts. The entries are
/// told to a list that only grows, so that a receipt of it holds later.
#[derive(Drop)]
pub struct LockedBook<J: Naming> {
    book: Book,
    total: ledger::Book<J>,
    workers: u32,
    entries: Entries<J>,
}

impl<J: Naming> Model for LockedBook<J> {
    ghost use Rattle.std.specs.Prelude.{◌≡◌};
    ghost use Rattle.ilp_book.specs.Book.{PlainBook};
    ghost use Rattle.ilp_desk.specs.Session.{IsLocked};

    ghost Value = { PlainBook };

    ghost view = { λ l. l.book };

    ghost invariant = { λ l. IsLocked J.desk J.parts l.workers l.total.total l.book
        × (l.entries ≡ l.book.entries) };
}

impl<J: Naming> LockedBook<J> {
    // The book that a desk is opened with, of which nothing is counted yet; its entries are the first
    // that are told to the list.
    pub(crate) fn new(
        book: Book,
        total: ledger::Book<J>,
        workers: u32,
        list: EntryList,
    ) -> LockedBook<J>
        requires config { book.config ≡ J.desk.config }
        requires period { book.period ≡ J.desk.period }
        requires opening { book.entries ≡ J.desk.opening }
        requires base { book.base ≡ base_of J.desk }
        requires total { total.total ≡ 0 }
        requires cut { J.parts ≡ actors_of J.desk }
        requires workers { (workers ≡ J.desk.workers) × (workers ≤ most_workers) }
        requires list { list ≡ J.list }
        ensures { result ≡ book }
    {
        // Called for what its contract tells: the journal is lawful.
        let _ = book.entry(0);
        let mut entries = list.named::<OfDesk<J>>();
        entries.grow::<Booked>(&book);
        LockedBook {
            book,
            total,
            workers,
            entries,
        }
    }

    /// The book, which is of the desk: lawful, of its configuration, and begun by the journal that
    /// it was opened with.
    pub fn book(&self) -> &Book
        ensures value { result.now ≡ self.now }
        ensures of_desk { IsBookOf J.desk self.now }
    {
        &self.book
    }

    /// How many workers the desk has.
    pub fn workers(&self) -> u32
        ensures value { result ≡ J.desk.workers }
        ensures few { result ≤ most_workers }
    {
        self.workers
    }

    /// `Book::hold` by the share's actor, where `now` is in milliseconds since 1970. The refusals
    /// are those of `HoldFault`, in its order; each leaves the book and the share as they were.
    pub fn hold(
        &mut self,
        share: &mut Share<J>,
        from: u32,
        prepare: &Prepare<'_>,
        now: i64,
    ) -> Result<Held, HoldFault>
        requires known { IsKnown J.desk.config from }
        ensures step { Does self.old self.new result (hold_step self.old (by share.old.actor now)
            (incoming J.desk.config from (plain_prepare prepare.now)) (growth_of result)) }
        ensures session { IsSession J.desk self.old self.new share.old share.new }
        ensures err { OnErr result (self.new ≡ self.old) }
    {
        let before = self.book.len();
        let result = self.book.hold(share.actor(), from, prepare, now);
        share.count(&mut self.total, self.book.len() - before);
        self.entries.grow::<Booked>(&self.book);
        result
    }

    /// `Book::answer` by the share's actor, where `now` is in milliseconds since 1970. The refusal
    /// names the entry that ended the hold, if one did, and leaves the book and the share as they
    /// were.
    pub fn answer(
        &mut self,
        share: &mut Share<J>,
        number: u32,
        reply: PeerReply,
        now: i64,
    ) -> Result<Outcome, NotOpen>
        ensures step { Does self.old self.new result
            (answer_step self.old (by share.old.actor now) number reply) }
        ensures session { IsSession J.desk self.old self.new share.old share.new }
    {
        let before = self.book.len();
        let result = self.book.answer(share.actor(), number, reply, now);
        share.count(&mut self.total, self.book.len() - before);
        self.entries.grow::<Booked>(&self.book);
        result
    }

    /// `Book::expire_one` by the share's actor, where `now` is in milliseconds since 1970. Where
    /// none is due, the book and the share are left as they were.
    pub fn expire_one(&mut self, share: &mut Share<J>, now: i64) -> Option<u32>
        ensures step { Does self.old self.new result
            (expire_step self.old (by share.old.actor now)) }
        ensures session { IsSession J.desk self.old self.new share.old share.new }
    {
        let before = self.book.len();
        let result = self.book.expire_one(share.actor(), now);
        share.count(&mut self.total, self.book.len() - before);
        self.entries.grow::<Booked>(&self.book);
        result
    }

    /// `Book::credit` by the share's actor, where `now` is in milliseconds since 1970. The refusals
    /// are those of `CreditFault`, in its order; each leaves the book and the share as they were,
    /// and so does a key that is kept with an equal quantity and kind.
    pub fn credit(
        &mut self,
        share: &mut Share<J>,
        peer: u32,
        key: Key,
        quantity: &Quantity,
        kind: CreditKind,
        now: i64,
    ) -> Result<Kept, CreditFault>
        requires known { IsKnown J.desk.config peer }
        ensures step { Does self.old self.new result (credit_step self.old (by share.old.actor now)
            (payment peer key quantity.now kind) (credit_growth result)) }
        ensures session { IsSession J.desk self.old self.new share.old share.new }
        ensures err { OnErr result (self.new ≡ self.old) }
    {
        let before = self.book.len();
        let result = self
            .book
            .credit(share.actor(), peer, key, quantity, kind, now);
        share.count(&mut self.total, self.book.len() - before);
        self.entries.grow::<Booked>(&self.book);
        result
    }

    /// `Book::ask` by the share's actor, where `now` is in milliseconds since 1970. The refusals
    /// are those of `AskFault`, in its order; each leaves the book and the share as they were.
    pub fn ask(&mut self, share: &mut Share<J>, peer: u32, now: i64) -> Result<Asked, AskFault>
        requires known { IsKnown J.desk.config peer }
        ensures step { Does self.old self.new result
            (ask_step self.old (by share.old.actor now) peer (ask_growth result)) }
        ensures session { IsSession J.desk self.old self.new share.old share.new }
        ensures err { OnErr result (self.new ≡ self.old) }
    {
        let before = self.book.len();
        let result = self.book.ask(share.actor(), peer, now);
        share.count(&mut self.total, self.book.len() - before);
        self.entries.grow::<Booked>(&self.book);
        result
    }

    /// `Book::settle_close` by the share's actor, where `now` is in milliseconds since 1970. The
    /// refusal names the entry that closed the settlement, if one did, and leaves the book and the
    /// share as they were.
    pub fn settle_close(
        &mut self,
        share: &mut Share<J>,
        number: u32,
        verdict: EngineVerdict,
        now: i64,
    ) -> Result<u32, NotOpen>
        ensures step { Does self.old self.new result
            (close_step self.old (by share.old.actor now) number verdict) }
        ensures session { IsSession J.desk self.old self.new share.old share.new }
    {
        let before = self.book.len();
        let result = self.book.settle_close(share.actor(), number, verdict, now);
        share.count(&mut self.total, self.book.len() - before);
        self.entries.grow::<Booked>(&self.book);
        result
    }

    /// `Book::open_settlement`. No share is lent for it, and the book stays as it is.
    pub fn open_settlement(&self, peer: u32, tried: Option<u32>) -> Option<Asked>
        ensures value { result ≡ open_settlement self.now.entries peer tried }
        ensures of_desk { IsBookOf J.desk self.now }
    {
        self.book().open_settlement(peer, tried)
    }

    /// The key that the settlement of this number had in an earlier period, where it is of one. No share
    /// is lent for it, and the book stays as it is.
    pub fn earlier_key(&self, number: u32) -> Option<&Key>
        ensures { option_copied result ≡ earlier_key_at J.desk.opening number }
    {
        earlier_key_in(self.book(), number)
    }

    /// What the report of the book tells now, in units of each asset: see `Snapshot::of`. `AllocError`
    /// tells that memory is short. No share is lent for it, and the book stays as it is.
    pub fn snapshot<A: Allocator + Copy>(&self, alloc: A) -> Result<Snapshot<A>, AllocError>
        ensures value { IfOk result (λ snapshot. snapshot ≡ snapshot_of self.now) }
        ensures of_desk { IsBookOf J.desk self.now }
    {
        Snapshot::of(alloc, self.book())
    }

    /// A receipt for all entries so far, those of the last session too.
    pub fn receipt(&mut self) -> JournalReceipt<J>
        ensures all { result ≡ self.old.entries }
        ensures of_desk { IsBookOf J.desk self.old }
        ensures same { self.new ≡ self.old }
    {
        let len = self.book.len();
        let seen = self.entries.seen();
        JournalReceipt::new(seen, len)
    }

    /// Shows the journal to a receipt that was taken earlier: what it had seen begins the journal, and
    /// from now on it has seen all of it.
    pub fn show(&mut self, receipt: &mut JournalReceipt<J>)
        ensures begins { IsPrefix receipt.old self.old.entries }
        ensures seen { receipt.new ≡ self.old.entries }
        ensures of_desk { IsBookOf J.desk self.old }
        ensures same { self.new ≡ self.old }
    {
        let len = self.book.len();
        receipt.show(&mut self.entries, len);
    }

    /// The book alone, which nobody books in under this lock any more.
    pub fn into_book(self) -> Book
        ensures { result ≡ self }
    {
        let LockedBook {
            book,
            total: _,
            workers: _,
            entries: _,
        } = self;
        book
    }

    // What was under the lock, once the shares of all ends are put together.
    pub(crate) fn close(self, ends: Vec<End<J>>) -> LockedBook<J>
        requires { IsWhole J.desk self ends.items }
        ensures book { result ≡ self }
        ensures of_desk { IsBookOf J.desk self }
        ensures entries { sum_by (λ (h : Holding). h.share.entries) ends.items + base_of J.desk
            ≡ length self.entries }
    {
        let LockedBook {
            book,
            mut total,
            workers,
            entries,
        } = self;
        let mut left = ends;
        let Some(first) = left.pop() else {
            unreachable!();
        };
        let mut all = first.into_part();
        while let Some(end) = left.pop() {
            all.merge(end.into_part());
        }
        total.audit(&mut all);
        LockedBook {
            book,
            total,
            workers,
            entries,
        }
    }
}

// The key that the settlement of this number had in an earlier period, where it is of one.
fn earlier_key_in(book: &Book, number: u32) -> Option<&Key>
    ensures { option_copied result ≡ earlier_key_at book.now.entries number }
{
    match book.entry(number) {
        Some(entry) => entry.what.earlier_key(),
        None => None,
    }
}
