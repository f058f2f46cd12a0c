//! The file of a desk's entries, with what it has seen of the desk and what it has told.
ghost use Rattle.std.specs.Prelude.{◌≡◌, ◌≤◌, ◌<◌, [], List, ℕ, length, IfOk, OnOk, OnErr};
ghost use mathlib.Core.List.{IsPrefix};
ghost use Rattle.ilp_line_file.specs.Device.{LeavesOnly};
ghost use Rattle.ilp_line_file.specs.Text.{recovered, text_of, IsBetween};
ghost use Rattle.ilp_line_file.specs.File.{IsSettled};
ghost use Rattle.ilp_log.specs.Lines.{lines_of, IsGroup};
ghost use Rattle.ilp_log.specs.Log.{IsKept, IsAllKept, written};

use crate::ack::{Ack, OnDisk};
use crate::fault::LogFault;
use crate::group::Group;
use crate::kept::Kept;
use crate::naming::LogNaming;
use crate::start::LogStart;
use ilp_desk::{Desk, JournalReceipt, LockedBook, Naming};
use ilp_grown_list::GrownList;
use ilp_journal::Entry;
use ilp_line_file::{Device, LineFile};
use std::alloc::{AllocError, Global};
use std::collections::LinkedList;
use std::marker::Model;
use std::sync::Wait;

/// What a log is to a contract. No value of it is made.
pub struct PlainLog<D> {
    /// Its device.
    pub device: D,
    /// The desk's entries as they were last seen.
    pub seen: LinkedList<Entry>,
    /// How many of them are on the disk, those before the base among them.
    pub count: u32,
}

/// The log of a desk. To a contract it is its device, the desk's entries as they were last seen, and how
/// many of them are on the disk.
#[derive(Drop)]
pub struct OpenLog<J: Naming, K: LogNaming, D: Device + Drop> {
    pub(crate) file: LineFile<D>,
    pub(crate) failed: bool,
    receipt: JournalReceipt<J>,
    pub(crate) count: u32,
    acks: GrownList<LineFile<D>, Ack, K>,
    pub(crate) start: LogStart,
}

impl<J: Naming, K: LogNaming, D: Device + Drop> Model for OpenLog<J, K, D> {
    ghost use Rattle.std.specs.Prelude.{◌≡◌, ◌≤◌, length};
    ghost use Rattle.ilp_log.specs.declared.open_log.PlainLog.{PlainLog};
    ghost use Rattle.ilp_log.specs.Log.{IsLog, IsStart};

    ghost Value = { PlainLog D };

    ghost view = { λ l. record { device = l.file.device; seen = l.receipt; count = l.count } };

    ghost invariant = { λ l. (K.form.config ≡ J.desk.config) × (l.count ≤ length l.receipt)
        × (D.claims → IsLog D.seen D.may_leave D.moment D.left_since K.form l.file l.failed
        l.receipt l.count l.acks) × (l.start.base ≤ l.count)
        × (D.claims → IsStart K.form l.start) };
}

impl<J: Naming, K: LogNaming, D: Device + Drop> OpenLog<J, K, D> {
    /// A log over a file that has its head alone. The entries before the base stand elsewhere. Nothing was
    /// told yet.
    pub fn begin(
        file: LineFile<D>,
        receipt: JournalReceipt<J>,
        start: LogStart,
        acks: GrownList<LineFile<D>, Ack, K>,
    ) -> OpenLog<J, K, D>
        requires config { K.form.config ≡ J.desk.config }
        requires settled { D.claims → IsSettled D.seen D.may_leave file }
        requires base { (K.form.base ≡ start.base) × (start.base ≤ length receipt) }
        requires head { D.claims → recovered (D.seen file.device) ≡ K.form.head }
        requires text { D.claims → start.head.items ≡ text_of K.form.head }
        requires acks { acks ≡ [] }
        ensures { result
            ≡ record { device = file.device; seen = receipt; count = start.base } }
    {
        let count = start.base;
        OpenLog {
            file,
            failed: false,
            receipt,
            count,
            acks,
            start,
        }
    }

    /// How many entries are on the disk, those before the base among them.
    pub fn count(&self) -> u32
        ensures value { result ≡ self.now.count }
        ensures within { result ≤ length self.now.seen }
    {
        self.count
    }

    // Sees the desk's journal.
    pub(crate) fn see(&mut self, book: &mut LockedBook<J>)
        ensures begins { IsPrefix self.old.seen book.old.entries }
        ensures seen { self.new ≡ record self.old { seen = book.old.entries } }
        ensures book { book.new ≡ book.old }
        ensures config { book.old.config ≡ K.form.config }
        ensures within { self.old.count ≤ length self.old.seen }
        ensures any_moment { D.claims → LeavesOnly D.moment D.left_since
            self.old.device self.new.device
            (IsBetween (lines_of K.form (written self.old)) (lines_of K.form book.old.entries)) }
    {
        book.show(&mut self.receipt);
    }

    // Sees the desk's journal, and copies the lines of entries that are not yet written.
    fn hand(&mut self, alloc: Global, book: &mut LockedBook<J>) -> Result<Group, AllocError>
        ensures begins { IsPrefix self.old.seen book.old.entries }
        ensures seen { self.new ≡ record self.old { seen = book.old.entries } }
        ensures book { book.new ≡ book.old }
        ensures within { self.old.count ≤ length self.old.seen }
        ensures group { IfOk result (λ group.
            IsGroup K.form.config book.old.entries self.old.count group.to group.text.items) }
        ensures any_moment { D.claims → LeavesOnly D.moment D.left_since
            self.old.device self.new.device
            (IsBetween (lines_of K.form (written self.old)) (lines_of K.form book.old.entries)) }
    {
        self.see(book);
        Group::of(alloc, book.book(), self.count())
    }

    // Writes a group behind what is written, with one sync.
    fn put(&mut self, group: &Group) -> Result<(), LogFault>
        requires { IsGroup K.form.config self.old.seen self.old.count group.now.to
            group.now.text.items }
        ensures seen { self.new.seen ≡ self.old.seen }
        ensures ok { OnOk result (self.new.count ≡ group.now.to) }
        ensures err { OnErr result (self.new.count ≡ self.old.count) }
        ensures any_moment { D.claims → LeavesOnly D.moment D.left_since
            self.old.device self.new.device
            (IsBetween (lines_of K.form (written self.old)) (lines_of K.form self.old.seen)) }
    {
        if self.failed {
            return Err(LogFault::Failed);
        }
        let text = group.text.as_slice();
        if text.len() > usize::MAX - self.file.end {
            return Err(LogFault::Failed);
        }
        self.failed = true;
        match self.file.append(text) {
            Ok(()) => {
                self.failed = false;
                self.count = group.to;
                Ok(())
            }
            Err(_) => Err(LogFault::Failed),
        }
    }

    /// Tells what is on the disk. It is refused as `Failed` where a call of the device has failed.
    pub fn tell(&mut self) -> Result<Kept<D, K>, LogFault>
        ensures same { self.new ≡ self.old }
        ensures kept { D.claims → IfOk result (λ kept. IsAllKept D.seen D.moment self.old.device
            (lines_of K.form (written self.old)) kept) }
        ensures any_moment { D.claims → LeavesOnly D.moment D.left_since
            self.old.device self.new.device
            (IsBetween (lines_of K.form (written self.old)) (lines_of K.form self.old.seen)) }
    {
        if self.failed {
            return Err(LogFault::Failed);
        }
        self.acks.grow::<OnDisk>(&self.file);
        Ok(Kept {
            seen: self.acks.seen(),
        })
    }

    // Sees the desk's journal under its lock, and shows it to the receipt.
    fn look(&mut self, rt: &impl Wait, desk: &Desk<J>, receipt: &mut JournalReceipt<J>)
        ensures begins { IsPrefix receipt.old receipt.new }
        ensures mine { IsPrefix self.old.seen receipt.new }
        ensures seen { self.new ≡ record self.old { seen = receipt.new } }
        ensures within { self.old.count ≤ length self.old.seen }
        ensures any_moment { D.claims → LeavesOnly D.moment D.left_since
            self.old.device self.new.device
            (IsBetween (lines_of K.form (written self.old)) (lines_of K.form receipt.new)) }
    {
        let mut book = desk.lock(rt);
        book.show(receipt);
        self.see(&mut book);
    }

    // The same, with the lines of entries that are not yet written.
    fn copy(
        &mut self,
        rt: &impl Wait,
        alloc: Global,
        desk: &Desk<J>,
        receipt: &mut JournalReceipt<J>,
    ) -> Result<Group, AllocError>
        ensures begins { IsPrefix receipt.old receipt.new }
        ensures mine { IsPrefix self.old.seen receipt.new }
        ensures seen { self.new ≡ record self.old { seen = receipt.new } }
        ensures within { self.old.count ≤ length self.old.seen }
        ensures group { IfOk result (λ group.
            IsGroup K.form.config receipt.new self.old.count group.to group.text.items) }
        ensures any_moment { D.claims → LeavesOnly D.moment D.left_since
            self.old.device self.new.device
            (IsBetween (lines_of K.form (written self.old)) (lines_of K.form receipt.new)) }
    {
        let mut book = desk.lock(rt);
        book.show(receipt);
        self.hand(alloc, &mut book)
    }

    // Writes a group of the desk's entries where some that the receipt has seen are not on the disk, and else
    // looks. Either takes the desk's lock once, for which all workers wait; it is free while the device is asked.
    fn write_or_look(
        &mut self,
        rt: &impl Wait,
        alloc: Global,
        desk: &Desk<J>,
        receipt: &mut JournalReceipt<J>,
    ) -> Result<(), LogFault>
        ensures begins { IsPrefix receipt.old receipt.new }
        ensures mine { IsPrefix self.old.seen receipt.new }
        ensures seen { self.new.seen ≡ receipt.new }
        ensures within { self.old.count ≤ length self.old.seen }
        ensures count { self.old.count ≤ self.new.count }
        ensures more { OnOk result
            (self.old.count < length receipt.old → self.old.count < self.new.count) }
        ensures any_moment { D.claims → LeavesOnly D.moment D.left_since
            self.old.device self.new.device
            (IsBetween (lines_of K.form (written self.old)) (lines_of K.form receipt.new)) }
    {
        if receipt.len() <= self.count() {
            self.look(rt, desk, receipt);
            return Ok(());
        }
        let group = self.copy(rt, alloc, desk, receipt)?;
        self.put(&group)
    }

    /// Sees that all entries that the receipt has seen are on the disk: writes those of the desk that are
    /// not, in groups with one sync each, until these are. Then it tells what is on the disk.
    ///
    /// Refusals: `Memory` where memory for the lines of a group was denied, and `Failed` from the first
    /// failure of the device on. In either case what was told before holds on.
    pub fn commit(
        &mut self,
        rt: &impl Wait,
        alloc: Global,
        desk: &Desk<J>,
        receipt: &mut JournalReceipt<J>,
    ) -> Result<Kept<D, K>, LogFault>
        // Both have then seen the desk's journal so far.
        ensures seen { IsPrefix receipt.old receipt.new }
        ensures mine { IsPrefix self.old.seen receipt.new }
        ensures last { self.new.seen ≡ receipt.new }

        // A crash at any moment of the call leaves the entries that were written before it, and none
        // that are not in the desk's journal.
        ensures any_moment { D.claims → LeavesOnly D.moment D.left_since
            self.old.device self.new.device
            (IsBetween (lines_of K.form (written self.old)) (lines_of K.form receipt.new)) }

        // What is told: all entries that the receipt had seen are on the disk now.
        ensures kept { D.claims → IfOk result (λ kept. IsKept D.seen D.moment self.new.device
            (lines_of K.form receipt.old) kept) }
    {
        let upto = receipt.len();
        self.write_or_look(rt, alloc, desk, receipt)?;
        while self.count() < upto {
            self.write_or_look(rt, alloc, desk, receipt)?;
        }
        self.tell()
    }

    /// `commit` of all entries of a desk that no other thread has: the book is what was under its lock.
    pub fn commit_all(
        &mut self,
        alloc: Global,
        book: &mut LockedBook<J>,
    ) -> Result<Kept<D, K>, LogFault>
        ensures book { book.new ≡ book.old }
        ensures any_moment { D.claims → LeavesOnly D.moment D.left_since
            self.old.device self.new.device
            (IsBetween (lines_of K.form (written self.old)) (lines_of K.form book.old.entries)) }

        // The file has the lines of all entries, and no other.
        ensures kept { D.claims → IfOk result (λ kept. IsAllKept D.seen D.moment self.new.device
            (lines_of K.form book.old.entries) kept) }
    {
        let upto = book.book().len();
        self.see(book);
        while self.count() < upto {
            let group = self.hand(alloc, book)?;
            self.put(&group)?;
        }
        self.tell()
    }

    /// Finds that what was told holds: each crash since that moment left these lines at least, and none
    /// that are not the desk's.
    pub fn find(&mut self, book: &mut LockedBook<J>, kept: Kept<D, K>)
        ensures log { self.new ≡ record self.old { seen = book.old.entries } }
        ensures book { book.new ≡ book.old }
        ensures earlier { D.claims → kept.moment ≤ D.moment self.old.device }
        ensures each { D.claims → (c : List ℕ) → D.left_since self.old.device kept.moment c
            → IsBetween kept.lines (lines_of K.form book.old.entries) c }
    {
        self.see(book);
        let Kept { seen } = kept;
        self.acks.check(seen);
    }

    /// The device, once nothing more is written.
    pub fn into_device(self) -> D
        ensures { result ≡ self.device }
    {
        let OpenLog { file, .. } = self;
        let LineFile { device, end: _ } = file;
        device
    }
}
