//! A log that is written anew, where its device has failed.
ghost use Rattle.std.specs.Prelude.{◌≡◌, ◌≤◌, ◌<◌, ◌++◌, length, IfOk, OnOk, OnErr};
ghost use mathlib.Core.List.{IsPrefix};
ghost use Rattle.ilp_line_file.specs.Device.{LeavesOnly};
ghost use Rattle.ilp_line_file.specs.Text.{IsBetween};
ghost use Rattle.ilp_log.specs.Lines.{lines_of, IsGroup};
ghost use Rattle.ilp_log.specs.Log.{IsAnew, IsKept, written};

use crate::fault::LogFault;
use crate::group::Group;
use crate::kept::Kept;
use crate::naming::LogNaming;
use crate::open_log::OpenLog;
use ilp_desk::{Desk, JournalReceipt, Naming};
use ilp_line_file::Device;
use std::alloc::{AllocError, Global};
use std::sync::Wait;

/// How far the new file is written that is to take the place of a log's.
#[derive(Clone, Copy)]
pub(crate) struct Anew {
    /// How many entries it has, those before the base among them.
    pub(crate) count: u32,
    /// How many octets.
    pub(crate) end: usize,
}

impl<J: Naming, K: LogNaming, D: Device + Drop> OpenLog<J, K, D> {
    // Begins a new file with the head. From here on the log fails, until the new file takes its place.
    fn begin_anew(&mut self) -> Result<Anew, LogFault>
        ensures seen { self.new.seen ≡ self.old.seen }
        ensures count { self.new.count ≡ self.old.count }
        ensures within { IfOk result (λ anew. anew.count ≤ self.old.count) }
        ensures anew { D.claims
            → IfOk result (IsAnew K.form self.old.seen (D.anew self.new.device)) }
        ensures any_moment { D.claims → LeavesOnly D.moment D.left_since
            self.old.device self.new.device
            (IsBetween (lines_of K.form (written self.old)) (lines_of K.form self.old.seen)) }
    {
        self.failed = true;
        self.file.device.open_anew()?;
        self.file.device.write_anew(&self.start.head)?;
        Ok(Anew {
            count: self.start.base,
            end: self.start.head.len(),
        })
    }

    // Sees the desk's journal, and copies the lines of its entries from a number on.
    fn copy_from(
        &mut self,
        rt: &impl Wait,
        alloc: Global,
        desk: &Desk<J>,
        from: u32,
    ) -> Result<Group, AllocError>
        requires { from ≤ length self.old.seen }
        ensures mine { IsPrefix self.old.seen self.new.seen }
        ensures same { self.new ≡ record self.old { seen = self.new.seen } }
        ensures within { self.old.count ≤ length self.old.seen }
        ensures group { IfOk result (λ group.
            IsGroup K.form.config self.new.seen from group.to group.text.items) }
        ensures any_moment { D.claims → LeavesOnly D.moment D.left_since
            self.old.device self.new.device
            (IsBetween (lines_of K.form (written self.old)) (lines_of K.form self.new.seen)) }
    {
        let mut book = desk.lock(rt);
        self.see(&mut book);
        Group::of(alloc, book.book(), from)
    }

    // Writes behind what the new file has.
    fn write_anew(&mut self, text: &[u8]) -> Result<(), LogFault>
        ensures seen { self.new.seen ≡ self.old.seen }
        ensures count { self.new.count ≡ self.old.count }
        ensures written { D.claims → OnOk result
            (D.anew self.new.device ≡ D.anew self.old.device ++ text.now) }
        ensures any_moment { D.claims → LeavesOnly D.moment D.left_since
            self.old.device self.new.device
            (IsBetween (lines_of K.form (written self.old)) (lines_of K.form self.old.seen)) }
    {
        self.failed = true;
        self.file.device.write_anew(text)?;
        Ok(())
    }

    // Writes a group behind what the new file has.
    fn put_anew(&mut self, group: &Group, anew: Anew) -> Result<Anew, LogFault>
        requires group { IsGroup K.form.config self.old.seen anew.count group.now.to
            group.now.text.items }
        requires anew { D.claims → IsAnew K.form self.old.seen (D.anew self.old.device) anew }
        ensures seen { self.new.seen ≡ self.old.seen }
        ensures count { self.new.count ≡ self.old.count }
        ensures to { IfOk result (λ next. next.count ≡ group.now.to) }
        ensures anew { D.claims
            → IfOk result (IsAnew K.form self.old.seen (D.anew self.new.device)) }
        ensures any_moment { D.claims → LeavesOnly D.moment D.left_since
            self.old.device self.new.device
            (IsBetween (lines_of K.form (written self.old)) (lines_of K.form self.old.seen)) }
    {
        let text = group.text.as_slice();
        self.write_anew(text)?;
        let Some(end) = anew.end.checked_add(text.len()) else {
            return Err(LogFault::Failed);
        };
        Ok(Anew {
            count: group.to,
            end,
        })
    }

    // Writes a group of the desk's entries behind what the new file has. The desk's lock is free while the
    // device is asked.
    fn add_anew(
        &mut self,
        rt: &impl Wait,
        alloc: Global,
        desk: &Desk<J>,
        anew: Anew,
    ) -> Result<Anew, LogFault>
        requires within { anew.count ≤ length self.old.seen }
        requires anew { D.claims → IsAnew K.form self.old.seen (D.anew self.old.device) anew }
        ensures mine { IsPrefix self.old.seen self.new.seen }
        ensures count { self.new.count ≡ self.old.count }
        ensures first { self.old.count ≤ length self.old.seen }
        ensures within { IfOk result (λ next. next.count ≤ length self.new.seen) }
        ensures more { IfOk result
            (λ next. anew.count < length self.old.seen → anew.count < next.count) }
        ensures anew { D.claims
            → IfOk result (IsAnew K.form self.new.seen (D.anew self.new.device)) }
        ensures any_moment { D.claims → LeavesOnly D.moment D.left_since
            self.old.device self.new.device
            (IsBetween (lines_of K.form (written self.old)) (lines_of K.form self.new.seen)) }
    {
        let group = self.copy_from(rt, alloc, desk, anew.count)?;
        self.put_anew(&group, anew)
    }

    // Has the new file take the place of the old one. From here on the log goes on.
    fn take_place(&mut self, anew: Anew) -> Result<(), LogFault>
        requires later { self.old.count ≤ anew.count }
        requires within { anew.count ≤ length self.old.seen }
        requires anew { D.claims → IsAnew K.form self.old.seen (D.anew self.old.device) anew }
        ensures seen { self.new.seen ≡ self.old.seen }
        ensures ok { OnOk result (self.new.count ≡ anew.count) }
        ensures err { OnErr result (self.new.count ≡ self.old.count) }
        ensures any_moment { D.claims → LeavesOnly D.moment D.left_since
            self.old.device self.new.device
            (IsBetween (lines_of K.form (written self.old)) (lines_of K.form self.old.seen)) }
    {
        self.failed = true;
        self.file.take_place(anew.end)?;
        self.failed = false;
        self.count = anew.count;
        Ok(())
    }

    // Where the log has failed: writes all anew that it has had, in groups with one sync in the end, into a
    // new file, which then takes its place.
    fn renew(&mut self, rt: &impl Wait, alloc: Global, desk: &Desk<J>) -> Result<(), LogFault>
        ensures mine { IsPrefix self.old.seen self.new.seen }
        ensures first { self.old.count ≤ length self.old.seen }
        ensures count { self.old.count ≤ self.new.count }
        ensures any_moment { D.claims → LeavesOnly D.moment D.left_since
            self.old.device self.new.device
            (IsBetween (lines_of K.form (written self.old)) (lines_of K.form self.new.seen)) }
    {
        let upto = self.count();
        let mut anew = self.begin_anew()?;
        while anew.count < upto {
            anew = self.add_anew(rt, alloc, desk, anew)?;
        }
        self.take_place(anew)
    }

    // `renew`, unless the log goes on.
    fn renew_failed(
        &mut self,
        rt: &impl Wait,
        alloc: Global,
        desk: &Desk<J>,
    ) -> Result<(), LogFault>
        ensures mine { IsPrefix self.old.seen self.new.seen }
        ensures first { self.old.count ≤ length self.old.seen }
        ensures count { self.old.count ≤ self.new.count }
        ensures any_moment { D.claims → LeavesOnly D.moment D.left_since
            self.old.device self.new.device
            (IsBetween (lines_of K.form (written self.old)) (lines_of K.form self.new.seen)) }
    {
        if self.failed {
            self.renew(rt, alloc, desk)
        } else {
            Ok(())
        }
    }

    /// `commit`, also where a call of the device has failed: then all that the log has had is written anew
    /// before, into a new file that takes the place of this one.
    ///
    /// Refusals: `Memory` where memory for the lines of a group was denied, and `Failed` where a call of the
    /// device fails again. In either case what was told before holds on.
    pub fn mend(
        &mut self,
        rt: &impl Wait,
        alloc: Global,
        desk: &Desk<J>,
        receipt: &mut JournalReceipt<J>,
    ) -> Result<Kept<D, K>, LogFault>
        // The receipt has then seen the desk's journal so far.
        ensures seen { IsPrefix receipt.old receipt.new }

        // A crash at any moment of the call leaves the entries that were written before it, and none
        // that are not in the desk's journal.
        ensures any_moment { D.claims → LeavesOnly D.moment D.left_since
            self.old.device self.new.device
            (IsBetween (lines_of K.form (written self.old)) (lines_of K.form self.new.seen)) }

        // What is told: all entries that the receipt had seen are on the disk now.
        ensures kept { D.claims → IfOk result (λ kept. IsKept D.seen D.moment self.new.device
            (lines_of K.form receipt.old) kept) }
    {
        self.renew_failed(rt, alloc, desk)?;
        self.commit(rt, alloc, desk, receipt)
    }
}
