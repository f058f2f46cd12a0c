//! A log under its lock.
ghost use Rattle.std.specs.Prelude.{IfOk};
ghost use mathlib.Core.List.{IsPrefix};
ghost use Rattle.ilp_log.specs.Lines.{lines_of};

use crate::fault::LogFault;
use crate::kept::Kept;
use crate::naming::LogNaming;
use crate::open_log::OpenLog;
use crate::turns::Turns;
use ilp_desk::{Desk, JournalReceipt, Naming};
use ilp_line_file::Device;
use std::alloc::Global;
use std::sync::{Mutex, MutexGuard, Wait};

/// A log under its lock, for the threads that book at a desk. A thread that has the desk's lock may not
/// ask it: the log's lock comes first.
#[derive(Drop)]
pub struct Log<J: Naming, K: LogNaming, D: Device + Drop> {
    locked: Mutex<OpenLog<J, K, D>>,
    turns: Turns<J, K, D>,
}

impl<J: Naming, K: LogNaming, D: Device + Drop> Log<J, K, D> {
    /// Puts a log under a lock.
    pub fn new(log: OpenLog<J, K, D>) -> Log<J, K, D> {
        Log {
            locked: Mutex::new(log),
            turns: Turns::new(),
        }
    }

    /// `OpenLog::commit`, by one thread after the other, and by one for all who wait: who finds its entries on
    /// the disk asks nothing of it. While a log that has failed is mended it is refused as `Failed` at once.
    pub fn commit(
        &self,
        rt: &impl Wait,
        alloc: Global,
        desk: &Desk<J>,
        receipt: &mut JournalReceipt<J>,
    ) -> Result<Kept<D, K>, LogFault>
        ensures seen { IsPrefix receipt.old receipt.new }
        ensures kept { D.claims → IfOk result
            (λ kept. IsPrefix (lines_of K.form receipt.old) kept.lines) }
    {
        match self.turns.wait(rt, receipt.len())? {
            Some(pass) => Ok(pass.redeem(rt, desk, receipt)),
            None => self.commit_in_turn(rt, alloc, desk, receipt),
        }
    }

    // The same, of a thread whose turn it is.
    fn commit_in_turn(
        &self,
        rt: &impl Wait,
        alloc: Global,
        desk: &Desk<J>,
        receipt: &mut JournalReceipt<J>,
    ) -> Result<Kept<D, K>, LogFault>
        ensures seen { IsPrefix receipt.old receipt.new }
        ensures kept { D.claims → IfOk result
            (λ kept. IsPrefix (lines_of K.form receipt.old) kept.lines) }
    {
        let mut log = self.locked.lock(rt);
        let told = log.commit(rt, alloc, desk, receipt);
        self.end_turn(rt, alloc, desk, log);
        told
    }

    /// `OpenLog::mend`, by one thread after the other. Nobody waits for a log that has failed while it is
    /// written anew: who commits meanwhile, or waited to, is refused as `Failed`, and so is who mends.
    pub fn mend(
        &self,
        rt: &impl Wait,
        alloc: Global,
        desk: &Desk<J>,
        receipt: &mut JournalReceipt<J>,
    ) -> Result<Kept<D, K>, LogFault>
        ensures seen { IsPrefix receipt.old receipt.new }
        ensures kept { D.claims → IfOk result
            (λ kept. IsPrefix (lines_of K.form receipt.old) kept.lines) }
    {
        let upto = receipt.len();
        match self.turns.wait(rt, upto)? {
            Some(pass) => Ok(pass.redeem(rt, desk, receipt)),
            None => self.mend_in_turn(rt, alloc, desk, receipt),
        }
    }

    // The same, of a thread whose turn it is.
    fn mend_in_turn(
        &self,
        rt: &impl Wait,
        alloc: Global,
        desk: &Desk<J>,
        receipt: &mut JournalReceipt<J>,
    ) -> Result<Kept<D, K>, LogFault>
        ensures seen { IsPrefix receipt.old receipt.new }
        ensures kept { D.claims → IfOk result
            (λ kept. IsPrefix (lines_of K.form receipt.old) kept.lines) }
    {
        let mut log = self.locked.lock(rt);
        if log.failed {
            self.turns.send_away(rt);
        }
        let told = log.mend(rt, alloc, desk, receipt);
        self.end_turn(rt, alloc, desk, log);
        told
    }

    // Ends a turn. Nobody is called to a log that isn't free.
    fn end_turn(
        &self,
        rt: &impl Wait,
        alloc: Global,
        desk: &Desk<J>,
        mut log: MutexGuard<'_, OpenLog<J, K, D>>,
    ) {
        let number = self.turns.end(rt, alloc, desk, &mut log);
        drop(log);
        self.turns.call(number);
    }

    /// The log, once nobody else has it.
    pub fn into_inner(self) -> OpenLog<J, K, D> {
        let Log { locked, turns: _ } = self;
        locked.into_inner()
    }
}
