//! What an actor is told.
ghost use Rattle.std.specs.Prelude.{◌≡◌, IfOk};
ghost use mathlib.Core.List.{IsPrefix};
ghost use Rattle.ilp_log.specs.Lines.{lines_of};

use crate::booking::Seen;
use ilp_desk::{Desk, JournalReceipt, Naming};
use ilp_line_file::Device;
use ilp_log::{Kept, Log, LogFault, LogNaming};
use std::alloc::Global;
use std::sync::Wait;

/// An actor was told that all is kept that it had seen.
#[derive(Drop)]
pub struct Told<J: Naming, K: LogNaming, D: Device> {
    /// What it had seen.
    pub seen: JournalReceipt<J>,
    /// What it was told.
    pub kept: Kept<D, K>,
}

/// Has all that an actor has seen be kept.
pub(crate) fn keep<J: Naming, K: LogNaming, D: Device + Drop>(
    rt: &impl Wait,
    alloc: Global,
    desk: &Desk<J>,
    log: &Log<J, K, D>,
    seen: Seen<J>,
) -> Result<Told<J, K, D>, LogFault>
    requires { seen.again ≡ seen.receipt }
    ensures seen { IfOk result (λ told. told.seen ≡ seen.receipt) }
    ensures kept { D.claims → IfOk result
        (λ told. IsPrefix (lines_of K.form told.seen) told.kept.lines) }
{
    let Seen { receipt, again } = seen;
    let mut again = again;
    match log.commit(rt, alloc, desk, &mut again) {
        Ok(kept) => Ok(Told {
            seen: receipt,
            kept,
        }),
        Err(fault) => Err(fault),
    }
}
