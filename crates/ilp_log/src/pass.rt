//! What lets one go whose entries another has put on the disk.
ghost use Rattle.std.specs.Prelude.{◌≡◌, ◌≤◌, length, take};
ghost use mathlib.Core.List.{IsPrefix};
ghost use Rattle.ilp_log.specs.Lines.{lines_of};

use crate::fault::LogFault;
use crate::kept::Kept;
use crate::naming::LogNaming;
use crate::open_log::OpenLog;
use ilp_desk::{Desk, JournalReceipt, LockedBook, Naming};
use ilp_line_file::Device;
use std::marker::Model;
use std::sync::Wait;

/// What a pass is to a contract. No value of it is made.
pub struct PlainPass {
    /// How many entries are on the disk.
    pub count: u32,
}

/// Lets one go whose entries another has put on the disk: a token that the first so many entries are, of a
/// journal that the desk had.
#[derive(Drop)]
pub(crate) struct Pass<J: Naming, K: LogNaming, D: Device> {
    receipt: JournalReceipt<J>,
    count: u32,
    kept: Kept<D, K>,
}

impl<J: Naming, K: LogNaming, D: Device> Model for Pass<J, K, D> {
    ghost use Rattle.std.specs.Prelude.{◌≤◌, length, take};
    ghost use mathlib.Core.List.{IsPrefix};
    ghost use Rattle.ilp_log.specs.declared.pass.PlainPass.{PlainPass};
    ghost use Rattle.ilp_log.specs.Lines.{lines_of};

    ghost Value = { PlainPass };

    ghost view = { λ p. record { count = p.count } };

    ghost invariant = { λ p. (p.count ≤ length p.receipt)
        × (D.claims → IsPrefix (lines_of K.form (take p.count p.receipt)) p.kept.lines) };
}

impl<J: Naming, K: LogNaming, D: Device + Drop> Pass<J, K, D> {
    /// A pass for what a log has on the disk now.
    pub(crate) fn of(
        log: &mut OpenLog<J, K, D>,
        book: &mut LockedBook<J>,
    ) -> Result<Pass<J, K, D>, LogFault> {
        log.see(book);
        let receipt = book.receipt();
        let kept = log.tell()?;
        let count = log.count();
        Ok(Pass {
            receipt,
            count,
            kept,
        })
    }

    /// How many entries are on the disk, those before the log's base among them.
    pub(crate) fn count(&self) -> u32
        ensures { result ≡ self.now.count }
    {
        self.count
    }

    /// The token, for one who has seen no more entries than that. Both receipts are held against the desk's
    /// journal, since only that tells that one begins the other.
    pub(crate) fn redeem(
        self,
        rt: &impl Wait,
        desk: &Desk<J>,
        receipt: &mut JournalReceipt<J>,
    ) -> Kept<D, K>
        requires enough { length receipt.old ≤ self.count }
        ensures seen { IsPrefix receipt.old receipt.new }
        ensures kept { D.claims → IsPrefix (lines_of K.form receipt.old) result.lines }
    {
        let Pass {
            receipt: earlier,
            count: _,
            kept,
        } = self;
        let mut earlier = earlier;
        let mut book = desk.lock(rt);
        book.show(receipt);
        book.show(&mut earlier);
        kept
    }
}
