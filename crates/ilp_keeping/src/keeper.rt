//! Where a journal is kept.
ghost use Rattle.std.specs.Prelude.{◌≡◌};
ghost use mathlib.Core.List.{IsPrefix};
ghost use Rattle.ilp_link_traits.specs.Links.{Tells};
ghost use Rattle.ilp_keeping.specs.Keeping.{keeping, asked, kept};

use ilp_desk::{JournalReceipt, Naming};
use thiserror::Error;

/// Nothing says that the journal is kept: it may be, or a beginning of it.
#[derive(Clone, Copy, Debug, PartialEq, Eq, Error)]
#[error("the journal is not kept")]
pub struct NotKept;

/// Keeps the journal of a desk. Where it tells, `told` is what it was asked, each with what it said.
pub trait Keeper<J: Naming> {
    ghost use Rattle.std.specs.Prelude.{List, Option, None};
    ghost use Rattle.ilp_keeping.specs.Keeping.{ToKeeper};

    ghost told: { Self → Option (List ToKeeper) } = { λ _. None };

    /// Whether entries are kept now. It is false from the first that was not kept on, until all are
    /// kept again.
    fn keeps(&mut self) -> bool
        ensures { Tells (told self.old) (asked result) (told self.new) };

    /// Keeps the journal that the receipt has seen, and returns once it is kept, or once nothing says
    /// that it will be. The receipt may be shown what the desk has booked since.
    fn keep(&mut self, receipt: &mut JournalReceipt<J>) -> Result<(), NotKept>
        ensures told { Tells (told self.old) (kept (keeping receipt.old result)) (told self.new) }
        ensures seen { IsPrefix receipt.old receipt.new };
}
