//! A keeper of which each actor has one.
ghost use Rattle.std.specs.Prelude.{◌≡◌, true};
ghost use mathlib.Core.List.{IsPrefix};

use crate::forgetful::Forgetful;
use crate::keeper::Keeper;
use ilp_desk::{JournalReceipt, Naming};

/// A keeper of one journal, of which each actor of a desk is given one.
pub trait SharedKeeper<J: Naming>: Keeper<J> {
    /// One more keeper of that journal.
    fn another(&self) -> Self;

    /// Has all be kept that is booked, where something was not: shows it to the receipt, and tries once.
    /// Whether all is kept then that had been booked before.
    fn mend(&mut self, receipt: &mut JournalReceipt<J>) -> bool
        ensures seen { IsPrefix receipt.old receipt.new };
}

impl<J: Naming> SharedKeeper<J> for Forgetful {
    fn another(&self) -> Self {
        *self
    }

    fn mend(&mut self, _receipt: &mut JournalReceipt<J>) -> bool
        ensures kept { result ≡ true }
        ensures seen { _receipt.new ≡ _receipt.old }
    {
        true
    }
}
