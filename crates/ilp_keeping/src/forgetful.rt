//! A keeper of nothing.
ghost use Rattle.std.specs.Prelude.{◌≡◌, true, Ok};

use crate::keeper::{Keeper, NotKept};
use ilp_desk::{JournalReceipt, Naming};

/// The keeper of a connector that keeps no journal, for whose entries nobody waits. It says that all
/// is kept, and tells nothing.
#[derive(Clone, Copy, Debug)]
pub struct Forgetful;

impl<J: Naming> Keeper<J> for Forgetful {
    fn keeps(&mut self) -> bool
        ensures { result ≡ true }
    {
        true
    }

    fn keep(&mut self, _receipt: &mut JournalReceipt<J>) -> Result<(), NotKept>
        ensures kept { result ≡ Ok tt }
        ensures seen { _receipt.new ≡ _receipt.old }
    {
        Ok(())
    }
}
