//! A keeper that keeps as often as a scene says.

use ilp_desk::{JournalReceipt, Naming};
use ilp_workers::{Keeper, NotKept};

/// Keeps so many journals, and says of the next and all others that they are not kept.
#[derive(Drop)]
pub(crate) struct Keeping {
    left: u32,
    keeps: bool,
}

impl Keeping {
    /// One that keeps so many.
    pub(crate) fn new(count: u32) -> Keeping {
        Keeping {
            left: count,
            keeps: true,
        }
    }
}

impl<J: Naming> Keeper<J> for Keeping {
    fn keeps(&mut self) -> bool {
        self.keeps
    }

    fn keep(&mut self, _receipt: &mut JournalReceipt<J>) -> Result<(), NotKept> {
        match self.left.checked_sub(1) {
            Some(left) => {
                self.left = left;
                Ok(())
            }
            None => {
                self.keeps = false;
                Err(NotKept)
            }
        }
    }
}
