//! The keeper.
ghost use Rattle.std.specs.Prelude.{◌≡◌, []};

use ilp_desk::{JournalReceipt, Naming};
use ilp_grown_list::{GrownList, ListNaming, NewList, Tells};
use ilp_journal::Entry;
use ilp_keeping::{Keeper, NotKept};
use std::collections::LinkedList;

/// What a keeper was asked, with what it said. No value of it is made.
pub enum Heard {
    /// Whether entries are kept now.
    Asked(bool),
    /// To keep this journal, which it did.
    Kept(LinkedList<Entry>),
    /// To keep this journal, of which it said that it is not kept.
    NotKept(LinkedList<Entry>),
}

// It said that entries are kept now.
struct SaidTrue;

impl<J: Naming> Tells<JournalReceipt<J>, Heard> for SaidTrue {
    ghost use Rattle.std.specs.Prelude.{true};
    ghost use Rattle.test_keeping.specs.Telling.{heard_asked};

    ghost told = { λ list _. heard_asked true list };
}

// It said that they are not.
struct SaidFalse;

impl<J: Naming> Tells<JournalReceipt<J>, Heard> for SaidFalse {
    ghost use Rattle.std.specs.Prelude.{false};
    ghost use Rattle.test_keeping.specs.Telling.{heard_asked};

    ghost told = { λ list _. heard_asked false list };
}

// It said of the journal that a receipt has seen that it is kept.
struct SaidKept;

impl<J: Naming> Tells<JournalReceipt<J>, Heard> for SaidKept {
    ghost use Rattle.test_keeping.specs.Telling.{heard_kept};

    ghost told = { λ list receipt. heard_kept receipt list };
}

// It said that it is not.
struct SaidNotKept;

impl<J: Naming> Tells<JournalReceipt<J>, Heard> for SaidNotKept {
    ghost use Rattle.test_keeping.specs.Telling.{heard_not_kept};

    ghost told = { λ list receipt. heard_not_kept receipt list };
}

/// A keeper that keeps so many journals, and says of the next and all others that they are not kept. It tells what
/// it was asked, in proofs alone.
#[derive(Drop)]
pub struct TellingKeeper<J: Naming, K: ListNaming> {
    heard: GrownList<JournalReceipt<J>, Heard, K>,
    // What goes with what it said where it was handed no journal.
    receipt: JournalReceipt<J>,
    left: u32,
    keeps: bool,
}

impl<J: Naming, K: ListNaming> TellingKeeper<J, K> {
    ghost use Rattle.test_keeping.specs.Keepers.{heard_by};

    /// One that keeps so many journals, and was asked nothing.
    pub fn new(
        heard: NewList<JournalReceipt<J>, Heard>,
        receipt: JournalReceipt<J>,
        count: u32,
    ) -> TellingKeeper<J, K>
        requires { heard ≡ K.table }
        ensures { heard_by result ≡ [] }
    {
        TellingKeeper {
            heard: heard.named::<K>(),
            receipt,
            left: count,
            keeps: true,
        }
    }
}

impl<J: Naming, K: ListNaming> Keeper<J> for TellingKeeper<J, K> {
    ghost use Rattle.test_keeping.specs.Telling.{telling};

    ghost told = { λ k. telling k.heard };

    fn keeps(&mut self) -> bool {
        if self.keeps {
            self.heard.grow::<SaidTrue>(&self.receipt);
            true
        } else {
            self.heard.grow::<SaidFalse>(&self.receipt);
            false
        }
    }

    fn keep(&mut self, receipt: &mut JournalReceipt<J>) -> Result<(), NotKept> {
        match self.left.checked_sub(1) {
            Some(left) => {
                self.left = left;
                self.heard.grow::<SaidKept>(receipt);
                Ok(())
            }
            None => {
                self.keeps = false;
                self.heard.grow::<SaidNotKept>(receipt);
                Err(NotKept)
            }
        }
    }
}
