//! The credits of a journal, by their keys and in their order.
ghost use Rattle.std.specs.Prelude.{◌≡◌, IfOk, OnOk, OnErr};
ghost use Rattle.ilp_settlement.specs.KeyTable.{entry_of};
ghost use Rattle.ilp_rules.specs.CreditTables.{no_credits, KeepsCredit};

use ilp_settlement::KeyTable;
use std::alloc::{AllocError, Allocator, Global};
use std::marker::Model;

/// The numbers of the credits of a journal: that under each key of a peer, and all of them in order,
/// so that what is brought forward is found without the entries between.
#[derive(Drop)]
pub struct CreditTable<A: Allocator = Global> {
    keys: KeyTable<A>,
    numbers: Vec<u32, A>,
}

impl<A: Allocator> Model for CreditTable<A> {
    ghost use Rattle.ilp_rules.specs.CreditTables.{PlainCredits};

    ghost Value = { PlainCredits };

    ghost view = { λ t. record { keys = t.keys; numbers = t.numbers.items } };
}

impl<A: Allocator + Clone> CreditTable<A> {
    /// A table of no credit. It takes no memory but for clones of the allocator; where one is denied,
    /// it is refused with `AllocError`.
    pub fn new(alloc: A) -> Result<CreditTable<A>, AllocError>
        ensures { IfOk result (λ table. table ≡ no_credits) }
    {
        Ok(CreditTable {
            keys: KeyTable::new(alloc.clone()?)?,
            numbers: Vec::new(alloc),
        })
    }

    /// Keeps the number of a credit under its key, as the last of all. `AllocError` tells that memory is
    /// short. Then the table is as before.
    pub fn keep(&mut self, peer: u32, key: &[u8], number: u32) -> Result<(), AllocError>
        ensures ok { OnOk result (KeepsCredit self.old self.new peer key.now number) }
        ensures err { OnErr result (self.new ≡ self.old) }
    {
        self.numbers.reserve(1)?;
        self.keys.keep(peer, key, number)?;
        self.numbers.push_reserved(number);
        Ok(())
    }
}

impl<A: Allocator> CreditTable<A> {
    /// The number of the credit that is kept under a key of a peer; none where nothing is. It takes no
    /// memory.
    pub fn find(&self, peer: u32, key: &[u8]) -> Option<u32>
        ensures { result ≡ entry_of self.now.keys peer key.now }
    {
        self.keys.find(peer, key)
    }

    /// The numbers of all credits, in order.
    pub fn numbers(&self) -> &[u32]
        ensures { result.now ≡ self.now.numbers }
    {
        self.numbers.as_slice()
    }
}
