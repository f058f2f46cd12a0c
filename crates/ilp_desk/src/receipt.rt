//! The list that a desk's entries are told to, and receipts of those who have seen a beginning of it.
ghost use Rattle.std.specs.Prelude.{◌≡◌, length};
ghost use mathlib.Core.List.{IsPrefix};

use crate::naming::Naming;
use ilp_book::Book;
use ilp_grown_list::{GrownList, ListNaming, NewList, Seen, Tells};
use ilp_journal::Entry;
use std::marker::{Model, PhantomData};

/// A new list, which a desk is opened with: its entries are told to it.
pub type EntryList = NewList<Book, Entry>;

// The name of the list that a desk's entries are told to.
pub(crate) struct OfDesk<J>(PhantomData<J>);

impl<J: Naming> ListNaming for OfDesk<J> {
    ghost table = { J.list };
}

// A book tells its entries.
pub(crate) struct Booked;

impl Tells<Book, Entry> for Booked {
    ghost told = { λ _ book. book.entries };
}

// All entries of a desk, as a list that only grows. It exists in proofs alone.
pub(crate) type Entries<J> = GrownList<Book, Entry, OfDesk<J>>;

/// Has seen the journal of a desk. To a contract it is the list of its entries as they were seen,
/// which begins each journal that the desk has later.
#[derive(Drop)]
pub struct JournalReceipt<J: Naming> {
    seen: Seen<Book, Entry, OfDesk<J>>,
    len: u32,
}

impl<J: Naming> Model for JournalReceipt<J> {
    ghost use Rattle.std.specs.Prelude.{◌≡◌, length};
    ghost use mathlib.Core.List.{IsPrefix};
    ghost use Rattle.ilp_journal.specs.Journal.{Entries};

    ghost Value = { Entries };

    ghost view = { λ r. r.seen };

    ghost invariant = { λ r. (r.len ≡ length r.seen) × IsPrefix J.desk.opening r.seen };
}

impl<J: Naming> JournalReceipt<J> {
    // What was seen of a journal of the desk, and how many entries that is.
    pub(crate) fn new(seen: Seen<Book, Entry, OfDesk<J>>, len: u32) -> JournalReceipt<J>
        requires len { len ≡ length seen }
        requires begins { IsPrefix J.desk.opening seen }
        ensures { result ≡ seen }
    {
        JournalReceipt { seen, len }
    }

    /// How many entries it has seen, those of the opening journal among them.
    pub fn len(&self) -> u32
        ensures value { result ≡ length self.now }
        ensures begins { IsPrefix J.desk.opening self.now }
    {
        self.len
    }

    // Shows it a journal of the desk, of so many entries.
    pub(crate) fn show(&mut self, entries: &mut Entries<J>, len: u32)
        requires len { len ≡ length entries.old }
        requires begins { IsPrefix J.desk.opening entries.old }
        ensures begins { IsPrefix self.old entries.old }
        ensures seen { self.new ≡ entries.old }
        ensures same { entries.new ≡ entries.old }
    {
        entries.show(&mut self.seen);
        self.len = len;
    }
}
