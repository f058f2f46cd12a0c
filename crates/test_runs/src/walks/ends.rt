//! How holds and settlements end.

use crate::walks::what_at;
use ilp_book::Book;
use ilp_journal::What;
use std::alloc::{AllocError, Global};

/// Which entry ended which, as far as a walk over a book has come.
#[derive(Drop)]
pub(crate) struct Ends {
    closers: Vec<Option<u32>>,
}

impl Ends {
    /// A walk to the last entry of the book. `AllocError` tells that memory is short.
    pub(crate) fn of(alloc: Global, book: &Book) -> Result<Ends, AllocError> {
        let mut ends = Ends {
            closers: Vec::new(alloc),
        };
        ends.walk_on(book)?;
        Ok(ends)
    }

    /// Goes on to the last entry of the book. `AllocError` tells that memory is short.
    pub(crate) fn walk_on(&mut self, book: &Book) -> Result<(), AllocError> {
        for place in self.closers.len()..book.len() as usize {
            self.closers.push(None)?;
            let number = u32::try_from(place).unwrap_or(0);
            if let Some(ended) = ended_by(book, number) {
                self.note(ended, number);
            }
        }
        Ok(())
    }

    // Notes that an entry ended another, unless one did before.
    fn note(&mut self, ended: u32, number: u32) {
        if let Some(closer) = self.closers.get_mut(ended as usize) {
            *closer = closer.or(Some(number));
        }
    }

    /// The first entry that fulfills or releases the hold of this number, or confirms or undoes the
    /// settlement.
    pub(crate) fn closer_of(&self, number: u32) -> Option<u32> {
        match self.closers.get(number as usize) {
            Some(closer) => *closer,
            None => None,
        }
    }
}

/// The hold that an entry fulfills or releases, or the settlement that it confirms or undoes.
pub(crate) fn ended_by(book: &Book, number: u32) -> Option<u32> {
    match what_at(book, number) {
        Some(What::Fulfilled { hold, .. }) => Some(*hold),
        Some(What::Released { hold, .. }) => Some(*hold),
        Some(What::Confirmed { ask }) => Some(*ask),
        Some(What::Undone { ask }) => Some(*ask),
        _ => None,
    }
}
