//! What is saved in a journal's file.
ghost use Rattle.std.specs.Prelude.{◌≡◌};

use crate::carrying::line_count;
use ilp_accounts::Config;
use ilp_book::Book;
use ilp_io::{Sink, WriteFault, put_all};
use ilp_journal_file::Content;

/// The text of a journal, which is to be saved as it is.
#[derive(Clone, Copy)]
pub(crate) struct SavedText<'t>(pub(crate) &'t [u8]);

impl Content for SavedText<'_> {
    ghost text = { λ saved. saved.0.now };

    fn entries(&self) -> u32 {
        // Beside its first line and its last.
        u32::try_from(line_count(self.0).saturating_sub(2)).unwrap_or(u32::MAX)
    }

    fn put<W: Sink>(&self, sink: &mut W) -> Result<(), WriteFault> {
        put_all(sink, self.0)
    }
}

/// A book whose journal is to be saved.
#[derive(Drop)]
pub struct Saved<'b> {
    /// The book.
    pub book: &'b Book,
    /// Its configuration.
    pub config: &'b Config,
    ghost own: { config.now ≡ book.now.config },
}

impl Content for Saved<'_> {
    ghost use Rattle.ilp_journal_text.specs.Text.{journal_text};

    ghost text = { λ saved. journal_text saved.config.now saved.book.now.period saved.book.now.entries };

    fn entries(&self) -> u32 {
        self.book.len()
    }

    fn put<W: Sink>(&self, sink: &mut W) -> Result<(), WriteFault> {
        self.book.save(self.config, sink)
    }
}
