//! What a journal remembers of the configuration by which it was last run.
ghost use Rattle.std.specs.Prelude.{IfErr, OnOk};
ghost use Rattle.ilp_starting.specs.Remembering.{IsUnchanged, IsWhyNotUnchanged};

use crate::refused::Refused;
use ilp_book::Book;
use ilp_notices::{journal_of_another_asset, journal_of_another_run};
use ilp_refusals::Refusal;
use ilp_remembered::{Change, change_of};
use std::alloc::AllocGlobal;
use std::io::Eprint;
use std::time::Clock;

/// Finds that a book's configuration has the run and the assets that this text says, which was remembered of
/// the one before, as far as something hangs on them.
///
/// Refusals: `JournalUnread`, of which a line on standard error says more; `Memory`.
pub(crate) fn expect_unchanged<R>(
    rt: &R,
    path: &str,
    book: &Book,
    text: &[u8],
) -> Result<(), Refused>
where
    R: AllocGlobal + Clock + Eprint,
    ensures ok { OnOk result (IsUnchanged book.now.config book.now.entries text.now) }
    ensures err { IfErr result
        (λ r. IsWhyNotUnchanged book.now.config book.now.entries text.now r.refusal) }
{
    let Some(change) = change_of(rt.alloc(), book, text)? else {
        return Ok(());
    };
    match change {
        Change::Run { peer } => journal_of_another_run(rt, path, book.config(), peer),
        Change::Asset { peer } => journal_of_another_asset(rt, path, book.config(), peer),
    }
    Err(Refused::from(Refusal::JournalUnread))
}
