//! What comes behind the books of a period.
ghost use Rattle.std.specs.Prelude.{◌≡◌, IfOk, IfErr};
ghost use Rattle.ilp_book.specs.Reopened.{reopened};
ghost use Rattle.ilp_running.specs.Serving.{IsOfNoDesk};
ghost use Rattle.ilp_serve.specs.NextBooks.{ComesBehind};

use crate::telling::{line_of_config, line_of_refusal};
use ilp_accounts::Config;
use ilp_book::Book;
use ilp_new_period::next_of;
use ilp_running::ServeFault;
use ilp_starting::Refused;
use std::alloc::Global;

/// The books with which a connector goes on behind a period, and what whoever asked for another
/// configuration is told; nothing where memory for it is short.
#[derive(Drop)]
pub(crate) enum NextBooks {
    /// Those of the next period, beside those that ended.
    Next {
        ended: Book,
        next: Book,
        told: Option<String>,
    },
    /// The same go on, since there are no next ones for this reason.
    Same {
        book: Book,
        refused: Refused,
        told: Option<String>,
    },
}

/// What comes behind these books: the next ones by another configuration where one is given, else by their
/// own. Where there are none they are opened anew.
///
/// It is refused where neither can be.
pub(crate) fn next_books(
    alloc: Global,
    ended: Book,
    next: Option<Config>,
) -> Result<NextBooks, ServeFault>
    ensures behind { IfOk result (ComesBehind ended next) }
    ensures refused { IfErr result IsOfNoDesk }
{
    let begun = match &next {
        Some(config) => next_of(alloc, &ended, config),
        None => next_of(alloc, &ended, ended.config()),
    };
    match begun {
        Ok(next) => {
            let told = line_of_config(alloc, next.config());
            Ok(NextBooks::Next { ended, next, told })
        }
        Err(refused) => {
            let told = line_of_refusal(alloc, &refused);
            let book = opened_anew(ended, &refused)?;
            Ok(NextBooks::Same {
                book,
                refused,
                told,
            })
        }
    }
}

/// The same books, opened anew since there are no next ones for this reason. It is the refusal where they
/// can't be: a hold is open, though the desk's packets are over.
pub(crate) fn opened_anew(ended: Book, refused: &Refused) -> Result<Book, ServeFault>
    ensures book { IfOk result (λ book. book ≡ reopened ended) }
    ensures refused { IfErr result IsOfNoDesk }
{
    let mut book = ended;
    match book.reopen() {
        Ok(()) => Ok(book),
        Err(_) => Err(ServeFault::NextRefused(refused.refusal)),
    }
}
