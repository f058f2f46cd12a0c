//! The rules of a journal: which entries a configuration allows next, the tables that are kept beside
//! a journal so that no call goes over its entries, and how a journal is carried over from one run
//! of the connector to the next, entry by entry, also behind a crash.
//!
//! What a book is, when it is lawful, and what is open in it are defined here (`specs/`); the calls
//! that book are those of `ilp_book`, which is made of these parts.
//!
//! # What is proved
//!
//! - `Beginning::carry_over` answers what a book begins with by a text (`specs/Carry.antt`,
//!   `IsCarriedOver`): the text's entries are lawful with the base behind them, and behind them are
//!   the ends of their open holds. Else it names the first bad line of a text that is none, or the
//!   first entry at which the journal of one stops being lawful and a rule that this breaks
//!   (`IsWhyNotCarried`, `specs/Broken.antt`), or is short of memory.
//! - `Beginning::recover` does so of a text and the lines of entries that were logged behind it, judged
//!   as one journal (`specs/Recover.antt`). A bad line of the text is told first, then one of the log,
//!   then an unlawful entry, of all of them.
//! - What was brought forward from an earlier period begins the journal of a period above 0
//!   (`specs/Heads.antt`, `StandsInHead`): before all other kinds, each balance once and not 0, each
//!   key of a credit once, few enough settlements, and each of these under a key that no other one
//!   has, and none of this period or a later one gets.
//! - `Carrying` is a journal that is begun, lawful as far as it has come: `push` takes up an entry that
//!   may come next, and `Beginning::begun_with` makes a book's parts of it.
//! - `Beginning` keeps that the journal is lawful, that no hold is open in it, and that its tables are
//!   the journal's.
//! - `CreditTable` has the number of the credit under each key, and the numbers of all in order.
//! - `Tables` has what a journal comes to. `prepare` makes the room for one entry more; where memory
//!   is denied sums, holds and keys are as they were. `apply` takes it up.
//! - `are_few_open`, `due_amount`, `open_ask_at`, `is_short`, `open_hold_at`, `quote_between`,
//!   `after` and `moment_at` are the values of the definitions of their names.
//! - `carried_books`: what is carried over is lawful, no hold is open in it, and its base is its
//!   length. `texts_are_carried_in_one_way`: a text that is carried over is refused for want of
//!   memory alone, and is carried over as one book. `saved_texts_are_carried`: the text of a lawful
//!   book is one, where the numbers of its entries are of their types.
//! - `texts_are_recovered_in_one_way` says the same of what is recovered, which is what is carried
//!   over where nothing was logged. `recovered_begins`: of a lawful book, whichever of its first
//!   entries were saved, with all that was brought forward, and however many of the others were
//!   logged, the book that is recovered begins with all of these, and has nothing else but the ends
//!   of the holds that were open.
//! - `bases_can_rise`: a book stays lawful where its base is raised. `lawful_books`: no two credits
//!   are of one peer and under one key, and the books of each asset balance.
//! - `settlements_have_own_keys`: no two settlements have one key, of a lawful book or of two periods
//!   of one run, nor has one a key under which a later period of the run could ask for another.
#![tactic(auto)]

mod asks;
mod beginning;
mod carrying;
mod credits;
mod fault;
mod holds;
pub mod laws;
mod moments;
mod rule;
mod tables;

pub use asks::{are_few_open, due_amount, open_ask_at};
pub use beginning::Beginning;
pub use carrying::Carrying;
pub use credits::CreditTable;
pub use fault::{CarryFault, RecoverFault};
pub use holds::{is_short, open_hold_at, quote_between};
pub use moments::{after, moment_at};
pub use rule::BrokenRule;
pub use tables::Tables;
