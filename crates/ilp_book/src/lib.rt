//! The book of a connector (RFC 0027): what each call is answered and which entry it appends, and
//! what the journal keeps by that.
//!
//! # What is proved
//!
//! - `Book::hold`, `answer`, `expire_one`, and for settlements `credit`, `ask` and `settle_close`,
//!   each do exactly one step of the definitions: the reply, with the refusals in their order, and
//!   at most one entry (`specs/HoldStep.antt`, `specs/AnswerStep.antt`, `specs/SettleStep.antt`).
//!   The book is lawful afterwards. A refusal leaves it as it was.
//! - `hold`, `credit` and `ask` may answer `Memory` in place of an acceptance, and then book
//!   nothing. The others have no condition, allocator or error for want of memory.
//! - `credit` books a peer's key once. `settle_close` confirms or undoes what is open, else names
//!   the entry that closed it.
//! - `Book` keeps that its journal is lawful by its configuration and base (`Lawful.antt` of
//!   `ilp_rules`), which `entry` tells; that no hold was open at its base (`base`); that its tables
//!   are those of the journal (`Tables.antt` there); and that there is memory for whatever ends
//!   what is open.
//! - `config` tells that the configuration is valid, `balance` that no peer's balance lies below
//!   its least, `sums` that the books of the asset balance. `balance`, `open_holds`, `fulfilled`
//!   and `sums` are the sums of the journal, and balances and sums are within 2^96 of 0; `new` is a
//!   book of no entries; `HoldFault::reject_code` is the RFC's code.
//! - `period` is the number of the book's period: 0 of a new book, and that of its text of one that
//!   is carried over or recovered.
//! - `open_settlement` is the open settlement to a peer with the least number behind the one that
//!   was tried last, else of all, with its amount; `most_open_asks`, four, may be open at once.
//! - `save` writes exactly the text of the period with its journal; where a write fails or takes no
//!   octet, a front of it that is not all. It has no allocator. Its condition: the configuration is
//!   the book's own. What it wrote is carried over by that configuration, and refused for nothing
//!   but want of memory.
//! - `carry_over` answers the book that `ilp_rules` makes of a text, or why there is none. `recover`
//!   does so of a text and the lines of entries that were logged behind it.
//! - `bring_forward` answers the book of the next period by a configuration, which begins with what is
//!   brought forward (`NextPeriod.antt` of `ilp_next_period`, `next_book`), and only where it may
//!   (`MayFollow`) and there is room; else it tells which of these is wanting (`IsWhyNotClosed`), or
//!   memory. The book that it is asked of stays as it is. What this leaves as it was is said by the laws
//!   of `ilp_next_period::periods`.
//! - `reopen` makes of a book without an open hold the one that a desk goes on from, with all that it has
//!   (`specs/Reopened.antt`); else it names an open hold, and the book stays as it is.
//! - `runs_are_lawful`: over a valid configuration, for every list of the six calls within their
//!   conditions (known peers, the destination's own route, a key of 1 to 128 octets), of any
//!   actors, at any times, however short memory is, the journal is lawful, and the books of each
//!   asset balance. It stays lawful from every lawful book on.
//! - `first_answer_stands`: of all answers of a hold, and sweeps that take it, the first that finds
//!   it open appends. Each later answer is told that entry and appends nothing.
//! - `sweeps_take_the_earliest`: a sweep takes the hold that the rules name (docs/PROTOCOL.md, "A
//!   hold, its answer and a sweep"). Where it takes none, each open hold still has time.
//! - `settlements_stand`: the first closing of an open settlement stands; each later one is told
//!   that entry and appends nothing. A credit is kept under its key, and answers whatever its
//!   peer's engine says under it later, unless that is too large.
#![tactic(auto)]

mod answers;
mod asks;
mod book;
mod calls;
mod credits;
mod fault;
pub mod laws;
mod terms;

pub use book::Book;
pub use calls::{Asked, Held, Kept, Outcome, PeerReply, Sums};
pub use fault::{AskFault, CreditFault, HoldFault, HoldOpen, NotOpen};
pub use ilp_next_period::ForwardFault;
pub use ilp_rules::{BrokenRule, CarryFault, RecoverFault};
pub use ilp_settlement::EngineVerdict;
