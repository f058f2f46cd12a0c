//! A book that was brought forward answers as the one that it came from would by the next configuration
//! (`specs/Alike.antt`, `AnswersAlike`). These functions do nothing: their contracts are the laws.
#![tactic(auto)]

ghost use Rattle.std.specs.Prelude.{◌≡◌, ◌+◌, ℕ, ℤ, List, Option, IfSome, option_map};
ghost use Rattle.ilp_accounts.specs.Configuration.{Configuration};
ghost use Rattle.ilp_accounts.specs.Valid.{IsValid};
ghost use Rattle.ilp_journal.specs.Balance.{balance};
ghost use Rattle.ilp_journal.specs.Credits.{kept_credit};
ghost use Rattle.ilp_journal.specs.BroughtForward.{open_settlements};
ghost use Rattle.ilp_rules.specs.Book.{PlainBook};
ghost use Rattle.ilp_rules.specs.Configured.{IsKnown};
ghost use Rattle.ilp_rules.specs.Heads.{settlement_key_of};
ghost use Rattle.ilp_rules.specs.Lawful.{IsLawful};
ghost use Rattle.ilp_next_period.specs.NextPeriod.{MayFollow, next_book};
ghost use Rattle.ilp_book.specs.SettleStep.{open_settlement};
ghost use Rattle.ilp_book.specs.Run.{Step};
ghost use Rattle.ilp_alike.specs.Alike.{by_config, AreCalls, BothHaveRoom, AnswersAlike, MayBeNamed, asked_with, before_of, entries_later, entries_before};
ghost use Rattle.ilp_alike.specs.Rows.{AlikeRow};

/// Each peer of the next configuration has the same in the book that was brought forward and in the one
/// that it came from: its balance, under each key the same credit, and in the same order the same open
/// settlements, with their amounts and their keys.
pub fn peers_begin_alike()
    ensures balances { (book : PlainBook) (next : Configuration) (now : ℤ) (q : ℕ)
        → IsValid book.config → IsValid next → IsLawful book → MayFollow book next → IsKnown next q
        → balance (next_book book next now).entries q ≡ balance (by_config book next).entries q }
    ensures keys { (book : PlainBook) (next : Configuration) (now : ℤ) (q : ℕ) (key : List ℕ)
        → IsValid book.config → IsValid next → IsLawful book → MayFollow book next → IsKnown next q
        → kept_credit (next_book book next now).entries q key
        ≡ kept_credit (by_config book next).entries q key }
    ensures settlements { (book : PlainBook) (next : Configuration) (now : ℤ) (q : ℕ)
        → IsValid book.config → IsValid next → IsLawful book → MayFollow book next → IsKnown next q
        → open_settlements (settlement_key_of next (book.period + 1))
        (next_book book next now).entries q
        ≡ open_settlements (settlement_key_of next book.period) (by_config book next).entries q }
{}

/// Whatever calls come once the books are closed, both books answer them alike, as long as both have
/// room: where the later one names an entry, the one before names the same.
pub fn answers_alike()
    ensures alike { (book : PlainBook) (next : Configuration) (now : ℤ)
        → IsValid book.config → IsValid next → IsLawful book → MayFollow book next
        → AnswersAlike book next now }
{}

/// After such calls both owe each peer the same, keep the same credit under each of its keys, and tell the
/// same open settlement to it as the next one behind another.
pub fn peers_stay_alike()
    ensures balances { (book : PlainBook) (next : Configuration) (now : ℤ)
        → IsValid book.config → IsValid next → IsLawful book → MayFollow book next
        → (steps : List Step) → AreCalls book next now steps → BothHaveRoom book next now steps
        → (q : ℕ) → IsKnown next q
        → balance (entries_later book next now steps) q
        ≡ balance (entries_before book next now steps) q }
    ensures keys { (book : PlainBook) (next : Configuration) (now : ℤ)
        → IsValid book.config → IsValid next → IsLawful book → MayFollow book next
        → (steps : List Step) → AreCalls book next now steps → BothHaveRoom book next now steps
        → (q : ℕ) → IsKnown next q → (key : List ℕ)
        → kept_credit (entries_later book next now steps) q key
        ≡ kept_credit (entries_before book next now steps) q key }
    ensures settlements { (book : PlainBook) (next : Configuration) (now : ℤ)
        → IsValid book.config → IsValid next → IsLawful book → MayFollow book next
        → (steps : List Step) → AreCalls book next now steps → BothHaveRoom book next now steps
        → (q : ℕ) → IsKnown next q
        → (tried : Option ℕ) → IfSome tried (MayBeNamed (next_book book next now))
        → option_map (asked_with (before_of book next now))
        (open_settlement (entries_later book next now steps) q tried)
        ≡ open_settlement (entries_before book next now steps) q
        (option_map (before_of book next now) tried) }
{}

/// Worked calls, which both books answer alike.
pub fn rows()
    ensures alike { (c : List ℕ) → AlikeRow c }
{}
