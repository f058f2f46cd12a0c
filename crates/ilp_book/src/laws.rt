//! What holds of every run of calls, and of every hold; `ilp_rules::laws` says what holds of every
//! lawful journal. These functions do nothing: their contracts are the laws. A law tells whoever reads
//! the definitions what follows from them; no code needs to call it.

ghost use Rattle.std.specs.Prelude.{◌≡◌, ℕ, ◌≤ℤ◌, ◌<ℤ◌, List, length, replicate, true, Some, None, IsNone};
ghost use Rattle.ilp_terms.specs.Condition.{meets};
ghost use Rattle.ilp_accounts.specs.Configuration.{Configuration};
ghost use Rattle.ilp_accounts.specs.Valid.{IsValid};
ghost use Rattle.ilp_journal.specs.declared.entry.Hold.{Hold};
ghost use Rattle.ilp_journal.specs.declared.entry.Ask.{Ask};
ghost use Rattle.ilp_journal.specs.declared.entry.What.TheVariants as What;
ghost use Rattle.ilp_journal.specs.declared.entry.Credited.{Credited};
ghost use Rattle.ilp_journal.specs.Credits.{kept_at};
ghost use Rattle.ilp_journal.specs.Journal.{open_hold_at, open_ask_at};
ghost use Rattle.ilp_journal.specs.TrialBalance.{IsBalanced};
ghost use Rattle.ilp_settlement.specs.declared.verdict.EngineVerdict.{EngineVerdict};
ghost use Rattle.ilp_book.specs.declared.calls.PeerReply.{PeerReply};
ghost use Rattle.ilp_rules.specs.Book.{PlainBook, By, new_book, with_entry, pushed, entry_by, moment_at};
ghost use Rattle.ilp_rules.specs.Configured.{peer_assets};
ghost use Rattle.ilp_rules.specs.Open.{IsEarliest};
ghost use Rattle.ilp_rules.specs.Lawful.{IsLawful};
ghost use Rattle.ilp_book.specs.AnswerStep.{answer_step, expire_step, IsOverBy};
ghost use Rattle.ilp_book.specs.SettleStep.{kept, close_step, IsClosedBy, IsKeptBy};
ghost use Rattle.ilp_book.specs.Run.{Step, AreAllowed, book_after};
ghost use Rattle.ilp_book.specs.Rows.{PaidRow, LateRow, ReleasedRow, ExpiredRow, LeastRow, TermsRow, TotalRow, FullRow, OlderRow, CreditedRow, CorrectedRow, SettledRow, PartsRow, CarriedRow};

pub use ilp_rules::laws::{
    bases_can_rise, carried_books, lawful_books, recovered_begins, saved_texts_are_carried,
    texts_are_carried_in_one_way, texts_are_recovered_in_one_way,
};

/// Whatever calls come, of whatever actors, at whatever times and however short memory is, the
/// journal is lawful, and the books of each asset sum to what was settled in it.
pub fn runs_are_lawful()
    ensures lawful { (C : Configuration) (steps : List Step)
        → IsValid C → AreAllowed C steps → IsLawful (book_after (new_book C) steps) }
    ensures balanced { (C : Configuration) (steps : List Step) (asset : ℕ)
        → IsValid C → AreAllowed C steps
        → IsBalanced (peer_assets C) (book_after (new_book C) steps).entries asset }
    // A lawful book stays lawful by every such list, whatever its base.
    ensures onward { (book : PlainBook) (steps : List Step)
        → IsValid book.config → IsLawful book → AreAllowed book.config steps
        → IsLawful (book_after book steps) }
{}

/// A sweep takes, of the open holds, the one of least deadline, and of several the one of least
/// number, once that deadline has come. Where it takes none, each open hold still has time.
pub fn sweeps_take_the_earliest()
    ensures taken { (book : PlainBook) (caller : By) (n : ℕ)
        → (expire_step book caller).reply ≡ Some n
        → (h : Hold) × IsEarliest book.entries n h
        × (h.deadline ≤ℤ moment_at book.entries caller.now) }
    ensures left { (book : PlainBook) (caller : By) → (expire_step book caller).reply ≡ None
        → (n : ℕ) (h : Hold) → open_hold_at book.entries n ≡ Some h
        → moment_at book.entries caller.now <ℤ h.deadline }
{}

/// The first answer of an open hold stands, and so does an expiry that took it: whatever comes
/// after, each later answer is told of that entry and appends nothing, and no expiry takes the hold.
pub fn first_answer_stands()
    ensures answered { (book : PlainBook) (caller : By) (n : ℕ) (h : Hold) (reply : PeerReply)
        → open_hold_at book.entries n ≡ Some h
        → IsOverBy (with_entry book (answer_step book caller n reply).entry) n
        (length book.entries) }
    ensures expired { (book : PlainBook) (caller : By) (n : ℕ)
        → (expire_step book caller).reply ≡ Some n
        → IsOverBy (with_entry book (expire_step book caller).entry) n (length book.entries) }
{}

/// The first closing of an open settlement stands: whatever comes after, each later one is told of
/// that entry and appends nothing. So does the credit under a key: it is kept when it is booked, and
/// whatever comes after, it answers each settlement of its peer under that key, which appends
/// nothing.
pub fn settlements_stand()
    ensures closed { (book : PlainBook) (caller : By) (n : ℕ) (a : Ask) (verdict : EngineVerdict)
        → open_ask_at book.entries n ≡ Some a
        → IsClosedBy (with_entry book (close_step book caller n verdict).entry) n
        (length book.entries) }
    ensures credited { (book : PlainBook) (caller : By) (c : Credited)
        → IsNone (kept_at book.entries c.peer c.key)
        → kept (pushed book (entry_by book caller (What.Credited c))).entries c.peer c.key
        ≡ Some (length book.entries, c) }
    ensures kept { (book : PlainBook) (peer : ℕ) (key : List ℕ) (credit : ℕ × Credited)
        → kept book.entries peer key ≡ Some credit → IsKeptBy book peer key credit }
{}

/// Worked runs of calls, and what they are answered. Where a preimage is looked at, they hold for
/// every condition that it meets.
pub fn rows()
    ensures paid { (c : List ℕ) → meets c (replicate 32 0) ≡ true → PaidRow c }
    ensures late { (c : List ℕ) → meets c (replicate 32 0) ≡ true → LateRow c }
    ensures released { (c : List ℕ) → ReleasedRow c }
    ensures expired { (c : List ℕ) → ExpiredRow c }
    ensures least { (c : List ℕ) → LeastRow c }
    ensures terms { (c : List ℕ) → TermsRow c }
    ensures total { (c : List ℕ) → TotalRow c }
    ensures full { (c : List ℕ) → FullRow c }
    ensures older { (c : List ℕ) → OlderRow c }
    ensures credited { CreditedRow }
    ensures corrected { CorrectedRow }
    ensures settled { SettledRow }
    ensures parts { PartsRow }
    ensures carried { (c : List ℕ) → CarriedRow c }
{}
