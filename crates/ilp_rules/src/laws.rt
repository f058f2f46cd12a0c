//! What holds of every lawful journal, and of every text that is carried over or recovered. These
//! functions do nothing: their contracts are the laws. A law tells whoever reads the definitions
//! what follows from them; no code needs to call it.

ghost use Rattle.std.specs.Prelude.{◌≡◌, ℕ, ℤ, ◌+◌, ◌<◌, ◌≤◌, ◌^◌, ◌++◌, ◌↔◌, [], List, All, Some, None, take};
ghost use Rattle.ilp_accounts.specs.Configuration.{Configuration};
ghost use Rattle.ilp_accounts.specs.Valid.{IsValid};
ghost use Rattle.ilp_journal.specs.declared.entry.Ask.{Ask};
ghost use Rattle.ilp_journal.specs.declared.entry.Credited.{Credited};
ghost use Rattle.ilp_journal.specs.Journal.{Entries, IsBase, ask_at, open_hold_at};
ghost use Rattle.ilp_journal.specs.TrialBalance.{IsBalanced};
ghost use Rattle.ilp_journal_text.specs.Reading.{IsTyped};
ghost use Rattle.ilp_journal_text.specs.Text.{entry_lines, journal_text};
ghost use Rattle.ilp_rules.specs.declared.fault.CarryFault.{CarryFault};
ghost use Rattle.ilp_rules.specs.declared.fault.CarryFault.TheVariants as CarryFault;
ghost use Rattle.ilp_rules.specs.declared.fault.RecoverFault.{RecoverFault};
ghost use Rattle.ilp_rules.specs.declared.fault.RecoverFault.TheVariants as RecoverFault;
ghost use Rattle.ilp_rules.specs.Book.{PlainBook, with_base};
ghost use Rattle.ilp_rules.specs.Configured.{peer_assets};
ghost use Rattle.ilp_rules.specs.Carried.{begun_with, carried};
ghost use Rattle.ilp_rules.specs.Carry.{IsCarriedOver, IsWhyNotCarried};
ghost use Rattle.ilp_rules.specs.Recover.{IsRecovered, IsWhyNotRecovered, BeginsWith};
ghost use Rattle.ilp_journal.specs.Credits.{credit_at};
ghost use Rattle.ilp_rules.specs.Heads.{IsBooked, IsOfPeriodFrom, settlement_key_of};
ghost use Rattle.ilp_rules.specs.SettlementKeys.{settlement_key_at};
ghost use Rattle.ilp_rules.specs.Lawful.{IsLawful};

/// A lawful book stays lawful where its base is raised. `ilp_journal::laws::bases_stay` says which
/// places are bases.
pub fn bases_can_rise()
    ensures { (book : PlainBook) (raised : ℕ)
        → book.base ≤ raised → IsLawful book → IsLawful (with_base book raised) }
{}

/// In a lawful book no two credits are of one peer and under one key, and the books of each asset
/// balance.
pub fn lawful_books()
    ensures credited_once { (book : PlainBook) (k m : ℕ) (c d : Credited) → IsLawful book
        → credit_at book.entries k ≡ Some c → credit_at book.entries m ≡ Some d
        → c.peer ≡ d.peer → c.key ≡ d.key → k ≡ m }
    ensures balanced { (book : PlainBook) (asset : ℕ) → IsLawful book
        → IsBalanced (peer_assets book.config) book.entries asset }
{}

/// No two settlements of a lawful book have one key, whether the book asks for them itself or they were
/// brought forward. No key of a run names two settlements: not of one period, nor of two; and under no
/// key of a settlement could a later period of the run ask for one.
pub fn settlements_have_own_keys()
    ensures within { (book : PlainBook) (k m : ℕ) (a b : Ask) → IsValid book.config → IsLawful book
        → ask_at book.entries k ≡ Some a → ask_at book.entries m ≡ Some b
        → settlement_key_at book.config book.period book.entries k
        ≡ settlement_key_at book.config book.period book.entries m → k ≡ m }
    ensures between { (C D : Configuration) (p q m n : ℕ) → C.settings.run ≡ D.settings.run
        → p < 2 ^ 32 → q < 2 ^ 32 → m < 2 ^ 32 → n < 2 ^ 32
        → settlement_key_of C p m ≡ settlement_key_of D q n → (p ≡ q) × (m ≡ n) }
    ensures onward { (book : PlainBook) (n : ℕ) (a : Ask) (next : Configuration)
        → IsValid book.config → IsLawful book → next.settings.run ≡ book.config.settings.run
        → ask_at book.entries n ≡ Some a → ¬ (IsOfPeriodFrom next (book.period + 1)
        (settlement_key_at book.config book.period book.entries n)) }
{}

/// A book that is carried over is lawful, no hold is open in it, and all of its entries lie below its
/// base.
pub fn carried_books()
    ensures lawful { (C : Configuration) (period : ℕ) (entries : Entries) (now : ℤ)
        → IsValid C → IsLawful (begun_with C period entries)
        → IsLawful (carried C period entries now) }
    ensures closed { (C : Configuration) (period : ℕ) (entries : Entries) (now : ℤ) (n : ℕ)
        → IsLawful (begun_with C period entries)
        → open_hold_at (carried C period entries now).entries n ≡ None }
    ensures opened { (C : Configuration) (period : ℕ) (entries : Entries) (now : ℤ)
        → IsLawful (begun_with C period entries)
        → IsBase (carried C period entries now).entries (carried C period entries now).base }
{}

/// By a valid configuration a text that is carried over is refused for nothing but want of memory, and
/// it is carried over as one book.
pub fn texts_are_carried_in_one_way()
    ensures refused { (C : Configuration) (text : List ℕ) (now : ℤ) (book : PlainBook)
        (fault : CarryFault) → IsValid C → IsCarriedOver C text now book
        → IsWhyNotCarried C text fault → fault ≡ CarryFault.Memory }
    ensures one { (C : Configuration) (text : List ℕ) (now : ℤ) (book other : PlainBook)
        → IsValid C → IsCarriedOver C text now book → IsCarriedOver C text now other
        → book ≡ other }
{}

/// The text of a lawful book whose numbers are of their types, as `put_journal` tells of what it wrote,
/// is carried over, and refused for nothing but want of memory.
pub fn saved_texts_are_carried()
    ensures carried { (book : PlainBook) (now : ℤ) → IsLawful book → All IsTyped book.entries
        → IsCarriedOver book.config (journal_text book.config book.period book.entries) now
        (carried book.config book.period book.entries now) }
    ensures refused { (book : PlainBook) (fault : CarryFault) → IsValid book.config → IsLawful book
        → All IsTyped book.entries
        → IsWhyNotCarried book.config (journal_text book.config book.period book.entries) fault
        → fault ≡ CarryFault.Memory }
{}

/// By a valid configuration a text and lines that are recovered are refused for nothing but want of
/// memory, and they are recovered as one book. Where no lines were logged that is the book that is
/// carried over.
pub fn texts_are_recovered_in_one_way()
    ensures refused { (C : Configuration) (saved logged : List ℕ) (now : ℤ) (book : PlainBook)
        (fault : RecoverFault) → IsValid C → IsRecovered C saved logged now book
        → IsWhyNotRecovered C saved logged fault → fault ≡ RecoverFault.Memory }
    ensures one { (C : Configuration) (saved logged : List ℕ) (now : ℤ) (book other : PlainBook)
        → IsValid C → IsRecovered C saved logged now book → IsRecovered C saved logged now other
        → book ≡ other }
    ensures no_log { (C : Configuration) (text : List ℕ) (now : ℤ) (book : PlainBook)
        → IsRecovered C text [] now book ↔ IsCarriedOver C text now book }
{}

/// Of a lawful book whose numbers are of their types let j be the entries whose text was saved, with all
/// that was brought forward, and l those booked since. Whenever a crash comes, the lines of some first
/// entries of l stand in the log. They are recovered, and refused for nothing but want of memory: the
/// book begins with j and those entries, and behind them has nothing but the ends of the holds that were
/// open.
pub fn recovered_begins()
    ensures recovered { (book : PlainBook) (j l : Entries) (n : ℕ) → IsLawful book
        → All IsTyped book.entries → book.entries ≡ j ++ l
        → (0 < book.period → All IsBooked l) → (now : ℤ)
        → IsRecovered book.config (journal_text book.config book.period j)
        (entry_lines book.config (take n l)) now
        (carried book.config book.period (j ++ take n l) now) }
    ensures begins { (book : PlainBook) (j l : Entries) (n : ℕ) → IsLawful book
        → All IsTyped book.entries → book.entries ≡ j ++ l
        → (0 < book.period → All IsBooked l) → IsValid book.config
        → (now : ℤ) (recovered : PlainBook)
        → IsRecovered book.config (journal_text book.config book.period j)
        (entry_lines book.config (take n l)) now recovered → BeginsWith (j ++ take n l) recovered }
    ensures refused { (book : PlainBook) (j l : Entries) (n : ℕ) → IsLawful book
        → All IsTyped book.entries → book.entries ≡ j ++ l
        → (0 < book.period → All IsBooked l) → IsValid book.config
        → (fault : RecoverFault)
        → IsWhyNotRecovered book.config (journal_text book.config book.period j)
        (entry_lines book.config (take n l)) fault → fault ≡ RecoverFault.Memory }
{}
