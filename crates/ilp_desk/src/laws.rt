//! What holds of every book of a desk. These functions do nothing: their contracts are the laws. A
//! law tells whoever reads the definitions what follows from them; no code needs to call it.

ghost use Rattle.std.specs.Prelude.{◌≡◌, ℕ, ◌≤◌, List};
ghost use Rattle.ilp_book.specs.Quote.{most};
ghost use Rattle.ilp_journal.specs.Journal.{IsBase};
ghost use Rattle.ilp_journal.specs.TrialBalance.{total_in, total_out};
ghost use Rattle.ilp_book.specs.Book.{PlainBook};
ghost use Rattle.ilp_book.specs.Configured.{peer_assets};
ghost use Rattle.ilp_book.specs.Lawful.{IsLawful};
ghost use Rattle.ilp_desk.specs.declared.gathering.WhyNotGathered.{WhyNotGathered};
ghost use Rattle.ilp_desk.specs.declared.gathering.WhyNotGathered.TheVariants as Why;
ghost use Rattle.ilp_rules.specs.SettlementKeys.{settlement_key_at};
ghost use Rattle.ilp_desk.specs.Desk.{PlainDesk, IsActor, IsBookOf, settlement_key_in};
ghost use Rattle.ilp_desk.specs.Portion.{Holding};
ghost use Rattle.ilp_desk.specs.Totals.{taken_since, sold_since};
ghost use Rattle.ilp_desk.specs.Gathering.{IsWhole, IsWhyNotGathered, holders};

/// In a lawful book that was opened where no hold was open, what was fulfilled since keeps, in each
/// asset, within the totals of the book, and so within what one packet can carry. So no sum of the
/// amounts that actors keep wraps.
pub fn packets_fit()
    ensures taken { (book : PlainBook) (asset : ℕ)
        → IsLawful book → IsBase book.entries book.base
        → taken_since (peer_assets book.config) book.base book.entries asset
        ≤ total_in (peer_assets book.config) book.base book.entries asset }
    ensures sold { (book : PlainBook) (asset : ℕ)
        → IsLawful book → IsBase book.entries book.base
        → sold_since (peer_assets book.config) book.base book.entries asset
        ≤ total_out (peer_assets book.config) book.base book.entries asset }
    ensures most_in { (book : PlainBook) (asset : ℕ) → IsLawful book
        → total_in (peer_assets book.config) book.base book.entries asset ≤ most }
    ensures most_out { (book : PlainBook) (asset : ℕ) → IsLawful book
        → total_out (peer_assets book.config) book.base book.entries asset ≤ most }
{}

/// A settlement has one key, whichever book of its desk is looked at.
pub fn settlements_keep_their_keys()
    ensures { (desk : PlainDesk) (book : PlainBook) (n : ℕ) → IsBookOf desk book
        → settlement_key_at book.config book.period book.entries n ≡ settlement_key_in desk n }
{}

/// Where each actor hands in one end, the only reason not to gather is that one disagrees; where
/// each has kept its records of the book, there is none.
pub fn whole_ends_are_gathered()
    ensures once { (desk : PlainDesk) (book : PlainBook) (ends : List Holding)
        (why : WhyNotGathered) → ((actor : ℕ) → IsActor desk actor → holders actor ends ≡ 1)
        → IsWhyNotGathered desk book ends why
        → (actor : ℕ) × (why ≡ Why.Disagrees actor) }
    ensures whole { (desk : PlainDesk) (book : PlainBook) (ends : List Holding)
        (why : WhyNotGathered) → IsWhole desk book ends → ¬ (IsWhyNotGathered desk book ends why) }
{}
