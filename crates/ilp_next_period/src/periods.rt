//! What a book hands to the next period, and what this leaves as it was. These functions do nothing: their
//! contracts are the laws. What holds of a journal's head, whoever its peers are, is in
//! `ilp_journal::periods`.

ghost use Rattle.std.specs.Prelude.{◌≡◌, ◌+◌, ℕ, ℤ, pos, List, [], None, option_map};
ghost use Rattle.ilp_assets.specs.Assets.{PlainAsset};
ghost use Rattle.ilp_accounts.specs.Configuration.{Configuration};
ghost use Rattle.ilp_accounts.specs.Valid.{IsValid};
ghost use Rattle.ilp_journal.specs.Journal.{open_hold_at};
ghost use Rattle.ilp_journal.specs.Balance.{balance};
ghost use Rattle.ilp_journal.specs.TrialBalance.{settled, balances};
ghost use Rattle.ilp_journal.specs.Credits.{kept_credit};
ghost use Rattle.ilp_journal.specs.BroughtForward.{credited_to, open_settlements};
ghost use Rattle.ilp_rules.specs.Book.{PlainBook};
ghost use Rattle.ilp_rules.specs.Configured.{peer_assets};
ghost use Rattle.ilp_rules.specs.Heads.{settlement_key_of};
ghost use Rattle.ilp_rules.specs.Lawful.{IsLawful};
ghost use Rattle.ilp_next_period.specs.NextPeriod.{MayFollow, HasRoomForHead, IsNextPeer, IsNewPeer, asset_balances, next_book};

/// The book of the next period is lawful, where the configurations are valid, the period may follow, and
/// there is room for its head. No hold is open in it.
pub fn forward_is_lawful()
    ensures lawful { (book : PlainBook) (next : Configuration) (now : ℤ) → IsValid book.config
        → IsValid next → IsLawful book → MayFollow book next → HasRoomForHead book next now
        → IsLawful (next_book book next now) }
    ensures closed { (book : PlainBook) (next : Configuration) (now : ℤ) (n : ℕ)
        → open_hold_at (next_book book next now).entries n ≡ None }
{}

/// Each peer that both configurations have, by its name, has the same in the next period: its balance,
/// under each key the same credit, and in the same order the same open settlements, with their amounts
/// and their keys.
pub fn peers_are_brought_forward()
    ensures balances { (book : PlainBook) (next : Configuration) (now : ℤ) (p q : ℕ)
        → IsValid book.config → IsValid next → IsNextPeer book.config next p q
        → balance (next_book book next now).entries q ≡ balance book.entries p }
    ensures keys { (book : PlainBook) (next : Configuration) (now : ℤ) (p q : ℕ) (key : List ℕ)
        → IsValid book.config → IsValid next → IsNextPeer book.config next p q
        → kept_credit (next_book book next now).entries q key
        ≡ option_map (credited_to q) (kept_credit book.entries p key) }
    ensures settlements { (book : PlainBook) (next : Configuration) (now : ℤ) (p q : ℕ)
        → IsValid book.config → IsValid next → IsNextPeer book.config next p q
        → open_settlements (settlement_key_of next (book.period + 1))
        (next_book book next now).entries q
        ≡ open_settlements (settlement_key_of book.config book.period) book.entries p }
{}

/// A peer whose name the configuration before lacks begins with nothing.
pub fn new_peers_have_nothing()
    ensures balances { (book : PlainBook) (next : Configuration) (now : ℤ) (q : ℕ)
        → IsValid book.config → IsNewPeer book.config next q
        → balance (next_book book next now).entries q ≡ pos 0 }
    ensures keys { (book : PlainBook) (next : Configuration) (now : ℤ) (q : ℕ) (key : List ℕ)
        → IsValid book.config → IsNewPeer book.config next q
        → kept_credit (next_book book next now).entries q key ≡ None }
    ensures settlements { (book : PlainBook) (next : Configuration) (now : ℤ) (q : ℕ)
        → IsValid book.config → IsNewPeer book.config next q
        → open_settlements (settlement_key_of next (book.period + 1))
        (next_book book next now).entries q ≡ [] }
{}

/// What the head of a period settles in an asset is what its balances in it come to, and that is what
/// those of the book before come to.
pub fn books_are_brought_forward()
    ensures settled { (book : PlainBook) (next : Configuration) (now : ℤ) (x : ℕ)
        → settled (peer_assets next) (next_book book next now).entries x
        ≡ balances (peer_assets next) (next_book book next now).entries x }
    ensures balances { (book : PlainBook) (next : Configuration) (now : ℤ) (asset : PlainAsset)
        → IsValid book.config → IsValid next → IsLawful book → MayFollow book next
        → asset_balances next (next_book book next now).entries asset
        ≡ asset_balances book.config book.entries asset }
{}
