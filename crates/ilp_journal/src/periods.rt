//! What a period hands to the next, and what this leaves as it was. These functions do nothing: their
//! contracts are the laws.

ghost use Rattle.std.specs.Prelude.{◌≡◌, ◌⊎◌, ◌++◌, ◌∷◌, ℕ, ◌<◌, ◌≤◌, pos, ◌-ℤ◌, List, [], length, Some, None, IsTrue, option_map};
ghost use Rattle.ilp_journal.specs.declared.entry.Entry.{Entry};
ghost use Rattle.ilp_order.specs.Places.{Each};
ghost use Rattle.ilp_journal.specs.Journal.{Entries, AnswersOnce, ClosesOnce, open_asks};
ghost use Rattle.ilp_journal.specs.Balance.{balance};
ghost use Rattle.ilp_journal.specs.TrialBalance.{settled, balances};
ghost use Rattle.ilp_journal.specs.Credits.{kept_credit};
ghost use Rattle.ilp_journal.specs.BroughtForward.{PeriodEnd, next_place, earlier_place, same_places, is_brought_forward, credited_to, brought_forward, KeepsPeers, open_settlements, HasFreshKey, KeepsHeadRule};
ghost use Rattle.ilp_journal.specs.Periods.{Period, last_journal, place_in_last, raised_in_all, lowered_in_all};

/// Peers that keep their places have the same in the next period, and keep what they have.
pub fn same_peers_stay()
    ensures places { (n p : ℕ) → p < n → next_place (same_places n) p ≡ Some p }
    ensures peers { (assets : List ℕ) (j : Entries)
        → ((p : ℕ) → length assets ≤ p → balance j p ≡ pos 0)
        → KeepsPeers assets assets (same_places (length assets)) j }
{}

/// Each peer begins the next period with the balance that it had, and a new one with none.
pub fn balances_are_brought_forward()
    ensures kept { (end : PeriodEnd) (j : Entries) (p q : ℕ)
        → next_place end.places p ≡ Some q → balance (brought_forward end j) q ≡ balance j p }
    ensures new { (end : PeriodEnd) (j : Entries) (q : ℕ)
        → earlier_place end.places q ≡ None → balance (brought_forward end j) q ≡ pos 0 }
{}

/// Under each key of a peer the same credit is kept, or none where there was none; under the keys of
/// a new peer there is none.
pub fn keys_are_brought_forward()
    ensures kept { (end : PeriodEnd) (j : Entries) (p q : ℕ) (key : List ℕ)
        → next_place end.places p ≡ Some q
        → kept_credit (brought_forward end j) q key ≡ option_map (credited_to q) (kept_credit j p key) }
    ensures new { (end : PeriodEnd) (j : Entries) (q : ℕ) (key : List ℕ)
        → earlier_place end.places q ≡ None → kept_credit (brought_forward end j) q key ≡ None }
{}

/// To each peer the same settlements are open, in the same order, with the same amounts and the same
/// keys, whatever keys the next period gives to its own; to a new peer none is.
pub fn settlements_are_brought_forward()
    ensures kept { (key_of : ℕ → List ℕ) (end : PeriodEnd) (j : Entries) (p q : ℕ)
        → next_place end.places p ≡ Some q
        → open_settlements key_of (brought_forward end j) q ≡ open_settlements end.key_of j p }
    ensures new { (key_of : ℕ → List ℕ) (end : PeriodEnd) (j : Entries) (q : ℕ)
        → earlier_place end.places q ≡ None → open_settlements key_of (brought_forward end j) q ≡ [] }
    ensures count { (end : PeriodEnd) (j : Entries) (p q : ℕ)
        → next_place end.places p ≡ Some q → open_asks (brought_forward end j) q ≡ open_asks j p }
{}

/// What the head of a period settles in an asset is the sum of the balances that it brings forward in
/// it: with no hold and no fee the trial balance begins anew. Where peers keep what they have, that is
/// the sum of the balances in the period that ends.
pub fn heads_balance()
    ensures settled { (assets : List ℕ) (end : PeriodEnd) (j : Entries) (x : ℕ)
        → settled assets (brought_forward end j) x ≡ balances assets (brought_forward end j) x }
    ensures balances { (assets next : List ℕ) (end : PeriodEnd) (j : Entries) (x : ℕ)
        → KeepsPeers assets next end.places j
        → balances next (brought_forward end j) x ≡ balances assets j x }
{}

/// A head has the kinds of entry that stand in heads alone, and they answer and close nothing.
pub fn heads_are_plain()
    ensures kinds { (end : PeriodEnd) (j : Entries)
        → Each (λ _ (e : Entry). IsTrue (is_brought_forward e.what)) (brought_forward end j) }
    ensures answers { (end : PeriodEnd) (j : Entries) → Each AnswersOnce (brought_forward end j) }
    ensures closes { (end : PeriodEnd) (j : Entries) → Each ClosesOnce (brought_forward end j) }
{}

/// A head keeps the rules of heads, for the peers of the next period, where under each key of a peer
/// the journal that ends credits once and has to each peer no more settlements open than may be.
pub fn heads_keep_rules()
    ensures { (count most : ℕ) (end : PeriodEnd) (j : Entries)
        → length end.places ≤ count
        → Each HasFreshKey j
        → ((p : ℕ) → open_asks j p ≤ most)
        → Each (λ before (e : Entry). KeepsHeadRule count most before e.what) (brought_forward end j) }
{}

/// As a head is booked, entry by entry, each balance is 0 until it is opened, and from then on the one
/// that is brought forward: so a limit that holds at both holds after each entry.
pub fn heads_come_to_balances()
    ensures { (end : PeriodEnd) (j : Entries) (q : ℕ)
        → Each (λ before (e : Entry). (balance (before ++ e ∷ []) q ≡ pos 0)
        ⊎ (balance (before ++ e ∷ []) q ≡ balance (brought_forward end j) q)) (brought_forward end j) }
{}

/// Over any number of periods a peer's balance is all that their entries raised it by, less all that
/// they lowered it by, where those in the heads of the later ones don't count.
pub fn periods_add_up()
    ensures { (first : Entries) (later : List Period) (p q : ℕ)
        → place_in_last p later ≡ Some q
        → balance (last_journal first later) q
        ≡ pos (raised_in_all first p later) -ℤ pos (lowered_in_all first p later) }
{}
