//! Whether an entry may come next in a journal.
ghost use Rattle.std.specs.Prelude.{◌≡◌, ℕ, ℤ, pos, ◌+ℤ◌, ◌≤ℤ◌, ◌↔◌, None, IsTrue, IsSome, IsOkAnd, IfErr, OnOk, OnErr};
ghost use Rattle.ilp_terms.specs.Expiry.{last_of_all};
ghost use Rattle.ilp_assets.specs.declared.quote.Quote.{Quote};
ghost use Rattle.ilp_journal.specs.declared.entry.What.TheVariants as what;
ghost use Rattle.ilp_journal.specs.declared.entry.Cause.TheVariants.{Late};
ghost use Rattle.ilp_accounts.specs.Configuration.{peer_at};
ghost use Rattle.ilp_accounts.specs.Valid.{IsValid};
ghost use Rattle.ilp_journal.specs.Journal.{Entries, open_ask_at};
ghost use Rattle.ilp_journal.specs.Balance.{balance};
ghost use Rattle.ilp_rules.specs.declared.rule.BrokenRule.TheVariants as BrokenRule;
ghost use Rattle.ilp_rules.specs.Book.{pushed};
ghost use Rattle.ilp_rules.specs.Broken.{Breaks, BreaksRule};
ghost use Rattle.ilp_rules.specs.Configured.{IsKnown, quote_between};
ghost use Rattle.ilp_rules.specs.Judging.{behind_all, HasRoom, KeepsLimits};
ghost use Rattle.ilp_rules.specs.Lawful.{IsLawful, KeepsRule, KeepsRuleOf, HasTerms, IsFreshCredit, IsDueAsk, IsInTime};

use super::Carrying;
use crate::asks::{are_few_open, due_amount, open_ask_at};
use crate::holds::{is_short, open_hold_at, quote_between};
use crate::moments::{after, last_moment};
use crate::rule::BrokenRule;
use ilp_accounts::Config;
use ilp_journal::{Ask, Cause, Credited, Entry, Hold, What};
use ilp_settlement::{Quantity, credited};
use ilp_terms::{LAST_OF_ALL, meets};
use std::alloc::Allocator;

impl<A: Allocator> Carrying<A> {
    /// Whether an entry may come next: its moment, then its own rule, then the limits.
    pub(crate) fn judge(&self, entry: &Entry) -> Result<(), BrokenRule>
        ensures ok { OnOk result (IsLawful (pushed self.now entry.now)) }
        ensures err { OnErr result (IsLawful (pushed self.now entry.now) → ⊥) }
        ensures broken { IfErr result (Breaks self.now.config self.now.period self.now.entries entry.now) }
    {
        self.judge_moment(entry)?;
        self.judge_rule(entry)?;
        self.judge_limits(entry)
    }

    // Whether it is in time.
    fn judge_moment(&self, entry: &Entry) -> Result<(), BrokenRule>
        ensures ok { OnOk result (IsInTime self.now.entries entry.now) }
        ensures err { OnErr result (IsInTime self.now.entries entry.now → ⊥) }
        ensures broken { IfErr result (Breaks self.now.config self.now.period self.now.entries entry.now) }
        ensures valid { IsValid self.now.config }
        ensures lawful { IsLawful self.now }
        ensures behind { self.now.base ≡ behind_all }
    {
        let moment = entry.moment;
        if moment < last_moment(&self.journal) || moment < 0 || moment > LAST_OF_ALL {
            return Err(BrokenRule::Moment);
        }
        Ok(())
    }

    // Whether it keeps its rule.
    fn judge_rule(&self, entry: &Entry) -> Result<(), BrokenRule>
        requires last { entry.now.moment ≤ℤ last_of_all }
        ensures ok { OnOk result (KeepsRuleOf self.now self.now.entries entry.now) }
        ensures err { OnErr result (KeepsRuleOf self.now self.now.entries entry.now → ⊥) }
        ensures broken { IfErr result (BreaksRule self.now.config self.now.period self.now.entries
            entry.now.moment entry.now.what) }
    {
        let moment = entry.moment;
        match &entry.what {
            What::Hold(hold) => judge_terms(&self.config, moment, hold),
            What::Fulfilled { hold, preimage } => self.judge_fulfilled(moment, *hold, preimage),
            What::Released { hold, cause } => self.judge_released(moment, *hold, *cause),
            What::Credited(credited) => self.judge_credited(credited),
            What::Asked(ask) => self.judge_asked(ask),
            What::Confirmed { ask } | What::Undone { ask } => self.judge_closing(*ask),
            What::Opened { peer, balance } => self.judge_opened(*peer, *balance),
            What::Known(credited) => self.judge_known(credited),
            What::Pending { peer, amount, key } => self.judge_pending(*peer, *amount, key),
        }
    }

    // Whether this fulfills the hold of this number.
    fn judge_fulfilled(
        &self,
        moment: i64,
        number: u32,
        preimage: &[u8; 32],
    ) -> Result<(), BrokenRule>
        ensures ok { OnOk result (KeepsRule self.now.config self.now.period self.now.base
            self.now.entries moment
            (what.Fulfilled number preimage.now)) }
        ensures err { OnErr result (KeepsRule self.now.config self.now.period self.now.base
            self.now.entries moment
            (what.Fulfilled number preimage.now) → ⊥) }
        ensures broken { IfErr result (BreaksRule self.now.config self.now.period
            self.now.entries moment
            (what.Fulfilled number preimage.now)) }
    {
        let Some(hold) = open_hold_at(&self.journal, number) else {
            return Err(BrokenRule::NoOpenHold);
        };
        if hold.deadline <= moment {
            return Err(BrokenRule::Lateness);
        }
        if !meets(&hold.condition, preimage) {
            return Err(BrokenRule::Preimage);
        }
        Ok(())
    }

    // Whether the hold of this number is released for this cause.
    fn judge_released(&self, moment: i64, number: u32, cause: Cause) -> Result<(), BrokenRule>
        ensures ok { OnOk result (KeepsRule self.now.config self.now.period self.now.base
            self.now.entries moment
            (what.Released number cause)) }
        ensures err { OnErr result (KeepsRule self.now.config self.now.period self.now.base
            self.now.entries moment
            (what.Released number cause) → ⊥) }
        ensures broken { IfErr result (BreaksRule self.now.config self.now.period
            self.now.entries moment
            (what.Released number cause)) }
    {
        let Some(hold) = open_hold_at(&self.journal, number) else {
            return Err(BrokenRule::NoOpenHold);
        };
        match (is_late(cause), hold.deadline <= moment) {
            (true, true) | (false, false) => Ok(()),
            _ => Err(BrokenRule::Lateness),
        }
    }

    // Whether the credit is a new one, of what its quantity comes to.
    fn judge_credited(&self, credit: &Credited) -> Result<(), BrokenRule>
        ensures ok { OnOk result (IsFreshCredit self.now.config self.now.entries credit.now) }
        ensures err { OnErr result (IsFreshCredit self.now.config self.now.entries credit.now → ⊥) }
        ensures broken { (moment : ℤ) → IfErr result (BreaksRule self.now.config self.now.period
            self.now.entries moment
            (what.Credited credit.now)) }
    {
        if self.config.peers() <= credit.peer {
            return Err(BrokenRule::Peer);
        }
        let quantity = Quantity {
            amount: credit.named,
            scale: credit.scale,
        };
        let told = credit.credited;
        let Ok(amount) = credited(&quantity, self.config.scale(credit.peer)) else {
            return Err(BrokenRule::Credited);
        };
        if amount != told {
            return Err(BrokenRule::Credited);
        }
        let key = credit.key.as_slice();
        if self.tables.keys.find(credit.peer, key).is_some() {
            return Err(BrokenRule::KeyTaken);
        }
        Ok(())
    }

    // Whether the settlement is due.
    fn judge_asked(&self, ask: &Ask) -> Result<(), BrokenRule>
        ensures ok { OnOk result (IsDueAsk self.now.config self.now.entries ask.now) }
        ensures err { OnErr result (IsDueAsk self.now.config self.now.entries ask.now → ⊥) }
        ensures broken { (moment : ℤ) → IfErr result (BreaksRule self.now.config self.now.period
            self.now.entries moment
            (what.Asked ask.now)) }
    {
        if self.config.peers() <= ask.peer {
            return Err(BrokenRule::Peer);
        }
        let tallies = &self.tables.tallies;
        if !are_few_open(tallies, ask.peer) {
            return Err(BrokenRule::StillOpen);
        }
        let balance = tallies.balance(ask.peer);
        let Some(amount) = due_amount(balance, self.config.levels(ask.peer)) else {
            return Err(BrokenRule::NotDue);
        };
        if amount != ask.amount {
            return Err(BrokenRule::NotDue);
        }
        Ok(())
    }

    // Whether the settlement of this number is open.
    fn judge_closing(&self, number: u32) -> Result<(), BrokenRule>
        ensures ok { OnOk result (IsSome (open_ask_at self.now.entries number)) }
        ensures err { OnErr result (open_ask_at self.now.entries number ≡ None) }
        ensures broken { IfErr result (λ rule. rule ≡ BrokenRule.NoOpenAsk) }
    {
        match open_ask_at(&self.journal, number) {
            Some(_ask) => Ok(()),
            None => Err(BrokenRule::NoOpenAsk),
        }
    }

    // Whether the limits are kept with it.
    fn judge_limits(&self, entry: &Entry) -> Result<(), BrokenRule>
        requires rule { KeepsRuleOf self.now self.now.entries entry.now }
        ensures ok { OnOk result (KeepsLimits self.now entry.now.what) }
        ensures err { OnErr result (KeepsLimits self.now entry.now.what → ⊥) }
        ensures broken { IfErr result (BreaksRule self.now.config self.now.period self.now.entries
            entry.now.moment entry.now.what) }
    {
        match &entry.what {
            What::Hold(hold) => {
                self.judge_room(2)?;
                self.judge_balance(hold.from, hold.amount)
            }
            What::Credited(credited) => {
                self.judge_room(1)?;
                let lowered = credited.kind.lowering(credited.credited);
                self.judge_balance(credited.peer, lowered)
            }
            What::Known(_) => self.judge_room(1),
            What::Asked(_) | What::Pending { .. } => self.judge_room(2),
            What::Opened { peer, balance } => {
                self.judge_room(1)?;
                self.judge_opening(*peer, *balance)
            }
            _ => Ok(()),
        }
    }

    // Whether so many more entries fit, beside those that end what is open.
    fn judge_room(&self, more: u32) -> Result<(), BrokenRule>
        ensures ok { OnOk result (HasRoom self.now more) }
        ensures err { OnErr result (HasRoom self.now more → ⊥) }
        ensures broken { IfErr result (λ rule. rule ≡ BrokenRule.Room) }
    {
        if !self.has_room(more) {
            return Err(BrokenRule::Room);
        }
        Ok(())
    }

    // Whether a peer's balance is at its least or above it without this amount.
    fn judge_balance(&self, peer: u32, amount: u64) -> Result<(), BrokenRule>
        requires known { IsKnown self.now.config peer }
        ensures ok { OnOk result (((peer_at self.now.config peer).least +ℤ pos amount)
            ≤ℤ balance self.now.entries peer) }
        ensures err { OnErr result ((((peer_at self.now.config peer).least +ℤ pos amount)
            ≤ℤ balance self.now.entries peer) → ⊥) }
        ensures broken { IfErr result (λ rule. rule ≡ BrokenRule.Least) }
    {
        let balance = self.tables.tallies.balance(peer);
        if is_short(balance, amount, self.config.least(peer)) {
            return Err(BrokenRule::Least);
        }
        Ok(())
    }
}

// Whether it is the cause of what came too late.
fn is_late(cause: Cause) -> bool
    ensures { IsTrue result ↔ (cause ≡ Late) }
{
    match cause {
        Cause::Late => true,
        _ => false,
    }
}

// Whether a hold is of terms that the configuration allows.
fn judge_terms(config: &Config, moment: i64, hold: &Hold) -> Result<(), BrokenRule>
    requires last { moment ≤ℤ last_of_all }
    ensures ok { OnOk result (HasTerms config.now moment hold.now) }
    ensures err { OnErr result (HasTerms config.now moment hold.now → ⊥) }
    ensures broken { (period : ℕ) (before : Entries) → IfErr result (BreaksRule config.now period before
        moment (what.Hold hold.now)) }
{
    let peers = config.peers();
    if peers <= hold.from || peers <= hold.to || hold.from == hold.to {
        return Err(BrokenRule::Peer);
    }
    if config.max_packet(hold.from) < hold.amount {
        return Err(BrokenRule::MaxPacket);
    }
    if !is_quoted(config, hold) {
        return Err(BrokenRule::Quote);
    }
    if hold.deadline <= moment || after(moment, config.max_hold_ms()) < hold.deadline {
        return Err(BrokenRule::Deadline);
    }
    Ok(())
}

// Whether fee and amount out are those of the quote.
fn is_quoted(config: &Config, hold: &Hold) -> bool
    requires from { IsKnown config.now hold.now.from }
    requires to { IsKnown config.now hold.now.to }
    ensures { IsTrue result ↔ IsOkAnd (quote_between config.now hold.now.from hold.now.to hold.now.amount)
        (λ (q : Quote). (hold.now.fee ≡ q.fee) × (hold.now.out ≡ q.out)) }
{
    match quote_between(config, hold.from, hold.to, hold.amount) {
        Ok(quote) => quote.fee == hold.fee && quote.out == hold.out,
        Err(_) => false,
    }
}
