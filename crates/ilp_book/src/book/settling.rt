//! Settlements: credits from peers, asks to peers, and what becomes of those.
ghost use Rattle.std.specs.Prelude.{◌≡◌, OnErr};
ghost use Rattle.ilp_journal.specs.Journal.{open_ask_at};
ghost use Rattle.ilp_rules.specs.Book.{by, Does};
ghost use Rattle.ilp_rules.specs.Configured.{IsKnown};
ghost use Rattle.ilp_rules.specs.Lawful.{IsLawful, IsFreshCredit, IsDueAsk};
ghost use Rattle.ilp_book.specs.SettleStep.{payment, open_settlement, credit_fitted, credit_booked, credit_growth, credit_step, ask_fitted, ask_booked, ask_growth, ask_step, close_step};

use crate::asks::{closing, open_settlement, still_open};
use crate::book::Book;
use crate::calls::{Asked, Kept};
use crate::credits::kept_reply;
use crate::fault::{AskFault, CreditFault, NotOpen};
use ilp_journal::{Ask, CreditKind, Credited, Entry, Key, What};
use ilp_rules::{due_amount, is_short, open_ask_at};
use ilp_settlement::{EngineVerdict, Quantity, credited};
use std::alloc::Allocator;

impl<A: Allocator + Clone> Book<A> {
    /// Credits a settlement that came from a peer (RFC 0038), or corrects its balance, by the kind, once for
    /// each of the peer's keys: the quantity at the scale of the peer's asset, rounded down. A key that is
    /// kept with an equal amount and scale, and an equal kind, is answered as it was, with `fresh` false, and
    /// books nothing. No balance falls below its least by that. The refusals come in the order of
    /// `CreditFault`; each leaves the book as it was.
    #[tactic(auto, unfolding(crate::specs::SettleStep::credit_step, crate::specs::SettleStep::credit_checked))]
    pub fn credit(
        &mut self,
        actor: u32,
        peer: u32,
        key: Key,
        quantity: &Quantity,
        kind: CreditKind,
        now: i64,
    ) -> Result<Kept, CreditFault>
        requires known { IsKnown self.old.config peer }
        ensures step { Does self.old self.new result (credit_step self.old (by actor now)
            (payment peer key quantity.now kind) (credit_growth result)) }
        ensures lawful { IsLawful self.new }
        ensures err { OnErr result (self.new ≡ self.old) }
    {
        let amount = credited(quantity, self.config.scale(peer))?;
        match kept_reply(
            &self.journal,
            &self.tables.keys,
            peer,
            &key,
            quantity,
            &kind,
        ) {
            Some(reply) => reply,
            None => {
                let credit = Credited {
                    peer,
                    key,
                    named: quantity.amount,
                    scale: quantity.scale,
                    credited: amount,
                    kind,
                };
                self.book_credit(actor, now, credit)
            }
        }
    }

    /// Asks for a settlement to a peer, where fewer than four to it are open and its balance has
    /// reached its threshold: for what lies above `settle_to`, but no more than `settle_max`, in
    /// units of its asset. It takes the memory for the entry that closes it too. The refusals come in the
    /// order of `AskFault`; each leaves the book as it was.
    #[tactic(auto, unfolding(crate::specs::SettleStep::ask_step, crate::specs::SettleStep::ask_checked))]
    pub fn ask(&mut self, actor: u32, peer: u32, now: i64) -> Result<Asked, AskFault>
        requires known { IsKnown self.old.config peer }
        ensures step { Does self.old self.new result
            (ask_step self.old (by actor now) peer (ask_growth result)) }
        ensures lawful { IsLawful self.new }
        ensures err { OnErr result (self.new ≡ self.old) }
    {
        let balance = self.balance(peer);
        match still_open(&self.journal, &self.tables.tallies, peer) {
            Some(fault) => Err(fault),
            None => match due_amount(balance, self.config.levels(peer)) {
                Some(amount) => self.book_ask(actor, now, Ask { peer, amount }),
                None => Err(AskFault::NotDue { balance }),
            },
        }
    }
}

// What the calls are made of.
impl<A: Allocator + Clone> Book<A> {
    // Books a credit or a correction that its rules allow, if there is room and balance for it.
    fn book_credit(&mut self, actor: u32, now: i64, credit: Credited) -> Result<Kept, CreditFault>
        requires fresh { IsFreshCredit self.old.config self.old.entries credit }
        ensures step { Does self.old self.new result (credit_booked self.old (by actor now)
            (credit_growth result) (credit_fitted self.old credit)) }
        ensures lawful { IsLawful self.new }
        ensures err { OnErr result (self.new ≡ self.old) }
    {
        if !self.has_room(1) {
            return Err(CreditFault::Full);
        }
        let balance = self.balance(credit.peer);
        let least = self.config.least(credit.peer);
        let lowered = credit.kind.lowering(credit.credited);
        if is_short(balance, lowered, least) {
            return Err(CreditFault::BelowLeast { balance, least });
        }
        let moment = self.moment_at(now);
        let amount = credit.credited;
        let what = What::Credited(credit);
        let entry = Entry {
            moment,
            actor,
            what,
        };
        let number = self.append(entry, 0)?;
        Ok(Kept {
            number,
            amount,
            fresh: true,
        })
    }

    // Books an ask that is due, if there is room for it and what closes it.
    fn book_ask(&mut self, actor: u32, now: i64, ask: Ask) -> Result<Asked, AskFault>
        requires due { IsDueAsk self.old.config self.old.entries ask }
        ensures step { Does self.old self.new result (ask_booked self.old (by actor now)
            (ask_growth result) (ask_fitted self.old ask)) }
        ensures lawful { IsLawful self.new }
        ensures err { OnErr result (self.new ≡ self.old) }
    {
        if !self.has_room(2) {
            return Err(AskFault::Full);
        }
        let moment = self.moment_at(now);
        let what = What::Asked(ask);
        let entry = Entry {
            moment,
            actor,
            what,
        };
        let number = self.append(entry, 1)?;
        Ok(Asked {
            number,
            amount: ask.amount,
        })
    }
}

// The call that takes no memory.
impl<A: Allocator> Book<A> {
    /// Books what the peer's engine said of a settlement, if it is open: where it was accepted that
    /// is all, and where it was refused the peer gets the amount back. Answers the number of the
    /// entry. The ask has made room, so no memory is taken. A refusal names the entry that closed the
    /// settlement, if one did, and leaves the book as it was.
    #[tactic(auto, unfolding(crate::specs::SettleStep::close_step))]
    pub fn settle_close(
        &mut self,
        actor: u32,
        number: u32,
        verdict: EngineVerdict,
        now: i64,
    ) -> Result<u32, NotOpen>
        ensures step { Does self.old self.new result
            (close_step self.old (by actor now) number verdict) }
        ensures lawful { IsLawful self.new }
    {
        let Some(_ask) = self.open_ask(number) else {
            return Err(NotOpen {
                closer: self.journal.closing_of(number),
            });
        };
        let moment = self.moment_at(now);
        let what = closing(number, verdict);
        Ok(self.close(Entry {
            moment,
            actor,
            what,
        }))
    }

    /// The open settlement to a peer that comes next: the one of least number behind that which was
    /// tried last, else the first of all.
    pub fn open_settlement(&self, peer: u32, tried: Option<u32>) -> Option<Asked>
        ensures { result ≡ open_settlement self.now.entries peer tried }
    {
        open_settlement(&self.journal, &self.tables.tallies, peer, tried)
    }

    // The settlement under a number, if it is open.
    fn open_ask(&self, number: u32) -> Option<Ask>
        ensures value { result ≡ open_ask_at self.now.entries number }
        ensures lawful { IsLawful self.now }
    {
        open_ask_at(&self.journal, number)
    }
}
