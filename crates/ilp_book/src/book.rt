//! The book: what was booked by a configuration, and the calls that book more.
mod bringing_forward;
mod carrying_over;
mod settling;

ghost use Rattle.std.specs.Prelude.{◌≡◌, ℕ, ◌+◌, ◌^◌, ◌<◌, ◌≤◌, pos, ◌≤ℤ◌, length, Option, IfOk, OnOk, OnErr, slice_get};
ghost use Rattle.std.specs.Option.{option_copied};
ghost use Rattle.ilp_terms.specs.Expiry.{last_of_all};
ghost use Rattle.ilp_lookup.specs.Route.{IsRoute};
ghost use Rattle.ilp_packet.specs.Packet.{plain_prepare};
ghost use Rattle.ilp_accounts.specs.Configuration.{peer_at};
ghost use Rattle.ilp_accounts.specs.Valid.{IsValid};
ghost use Rattle.ilp_journal.specs.Journal.{opening, closing, last_moment, open_holds, open_count, open_hold_at, fulfilled_since, IsBase};
ghost use Rattle.ilp_journal.specs.Balance.{balance};
ghost use Rattle.ilp_journal.specs.TrialBalance.{held, fees, bought, sold, settled, total_in, total_out, IsBalanced};
ghost use Rattle.ilp_rules.specs.Book.{by, moment_at, new_book, pushed, has_room, Does};
ghost use Rattle.ilp_rules.specs.Configured.{IsKnown, peer_assets};
ghost use Rattle.ilp_rules.specs.Open.{earliest};
ghost use Rattle.ilp_rules.specs.Lawful.{IsLawful, HasTerms};
ghost use Rattle.ilp_book.specs.Reopened.{IsHead};
ghost use Rattle.ilp_book.specs.Sums.{IsWithin, AreWithin};
ghost use Rattle.ilp_book.specs.HoldStep.{incoming, given_route, has_total, hold_fitted, hold_booked, hold_step, growth_of};
ghost use Rattle.ilp_book.specs.AnswerStep.{answer_step, expire_step};

use crate::answers::judge_reply;
use crate::calls::{Held, Outcome, PeerReply, Sums};
use crate::fault::{HoldFault, NotOpen};
use crate::terms::hold_terms;
use ilp_accounts::Config;
use ilp_journal::{Cause, Entry, Hold, Journal, What};
use ilp_packet::Prepare;
use ilp_rules::{Tables, is_short, moment_at, open_hold_at};
use std::alloc::{AllocError, Allocator, Global};
use std::marker::Model;

/// A configuration, and the journal of what was booked by it, with tables of what it comes to. The
/// journal is lawful, no hold was open where the book began, and there is room in memory for
/// whatever ends what is open.
pub struct Book<A: Allocator = Global> {
    config: Config,
    period: u32,
    base: u32,
    journal: Journal<A>,
    tables: Tables<A>,
}

// By hand, so that who owns a book proves one call where it goes, and not what becomes of each of its parts.
impl<A: Allocator> Drop for Book<A> {
    fn drop(self) {
        let Book {
            config: _,
            period: _,
            base: _,
            journal: _,
            tables: _,
        } = self;
    }
}

impl<A: Allocator> Model for Book<A> {
    ghost use Rattle.ilp_journal.specs.Journal.{IsBase};
    ghost use Rattle.ilp_rules.specs.Book.{PlainBook};
    ghost use Rattle.ilp_rules.specs.Parts.{AreParts, book_of};

    ghost Value = { PlainBook };

    ghost view = { λ b. book_of b.config b.period b.base b.journal };

    ghost invariant = { λ b.
        AreParts b.config b.period b.base b.journal b.tables.tallies b.tables.holds
        b.tables.keys
        × IsBase b.journal.entries b.base };
}

impl<A: Allocator + Clone> Book<A> {
    /// A book of the first period without entries, with a copy of the configuration. `AllocError`
    /// tells that memory is short.
    pub fn new(alloc: A, config: &Config) -> Result<Book<A>, AllocError>
        ensures { IfOk result (λ b. b ≡ new_book config.now) }
    {
        let journal = Journal::new(alloc.clone()?, config.journal())?;
        let tables = Tables::new(alloc, config, 0)?;
        Ok(Book {
            config: config.copy()?,
            period: 0,
            base: 0,
            journal,
            tables,
        })
    }
}

impl<A: Allocator> Book<A> {
    /// What the book is configured to do.
    pub fn config(&self) -> &Config
        ensures value { result.now ≡ self.now.config }
        ensures valid { IsValid self.now.config }
    {
        &self.config
    }

    /// The number of the book's period, from 0.
    pub fn period(&self) -> u32
        ensures { result ≡ self.now.period }
    {
        self.period
    }

    /// How many entries there were when the book was opened. None of their holds was open then.
    pub fn base(&self) -> u32
        ensures value { result ≡ self.now.base }
        ensures opened { IsBase self.now.entries self.now.base }
    {
        self.base
    }

    /// How many entries there are: the number that the next one gets.
    pub fn len(&self) -> u32
        ensures { result ≡ length self.now.entries }
    {
        self.journal.len()
    }

    /// How many entries are taken: those that there are, and as many as end or close what is open, which
    /// are kept for that.
    pub fn taken(&self) -> u64
        ensures value { result ≡ length self.now.entries + open_count self.now.entries }
        ensures within { result ≤ self.now.config.settings.journal }
    {
        u64::from(self.journal.len()) + u64::from(self.tables.tallies.open_count())
    }

    /// How many entries stand at the head of the journal that were brought forward from an earlier period.
    pub fn head(&self) -> u32
        ensures { IsHead self.now.entries result }
    {
        for number in 0..self.journal.len() {
            match self.journal.get(number) {
                Some(entry) if entry.what.is_brought_forward() => {}
                _ => return number,
            }
        }
        self.journal.len()
    }

    /// The entry of this number, in a journal that is lawful.
    pub fn entry(&self, number: u32) -> Option<&Entry>
        ensures value { option_copied result ≡ slice_get self.now.entries number }
        ensures lawful { IsLawful self.now }
    {
        self.journal.get(number)
    }

    /// What the connector owes the peer, in units of the peer's asset: never less than the peer's
    /// least.
    pub fn balance(&self, peer: u32) -> i128
        ensures value { result ≡ balance self.now.entries peer }
        ensures least { (p : ℕ) → IsKnown self.now.config p
            → (peer_at self.now.config p).least ≤ℤ balance self.now.entries p }
        ensures within { IsWithin result }
    {
        self.tables.tallies.balance(peer)
    }

    /// How many of the open holds the peer sent.
    pub fn open_holds(&self, peer: u32) -> u32
        ensures { result ≡ open_holds self.now.entries peer }
    {
        self.tables.tallies.open_holds(peer)
    }

    /// How many entries fulfill a hold.
    pub fn fulfilled(&self) -> u32
        ensures { result ≡ fulfilled_since 0 self.now.entries }
    {
        self.tables.tallies.fulfilled()
    }

    /// What the books of an asset come to, in its units.
    pub fn sums(&self, asset: u32) -> Sums
        ensures settled { result.settled ≡ settled (peer_assets self.now.config) self.now.entries asset }
        ensures held { result.held ≡ pos (held (peer_assets self.now.config) self.now.entries asset) }
        ensures fees { result.fees ≡ pos (fees (peer_assets self.now.config) self.now.entries asset) }
        ensures bought { result.bought ≡ bought (peer_assets self.now.config) self.now.entries asset }
        ensures sold { result.sold ≡ pos (sold (peer_assets self.now.config) self.now.entries asset) }
        ensures balanced { IsBalanced (peer_assets self.now.config) self.now.entries asset }
        ensures within { AreWithin result }
    {
        let tallies = &self.tables.tallies;
        Sums {
            settled: tallies.settled(asset),
            held: tallies.held(asset),
            fees: tallies.fees(asset),
            bought: tallies.bought(asset),
            sold: tallies.sold(asset),
        }
    }

    /// Books what came back for a hold, if it is open: a preimage that meets the condition before
    /// the deadline fulfills it, and all else releases it, as `Late` from the deadline on. The hold
    /// has made room, so no memory is taken. A refusal names the entry that ended the hold, and
    /// leaves the book as it was.
    #[tactic(auto, unfolding(crate::specs::AnswerStep::answer_step))]
    pub fn answer(
        &mut self,
        actor: u32,
        number: u32,
        reply: PeerReply,
        now: i64,
    ) -> Result<Outcome, NotOpen>
        ensures step { Does self.old self.new result
            (answer_step self.old (by actor now) number reply) }
        ensures lawful { IsLawful self.new }
    {
        let Some(hold) = self.open_hold(number) else {
            return Err(NotOpen {
                closer: self.journal.answer_of(number),
            });
        };
        let moment = self.moment_at(now);
        match judge_reply(&hold, moment, reply) {
            Ok(preimage) => {
                let what = What::Fulfilled {
                    hold: number,
                    preimage,
                };
                let entry = self.close(Entry {
                    moment,
                    actor,
                    what,
                });
                Ok(Outcome::Fulfilled { entry })
            }
            Err(cause) => {
                let what = What::Released {
                    hold: number,
                    cause,
                };
                let entry = self.close(Entry {
                    moment,
                    actor,
                    what,
                });
                Ok(Outcome::Released { entry, cause })
            }
        }
    }

    /// Releases one open hold whose deadline has come, as `Late`: that of least deadline, and of
    /// several the first. Answers its number, or `None` where none is due, which leaves the book as
    /// it was. Takes no memory.
    #[tactic(auto, unfolding(crate::specs::AnswerStep::expire_step))]
    pub fn expire_one(&mut self, actor: u32, now: i64) -> Option<u32>
        ensures step { Does self.old self.new result (expire_step self.old (by actor now)) }
        ensures lawful { IsLawful self.new }
    {
        let (number, hold) = self.earliest_open()?;
        let moment = self.moment_at(now);
        if moment < hold.deadline {
            return None;
        }
        let what = What::Released {
            hold: number,
            cause: Cause::Late,
        };
        self.close(Entry {
            moment,
            actor,
            what,
        });
        Some(number)
    }
}

// The call that adds pages to the journal, and what it is made of.
impl<A: Allocator + Clone> Book<A> {
    /// Holds a Prepare's amount against the balance of its sender, and takes the memory for the
    /// entry that ends the hold too. The refusals come in the order of `HoldFault`; each leaves
    /// the book as it was.
    pub fn hold(
        &mut self,
        actor: u32,
        from: u32,
        prepare: &Prepare<'_>,
        now: i64,
    ) -> Result<Held, HoldFault>
        requires known { IsKnown self.old.config from }
        ensures step { Does self.old self.new result (hold_step self.old (by actor now)
            (incoming self.old.config from (plain_prepare prepare.now)) (growth_of result)) }
        ensures lawful { IsLawful self.new }
        ensures err { OnErr result (self.new ≡ self.old) }
    {
        let destination = prepare.destination;
        let route = self.config.route(destination);
        self.hold_routed(actor, from, prepare, route, now)
    }

    // Holds a Prepare whose route was looked up.
    #[tactic(auto, unfolding(crate::specs::HoldStep::hold_step, crate::specs::HoldStep::hold_checked))]
    fn hold_routed(
        &mut self,
        actor: u32,
        from: u32,
        prepare: &Prepare<'_>,
        route: Option<u32>,
        now: i64,
    ) -> Result<Held, HoldFault>
        requires known { IsKnown self.old.config from }
        requires route { IsRoute self.old.config.routes prepare.now.destination.now route }
        ensures step { Does self.old self.new result (hold_step self.old (by actor now)
            (given_route from (plain_prepare prepare.now) route) (growth_of result)) }
        ensures lawful { IsLawful self.new }
        ensures err { OnErr result (self.new ≡ self.old) }
    {
        let moment = self.moment_at(now);
        let hold = hold_terms(&self.config, moment, from, prepare, route)?;
        self.book_hold(actor, now, hold)
    }

    // Books a hold of allowed terms, if there is room, totals and balance for it.
    #[tactic(auto, unfolding(crate::specs::HoldStep::hold_fitted))]
    fn book_hold(&mut self, actor: u32, now: i64, hold: Hold) -> Result<Held, HoldFault>
        requires terms { HasTerms self.old.config (moment_at self.old.entries now) hold }
        ensures step { Does self.old self.new result (hold_booked self.old (by actor now)
            (growth_of result) (hold_fitted self.old hold)) }
        ensures lawful { IsLawful self.new }
        ensures err { OnErr result (self.new ≡ self.old) }
    {
        if !self.has_room(2) {
            return Err(HoldFault::Full);
        }
        if !self.has_total(&hold) {
            return Err(HoldFault::TotalFull);
        }
        let balance = self.balance(hold.from);
        if is_short(balance, hold.amount, self.config.least(hold.from)) {
            return Err(HoldFault::BelowLeast { balance });
        }
        let moment = self.moment_at(now);
        let what = What::Hold(hold);
        let entry = Entry {
            moment,
            actor,
            what,
        };
        let Ok(number) = self.append(entry, 1) else {
            return Err(HoldFault::Memory);
        };
        Ok(Held {
            number,
            to: hold.to,
            out: hold.out,
            deadline: hold.deadline,
        })
    }

    // Books an entry that ends nothing, with room for whatever ends what it opens and what is open
    // already, and tells its number.
    fn append(&mut self, entry: Entry, opened: u32) -> Result<u32, AllocError>
        requires opened { opening entry.what ≡ opened }
        requires ends_nothing { closing entry.what ≡ 0 }
        requires lawful { IsLawful (pushed self.old entry) }
        ensures number { IfOk result (λ number. number ≡ length self.old.entries) }
        ensures book { OnOk result (self.new ≡ pushed self.old entry) }
        ensures err { OnErr result (self.new ≡ self.old) }
        ensures lawful { IsLawful self.new }
    {
        let number = self.journal.len();
        let open_count = self.tables.tallies.open_count();
        let needed = u64::from(open_count) + u64::from(opened) + 1;
        self.journal.reserve(needed as usize)?;
        self.tables.prepare(number, &entry.what)?;
        self.tables.apply(&self.journal, &entry);
        self.journal.push_reserved(entry);
        Ok(number)
    }
}

// What the calls are made of.
impl<A: Allocator> Book<A> {
    // The hold under a number, if it is open.
    fn open_hold(&self, number: u32) -> Option<Hold>
        ensures value { result ≡ open_hold_at self.now.entries number }
        ensures lawful { IsLawful self.now }
    {
        open_hold_at(&self.journal, number)
    }

    // The open hold of least deadline, and of several the first, with its number.
    fn earliest_open(&self) -> Option<(u32, Hold)>
        ensures value { result ≡ earliest self.now.entries }
        ensures lawful { IsLawful self.now }
    {
        let (_, number) = self.tables.holds.earliest()?;
        let hold = self.journal.hold(number)?;
        Some((number, hold))
    }

    // The moment of a call: of the years 1970 to 9999, and never before the last entry's.
    fn moment_at(&self, now: i64) -> i64
        ensures moment { result ≡ moment_at self.now.entries now }
        ensures first { pos 0 ≤ℤ result }
        ensures last { result ≤ℤ last_of_all }
        ensures lawful { IsLawful self.now }
    {
        moment_at(&self.journal, now)
    }

    // Whether so many more entries fit, beside those that end what is open.
    fn has_room(&self, more: u32) -> bool
        ensures value { result ≡ has_room self.now more }
        ensures lawful { IsLawful self.now }
        ensures valid { IsValid self.now.config }
    {
        let open_count = self.tables.tallies.open_count();
        let needed = u64::from(self.journal.len()) + u64::from(open_count) + u64::from(more);
        needed <= u64::from(self.config.journal())
    }

    // Whether with this hold the totals of both assets stay within what one packet can carry.
    fn has_total(&self, hold: &Hold) -> bool
        requires from { IsKnown self.now.config hold.now.from }
        requires to { IsKnown self.now.config hold.now.to }
        ensures { result ≡ has_total self.now hold.now }
    {
        let most = u128::from(u64::MAX);
        let from = self.config.asset(hold.from);
        let to = self.config.asset(hold.to);
        let tallies = &self.tables.tallies;
        let paid = tallies.total_in(from) + u128::from(hold.amount);
        let got = tallies.total_out(to) + u128::from(hold.out);
        paid <= most && got <= most
    }

    // Books the entry that ends what is open, a hold or a settlement, and tells its number.
    fn close(&mut self, ending: Entry) -> u32
        requires ends { closing ending.what ≡ 1 }
        requires lawful { IsLawful (pushed self.old ending) }
        ensures number { result ≡ length self.old.entries }
        ensures book { self.new ≡ pushed self.old ending }
        ensures lawful { IsLawful self.new }
    {
        let number = self.journal.len();
        self.tables.apply(&self.journal, &ending);
        self.journal.push_reserved(ending);
        number
    }
}
