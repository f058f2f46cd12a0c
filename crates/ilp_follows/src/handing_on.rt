//! What a period hands on: the head of the next one's journal.
ghost use Rattle.std.specs.Prelude.{◌≡◌, ◌++◌, [], pos, length, option_map, codes, string_bytes, IfOk, OnOk};
ghost use Rattle.std.specs.List.{cons_option};
ghost use Rattle.std.specs.Fmt.{decimal};
ghost use Rattle.ilp_journal.specs.BroughtForward.{earlier_balance, earlier_place};
ghost use Rattle.ilp_rules.specs.Configured.{IsKnown};
ghost use Rattle.ilp_rules.specs.Heads.{settlement_key_of};
ghost use Rattle.ilp_rules.specs.SettlementKeys.{settlement_key_at};
ghost use Rattle.ilp_next_period.specs.NextPeriod.{next_credit, next_head, next_opening, places_by_name};
ghost use Rattle.ilp_follows.specs.Follows.{MayHandOn, booked_in_head, credits_of, openings_of, settlements_of, settlement_on};

use crate::ended::EndedPeriod;
use ilp_accounts::Config;
use ilp_journal::head::{known, opened, pending};
use ilp_journal::{Entry, Key};
use std::alloc::{AllocError, Global};

impl<'k> EndedPeriod<'k> {
    /// What the next period begins with, by another configuration that names its peers: each balance, each kept key and
    /// each open settlement, and nothing else.
    ///
    /// It is refused where memory is short alone.
    pub(crate) fn head(&self, alloc: Global, config: &Config) -> Result<Vec<Entry>, AllocError>
        requires may { MayHandOn self.now config.now }
        ensures { IfOk result (λ head. head.items ≡ next_head self.now config.now (pos 0)) }
    {
        let mut head = Vec::new(alloc);
        self.open_balances(config, &mut head)?;
        self.bring_credits(alloc, config, &mut head)?;
        self.bring_settlements(alloc, config, &mut head)?;
        Ok(head)
    }

    // Brings the balances forward, in the order of the configuration's peers.
    fn open_balances(&self, config: &Config, head: &mut Vec<Entry>) -> Result<(), AllocError>
        requires may { MayHandOn self.now config.now }
        ensures { OnOk result (head.new.items
            ≡ head.old.items ++ openings_of self.now config.now (length config.now.peers)) }
    {
        for place in 0..config.peers() {
            let entry = self.opening_at(config, place);
            push_some(head, entry)?;
        }
        Ok(())
    }

    // The opening of the balance of the peer that has this place in the configuration, if it is not 0.
    fn opening_at(&self, config: &Config, place: u32) -> Option<Entry>
        requires there { IsKnown config.now place }
        requires may { MayHandOn self.now config.now }
        ensures { result
            ≡ option_map (booked_in_head self.now) (next_opening self.now config.now place) }
    {
        opened(self.moment(), place, self.balance_at(config, place))
    }

    // The balance that the peer of this place in the configuration has here: 0 of a new one.
    fn balance_at(&self, config: &Config, place: u32) -> i64
        requires there { IsKnown config.now place }
        requires may { MayHandOn self.now config.now }
        ensures { result ≡ earlier_balance self.now.entries
            (earlier_place (places_by_name self.now.config config.now) place) }
    {
        // They tell that the configuration is valid.
        let _ = config.peers();
        match self.config().peer_by_name(config.name(place).as_bytes()) {
            Some(peer) => self.balance(peer) as i64,
            None => 0,
        }
    }

    // Brings the credits forward, in order.
    fn bring_credits(
        &self,
        alloc: Global,
        config: &Config,
        head: &mut Vec<Entry>,
    ) -> Result<(), AllocError>
        ensures { OnOk result (head.new.items
            ≡ head.old.items ++ credits_of self.now config.now (length self.now.entries)) }
    {
        for number in 0..self.len() {
            let entry = self.credit_forward(alloc, config, number)?;
            push_some(head, entry)?;
        }
        Ok(())
    }

    // The credit of this number as it is brought forward, if its peer has a place in the configuration.
    fn credit_forward(
        &self,
        alloc: Global,
        config: &Config,
        number: u32,
    ) -> Result<Option<Entry>, AllocError>
        ensures { IfOk result (λ entry. entry
            ≡ option_map (booked_in_head self.now) (next_credit self.now config.now number)) }
    {
        let Some(credit) = self.credit_of(number) else {
            return Ok(None);
        };
        let Some(place) = self.place_in(config, credit.peer) else {
            return Ok(None);
        };
        let entry = known(alloc, self.moment(), place, credit)?;
        Ok(Some(entry))
    }

    // Brings the open settlements forward, in order.
    fn bring_settlements(
        &self,
        alloc: Global,
        config: &Config,
        head: &mut Vec<Entry>,
    ) -> Result<(), AllocError>
        ensures { OnOk result (head.new.items
            ≡ head.old.items ++ settlements_of self.now config.now (length self.now.entries)) }
    {
        for number in 0..self.len() {
            let entry = self.settlement_forward(alloc, config, number)?;
            push_some(head, entry)?;
        }
        Ok(())
    }

    // The settlement of this number as it is brought forward, if it is open and its peer has a place in the configuration.
    fn settlement_forward(
        &self,
        alloc: Global,
        config: &Config,
        number: u32,
    ) -> Result<Option<Entry>, AllocError>
        ensures { IfOk result (λ entry. entry
            ≡ option_map (booked_in_head self.now) (settlement_on self.now config.now number)) }
    {
        let Some(ask) = self.open_ask(number) else {
            return Ok(None);
        };
        let Some(place) = self.place_in(config, ask.peer) else {
            return Ok(None);
        };
        let key = self.key_of(alloc, number)?;
        let entry = pending(alloc, self.moment(), place, ask.amount, &key)?;
        Ok(Some(entry))
    }

    // The key that the settlement of this number has: the one of an earlier period, or its own.
    fn key_of(&self, alloc: Global, number: u32) -> Result<Key, AllocError>
        ensures { IfOk result (λ key. key
            ≡ settlement_key_at self.now.config self.now.period self.now.entries number) }
    {
        match self.earlier_key(number) {
            Some(key) => key.copied(alloc),
            None => self.own_key(alloc, number),
        }
    }

    // The key under which the period itself asks for a settlement of this number.
    fn own_key(&self, alloc: Global, number: u32) -> Result<Key, AllocError>
        ensures { IfOk result (λ key. key ≡ settlement_key_of self.now.config self.now.period number) }
    {
        let text = key_text(alloc, self.config(), self.period(), number)?;
        match Key::new(alloc, text.as_bytes())? {
            Some(key) => Ok(key),
            None => unreachable!(),
        }
    }
}

// Adds an entry, if there is one.
fn push_some(head: &mut Vec<Entry>, entry: Option<Entry>) -> Result<(), AllocError>
    ensures { OnOk result (head.new.items ≡ head.old.items ++ cons_option entry []) }
{
    match entry {
        Some(entry) => match head.push(entry) {
            Ok(()) => Ok(()),
            Err(_) => Err(AllocError),
        },
        None => Ok(()),
    }
}

// The key as a text: `RUN-N` in the first period, and `RUN.P-N` in the period P above 0.
fn key_text(alloc: Global, config: &Config, period: u32, number: u32) -> Result<String, AllocError>
    ensures { IfOk result (λ text. string_bytes text ≡ settlement_key_of config.now period number) }
{
    if period == 0 {
        first_key(alloc, config.run(), number)
    } else {
        later_key(alloc, config.run(), period, number)
    }
}

// That of the first period.
fn first_key(alloc: Global, run: &str, number: u32) -> Result<String, AllocError>
    ensures { IfOk result (λ text. string_bytes text ≡ run.now ++ (codes "-" ++ decimal number)) }
{
    format!(in alloc; "{run}-{number}")
}

// That of a later one.
fn later_key(alloc: Global, run: &str, period: u32, number: u32) -> Result<String, AllocError>
    ensures { IfOk result (λ text. string_bytes text
        ≡ run.now ++ (codes "." ++ (decimal period ++ (codes "-" ++ decimal number)))) }
{
    format!(in alloc; "{run}.{period}-{number}")
}
