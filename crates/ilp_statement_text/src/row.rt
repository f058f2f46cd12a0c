//! A line of a statement with what its entry is about.
ghost use Rattle.std.specs.Prelude.{◌≡◌, false, pos, Some, None, IfNone, IfSome, option_map, option_and_then, slice_get};
ghost use Rattle.ilp_accounts.specs.Configuration.{peer_at};
ghost use Rattle.ilp_journal.specs.declared.entry.Entry.{Entry};
ghost use Rattle.ilp_journal.specs.Journal.{ended};
ghost use Rattle.ilp_rules.specs.SettlementKeys.{settlement_key_at};
ghost use Rattle.ilp_statement.specs.Statement.{kind_at, kind_of};
ghost use Rattle.ilp_statement_text.specs.Amounts.{amount_at, amount_in, amount_of, change_by, corrects, corrects_at, corrects_by, is_correction, side_amount};
ghost use Rattle.ilp_statement_text.specs.Keys.{octets_of};
ghost use Rattle.ilp_statement_text.specs.Sought.{condition_at, condition_in, condition_of, key_at, key_in, key_of};
ghost use Rattle.ilp_statement_text.specs.Why.{cause_at, cause_in, cause_of, other_name, reason_at, reason_in, reason_by, reason_of, with_at, with_in, with_of};

use crate::key::SettlementKey;
use ilp_accounts::Config;
use ilp_book::Book;
use ilp_journal::{Cause, CreditKind, Credited, Hold, What};
use ilp_statement::{Kind, Line, ask_at, hold_at};

/// A line of a peer's statement with what its entry is about.
#[derive(Clone, Copy, Debug)]
pub struct Row<'b> {
    pub line: Line,
    /// When it was booked, in milliseconds since 1970.
    pub moment: i64,
    pub kind: Kind,
    pub about: About<'b>,
    /// The number of the hold or of the settlement that it ends.
    pub ends: Option<u32>,
    /// Why a packet was not fulfilled, or the balance was corrected.
    pub why: Option<Why<'b>>,
}

/// Why an entry was booked.
#[derive(Clone, Copy, Debug)]
pub enum Why<'b> {
    /// A packet was not fulfilled for this cause.
    Cause(Cause),
    /// The balance was corrected for this reason, in the operator's words.
    Reason(&'b [u8]),
}

/// What an entry of a peer's is about, in units of the peer's asset.
#[derive(Clone, Copy, Debug)]
pub enum About<'b> {
    /// A balance that was brought forward.
    Balance(i64),
    /// A packet: the other peer, the amount at this side, and its condition.
    Packet {
        with: &'b str,
        amount: u64,
        condition: [u8; 32],
    },
    /// A settlement of this amount under this key.
    Settlement {
        amount: u64,
        key: SettlementKey<'b>,
    },
    /// A correction under this key: by how much the balance rose, which lies below 0 where it fell.
    Correction {
        change: i128,
        key: SettlementKey<'b>,
    },
}

impl<'b> Row<'b> {
    /// The row of a line of a peer's statement; none where its entry isn't the peer's.
    pub fn of(book: &'b Book, peer: u32, line: Line) -> Option<Row<'b>>
        ensures kind { option_map (λ row. row.kind) result ≡ kind_at book.now.entries peer line.number }
        ensures line { IfSome result (λ row. row.line ≡ line) }
        ensures ends { IfSome result (λ row. row.ends ≡ option_and_then (λ (e : Entry). ended e.what)
            (slice_get book.now.entries line.number)) }
        ensures moment { IfSome result (λ row. option_map (λ (e : Entry). e.moment)
            (slice_get book.now.entries line.number) ≡ Some row.moment) }
        ensures amount { IfSome result (λ row.
            amount_at book.now.entries peer line.number ≡ Some (amount_in row.about)) }
        ensures correction { IfSome result (λ row.
            corrects_at book.now.entries line.number ≡ Some (is_correction row.about)) }
        ensures with { IfSome result (λ row. with_in row.about
            ≡ with_at book.now.config book.now.entries peer line.number) }
        ensures condition { IfSome result (λ row.
            condition_in row.about ≡ condition_at book.now.entries line.number) }
        ensures key { IfSome result (λ row. key_in row.about
            ≡ key_at book.now.config book.now.period book.now.entries line.number) }
        ensures cause { IfSome result (λ row.
            cause_in row.why ≡ cause_at book.now.entries line.number) }
        ensures reason { IfSome result (λ row.
            reason_in row.why ≡ reason_at book.now.entries line.number) }
    {
        let entry = book.entry(line.number)?;
        let what = &entry.what;
        Some(Row {
            line,
            moment: entry.moment,
            kind: Kind::at(book, peer, line.number)?,
            about: About::of(book, peer, line.number, what)?,
            ends: what.answered().or(what.closed()),
            why: why_of(what),
        })
    }
}

impl Row<'_> {
    /// What it is about, in units of the peer's asset.
    pub fn amount(&self) -> i128
        ensures { result ≡ amount_in self.now.about }
    {
        match self.about {
            About::Balance(balance) => i128::from(balance),
            About::Packet { amount, .. } | About::Settlement { amount, .. } => i128::from(amount),
            About::Correction { change, .. } => change,
        }
    }

    /// The other peer of a packet.
    pub fn with(&self) -> Option<&str>
        ensures { option_map (λ name. name.now) result ≡ with_in self.now.about }
    {
        match &self.about {
            About::Packet { with, .. } => Some(with),
            _ => None,
        }
    }

    /// The condition of a packet.
    pub fn condition(&self) -> Option<&[u8]>
        ensures { option_map (λ condition. condition.now) result ≡ condition_in self.now.about }
    {
        match &self.about {
            About::Packet { condition, .. } => Some(condition.as_slice()),
            _ => None,
        }
    }

    /// The key of a settlement or a correction.
    pub fn key(&self) -> Option<SettlementKey<'_>>
        ensures { option_map octets_of result ≡ key_in self.now.about }
    {
        match self.about {
            About::Settlement { key, .. } | About::Correction { key, .. } => Some(key),
            _ => None,
        }
    }
}

impl<'b> About<'b> {
    // What the peer's entry of a number is about.
    fn of(book: &'b Book, peer: u32, number: u32, what: &'b What) -> Option<About<'b>>
        ensures none { IfNone result (kind_of book.now.entries peer what.now ≡ None) }
        ensures amount { IfSome result (λ about.
            amount_of book.now.entries peer what.now ≡ Some (amount_in about)) }
        ensures correction { IfSome result (λ about. is_correction about ≡ corrects what.now) }
        ensures with { IfSome result (λ about.
            with_in about ≡ with_of book.now.config book.now.entries peer what.now) }
        ensures condition { IfSome result (λ about.
            condition_in about ≡ condition_of book.now.entries what.now) }
        ensures key { IfSome result (λ about. key_in about
            ≡ key_of book.now.config book.now.period book.now.entries number what.now) }
    {
        match what {
            What::Hold(hold) => Some(packet(book.config(), peer, *hold)),
            What::Fulfilled { hold, .. } | What::Released { hold, .. } => {
                Some(packet(book.config(), peer, hold_at(book, *hold)?))
            }
            What::Credited(credited) => Some(credit(credited)),
            What::Asked(ask) => Some(asked(book, number, ask.amount)),
            What::Confirmed { ask } | What::Undone { ask } => {
                Some(asked(book, *ask, ask_at(book, *ask)?.amount))
            }
            What::Opened { balance, .. } => Some(About::Balance(*balance)),
            What::Known(_) | What::Pending { .. } => None,
        }
    }
}

// A settlement from a peer, or a correction of its balance.
fn credit(credited: &Credited) -> About<'_>
    ensures amount { amount_in result ≡ change_by credited.now.kind credited.now.credited }
    ensures correction { is_correction result ≡ corrects_by credited.now.kind }
    ensures with { with_in result ≡ None }
    ensures condition { condition_in result ≡ None }
    ensures key { key_in result ≡ Some credited.now.key }
{
    let amount = credited.credited;
    let key = SettlementKey::Given(credited.key.as_slice());
    match &credited.kind {
        CreditKind::Settled => About::Settlement { amount, key },
        CreditKind::Raised(_) => About::Correction {
            change: i128::from(amount),
            key,
        },
        CreditKind::Lowered(_) => About::Correction {
            change: -i128::from(amount),
            key,
        },
    }
}

// The packet of a hold, at the side of a peer.
fn packet(config: &Config, peer: u32, hold: Hold) -> About<'_>
    ensures amount { amount_in result ≡ side_amount peer hold }
    ensures correction { is_correction result ≡ false }
    ensures with { with_in result ≡ Some (other_name config.now peer hold) }
    ensures condition { condition_in result ≡ Some hold.condition }
    ensures key { key_in result ≡ None }
{
    let (with, amount) = if hold.from == peer {
        (hold.to, hold.amount)
    } else {
        (hold.from, hold.out)
    };
    let condition = hold.condition;
    About::Packet {
        with: name_of(config, with),
        amount,
        condition,
    }
}

// The settlement that was asked for under a number.
fn asked(book: &Book, number: u32, amount: u64) -> About<'_>
    ensures amount { amount_in result ≡ pos amount }
    ensures correction { is_correction result ≡ false }
    ensures with { with_in result ≡ None }
    ensures condition { condition_in result ≡ None }
    ensures key { key_in result ≡ Some
        (settlement_key_at book.now.config book.now.period book.now.entries number) }
{
    About::Settlement {
        amount,
        key: SettlementKey::asked(book, number),
    }
}

// Why an entry's packet was not fulfilled, or a balance was corrected.
fn why_of(what: &What) -> Option<Why<'_>>
    ensures cause { cause_in result ≡ cause_of what.now }
    ensures reason { reason_in result ≡ reason_of what.now }
{
    match what {
        What::Released { cause, .. } => Some(Why::Cause(*cause)),
        What::Credited(credited) => match &credited.kind {
            CreditKind::Settled => None,
            CreditKind::Raised(reason) | CreditKind::Lowered(reason) => {
                Some(Why::Reason(reason.as_slice()))
            }
        },
        _ => None,
    }
}

// The name of a peer, empty where there is no such peer.
fn name_of(config: &Config, peer: u32) -> &str
    ensures { result.now ≡ (peer_at config.now peer).name }
{
    if peer < config.peers() {
        config.name(peer)
    } else {
        ""
    }
}
