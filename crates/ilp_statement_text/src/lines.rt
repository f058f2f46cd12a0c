//! The lines of a statement for a person.

use crate::account::Account;
use crate::amount::Amount;
use crate::extent::Extent;
use crate::key::Spaces;
use crate::moment::Moment;
use crate::row::Row;
use crate::shown::{Hexadecimal, OrDash, WhyText, name_text};
use crate::totals::Total;
use std::fmt;
use std::fmt::Display;

/// Whose statement it is, and from when to when.
#[derive(Clone, Copy)]
pub(crate) struct Head<'b> {
    pub(crate) account: Account<'b>,
    pub(crate) extent: Extent,
}

impl Display for Head<'_> {
    fn fmt<W: fmt::Write>(&self, f: &mut fmt::Formatter<W>) -> fmt::Result {
        let Account {
            run,
            period,
            peer,
            asset,
        } = self.account;
        let (peer, run) = (name_text(peer), name_text(run));
        write!(f, "statement {peer} {asset} run {run} period {period}")?;
        let from = OrDash(self.extent.from.map(Moment));
        let to = OrDash(self.extent.to.map(Moment));
        write!(f, " from {from} to {to}")
    }
}

/// The balance before the first entry, or behind the last one.
#[derive(Clone, Copy)]
pub(crate) struct End<'w> {
    pub(crate) word: &'w str,
    pub(crate) number: u32,
    pub(crate) balance: Amount,
}

impl Display for End<'_> {
    fn fmt<W: fmt::Write>(&self, f: &mut fmt::Formatter<W>) -> fmt::Result {
        let End {
            word,
            number,
            balance,
        } = *self;
        write!(f, "{word} {number} {balance}")
    }
}

/// An entry.
#[derive(Clone, Copy)]
pub(crate) struct EntryLine<'b> {
    pub(crate) account: Account<'b>,
    pub(crate) row: Row<'b>,
}

impl EntryLine<'_> {
    // When it was booked, what it is, and with whom.
    fn put_what<W: fmt::Write>(&self, f: &mut fmt::Formatter<W>) -> fmt::Result {
        let moment = Moment(self.row.moment);
        let number = self.row.line.number;
        let word = self.row.kind.word();
        let with = OrDash(self.row.with().map(|name| name_text(name)));
        write!(f, "{moment} {number} {word} {with}")
    }

    // The amount that it is about, and what of that is in the balance.
    fn put_moves<W: fmt::Write>(&self, f: &mut fmt::Formatter<W>) -> fmt::Result {
        let amount = self.account.amount(self.row.amount());
        let rise = OrDash(self.account.amount_above_0(self.row.line.rise));
        let fall = OrDash(self.account.amount_above_0(self.row.line.fall));
        let balance = self.account.amount(self.row.line.balance);
        write!(f, " {amount} {rise} {fall} {balance}")
    }

    // What it ends and why, and by what that is known.
    fn put_about<W: fmt::Write>(&self, f: &mut fmt::Formatter<W>) -> fmt::Result {
        let ends = OrDash(self.row.ends);
        let condition = OrDash(self.row.condition().map(|octets| Hexadecimal(octets)));
        let key = OrDash(self.row.key().map(|key| key.text(Spaces::Escaped)));
        let spaces = Spaces::Escaped;
        let why = OrDash(self.row.why.map(|why| WhyText { why, spaces }));
        write!(f, " {ends} {condition} {key} {why}")
    }
}

impl Display for EntryLine<'_> {
    fn fmt<W: fmt::Write>(&self, f: &mut fmt::Formatter<W>) -> fmt::Result {
        self.put_what(f)?;
        self.put_moves(f)?;
        self.put_about(f)
    }
}

/// What the entries of a kind come to.
#[derive(Clone, Copy)]
pub(crate) struct TotalLine<'b> {
    pub(crate) account: Account<'b>,
    pub(crate) total: Total,
}

impl Display for TotalLine<'_> {
    fn fmt<W: fmt::Write>(&self, f: &mut fmt::Formatter<W>) -> fmt::Result {
        let word = self.total.kind.word();
        let count = self.total.count;
        let sum = self.account.amount(self.total.sum);
        write!(f, "total {word} {count} {sum}")
    }
}
