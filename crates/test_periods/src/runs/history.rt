//! What the entries of all periods come to, by a plain walk over them.

use crate::configured::{NAMES, Name, Terms, name_of};
use ilp_book::{Book, CreditFault, Kept};
use ilp_journal::{CreditKind, Credited, Hold, Key, What};
use ilp_settlement::Quantity;
use std::alloc::{AllocError, Global};
use std::process::Abort;
use std::test::Fail;

// A credit that is kept.
#[derive(Drop)]
struct KeptCredit {
    name: Name,
    key: Vec<u8>,
    amount: u128,
    scale: u8,
    credited: u64,
}

// A settlement that is open.
#[derive(Drop)]
struct OpenSettlement {
    name: Name,
    amount: u64,
    key: Vec<u8>,
}

/// What the entries of all periods came to so far. Those that a period begins with are left out.
#[derive(Drop)]
pub(crate) struct History {
    alloc: Global,
    balances: [i128; NAMES.len()],
    kept: Vec<KeptCredit>,
    open: Vec<OpenSettlement>,
    // How many settlements of an earlier period than the one that closed them were confirmed or undone.
    closed_later: u32,
    // How many packets went from one asset to another.
    exchanged: u32,
}

impl History {
    /// Nothing.
    pub(crate) fn new(alloc: Global) -> History {
        History {
            alloc,
            balances: [0; NAMES.len()],
            kept: Vec::new(alloc),
            open: Vec::new(alloc),
            closed_later: 0,
            exchanged: 0,
        }
    }

    /// Whether what the runs are made for came up.
    pub(crate) fn has_enough(&self) -> bool {
        self.closed_later > 2 && self.exchanged > 20 && self.kept.len() > 20
    }

    /// What the connector owes a peer.
    pub(crate) fn balance(&self, name: Name) -> i128 {
        match self.balances.get(name) {
            Some(balance) => *balance,
            None => 0,
        }
    }

    /// The sum of the balances in an asset of a period.
    pub(crate) fn settled(&self, terms: &Terms, asset: u32) -> i128 {
        let mut sum = 0i128;
        for name in terms.peers {
            if terms.asset_of(*name) == asset {
                sum = sum.wrapping_add(self.balance(*name));
            }
        }
        sum
    }

    /// Walks over the entries of a period, and looks at the terms of its holds.
    pub(crate) fn walk_over(
        &mut self,
        rt: &impl Abort,
        book: &Book,
        terms: &Terms,
    ) -> Result<(), AllocError> {
        for number in 0..book.len() {
            self.walk(rt, book, terms, number)?;
        }
        Ok(())
    }

    fn walk(
        &mut self,
        rt: &impl Abort,
        book: &Book,
        terms: &Terms,
        number: u32,
    ) -> Result<(), AllocError> {
        let Some(entry) = book.entry(number) else {
            return Ok(());
        };
        match &entry.what {
            What::Hold(hold) => self.hold(rt, terms, hold),
            What::Fulfilled { hold, .. } => self.fulfill(book, terms, *hold),
            What::Released { hold, .. } => self.release(book, terms, *hold),
            What::Credited(credit) => self.credit(terms, credit)?,
            What::Asked(ask) => {
                if let Some(name) = terms.name_at(ask.peer) {
                    let amount = ask.amount;
                    self.add(name, 0i128.wrapping_sub(i128::from(amount)));
                    let key = own_key(self.alloc, book.period(), number)?;
                    self.open.push(OpenSettlement { name, amount, key })?;
                }
            }
            What::Confirmed { ask } => self.close(book, *ask, false)?,
            What::Undone { ask } => self.close(book, *ask, true)?,
            What::Opened { .. } | What::Known(_) | What::Pending { .. } => {
                assert!(rt; number < book.base(), "brought forward behind the base");
                assert!(rt; book.period() > 0, "brought forward to the first period");
            }
        }
        Ok(())
    }

    fn add(&mut self, name: Name, amount: i128) {
        if let Some(balance) = self.balances.get_mut(name) {
            *balance = balance.wrapping_add(amount);
        }
    }

    // The fee and what goes out are those of the period.
    fn hold(&mut self, rt: &impl Abort, terms: &Terms, hold: &Hold) {
        let names = (terms.name_at(hold.from), terms.name_at(hold.to));
        let (Some(from), Some(to)) = names else {
            panic!(rt; "a hold of no peer");
        };
        let fee = terms.fee(hold.amount);
        let out = terms.exchanged(from, to, hold.amount.wrapping_sub(fee));
        assert_eq!(rt; (hold.fee, hold.out), (fee, out));
        if terms.asset_of(from) != terms.asset_of(to) {
            self.exchanged = self.exchanged.saturating_add(1);
        }
        self.add(from, 0i128.wrapping_sub(i128::from(hold.amount)));
    }

    fn fulfill(&mut self, book: &Book, terms: &Terms, number: u32) {
        if let Some(hold) = hold_at(book, number) {
            if let Some(to) = terms.name_at(hold.to) {
                self.add(to, i128::from(hold.out));
            }
        }
    }

    fn release(&mut self, book: &Book, terms: &Terms, number: u32) {
        if let Some(hold) = hold_at(book, number) {
            if let Some(from) = terms.name_at(hold.from) {
                self.add(from, i128::from(hold.amount));
            }
        }
    }

    fn credit(&mut self, terms: &Terms, credit: &Credited) -> Result<(), AllocError> {
        let Some(name) = terms.name_at(credit.peer) else {
            return Ok(());
        };
        self.add(name, i128::from(credit.credited));
        self.kept.push(KeptCredit {
            name,
            key: Vec::from_slice(self.alloc, credit.key.as_slice())?,
            amount: credit.named,
            scale: credit.scale,
            credited: credit.credited,
        })?;
        Ok(())
    }

    // Closes the settlement under a number of a period, which has its key from an earlier one or its own.
    fn close(&mut self, book: &Book, number: u32, is_undone: bool) -> Result<(), AllocError> {
        let key = key_at(self.alloc, book, number)?;
        let Some(place) = self
            .open
            .iter()
            .position(|open| open.key.as_slice() == key.as_slice())
        else {
            return Ok(());
        };
        let closed = self.open.remove(place);
        if is_undone {
            self.add(closed.name, i128::from(closed.amount));
        }
        if number < book.base() {
            self.closed_later = self.closed_later.saturating_add(1);
        }
        Ok(())
    }

    /// Forgets the keys of peers that a period leaves out.
    pub(crate) fn leave_out(&mut self, terms: &Terms) {
        self.kept.retain(|kept| terms.place_of(kept.name).is_some());
    }

    /// The text of what a period begins with that opens at this moment.
    pub(crate) fn text(
        &self,
        alloc: Global,
        period: u32,
        moment: i64,
        terms: &Terms,
    ) -> Result<String, AllocError> {
        let mut lines = Lines {
            alloc,
            moment,
            count: 0,
            text: format!(in alloc; "ilp-journal 2 {period}\n")?,
        };
        for name in terms.peers {
            let balance = self.balance(*name);
            if balance != 0 {
                let told = format!(in alloc; "opened {} {balance}", name_of(*name))?;
                lines.add(told.as_str())?;
            }
        }
        self.add_kept(&mut lines)?;
        self.add_open(&mut lines)?;
        lines.end()
    }

    fn add_kept(&self, lines: &mut Lines) -> Result<(), AllocError> {
        for kept in &self.kept {
            let name = name_of(kept.name);
            let key = hex::encode(self.alloc, kept.key.as_slice())?;
            let told = format!(in self.alloc;
                "known {name} {key} {} {} {}",
                kept.amount, kept.scale, kept.credited
            )?;
            lines.add(told.as_str())?;
        }
        Ok(())
    }

    fn add_open(&self, lines: &mut Lines) -> Result<(), AllocError> {
        for open in &self.open {
            let name = name_of(open.name);
            let key = hex::encode(self.alloc, open.key.as_slice())?;
            let told = format!(in self.alloc; "pending {name} {} {key}", open.amount)?;
            lines.add(told.as_str())?;
        }
        Ok(())
    }

    /// The open settlements of a peer are those of the book, in order, with their amounts and keys.
    pub(crate) fn check_settlements(
        &self,
        rt: &impl Abort,
        book: &Book,
        terms: &Terms,
        name: Name,
    ) {
        let Some(place) = terms.place_of(name) else {
            return;
        };
        let mut tried = None;
        for open in &self.open {
            if open.name == name {
                tried = Some(check_settlement(rt, book, place, tried, open));
            }
        }
        if tried.is_none() {
            assert_eq!(rt; book.open_settlement(place, None), None);
        }
    }

    /// Each kept key is answered as it was, and refuses another quantity.
    pub(crate) fn check_keys(
        &self,
        rt: &impl Abort,
        book: &mut Book,
        terms: &Terms,
        now: i64,
    ) -> Result<(), Fail> {
        for kept in &self.kept {
            let Some(place) = terms.place_of(kept.name) else {
                panic!(rt; "a key of no peer");
            };
            check_key(rt, self.alloc, book, place, kept, now)?;
        }
        Ok(())
    }
}

// The lines of a text.
#[derive(Drop)]
struct Lines {
    alloc: Global,
    moment: i64,
    count: u32,
    text: String,
}

impl Lines {
    fn add(&mut self, told: &str) -> Result<(), AllocError> {
        let line = format!(in self.alloc; "{} 0 {told}\n", self.moment)?;
        self.count = self.count.saturating_add(1);
        self.text.push_str(line.as_str())
    }

    fn end(self) -> Result<String, AllocError> {
        let Lines {
            alloc,
            moment: _,
            count,
            mut text,
        } = self;
        let last = format!(in alloc; "end {count}\n")?;
        text.push_str(last.as_str())?;
        Ok(text)
    }
}

fn hold_at(book: &Book, number: u32) -> Option<&Hold> {
    match book.entry(number) {
        Some(entry) => match &entry.what {
            What::Hold(hold) => Some(hold),
            _ => None,
        },
        None => None,
    }
}

// The key of a settlement of a period's own.
fn own_key(alloc: Global, period: u32, number: u32) -> Result<Vec<u8>, AllocError> {
    let text = if period == 0 {
        format!(in alloc; "r1-{number}")?
    } else {
        format!(in alloc; "r1.{period}-{number}")?
    };
    Vec::from_slice(alloc, text.as_bytes())
}

// The key of the settlement under a number.
fn key_at(alloc: Global, book: &Book, number: u32) -> Result<Vec<u8>, AllocError> {
    if let Some(entry) = book.entry(number) {
        if let What::Pending { key, .. } = &entry.what {
            return Vec::from_slice(alloc, key.as_slice());
        }
    }
    own_key(alloc, book.period(), number)
}

// The next open settlement to a peer is this one. Tells its number.
fn check_settlement(
    rt: &impl Abort,
    book: &Book,
    place: u32,
    tried: Option<u32>,
    open: &OpenSettlement,
) -> u32 {
    let Some(asked) = book.open_settlement(place, tried) else {
        panic!(rt; "a settlement is missing");
    };
    let Some(entry) = book.entry(asked.number) else {
        panic!(rt; "an entry is missing");
    };
    let What::Pending { peer, amount, key } = &entry.what else {
        panic!(rt; "another kind");
    };
    assert_eq!(rt;
        (asked.amount, *amount, *peer),
        (open.amount, open.amount, place)
    );
    assert_eq!(rt; key.as_slice(), open.key.as_slice());
    asked.number
}

fn check_key(
    rt: &impl Abort,
    alloc: Global,
    book: &mut Book,
    place: u32,
    kept: &KeptCredit,
    now: i64,
) -> Result<(), Fail> {
    let same = credit_under(rt, alloc, book, place, kept, kept.amount, now)?;
    match same {
        Ok(Kept { amount, fresh, .. }) => assert_eq!(rt; (amount, fresh), (kept.credited, false)),
        Err(fault) => panic!(rt; "a key is forgotten: {fault}"),
    }
    let more = kept.amount.wrapping_add(1);
    let other = credit_under(rt, alloc, book, place, kept, more, now)?;
    assert!(rt; matches!(other, Err(CreditFault::KeyTaken { .. })));
    Ok(())
}

// What a quantity is answered under a kept key.
fn credit_under(
    rt: &impl Abort,
    alloc: Global,
    book: &mut Book,
    place: u32,
    kept: &KeptCredit,
    amount: u128,
    now: i64,
) -> Result<Result<Kept, CreditFault>, Fail> {
    let quantity = Quantity {
        amount,
        scale: kept.scale,
    };
    let Some(key) = Key::new(alloc, kept.key.as_slice())? else {
        panic!(rt; "no key");
    };
    assert!(rt; place < book.config().peers());
    Ok(book.credit(0, place, key, &quantity, CreditKind::Settled, now))
}
