//! What the ends of a desk add up to, and what its book does.

use super::gathering::book_of;
use ilp_book::{Book, EngineVerdict};
use ilp_desk::{AnsweredHold, Desk, End, HoldEnd, Naming, Record, Recorded};
use ilp_journal::{Entry, What};
use std::io;

/// What was booked: how many entries, how many holds that were fulfilled, and their amounts in and
/// out; what was credited, and what corrections took, and the settlements to peers that were confirmed and undone.
#[derive(Clone, Copy, Debug)]
struct Totals {
    entries: u64,
    fulfilled: u64,
    paid: u64,
    got: u64,
    credited: u64,
    corrected: u64,
    confirmed: u64,
    undone: u64,
}

const NOTHING: Totals = Totals {
    entries: 0,
    fulfilled: 0,
    paid: 0,
    got: 0,
    credited: 0,
    corrected: 0,
    confirmed: 0,
    undone: 0,
};

impl Totals {
    fn add_payment(&mut self, amount: u64, out: u64) {
        self.fulfilled = self.fulfilled.wrapping_add(1);
        self.paid = self.paid.wrapping_add(amount);
        self.got = self.got.wrapping_add(out);
    }

    fn add_credit(&mut self, amount: u64, lowers: bool) {
        if lowers {
            self.corrected = self.corrected.wrapping_add(amount);
        } else {
            self.credited = self.credited.wrapping_add(amount);
        }
    }

    fn add_settlement(&mut self, amount: u64, verdict: EngineVerdict) {
        match verdict {
            EngineVerdict::Accepted => self.confirmed = self.confirmed.wrapping_add(amount),
            EngineVerdict::Refused => self.undone = self.undone.wrapping_add(amount),
        }
    }

    // Adds what a record is of.
    fn add_record(&mut self, record: &Record) {
        match record.what {
            Recorded::Answered(hold) => self.add_answered(&hold),
            Recorded::Credited { amount, lowers, .. } => self.add_credit(amount, lowers),
            Recorded::Closed {
                amount,
                verdict,
                ..
            } => self.add_settlement(amount, verdict),
        }
    }

    fn add_answered(&mut self, hold: &AnsweredHold) {
        if hold.ended == HoldEnd::Fulfilled {
            self.add_payment(hold.amount, hold.out);
        }
    }

    // Adds what an entry of the book did.
    fn add_entry(&mut self, book: &Book, what: &What) {
        match what {
            What::Fulfilled { hold, .. } => {
                let (amount, out) = held_at(book, *hold).unwrap_or((0, 0));
                self.add_payment(amount, out);
            }
            What::Credited(credit) => self.add_credit(credit.credited, credit.kind.lowers()),
            What::Confirmed { ask } => {
                self.add_settlement(asked_at(book, *ask), EngineVerdict::Accepted);
            }
            What::Undone { ask } => {
                self.add_settlement(asked_at(book, *ask), EngineVerdict::Refused);
            }
            What::Hold(_) | What::Released { .. } | What::Asked(_) => {}
            What::Opened { .. } | What::Known(_) | What::Pending { .. } => {}
        }
    }
}

// The amounts of the hold under a number.
fn held_at(book: &Book, number: u32) -> Option<(u64, u64)> {
    match &book.entry(number)?.what {
        What::Hold(hold) => Some((hold.amount, hold.out)),
        _ => None,
    }
}

// The amount of the settlement under a number.
fn asked_at(book: &Book, number: u32) -> u64 {
    match book.entry(number) {
        Some(
            Entry {
                what: What::Asked(ask),
                ..
            },
        ) => ask.amount,
        _ => 0,
    }
}

// What the ends say.
fn totals_of_ends<J: Naming>(ends: &Vec<End<J>>) -> Totals {
    let mut totals = NOTHING;
    for end in ends {
        totals.entries = totals.entries.wrapping_add(u64::from(end.entries()));
        add_records(&mut totals, end.records());
    }
    totals
}

fn add_records(totals: &mut Totals, records: &[Record]) {
    for record in records {
        totals.add_record(record);
    }
}

// What the book says.
fn totals_of_book(book: &Book) -> Totals {
    let mut totals = NOTHING;
    totals.entries = u64::from(book.len());
    for number in 0..book.len() {
        if let Some(entry) = book.entry(number) {
            totals.add_entry(book, &entry.what);
        }
    }
    totals
}

/// Prints what these ends add up to, closes their desk, and prints what its book does.
pub(crate) fn print_totals<J: Naming>(
    rt: &impl Print,
    desk: Desk<J>,
    ends: Vec<End<J>>,
) -> io::Result<()> {
    let _ = println!(rt; "ends: {:?}", totals_of_ends(&ends));
    match book_of(desk, ends) {
        Ok(book) => println!(rt; "book: {:?}", totals_of_book(&book)),
        Err(why) => println!(rt; "not gathered: {why}"),
    }
}
