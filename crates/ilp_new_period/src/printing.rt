//! What is printed of a period that begins.
ghost use Rattle.ilp_rules.specs.Configured.{IsKnown};

use ilp_book::{Asked, Book};
use ilp_starting::RunFault;
use ilp_tallies::MOST_OPEN;
use std::io;
use std::io::Print;

/// Prints `peer NAME balance BALANCE` for each peer, with ` pending AMOUNT` for each settlement that is open, and at
/// last `period NUMBER`. Amounts are units of the peer's asset.
pub(crate) fn print_period<R: Print>(rt: &R, book: &Book) -> Result<(), RunFault> {
    match print_lines(rt, book) {
        Ok(()) => Ok(()),
        Err(_) => Err(RunFault::OutputFailed),
    }
}

fn print_lines<R: Print>(rt: &R, book: &Book) -> io::Result<()> {
    for peer in 0..book.config().peers() {
        print_peer(rt, book, peer)?;
    }
    let period = book.period();
    println!(rt; "period {period}")
}

fn print_peer<R: Print>(rt: &R, book: &Book, peer: u32) -> io::Result<()>
    requires { IsKnown book.now.config peer }
{
    let (name, balance) = (book.config().name(peer), book.balance(peer));
    print!(rt; "peer {name} balance {balance}")?;
    print_pending(rt, book, peer)?;
    println!(rt; "")
}

// The settlements to a peer that are open, in order.
fn print_pending<R: Print>(rt: &R, book: &Book, peer: u32) -> io::Result<()> {
    let mut last = None;
    for _ in 0..MOST_OPEN {
        let Some(asked) = next_pending(book, peer, last) else {
            break;
        };
        let amount = asked.amount;
        print!(rt; " pending {amount}")?;
        last = Some(asked.number);
    }
    Ok(())
}

// The open settlement behind the last one, if there is one. Behind the last of all a look finds the first again.
fn next_pending(book: &Book, peer: u32, last: Option<u32>) -> Option<Asked> {
    let asked = book.open_settlement(peer, last)?;
    match last {
        Some(last) if asked.number <= last => None,
        _ => Some(asked),
    }
}
