//! Amounts of one asset, and what becomes of them in another.
ghost use Rattle.std.specs.Prelude.{◌≤◌};

use ilp_assets::{Asset, AssetFault, AssetTable, Price, Quote, QuoteFault};
use std::alloc::Global;
use std::rt::Files;
use std::{fs, io};
use test_row_texts::RowFault;

// The most millionths that a fee has.
const MOST_PPM: u32 = 1_000_000;

/// Prints what becomes of the amount of each row.
pub(crate) fn print_quotes<R: Files + Print + AllocGlobal>(rt: &R) -> io::Result<()> {
    let rows = fs::read_to_string(rt, "quotes/quotes.txt")?;
    for row in rows.lines() {
        print_quote(rt, row)?;
    }
    Ok(())
}

fn print_quote<R: Print + AllocGlobal>(rt: &R, row: &str) -> io::Result<()> {
    match quoted(rt.alloc(), row) {
        Ok(Ok(Quote { fee, net, out })) => { println!(rt; "{row}: fee {fee} net {net} out {out}") }
        Ok(Err(fault)) => println!(rt; "{row}: {fault}"),
        Err(fault) => fault.print(rt, row),
    }
}

// What a row has: two scales, the price's p and q, the millionths of the fee, and an amount.
#[derive(Clone, Copy)]
struct Given {
    from: u8,
    to: u8,
    p: u32,
    q: u32,
    ppm: u32,
    amount: u64,
}

fn read_given(row: &str) -> Option<Given> {
    let mut words = row.split(' ');
    Some(Given {
        from: words.next()?.parse::<u8>().ok()?,
        to: words.next()?.parse::<u8>().ok()?,
        p: words.next()?.parse::<u32>().ok()?,
        q: words.next()?.parse::<u32>().ok()?,
        ppm: words.next()?.parse::<u32>().ok()?,
        amount: words.next()?.parse::<u64>().ok()?,
    })
}

fn quoted(alloc: Global, row: &str) -> Result<Result<Quote, QuoteFault>, RowFault> {
    match read_given(row) {
        Some(given) if given.ppm <= MOST_PPM => between(alloc, given),
        _ => Err(RowFault::NotUnderstood),
    }
}

// What the amount becomes from one scale to the other.
fn between(alloc: Global, given: Given) -> Result<Result<Quote, QuoteFault>, RowFault>
    requires { given.ppm ≤ 1000000 }
{
    let Given {
        p,
        q,
        ppm,
        amount,
        ..
    } = given;
    let from = Asset {
        code: "FROM",
        scale: given.from,
    };
    let to = Asset {
        code: "TO",
        scale: given.to,
    };
    match AssetTable::new(alloc, &[from, to], &[Price { from, to, p, q }]) {
        Ok(table) => Ok(table.quote(0, 1, ppm, amount)),
        Err(AssetFault::Memory) => Err(RowFault::Memory),
        Err(_) => Err(RowFault::NotUnderstood),
    }
}
