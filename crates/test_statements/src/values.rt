//! Amounts and moments, each in a line.

use ilp_statement_text::{Amount, Moment, moment_of};
use std::rt::Runtime;
use std::{fs, io};

/// Prints what is told of each amount and each moment.
pub(crate) fn print_values<R: Runtime + AllocGlobal>(rt: &R) -> io::Result<()> {
    print_amounts(rt)?;
    print_moments(rt)?;
    print_texts(rt)
}

// Prints amounts, each of which is given by its units and its scale.
fn print_amounts<R: Runtime + AllocGlobal>(rt: &R) -> io::Result<()> {
    let rows = fs::read_to_string(rt, "amounts.txt")?;
    for row in rows.lines() {
        match amount_in(row) {
            Some(amount) => println!(rt; "{amount}")?,
            None => println!(rt; "row not understood: {row}")?,
        }
    }
    Ok(())
}

fn amount_in(row: &str) -> Option<Amount> {
    let (units, scale) = row.split_once(' ')?;
    Some(Amount {
        units: units.parse().ok()?,
        scale: scale.parse().ok()?,
    })
}

// Prints moments, each of which is given in milliseconds since 1970.
fn print_moments<R: Runtime + AllocGlobal>(rt: &R) -> io::Result<()> {
    let rows = fs::read_to_string(rt, "moments.txt")?;
    for row in rows.lines() {
        match row.parse::<i64>() {
            Ok(moment) => println!(rt; "{}", Moment(moment))?,
            Err(_) => println!(rt; "row not understood: {row}")?,
        }
    }
    Ok(())
}

// Prints the moment that each text names.
fn print_texts<R: Runtime + AllocGlobal>(rt: &R) -> io::Result<()> {
    let rows = fs::read_to_string(rt, "texts.txt")?;
    for row in rows.lines() {
        match moment_of(row) {
            Some(moment) => println!(rt; "{row} is {moment}")?,
            None => println!(rt; "{row} is none")?,
        }
    }
    Ok(())
}
