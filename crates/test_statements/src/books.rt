//! The books that statements are of.

use ilp_accounts::Config;
use ilp_book::Book;
use std::io::ErrorKind;
use std::rt::Runtime;
use std::{fs, io};

// When the books are taken up: a second behind the last entry of both.
const NOW: i64 = 1_764_187_208_000;

/// The book of a configuration and of a journal's text. Where there is none, the reason is printed, which ends the
/// program.
pub(crate) fn book_of<R: Runtime + AllocGlobal>(rt: &R, name: &str) -> io::Result<Book> {
    let config = configured(rt, name)?;
    let path = format!(in rt.alloc(); "{name}.journal")?;
    let journal = fs::read(rt, path.as_str())?;
    match Book::carry_over(rt.alloc(), &config, &journal, NOW) {
        Ok(book) => Ok(book),
        Err(fault) => {
            println!(rt; "{path}: {fault}")?;
            Err(io::Error::from(ErrorKind::InvalidData))
        }
    }
}

fn configured<R: Runtime + AllocGlobal>(rt: &R, name: &str) -> io::Result<Config> {
    let path = format!(in rt.alloc(); "{name}.toml")?;
    let octets = fs::read(rt, path.as_str())?;
    match Config::read(rt.alloc(), &octets) {
        Ok(config) => Ok(config),
        Err(fault) => {
            println!(rt; "{path}: {fault}")?;
            Err(io::Error::from(ErrorKind::InvalidData))
        }
    }
}
