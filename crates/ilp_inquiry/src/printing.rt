//! The statement of a peer's account, on standard output.
ghost use Rattle.std.specs.Prelude.{◌≡◌, ◌↔◌, ◌<◌, ◌≤◌, length, IfErr, IfSome, IsOk, IsTrue};
ghost use Rattle.std.specs.Char.{is_ascii_hexdigit};
ghost use Rattle.std.specs.List.{list_all};
ghost use Rattle.ilp_inquiry.specs.Asked.{AreDigits};
ghost use Rattle.ilp_inquiry.specs.declared.fault.InquiryFault.TheVariants as inquiry_fault;

use crate::fault::InquiryFault;
use crate::inquiry::{Form, Inquiry};
use crate::naming::peer_of;
use crate::spans::Span;
use ilp_accounts::Config;
use ilp_book::Book;
use ilp_remembered::is_of_another;
use ilp_starting::{configured, written_book_at};
use ilp_statement_text::{Extent, StatementFault, put_records, put_rows};
use std::fs::File;
use std::io;
use std::io::Eprint;
use std::rt::{Files, Runtime};

// A condition has so many digits in hexadecimal.
const DIGITS: usize = 64;

/// Prints the statement of a peer's account from the files of a journal, which a connector may have, or of a period
/// that is kept. Holds that are open stay open in it. Where the journal was last begun with another run or asset of the
/// peer, a line on standard error says so.
///
/// Refusals: `Misused` where no peer has the name, a time is none, or what a condition begins with has other digits
/// than hexadecimal ones, and a line on standard error says which; those of `configured` and `written_book_at`; `Memory`.
/// Where standard output fails, what was printed is a front of the statement.
pub fn print_statement<R>(rt: &R, inquiry: &Inquiry<'_>) -> Result<(), InquiryFault>
where
    R: Runtime + AllocGlobal + Files<File = File> + Copy,
{
    let span = Span::of(rt, inquiry)?;
    expect_digits(rt, inquiry)?;
    let config = configured(rt, inquiry.config)?;
    print_by(rt, &config, inquiry, span)
}

// The same by a configuration that was read.
fn print_by<R>(
    rt: &R,
    config: &Config,
    inquiry: &Inquiry<'_>,
    span: Span,
) -> Result<(), InquiryFault>
where
    R: Runtime + AllocGlobal + Files<File = File> + Copy,
{
    let peer = peer_of(rt, config, inquiry.peer)?;
    let found = written_book_at(rt, config, inquiry.journal)?;
    if is_of_another(rt.alloc(), config, &found.remembered, peer)? {
        tell_of_another(rt, config, peer);
    }
    let extent = span.extent(&found.book, found.written);
    match put(rt, inquiry, &found.book, peer, extent) {
        Ok(()) => Ok(()),
        Err(fault) => Err(InquiryFault::from(fault)),
    }
}

// Tells that the journal was last begun by another configuration than keys and amounts are shown by.
fn tell_of_another<R: Eprint>(rt: &R, config: &Config, peer: u32)
    requires { peer < length config.now.peers }
{
    let name = config.name(peer);
    let _ = rt.eprintln(format_args!(
        "the journal was last begun with another `run`, or another asset of {name:?}: keys and amounts are shown as this configuration has them"
    ));
}

// Prints a book's entries of the peer's in this extent.
fn put<R>(
    rt: &R,
    inquiry: &Inquiry<'_>,
    book: &Book,
    peer: u32,
    extent: Extent,
) -> Result<(), StatementFault>
where
    R: Runtime + AllocGlobal,
    requires peer { peer < length book.now.config.peers }
    requires order { extent.first ≤ extent.behind }
    requires within { extent.behind ≤ length book.now.entries }
{
    let mut writer = io::writer(rt);
    match inquiry.form {
        Form::Lines => put_rows(rt.alloc(), book, peer, extent, inquiry.sought, &mut writer),
        Form::Records => put_records(rt.alloc(), book, peer, extent, inquiry.sought, &mut writer),
    }
}

// Finds that what is given of a condition can be the beginning of one.
fn expect_digits<R: Eprint>(rt: &R, inquiry: &Inquiry<'_>) -> Result<(), InquiryFault>
    ensures ok { IsOk result ↔ IfSome inquiry.now.sought.packet (λ digits. AreDigits digits.now) }
    ensures fault { IfErr result (λ fault. fault ≡ inquiry_fault.Misused) }
{
    match inquiry.sought.packet {
        Some(digits) if !are_digits(digits) => {
            let _ = rt.eprintln("a condition begins with 1 to 64 hexadecimal digits");
            Err(InquiryFault::Misused)
        }
        _ => Ok(()),
    }
}

// Whether a condition may begin so.
fn are_digits(octets: &[u8]) -> bool
    ensures { IsTrue result ↔ AreDigits octets.now }
{
    !octets.is_empty() && octets.len() <= DIGITS && are_hexadecimal(octets)
}

// Whether each octet is a hexadecimal digit.
fn are_hexadecimal(octets: &[u8]) -> bool
    ensures { result ≡ list_all is_ascii_hexdigit octets.now }
{
    octets.iter().all(|octet| octet.is_ascii_hexdigit())
}
