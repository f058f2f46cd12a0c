//! What a line of a script prints.
ghost use Rattle.std.specs.Prelude.{◌≡◌, IfOk, IsAscii, string_bytes};
ghost use Rattle.ilp_accounts.specs.Configuration.{peer_at};
ghost use Rattle.ilp_report.specs.Report.{report_text};
ghost use Rattle.ilp_offline.specs.Text as texts;
ghost use Rattle.ilp_offline.specs.Text.{reply_text};

use ilp_accounts::Config;
use ilp_book::{Asked, Book, Held, HoldFault, Kept, Outcome};
use ilp_io::WriteFault;
use ilp_journal::Cause;
use ilp_refusals::{Named, Refusal};
use ilp_report::{Snapshot, print};
use std::alloc::{AllocError, Allocator};
use std::str;

/// What a line replies.
#[derive(Clone, Copy)]
pub(crate) enum LineReply {
    /// A line that asks for nothing.
    Silent,
    /// A line of no form.
    BadLine,
    /// A packet that can't be held.
    BadPacket(Refusal),
    /// A Prepare is held.
    Held(Held),
    /// A Prepare is refused.
    Rejected(HoldFault),
    /// A hold ended.
    Answered { hold: u32, outcome: Outcome },
    /// Nothing is open under the number.
    NotOpen { number: u32, closer: Option<u32> },
    /// A sweep found nothing due.
    NoneDue,
    /// A settlement from a peer is credited.
    Credited(Kept),
    /// A settlement to a peer is asked for.
    Asked(Asked),
    /// The engine accepted a settlement to a peer.
    Confirmed { number: u32, entry: u32 },
    /// The engine refused a settlement to a peer.
    Undone { number: u32, entry: u32 },
    /// A settlement is refused.
    Refused(Refusal),
    /// The report is asked for.
    Report,
}

/// What a reply prints, over the book that its line left.
pub(crate) fn reply_text<A: Allocator + Copy>(
    alloc: A,
    book: &Book<A>,
    reply: LineReply,
) -> Result<Vec<u8, A>, AllocError>
    ensures { IfOk result (λ text. text.items ≡ texts.reply_text book.now reply) }
{
    let text = match reply {
        LineReply::Silent => Ok(String::new(alloc)),
        LineReply::BadLine => String::from_str(alloc, "bad line\n"),
        LineReply::BadPacket(refusal) => format!(in alloc; "bad packet {refusal}\n"),
        LineReply::Held(held) => held_text(alloc, book, held),
        LineReply::Rejected(fault) => rejected_text(alloc, fault),
        LineReply::Answered { hold, outcome } => outcome_text(alloc, hold, outcome),
        LineReply::NotOpen { number, closer } => not_open_text(alloc, number, closer),
        LineReply::NoneDue => String::from_str(alloc, "none due\n"),
        LineReply::Credited(kept) => credited_text(alloc, kept),
        LineReply::Asked(Asked { number, amount }) => {
            format!(in alloc; "entry {number} asked {amount}\n")
        }
        LineReply::Confirmed { number, entry } => {
            format!(in alloc; "entry {entry} confirmed {number}\n")
        }
        LineReply::Undone { number, entry } => {
            format!(in alloc; "entry {entry} undone {number}\n")
        }
        LineReply::Refused(refusal) => format!(in alloc; "refused {refusal}\n"),
        LineReply::Report => return report_text(alloc, book),
    }?;
    Ok(text.into_bytes())
}

// A Prepare is held.
fn held_text<A: Allocator + Copy>(
    alloc: A,
    book: &Book<A>,
    held: Held,
) -> Result<String<A>, AllocError>
    ensures { IfOk result (λ text. string_bytes text
        ≡ texts.reply_text book.now (LineReply.Held held)) }
{
    let name = name_of(book.config(), held.to);
    let number = held.number;
    let out = held.out;
    format!(in alloc; "held {number} to {name} out {out}\n")
}

// A Prepare is refused, with the code of its Reject.
fn rejected_text<A: Allocator + Copy>(alloc: A, fault: HoldFault) -> Result<String<A>, AllocError>
    ensures { IfOk result (λ text. string_bytes text ≡ texts.rejected_text fault) }
{
    let code = fault.reject_code();
    let code = code_text(&code);
    let named = Named(Refusal::from(fault));
    format!(in alloc; "reject {code} {named}\n")
}

// The code of a Reject as text.
fn code_text(code: &[u8; 3]) -> &str
    requires { IsAscii code.now }
    ensures { result.now ≡ code.now }
{
    match str::from_utf8(code) {
        Ok(text) => text,
        Err(_) => unreachable!(),
    }
}

// How a hold ended.
fn outcome_text<A: Allocator + Copy>(
    alloc: A,
    hold: u32,
    outcome: Outcome,
) -> Result<String<A>, AllocError>
    ensures { IfOk result (λ text. string_bytes text ≡ texts.outcome_text hold outcome) }
{
    match outcome {
        Outcome::Fulfilled { entry } => format!(in alloc; "entry {entry} fulfilled {hold}\n"),
        Outcome::Released { entry, cause } => {
            let cause = cause_text(alloc, cause)?;
            format!(in alloc; "entry {entry} released {hold} {cause}\n")
        }
    }
}

// Why a hold was released.
fn cause_text<A: Allocator + Copy>(alloc: A, cause: Cause) -> Result<String<A>, AllocError>
    ensures { IfOk result (λ text. string_bytes text ≡ texts.cause_text cause) }
{
    match cause {
        Cause::Late => String::from_str(alloc, "Late"),
        Cause::WrongPreimage => String::from_str(alloc, "WrongPreimage"),
        Cause::NoReply => String::from_str(alloc, "NoReply"),
        Cause::Restart => String::from_str(alloc, "Restart"),
        Cause::Peer(code) => {
            let code = hex::encode(alloc, code.as_slice())?;
            format!(in alloc; "Peer {code}")
        }
    }
}

// Nothing is open under a number.
fn not_open_text<A: Allocator + Copy>(
    alloc: A,
    number: u32,
    closer: Option<u32>,
) -> Result<String<A>, AllocError>
    ensures { IfOk result (λ text. string_bytes text ≡ texts.not_open_text number closer) }
{
    match closer {
        None => format!(in alloc; "not open {number}\n"),
        Some(entry) => format!(in alloc; "not open {number} by {entry}\n"),
    }
}

// A settlement from a peer is credited, now or before.
fn credited_text<A: Allocator + Copy>(alloc: A, kept: Kept) -> Result<String<A>, AllocError>
    ensures { IfOk result (λ text. string_bytes text ≡ texts.credited_text kept) }
{
    let number = kept.number;
    let amount = kept.amount;
    if kept.fresh {
        format!(in alloc; "entry {number} credited {amount}\n")
    } else {
        format!(in alloc; "kept {number} credited {amount}\n")
    }
}

// The name of a peer, empty where there is no such peer.
fn name_of(config: &Config, peer: u32) -> &str
    ensures { result.now ≡ (peer_at config.now peer).name }
{
    if peer < config.peers() {
        config.name(peer)
    } else {
        ""
    }
}

// The report of a book. A `Vec` refuses octets only where memory is denied.
fn report_text<A: Allocator + Copy>(alloc: A, book: &Book<A>) -> Result<Vec<u8, A>, AllocError>
    ensures { IfOk result (λ text. text.items ≡ report_text book.now) }
{
    let snapshot = Snapshot::of(alloc, book)?;
    let mut text = Vec::new(alloc);
    match print(&snapshot, &mut text) {
        Ok(()) => Ok(text),
        Err(WriteFault) => Err(AllocError),
    }
}
