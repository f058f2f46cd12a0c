//! From when to when entries are asked for.
ghost use Rattle.std.specs.Prelude.{◌≡◌, ◌≤◌, ◌≤ℤ◌, length, is_some, IfErr, IfOk, IfSome};
ghost use Rattle.ilp_inquiry.specs.Asked.{first_asked, behind_asked};
ghost use Rattle.ilp_inquiry.specs.declared.fault.InquiryFault.TheVariants as inquiry_fault;

use crate::fault::InquiryFault;
use crate::inquiry::Inquiry;
use ilp_book::Book;
use ilp_statement::number_from;
use ilp_statement_text::{Extent, moment_of};
use std::io::Eprint;

/// From when on entries are asked for, and before when they were booked, in milliseconds since 1970.
#[derive(Clone, Copy, Debug)]
pub(crate) struct Span {
    from: Option<i64>,
    to: Option<i64>,
}

impl Span {
    /// The span that is asked for; one that ends before it begins has nothing, and ends where it begins. Where a time
    /// is none, a line on standard error says which.
    pub(crate) fn of<R: Eprint>(rt: &R, inquiry: &Inquiry<'_>) -> Result<Span, InquiryFault>
        ensures from { IfOk result (λ span. is_some span.from ≡ is_some inquiry.now.from) }
        ensures to { IfOk result (λ span. is_some span.to ≡ is_some inquiry.now.to) }
        ensures order { IfOk result (λ span. IfSome span.from (λ from. IfSome span.to (λ to. from ≤ℤ to))) }
        ensures fault { IfErr result (λ fault. fault ≡ inquiry_fault.Misused) }
    {
        let from = moment_in(rt, inquiry.from)?;
        let to = match (from, moment_in(rt, inquiry.to)?) {
            (Some(from), Some(to)) => Some(to.max(from)),
            (_, to) => to,
        };
        Ok(Span { from, to })
    }

    /// The entries of a book in it, of the first ones, which are so many.
    pub(crate) fn extent(self, book: &Book, written: u32) -> Extent
        requires { written ≤ length book.now.entries }
        ensures first { result.first ≡ first_asked book.now.entries written self.from }
        ensures behind { result.behind ≡ behind_asked book.now.entries written result.first self.to }
        ensures moments { (result.from ≡ self.from) × (result.to ≡ self.to) }
        ensures order { result.first ≤ result.behind }
        ensures within { result.behind ≤ length book.now.entries }
    {
        let first = match self.from {
            Some(from) => number_from(book, from).min(written),
            None => 0,
        };
        let behind = match self.to {
            Some(to) => number_from(book, to).min(written).max(first),
            None => written,
        };
        Extent {
            first,
            behind,
            from: self.from,
            to: self.to,
        }
    }
}

// The moment of a text, if there is one.
fn moment_in<R: Eprint>(rt: &R, text: Option<&str>) -> Result<Option<i64>, InquiryFault>
    ensures given { IfOk result (λ moment. is_some moment ≡ is_some text.entry) }
    ensures fault { IfErr result (λ fault. fault ≡ inquiry_fault.Misused) }
{
    let Some(text) = text else {
        return Ok(None);
    };
    match moment_of(text) {
        Some(moment) => Ok(Some(moment)),
        None => {
            let _ = rt.eprintln(format_args!(
                "{text:?} is no time: 2026-11-26 is one, and 2026-11-26T20:00:00Z"
            ));
            Err(InquiryFault::Misused)
        }
    }
}
