//! Sinks with too little room.

use crate::statements::{Form, Question};
use ilp_book::Book;
use ilp_io::{Narrow, WhenFull};
use ilp_statement_text::StatementFault;
use std::alloc::Global;
use std::io;
use std::rt::Runtime;

// How many octets such a sink takes at once.
const PIECE: usize = 61;

/// Prints what is wrong where a statement is written into less room than it needs: nothing, if a write fault is
/// answered and a front of the statement was taken.
pub(crate) fn print_cuts<R: Runtime + AllocGlobal>(
    rt: &R,
    book: &Book,
    question: Question<'_>,
    form: Form,
    whole: &[u8],
) -> io::Result<()> {
    for room in 0..whole.len() {
        for when_full in [WhenFull::TakesNone, WhenFull::Fails] {
            let narrow = Narrow::new(rt.alloc(), PIECE, room, when_full);
            if !is_cut(rt.alloc(), book, question, form, whole, narrow) {
                println!(rt; "not cut in {room} octets")?;
            }
        }
    }
    Ok(())
}

fn is_cut(
    alloc: Global,
    book: &Book,
    question: Question<'_>,
    form: Form,
    whole: &[u8],
    mut narrow: Narrow,
) -> bool {
    let outcome = question.write(alloc, book, form, &mut narrow);
    let taken = &narrow.recording.octets;
    outcome == Err(StatementFault::Write) && whole.starts_with(taken)
}
