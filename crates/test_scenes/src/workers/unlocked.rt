//! A report that is written while another worker forwards.

use super::Given;
use super::at_once::{comes, forward_promptly};
use crate::links::bob::Silent;
use crate::links::clocks::Still;
use crate::links::engine::NoEngine;
use crate::peers::START;
use crate::told::{print_book, print_response};
use ilp_desk::{Desk, Naming, Share};
use ilp_http::Buffer;
use ilp_io::{Pieces, Sink};
use ilp_server::{Handled, Side, answer_connection};
use ilp_workers::{Forgetful, Worker};
use std::io;
use std::io::ErrorKind;
use std::sync::Wait;
use std::sync::atomic::{AtomicBool, Ordering};
use std::thread::{Threads, join};

const REQUEST: &[u8] = b"POST /report HTTP/1.1\r\nHost: h\r\nContent-Length: 0\r\n\r\n";

/// A client who tells that something is written to him, and takes it once the other worker's sender is
/// answered.
#[derive(Drop)]
struct Patient<'a> {
    written: &'a AtomicBool,
    answered: &'a AtomicBool,
    taken: Vec<u8>,
}

impl Sink for Patient<'_> {
    fn put(&mut self, octets: &[u8]) -> io::Result<usize> {
        self.written.store(true, Ordering::SeqCst);
        if !comes(self.answered) {
            return Err(io::Error::from(ErrorKind::TimedOut));
        }
        self.taken.extend_from_slice(octets)?;
        Ok(octets.len())
    }
}

/// Has a worker asked for the report. Once the first octet of it is written, another worker forwards, and
/// once that has answered, the octet is taken. So no lock is held while the report is written, and it tells
/// the book of before.
pub(crate) fn report_beside<J: Naming + Send + Sync, R: Print + Threads + Wait + Sync>(
    rt: &R,
    desk: &Desk<J>,
    shares: Vec<Share<J>>,
    given: &Given<'_>,
) -> io::Result<()> {
    let mut shares = shares.into_iter();
    match (shares.next(), shares.next()) {
        (Some(first), Some(second)) => join_two(rt, desk, first, second, given),
        _ => println!(rt; "no shares"),
    }
}

fn join_two<J: Naming + Send + Sync, R: Print + Threads + Wait + Sync>(
    rt: &R,
    desk: &Desk<J>,
    first: Share<J>,
    second: Share<J>,
    given: &Given<'_>,
) -> io::Result<()> {
    let written = AtomicBool::new(false);
    let answered = AtomicBool::new(false);
    let (reported, (second, _end)) = join(
        rt,
        || report(rt, desk, first, &written, &answered),
        || forward_promptly(rt, desk, second, given, &written, &answered),
    );
    match reported {
        Some((handled, octets)) => {
            println!(rt; "{handled:?}")?;
            print_response(rt, desk.config().allocator(), &octets)?;
        }
        None => println!(rt; "no worker")?,
    }
    println!(rt; "second {second:?}")?;
    print_book(rt, desk.lock(rt).book())
}

// What a connection comes to that asks for the report, and what its client took.
fn report<J: Naming, R: Wait>(
    rt: &R,
    desk: &Desk<J>,
    share: Share<J>,
    written: &AtomicBool,
    answered: &AtomicBool,
) -> Option<(Handled, Vec<u8>)> {
    let alloc = desk.config().allocator();
    let (receipt, uplink) = (desk.receipt(rt), Silent(None));
    let Ok(mut worker) = Worker::new(
        alloc,
        share,
        receipt,
        Still(START),
        uplink,
        NoEngine,
        Forgetful,
    ) else {
        return None;
    };
    let mut buffer = Buffer::new(alloc).ok()?;
    let mut source = Pieces::new(REQUEST, REQUEST.len());
    let mut sink = Patient {
        written,
        answered,
        taken: Vec::new(alloc),
    };
    let handled = answer_connection(
        rt,
        alloc,
        &mut worker,
        desk,
        Side::Engine,
        &mut source,
        &mut sink,
        &mut buffer,
    );
    Some((handled, sink.taken))
}
