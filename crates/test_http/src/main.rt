//! Rows of HTTP messages: what goes in lies in `data/`, and what is to be printed of it in `stdout`.
//! Both are made by `scripts/vectors/http.py`, from the standards and the rules and never from what
//! the program prints, and the stored run compares them.
//!
//! 206 requests and 65 responses are read, in one piece and in pieces of several sizes, and 98
//! messages are written, each also by a writer that stops at each octet. They show which of 400 and
//! 431 a head gets where both have a reason. `cuts` has each proper prefix of a request with a
//! packet, of a response with a length, of one to the end of the input and of none, and 4,096 reads
//! of one octet and 4,097 of a request, a head and a response. In `requests.txt` and
//! `responses.txt` stand a body of 65,536 octets and of 65,537, a head of 16,384 and of 16,385, and
//! 64 fields and 65.
#![tactic(auto)]

mod cuts;
mod requests;
mod responses;
mod row;
mod shown;
mod written;

use cuts::print_cuts;
use requests::print_requests;
use responses::print_responses;
use std::io;
use written::print_written;

fn main(rt: HostRuntime) -> io::Result<()> {
    print_requests(&rt)?;
    print_responses(&rt)?;
    print_written(&rt)?;
    print_cuts(&rt)
}
