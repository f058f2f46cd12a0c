//! Random runs of the calls of a book. Before each call a plain walk over the entries says what its
//! reply is to be, and after it each reader is compared with a walk. The walks are written from the
//! rules, and not from the code. After its calls the book of a run is carried over, and more calls come
//! over the book that begins then. What is printed is fixed where both agree, and a difference is printed
//! in place of the line of its run.
//!
//! There are six runs of 500 steps of all six calls, one of them over a journal that fills, and one
//! of 200 steps behind a long journal. Each balance, count, sum and open settlement is compared
//! with a walk. One peer is settled with in parts, of which four are open time and again. Each of
//! the six is then carried over, at a start between 20 seconds before its last call and a minute
//! after it: what is saved behind that is the old text with the ends of the open holds, and it
//! stays so when it is carried over once more. 100 steps go on over that book. Each of 32 kinds of
//! replies must come up, and both causes for which a hold ends at a start.
#![tactic(auto)]

mod calls;
mod carried;
mod choice;
mod configured;
mod entries;
mod expected;
mod kinds;
mod locks;
mod made;
mod moments;
mod readers;
mod runs;
mod terms;
mod walks;

use kinds::Kinds;
use runs::{RUNS, play};
use std::io;

fn main(rt: HostRuntime) -> io::Result<()> {
    let mut kinds = Kinds::new();
    for run in RUNS {
        play(&rt, &run, &mut kinds)?;
    }
    if kinds.have_all() {
        return println!(rt; "each kind of reply came up, and each end of a hold at a start");
    }
    Ok(())
}
