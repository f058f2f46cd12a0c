//! Scenes of desks whose actors pass packets between alice and bob.

ghost use Rattle.std.specs.Prelude.{◌≡◌};
ghost use Rattle.ilp_desk.specs.Desk.{actors_of, base_of};

mod at_once;
mod forwards;
pub(crate) mod gathering;
mod many;
mod memory;
mod quiet;
mod reporting;
mod sweeping;
pub(crate) mod totals;
mod unlocked;

use crate::row::{moments_of, octets_of, said};
use at_once::forward_two;
use forwards::forward_one;
use gathering::{Missing, close};
use ilp_accounts::Config;
use ilp_book::Book;
use ilp_desk::{Desk, EntryList, Naming, Share};
use many::forward_all;
use memory::deny_each;
use std::marker::Brand;
use std::rt::Files;
use std::sync::Wait;
use std::sync::ledger::Blank;
use std::thread::Threads;
use std::{fs, io};
use sweeping::forward_slowly;
use unlocked::report_beside;

/// What is done with a desk.
#[derive(Clone, Copy)]
enum Act {
    /// A worker forwards the packet.
    Forward,
    /// So it does, and its hold is swept while bob is asked.
    Sweep,
    /// Each growth of a worker is denied in turn.
    Deny,
    /// Two workers forward the packet at once, and the desk is closed.
    Two,
    /// A worker is asked for the report, and another forwards the packet while that is written.
    Report,
    /// Many workers forward many packets.
    Many,
    /// The packet is forwarded, and the desk is closed.
    Close(Missing),
}

impl Act {
    fn of(word: &str) -> Option<Act> {
        match word {
            "forward" => Some(Act::Forward),
            "sweep" => Some(Act::Sweep),
            "deny" => Some(Act::Deny),
            "two" => Some(Act::Two),
            "report" => Some(Act::Report),
            "many" => Some(Act::Many),
            "close" => Some(Act::Close(Missing::Nothing)),
            "close-without-sweeper" => Some(Act::Close(Missing::Sweeper)),
            "close-without-settler" => Some(Act::Close(Missing::Settler)),
            "close-without-records" => Some(Act::Close(Missing::Records)),
            "close-without-record" => Some(Act::Close(Missing::Record)),
            _ => None,
        }
    }
}

/// What a scene is played with.
#[derive(Clone, Copy)]
pub(crate) struct Given<'a> {
    /// What the clock tells first, and from then on, in milliseconds since 1970.
    pub(crate) moments: (i64, i64),
    /// What alice sends.
    pub(crate) packet: &'a [u8],
    /// Another packet: what bob is to be handed of it where he is quiet, and what bob himself sends
    /// where many packets are.
    pub(crate) other: &'a [u8],
    /// What bob replies, unless his link has a fault.
    pub(crate) came: Option<&'a [u8]>,
}

#[derive(Clone, Copy)]
struct Scene<'a> {
    act: Act,
    workers: u32,
    given: Given<'a>,
}

impl Scene<'_> {
    fn play<J: Naming + Send + Sync, R: Print + Threads + Wait + Sync>(
        &self,
        rt: &R,
        desk: Desk<J>,
        shares: Vec<Share<J>>,
    ) -> io::Result<()> {
        match self.act {
            Act::Forward => forward_one(rt, &desk, shares, &self.given),
            Act::Sweep => forward_slowly(rt, &desk, shares, &self.given),
            Act::Deny => deny_each(rt, &desk, shares, &self.given),
            Act::Two => forward_two(rt, desk, shares, &self.given),
            Act::Report => report_beside(rt, &desk, shares, &self.given),
            Act::Many => forward_all(rt, desk, shares, &self.given),
            Act::Close(missing) => close(rt, desk, shares, &self.given, missing),
        }
    }
}

/// Plays the scene of these lines, and prints what comes of it.
pub(crate) fn print_scene<R: Files + Print + AllocGlobal + Threads + Wait + Sync>(
    rt: &R,
    lines: &str,
) -> io::Result<()> {
    let alloc = rt.alloc();
    let packet = octets_of(alloc, said(lines, "alice").unwrap_or(""))?;
    let other = octets_of(alloc, said(lines, "other").unwrap_or(""))?;
    let reply = octets_of(alloc, said(lines, "bob").unwrap_or(""))?;
    let given = Given {
        moments: moments_of(said(lines, "clock").unwrap_or("")).unwrap_or((0, 0)),
        packet: &packet,
        other: &other,
        came: said(lines, "bob").map(|_| reply.as_slice()),
    };
    print_given(rt, lines, given)
}

fn print_given<R: Files + Print + AllocGlobal + Threads + Wait + Sync>(
    rt: &R,
    lines: &str,
    given: Given<'_>,
) -> io::Result<()> {
    let Some(act) = Act::of(said(lines, "act").unwrap_or("")) else {
        return println!(rt; "no act");
    };
    let workers = said(lines, "workers").unwrap_or("1");
    let scene = Scene {
        act,
        workers: workers.parse::<u32>().unwrap_or(1),
        given,
    };
    print_over(rt, said(lines, "over").unwrap_or(""), &scene)
}

// Plays the scene over a configuration.
fn print_over<R: Files + Print + AllocGlobal + Threads + Wait + Sync>(
    rt: &R,
    name: &str,
    scene: &Scene<'_>,
) -> io::Result<()> {
    let octets = fs::read(rt, name)?;
    match Config::read(rt.alloc(), &octets) {
        Ok(config) => play_over(rt, &config, scene),
        Err(fault) => println!(rt; "no configuration: {fault}"),
    }
}

// Plays the scene at a desk over a book of no entries.
fn play_over<R: Print + Threads + Wait + Sync>(
    rt: &R,
    config: &Config,
    scene: &Scene<'_>,
) -> io::Result<()> {
    let book = Book::new(config.allocator(), config)?;
    let blanks = Blank::new(u64::from(scene.workers) + 2);
    let list = EntryList::new(config.allocator())?;
    play_on::<Brand, R>(rt, config, book, scene.workers, blanks, list, scene)
}

// Opens a desk over this book, and plays the scene there. It stands apart from `opening`, since what is
// sent to threads may not rest on a bound of a trait's method.
fn play_on<J: Naming + Send + Sync, R: Print + Threads + Wait + Sync>(
    rt: &R,
    config: &Config,
    book: Book,
    workers: u32,
    blanks: Blank,
    list: EntryList,
    scene: &Scene<'_>,
) -> io::Result<()>
    requires config { (config.now ≡ J.desk.config) × (book.config ≡ J.desk.config) }
    requires workers { workers ≡ J.desk.workers }
    requires period { book.period ≡ J.desk.period }
    requires opening { (book.entries ≡ J.desk.opening) × (book.base ≡ base_of J.desk) }
    requires ledger { (blanks.name ≡ J.name) × (blanks.parts ≡ J.parts) }
    requires parts { J.parts ≡ actors_of J.desk }
    requires list { list ≡ J.list }
{
    match Desk::<J>::open(config.allocator(), config, book, workers, blanks, list) {
        Ok((desk, shares)) => scene.play(rt, desk, shares),
        Err(_) => println!(rt; "no desk"),
    }
}
