//! Scenes of a desk whose worker answers connections and whose settler has turns.

mod answering;
mod closing;
mod cuts;
mod memory;
mod playing;
mod steps;
mod turns;

use crate::links::engine::Sayings;
use crate::opening::{Play, open_desk};
use crate::row::{moments_of, octets_of, said};
use closing::close;
use cuts::cut_each;
use ilp_desk::{Desk, Naming, Share};
use memory::{deny_settler, deny_workers};
use playing::take_turns;
use std::io;
use std::rt::Files;
use std::sync::Wait;

/// Who takes the steps.
#[derive(Clone, Copy)]
enum Act {
    /// A worker and a settler.
    Both,
    /// First a worker and then a settler, whose desk is closed.
    Close,
    /// Workers, each of which is denied another growth.
    DenyWorkers,
    /// A settler that is denied each growth.
    DenySettler,
    /// A worker whose connections are cut at each octet.
    Cut,
}

impl Act {
    fn of(word: &str) -> Option<Act> {
        match word {
            "both" => Some(Act::Both),
            "close" => Some(Act::Close),
            "deny-workers" => Some(Act::DenyWorkers),
            "deny-settler" => Some(Act::DenySettler),
            "cut" => Some(Act::Cut),
            _ => None,
        }
    }
}

/// What a scene is played with.
#[derive(Clone, Copy)]
pub(crate) struct Given<'a> {
    /// What the worker's clock tells first, and from then on, in milliseconds since 1970.
    pub(crate) moments: (i64, i64),
    /// What the settler's clock tells first, and from then on.
    pub(crate) turns: (i64, i64),
    /// What bob replies, unless his link has a fault.
    pub(crate) came: Option<&'a [u8]>,
    /// What the engine answers a message, unless its link has a fault.
    pub(crate) answer: Option<&'a [u8]>,
    /// What the engine says of accounts and settlements.
    pub(crate) says: Sayings<'a>,
    /// How often the worker's keeper keeps the journal, and how often the settler's.
    pub(crate) kept: u32,
    /// The steps, each behind `-- `.
    pub(crate) steps: &'a str,
}

#[derive(Clone, Copy)]
struct Scene<'a> {
    act: Act,
    given: Given<'a>,
}

impl<R: Print + Wait> Play<R> for Scene<'_> {
    fn play<J: Naming + Send + Sync>(
        &self,
        rt: &R,
        desk: Desk<J>,
        shares: Vec<Share<J>>,
    ) -> io::Result<()> {
        match self.act {
            Act::Both => take_turns(rt, &desk, shares, &self.given),
            Act::Close => close(rt, desk, shares, &self.given),
            Act::DenyWorkers => deny_workers(rt, &desk, shares, &self.given),
            Act::DenySettler => deny_settler(rt, &desk, shares, &self.given),
            Act::Cut => cut_each(rt, &desk, shares, &self.given),
        }
    }
}

/// Plays the scene of these lines, and prints what comes of it.
pub(crate) fn print_scene<R: Files + Print + AllocGlobal + Wait>(
    rt: &R,
    lines: &str,
) -> io::Result<()> {
    let alloc = rt.alloc();
    let reply = octets_of(alloc, said(lines, "bob").unwrap_or(""))?;
    let answer = octets_of(alloc, said(lines, "replies").unwrap_or(""))?;
    let Some(act) = Act::of(said(lines, "act").unwrap_or("")) else {
        return println!(rt; "no act");
    };
    let given = given_in(lines, &reply, &answer);
    open_desk(rt, lines, &Scene { act, given })
}

// What is given, with what bob replies and what the engine answers, where they do.
fn given_in<'a>(lines: &'a str, reply: &'a [u8], answer: &'a [u8]) -> Given<'a> {
    Given {
        moments: moments_of(said(lines, "clock").unwrap_or("")).unwrap_or((0, 0)),
        turns: moments_of(said(lines, "turns").unwrap_or("")).unwrap_or((0, 0)),
        came: said(lines, "bob").map(|_| reply),
        answer: said(lines, "replies").map(|_| answer),
        says: Sayings(said(lines, "says").unwrap_or("")),
        kept: said(lines, "kept")
            .and_then(|count| count.parse().ok())
            .unwrap_or(u32::MAX),
        steps: lines,
    }
}
