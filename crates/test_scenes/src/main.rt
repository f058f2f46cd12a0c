//! Scenes of desks over links in memory: actors that pass packets between alice and bob, and then
//! workers that answer connections beside a settler that has turns. What goes in lies in `data/`, and
//! what is to be printed of it in `stdout`. They are made by `scripts/vectors/scenes.py` and
//! `scripts/vectors/connections.py`, from the standards and the rules and never from what the program
//! prints, and the stored run compares them.
//!
//! A scene prints what peers and engines are handed, octet for octet, and what the clock tells, in
//! their order; what is answered, what actors keep, and each entry of the book. No clause says that
//! a forward ever fulfills or ends its hold, that a sweeper ever sweeps, that a connection is ever
//! answered by 200 or 201, or that a turn ever closes a settlement. These scenes show it.
//!
//! - Sixteen packets, among them a wrong preimage, too great an amount, the greatest that a balance
//!   has room for, replies that can't be read, the longest Fulfill, octets that are no Prepare, one
//!   millisecond before a deadline and at it.
//! - Two packets at once, whose first peer waits until the second is answered, and a report whose
//!   client takes nothing until then: no lock is held meanwhile. 64 workers with 200 packets each,
//!   whose ends and book add up to what the script reckons. A desk that is closed; one without an
//!   end or a record of an actor, which is refused.
//! - 133 connections and 51 turns of a settler, in 39 scenes: each status, most at each side where
//!   it is given; messages to the engine and each of their refusals; a settlement told again,
//!   another under its key, that key with another peer; keys of 128 octets and of 129; a full
//!   journal; a read and a write that fail before each octet of an exchange, after which the next
//!   connection is answered; engines without an account, that refuse after a silence, and that
//!   accept. Where the journal is not kept a Fulfill is told all the same, a Prepare is rejected, a
//!   credit is answered 503, and no engine is asked. A settlement that a carried journal left open
//!   is asked for again under its old key, and closed. An engine that answers each fourth request is
//!   asked for settlements in parts, up to four at a time and one behind the other, until each is
//!   closed once and the desk is closed.
//! - Each growth denied of `Worker::new`, `forward` (T00, and inside of the uplink T01 with the
//!   hold and its release), `credit` (503), `message` (503 with nobody asked, inside of the uplink
//!   502), a message for the engine (T00, inside of its link T01), `Settler::new` and `turn`.
//!
//! A scene begins with `== NAME`. Then come lines of a word and what is given:
//!
//! - `act`, of packets: `forward`, `sweep`, `deny`, `two`, `report` (beside a packet), `many`,
//!   `close`, `close-without-` `sweeper`, `settler`, `records` or `record` (of the first of two
//!   packets); of connections: `both` (a worker and a settler), `close` (a worker, then a settler,
//!   and the desk is closed), `deny-workers`, `deny-settler`, `cut` (at each octet)
//! - `over`, `workers`: the configuration's file; how many workers, else one
//! - `clock`, `turns`: what the worker's clock, the settler's, tells first, and from then on
//! - `journal`, of connections: an entry in the text of a journal (docs/PROTOCOL.md). Where there
//!   are such lines, the book begins with that journal, carried over when the clock first tells
//! - `alice`, `other`: the packet that alice sends; the one that bob is to be handed, where he is
//!   quiet
//! - `bob`: what peers reply, in hexadecimal, where `<N DIGITS>` is N times the digits; without the
//!   line the link has a fault
//! - `replies`, `says`: what the engine answers a message; what it says of an account (`account`,
//!   `no-account`) and of a settlement (`accepted`, `refused`, `unknown`), and behind each comma
//!   what it says the next time, the last from then on
//! - `kept`: how often the worker's keeper keeps the journal, and how often the settler's; without the
//!   line always
//!
//! Scenes of connections go on with steps. `-- ilp` or `-- engine` is a connection: the lines of a
//! head, an empty line, and the body behind `text` or `hex`. `failing N` has a read fail after N
//! octets, `narrow N` a write. `-- turn N` is a turn for the peer N. Links print what they are
//! handed, but where threads run at once or growths are denied.
#![tactic(auto)]

mod connections;
mod links;
mod opening;
mod peers;
mod row;
mod scenes;
mod texts;
mod told;
mod workers;

use scenes::{Part, print_scenes};
use std::io;
use texts::print_texts;

fn main(rt: HostRuntime) -> io::Result<()> {
    print_scenes(&rt, Part::Workers)?;
    print_texts(&rt)?;
    print_scenes(&rt, Part::Connections)
}
