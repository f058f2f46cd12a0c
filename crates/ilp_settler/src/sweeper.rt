//! The sweeper: it releases holds whose deadline has come.
ghost use Rattle.std.specs.Prelude.{◌≡◌, []};
ghost use Rattle.ilp_desk.specs.Portion.{holding};
ghost use Rattle.ilp_settler.specs.Sweeper.{sweeper, Sweeps};

use ilp_desk::{Desk, End, Naming, Record, Share};
use ilp_link_traits::Clock;
use std::alloc::Global;
use std::marker::Model;
use std::sync::Wait;

/// The sweeper of a desk: its share and its clock. It keeps no record, since all that it books are
/// releases by a deadline, of which none is kept.
#[derive(Drop)]
pub struct Sweeper<J: Naming, C: Clock + Drop> {
    share: Share<J>,
    clock: C,
    // None; it is what the sweeper hands back in the end.
    records: Vec<Record>,
}

impl<J: Naming, C: Clock + Drop> Model for Sweeper<J, C> {
    ghost use Rattle.std.specs.Prelude.{◌≡◌, []};
    ghost use Rattle.ilp_settler.specs.Sweeper.{PlainSweeper, sweeper};

    ghost Value = { PlainSweeper };

    ghost view = { λ s. sweeper s.share (C.told s.clock) };

    ghost invariant = { λ s. s.records.items ≡ [] };
}

impl<J: Naming, C: Clock + Drop> Sweeper<J, C> {
    /// A sweeper with this share and this clock. The allocator is for the list of no records, which
    /// takes no memory.
    pub fn new(alloc: Global, share: Share<J>, clock: C) -> Sweeper<J, C>
        ensures { result ≡ sweeper share (C.told clock) }
    {
        Sweeper {
            share,
            clock,
            records: Vec::new(alloc),
        }
    }

    /// The sweeper's share of the desk.
    pub fn share(&self) -> &Share<J>
        ensures { result.now ≡ self.now.share }
    {
        &self.share
    }

    /// The records of what it booked: none.
    pub fn records(&self) -> &[Record]
        ensures { result.now ≡ [] }
    {
        self.records.as_slice()
    }

    /// Releases the open hold of the earliest deadline, if that has come by the clock, and tells its
    /// number. The worker that waits for the peer's reply tells the sender then that time ran out.
    pub fn turn(&mut self, rt: &impl Wait, desk: &Desk<J>) -> Option<u32>
        ensures { Sweeps J.desk self.old self.new result }
    {
        let now = self.clock.now();
        desk.expire_one(rt, &mut self.share, now)
    }

    /// What the sweeper hands back in the end.
    pub fn into_end(self) -> End<J>
        ensures { result ≡ holding self.share [] }
    {
        End::new(self.share, self.records)
    }
}
