//! What is in flight, by plain lists.

use ilp_flow::Passage;
use std::alloc::{AllocError, Global};

/// Why one may not begin.
#[derive(Clone, Copy, Debug, PartialEq, Eq)]
pub(crate) enum Limit {
    All,
    Sender,
    Receiver,
    Octets,
    OctetsOfSender,
}

/// Each of them.
pub(crate) const LIMITS: [Limit; 5] = [
    Limit::All,
    Limit::Sender,
    Limit::Receiver,
    Limit::Octets,
    Limit::OctetsOfSender,
];

/// Those in flight, and all that began, the first in front.
#[derive(Drop)]
pub(crate) struct Plain {
    most: u32,
    flying: Vec<Passage>,
    begun: Vec<Passage>,
}

impl Plain {
    /// None is in flight, of so many that may be.
    pub(crate) fn new(alloc: Global, most: u32) -> Plain {
        Plain {
            most,
            flying: Vec::new(alloc),
            begun: Vec::new(alloc),
        }
    }

    pub(crate) fn len(&self) -> usize {
        self.flying.len()
    }

    /// One that begins.
    pub(crate) fn begin(&mut self, passage: Passage) -> Result<(), AllocError> {
        self.begun.push(passage)?;
        self.flying.push(passage)?;
        Ok(())
    }

    /// Ends the one at this place.
    pub(crate) fn end(&mut self, place: usize) -> Option<Passage> {
        if place < self.flying.len() {
            Some(self.flying.swap_remove(place))
        } else {
            None
        }
    }

    /// The first of the limits that one more would pass.
    pub(crate) fn limit_for(&self, passage: Passage) -> Option<Limit> {
        let part = if self.most < 2 { 1 } else { self.most / 2 };
        if self.flying.len() >= self.most as usize {
            Some(Limit::All)
        } else if self.sent_by(passage.sender) >= part as usize {
            Some(Limit::Sender)
        } else if self.bound_for(passage.receiver) >= part as usize {
            Some(Limit::Receiver)
        } else {
            self.octets_limit_for(passage)
        }
    }

    fn octets_limit_for(&self, passage: Passage) -> Option<Limit> {
        let room = if self.most < 16 {
            131_072
        } else {
            u64::from(self.most) * 8_192
        };
        let more = u64::from(passage.octets);
        if self.octets().wrapping_add(more) > room {
            Some(Limit::Octets)
        } else if self.octets_by(passage.sender).wrapping_add(more) > room / 2 {
            Some(Limit::OctetsOfSender)
        } else {
            None
        }
    }

    fn sent_by(&self, sender: u32) -> usize {
        self.flying
            .iter()
            .filter(|one| one.sender == sender)
            .count()
    }

    fn bound_for(&self, receiver: u32) -> usize {
        self.flying
            .iter()
            .filter(|one| one.receiver == receiver)
            .count()
    }

    fn octets(&self) -> u64 {
        let mut octets = 0_u64;
        for one in &self.flying {
            octets = octets.wrapping_add(u64::from(one.octets));
        }
        octets
    }

    fn octets_by(&self, sender: u32) -> u64 {
        let mut octets = 0_u64;
        for one in &self.flying {
            if one.sender == sender {
                octets = octets.wrapping_add(u64::from(one.octets));
            }
        }
        octets
    }

    // How many had begun when the sender's last one had.
    fn last_turn(&self, sender: u32) -> usize {
        match self.begun.iter().rposition(|one| one.sender == sender) {
            Some(place) => place.wrapping_add(1),
            None => 0,
        }
    }

    /// Who of those that wait begins next.
    pub(crate) fn next(&self, waiting: &[Passage]) -> Option<usize> {
        let mut least = None;
        for (place, passage) in waiting.iter().enumerate() {
            if self.limit_for(*passage).is_none() {
                let turn = (self.last_turn(passage.sender), place);
                least = match least {
                    Some(before) if before < turn => Some(before),
                    _ => Some(turn),
                };
            }
        }
        least.map(|turn| turn.1)
    }
}
