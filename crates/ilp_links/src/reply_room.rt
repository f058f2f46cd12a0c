//! Room for a reply that finds no memory.

use ilp_http::BUFFER_LENGTH;
use ilp_oer::Octets;
use std::alloc::{AllocError, Global};
use std::mem;

/// How many octets of a response are read at once.
pub(crate) const PIECE: usize = 4_096;

// The longest response, and what is read at once: more is read only where what has come isn't whole.
const LONGEST: usize = BUFFER_LENGTH + PIECE;

/// Room for one response of any length, which a loop has from its start. A reply that finds no memory is
/// read in it, so that the hold of its packet ends as the peer says, and leaves with it: then there is none
/// until memory is there again.
#[derive(Drop)]
pub struct ReplyRoom {
    alloc: Global,
    octets: Octets,
}

impl ReplyRoom {
    /// Room for the longest response. It is refused only where memory for it is denied.
    pub fn new(alloc: Global) -> Result<ReplyRoom, AllocError> {
        let mut room = ReplyRoom::none(alloc);
        room.octets.reserve(LONGEST)?;
        Ok(room)
    }

    /// None, as it is once a reply has left with it. It takes no memory.
    pub(crate) fn none(alloc: Global) -> ReplyRoom {
        ReplyRoom {
            alloc,
            octets: Octets::new(alloc),
        }
    }

    /// Makes it anew, where a reply has left with it and memory is there.
    pub fn refill(&mut self) {
        let _ = self.octets.reserve(LONGEST);
    }

    /// Whether there is room.
    pub(crate) fn is_there(&self) -> bool {
        self.octets.spare() >= LONGEST
    }

    /// The room, with these octets at its front. None is there then.
    pub(crate) fn take(&mut self, came: &[u8]) -> Result<Octets, AllocError> {
        let mut octets = mem::replace(&mut self.octets, Octets::new(self.alloc));
        octets.append(came)?;
        Ok(octets)
    }
}
