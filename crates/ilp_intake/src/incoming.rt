//! The octets of a request as they come.
ghost use Rattle.std.specs.Prelude.{◌≡◌, ◌-◌, ◌≤◌, ◌++◌, [], take, drop, length, vec_len, IfOk, OnOk, IsFalse};
ghost use Rattle.ilp_http.specs.Layout.{HasLineFeed};
ghost use Rattle.ilp_http.specs.declared.limits.TheConstants.{BUFFER_LENGTH};
ghost use Rattle.ilp_intake.specs.Incoming.{Wants, Are};

use ilp_http::{BUFFER_LENGTH, HEAD_LIMIT, Look, look_at};
use std::alloc::{AllocError, Global};

/// The octets of a request that come piece by piece. They are looked at only where a look may find
/// more than the last one did, so that octets which come one by one cost no look each.
///
/// They take 81,920 octets of memory at most. In a head the list doubles: fewer than 16,384 octets
/// wait there, and with one more piece they are fewer than 20,480, so it has room for fewer than
/// 40,960. Once the head has come, room is made for just the octets of the request.
#[derive(Drop)]
pub(crate) struct Incoming {
    octets: Vec<u8>,
    wanted: Wanted,
    // How many octets are kept: as many as the longest request has, and once the head has come, as
    // many as this one has.
    limit: usize,
    ghost short: { vec_len octets ≤ limit },
    ghost bounded: { limit ≤ BUFFER_LENGTH },
    ghost wants: { ∥ Wants octets.items limit wanted ∥₁ },
}

// What has to come before a look can find a whole request.
#[derive(Clone, Copy)]
enum Wanted {
    // A line feed. The last look saw so many octets, which begin a head; none before the first look.
    LineFeed { seen: usize },
    // The rest of the body: as many octets as are kept.
    Body,
}

/// What the octets that have come are.
#[derive(Clone, Copy, PartialEq, Eq)]
pub(crate) enum Arrival {
    /// They may become a request.
    Partial,
    /// They begin with a whole request.
    Whole,
    /// They are refused, whatever follows.
    Refused,
}

impl Incoming {
    /// None yet. Takes no memory.
    pub(crate) fn new(alloc: Global) -> Incoming
        ensures { result.octets.items ≡ [] }
    {
        Incoming {
            octets: Vec::new(alloc),
            wanted: Wanted::LineFeed { seen: 0 },
            limit: BUFFER_LENGTH,
        }
    }

    /// Adds a piece that came, and tells what the octets are now. Of a piece that goes on behind the
    /// body, what stands there is dropped.
    pub(crate) fn add(&mut self, piece: &[u8]) -> Result<Arrival, AllocError>
        ensures told { IfOk result (Are self.new.octets.items) }
        ensures added { OnOk result (self.new.octets.items
            ≡ self.old.octets.items ++ take (self.old.limit - vec_len self.old.octets) piece.now) }
    {
        let kept = piece.len().min(self.limit - self.octets.len());
        self.octets.extend_from_slice(&piece[..kept])?;
        match self.wanted {
            Wanted::LineFeed { seen } if may_hold_head(seen, self.octets.as_slice()) => self.look(),
            Wanted::LineFeed { .. } => Ok(Arrival::Partial),
            Wanted::Body if self.octets.len() < self.limit => Ok(Arrival::Partial),
            Wanted::Body => Ok(Arrival::Whole),
        }
    }

    // Looks at the octets, and keeps what the look found.
    fn look(&mut self) -> Result<Arrival, AllocError>
        ensures told { IfOk result (Are self.new.octets.items) }
        ensures same { self.new.octets.items ≡ self.old.octets.items }
    {
        match look_at(self.octets.as_slice()) {
            Look::Whole => Ok(Arrival::Whole),
            Look::InHead => {
                self.wanted = Wanted::LineFeed {
                    seen: self.octets.len(),
                };
                Ok(Arrival::Partial)
            }
            Look::InBody { whole } => {
                self.octets.reserve_exact(whole - self.octets.len())?;
                self.limit = whole;
                self.wanted = Wanted::Body;
                Ok(Arrival::Partial)
            }
            Look::Refused(_) => Ok(Arrival::Refused),
        }
    }

    /// The octets that are kept.
    pub(crate) fn octets(&self) -> &[u8]
        ensures { result.now ≡ self.now.octets.items }
    {
        self.octets.as_slice()
    }

    /// The octets that are kept, in their memory.
    pub(crate) fn into_octets(self) -> Vec<u8>
        ensures { result.items ≡ self.octets.items }
    {
        let Incoming {
            octets,
            wanted: _,
            limit: _,
        } = self;
        octets
    }
}

// Whether octets may have a head by now, or be refused, where so many of them began one. Only a line
// feed ends a head. What can never become one is found once there are twice as many, and a head that
// is too long once there are as many as the longest has.
fn may_hold_head(seen: usize, octets: &[u8]) -> bool
    requires { seen ≤ length octets.now }
    ensures { IsFalse result → ¬ (HasLineFeed (drop seen octets.now)) }
{
    let came = &octets[seen..];
    came.contains(&b'\n') || octets.len() / 2 >= seen || octets.len() >= HEAD_LIMIT
}
