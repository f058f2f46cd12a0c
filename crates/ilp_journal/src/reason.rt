//! Why an operator corrected a balance.
ghost use Rattle.std.specs.Prelude.{◌≡◌, ◌↔◌, IfOk, OnErr, IfSome, IsSome, IsTrue};
ghost use Rattle.ilp_journal.specs.Keys.{IsKey};

use crate::key::Key;
use std::alloc::{AllocError, Global};
use std::marker::Model;

/// Why an operator corrected a balance, in words of the operator's own: 1 to 128 octets, which lie on the
/// heap.
#[derive(Drop)]
pub struct Reason {
    octets: Key,
}

impl Model for Reason {
    ghost use Rattle.std.specs.Prelude.{ℕ, List};
    ghost use Rattle.ilp_journal.specs.Keys.{IsKey};

    ghost Value = { List ℕ };

    ghost view = { λ r. r.octets };

    ghost invariant = { λ r. IsKey r.octets };
}

impl Reason {
    /// Whether these octets can be a reason: there are 1 to 128 of them.
    pub fn is_reason(octets: &[u8]) -> bool
        ensures { IsTrue result ↔ IsKey octets.now }
    {
        Key::is_key(octets)
    }

    /// The reason that has the octets of a key.
    pub fn of(octets: Key) -> Reason
        ensures { result ≡ octets }
    {
        let _length = octets.as_slice();
        Reason { octets }
    }

    /// The reason of these octets, and `None` where there are not 1 to 128. `AllocError` tells that memory
    /// for it is short.
    pub fn new(alloc: Global, octets: &[u8]) -> Result<Option<Reason>, AllocError>
        ensures made { IfOk result (λ made. IsSome made ↔ IsKey octets.now) }
        ensures octets { IfOk result (λ made. IfSome made (λ reason. reason ≡ octets.now)) }
        ensures denied { OnErr result (IsKey octets.now) }
    {
        match Key::new(alloc, octets)? {
            Some(octets) => Ok(Some(Reason::of(octets))),
            None => Ok(None),
        }
    }

    /// The same reason again. `AllocError` tells that memory for it is short.
    pub fn copied(&self, alloc: Global) -> Result<Reason, AllocError>
        ensures { IfOk result (λ reason. reason ≡ self.now) }
    {
        Ok(Reason::of(self.octets.copied(alloc)?))
    }

    /// The octets, in order.
    pub fn as_slice(&self) -> &[u8]
        ensures octets { result.now ≡ self.now }
        ensures length { IsKey self.now }
    {
        self.octets.as_slice()
    }
}
