//! The route of an address by its longest prefix.
ghost use Rattle.std.specs.Prelude.{◌≡◌, ◌↔◌, [], ◌∷◌, ◌++◌, length, Contains, IfOk, OnOk, OnErr, Err, IsTrue};
ghost use Rattle.ilp_lookup.specs.Route.{Route, prefixes, IsRoute, IsLocal, IsBest, AreDistinct, IsPeerOf};
ghost use Rattle.ilp_lookup.specs.declared.fault.LookupFault.{LookupFault};

use crate::fault::LookupFault;
use indexmap::IndexMap;
use std::alloc::{AllocError, Allocator, Global};
use std::hash::{BuildHasherDefault, FoldHasher};
use std::marker::Model;

/// Routes in the order in which they were added, no two of the same prefix. An address is looked up
/// as a whole and at each of its dots from the last to the first, save those past the length of the
/// longest prefix, however many routes there are.
#[derive(Drop)]
pub struct RouteIndex<A: Allocator = Global> {
    peers: IndexMap<Vec<u8, A>, u32, BuildHasherDefault<FoldHasher>, A>,
    // No prefix is longer, so an address is not looked up at the dots past that many octets.
    longest: usize,
}

impl<A: Allocator> Model for RouteIndex<A> {
    ghost use Rattle.std.specs.Prelude.{List, map};
    ghost use Rattle.ilp_lookup.specs.Route.{Route, AreIndexed};

    ghost Value = { List Route };

    ghost view = { λ r. map (λ e. record { prefix = e.0.items; peer = e.1 }) r.peers.entries };

    ghost invariant = { λ r. AreIndexed
        (map (λ e. record { prefix = e.0.items; peer = e.1 }) r.peers.entries) r.longest };
}

impl<A: Allocator + Copy> RouteIndex<A> {
    /// No route: it takes no memory.
    pub fn new(alloc: A) -> RouteIndex<A>
        ensures { result ≡ [] }
    {
        RouteIndex {
            peers: IndexMap::new(alloc),
            longest: 0,
        }
    }

    /// How many routes there are.
    pub fn len(&self) -> usize
        ensures { result ≡ length self.now }
    {
        self.peers.len()
    }

    /// Whether there is no route.
    pub fn is_empty(&self) -> bool
        ensures { IsTrue result ↔ (self.now ≡ []) }
    {
        self.peers.is_empty()
    }

    /// Adds the route of addresses of this prefix to the peer at this place, as the last.
    ///
    /// It is refused with `Double` exactly where a route has that prefix, and with `Memory` for want
    /// of memory. Then all is as before.
    pub fn insert(&mut self, prefix: &[u8], peer: u32) -> Result<(), LookupFault>
        ensures ok { OnOk result
            (self.new ≡ self.old ++ record { prefix = prefix.now; peer = peer } ∷ []) }
        ensures double { (result ≡ Err LookupFault.Double)
            ↔ Contains (prefixes self.old) prefix.now }
        ensures err { OnErr result (self.new ≡ self.old) }
    {
        if self.has(prefix) {
            return Err(LookupFault::Double);
        }
        let key = Vec::from_slice(*self.peers.allocator(), prefix)?;
        self.peers.insert(key, peer)?;
        self.longest = self.longest.max(prefix.len());
        Ok(())
    }

    /// The peer to which octets go: that of the longest prefix that matches them, where a prefix
    /// matches if it is empty, is the octets, or is followed in them by a dot. None where no prefix
    /// matches, and for octets of the scheme `peer`, which have no route.
    pub fn find(&self, octets: &[u8]) -> Option<u32>
        ensures route { IsRoute self.now octets.now result }
        ensures distinct { AreDistinct self.now }
    {
        // That no two prefixes are equal is known where the map is used.
        let _ = &self.peers;
        if is_local(octets) {
            return None;
        }
        self.longest_match(octets)
    }

    /// An equal index. `AllocError` tells that memory is short.
    pub fn copy(&self) -> Result<RouteIndex<A>, AllocError>
        ensures { IfOk result (λ copy. copy ≡ self.now) }
    {
        let peers = self.peers.clone()?;
        Ok(RouteIndex {
            peers,
            longest: self.longest,
        })
    }

    // The peer of the longest prefix that matches, whatever the scheme.
    fn longest_match(&self, octets: &[u8]) -> Option<u32>
        ensures { IsBest self.now octets.now result }
    {
        if let Some(peer) = self.peer_of(octets) {
            return Some(peer);
        }
        let places = octets.len().min(self.longest.saturating_add(1));
        for place in (0..places).rev() {
            if octets[place] == b'.' {
                if let Some(peer) = self.peer_of(&octets[..place]) {
                    return Some(peer);
                }
            }
        }
        self.peer_of(b"")
    }

    // Whether a route has exactly this prefix.
    fn has(&self, prefix: &[u8]) -> bool
        ensures { IsTrue result ↔ Contains (prefixes self.now) prefix.now }
    {
        self.peer_of(prefix).is_some()
    }

    // The peer of the route with exactly this prefix.
    fn peer_of(&self, prefix: &[u8]) -> Option<u32>
        ensures { IsPeerOf self.now prefix.now result }
    {
        self.peers.get(prefix).copied()
    }
}

// Whether octets are of the scheme `peer`.
fn is_local(octets: &[u8]) -> bool
    ensures { IsTrue result ↔ IsLocal octets.now }
{
    octets.starts_with(b"peer.")
}
