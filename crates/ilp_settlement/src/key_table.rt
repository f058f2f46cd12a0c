//! Which entry is kept under a peer's key.
ghost use Rattle.std.specs.Prelude.{◌≡◌, [], IfOk, OnOk, OnErr};
ghost use Rattle.ilp_settlement.specs.KeyTable.{entry_of, Keeps};

use std::alloc::{AllocError, Allocator, Global};
use std::collections::BTreeMap;
use std::marker::Model;

// The keys of one peer, each with its entry.
type PeerKeys<A> = BTreeMap<Vec<u8, A>, u32, A>;

/// Which entry of a journal is kept under which key (RFC 0038, "Idempotence"). A key belongs to its
/// peer, so two peers may have the same. Any octets can be one.
///
/// To find or to keep a key takes a number of comparisons that grows with the logarithm of how many
/// keys the peer has, and with that of how many peers have keys.
#[derive(Drop)]
pub struct KeyTable<A: Allocator = Global> {
    peers: BTreeMap<u32, PeerKeys<A>, A>,
    alloc: A,
}

impl<A: Allocator> Model for KeyTable<A> {
    ghost use Rattle.std.specs.Prelude.{map};
    ghost use Rattle.ilp_settlement.specs.KeyTable.{PlainKeyTable};

    ghost Value = { PlainKeyTable };

    ghost view = { λ t. map (λ p. (p.0, map (λ k. (k.0.items, k.1)) p.1.entries)) t.peers.entries };
}

impl<A: Allocator + Clone> KeyTable<A> {
    /// A table with no key. It takes no memory but for a clone of the allocator; where that is denied,
    /// it is refused with `AllocError`.
    pub fn new(alloc: A) -> Result<KeyTable<A>, AllocError>
        ensures { IfOk result (λ table. table ≡ []) }
    {
        Ok(KeyTable {
            peers: BTreeMap::new(alloc.clone()?),
            alloc,
        })
    }

    /// Keeps an entry's number under a key of a peer, in place of one that was kept there. All other
    /// keys stay, and those of other peers.
    ///
    /// `AllocError` tells that memory is short. Then the table is as before.
    pub fn keep(&mut self, peer: u32, key: &[u8], entry: u32) -> Result<(), AllocError>
        ensures ok { OnOk result (Keeps self.old self.new peer key.now entry) }
        ensures err { OnErr result (self.new ≡ self.old) }
    {
        let key = Vec::from_slice(self.alloc.clone()?, key)?;
        match self.peers.get_mut(&peer) {
            Some(keys) => {
                keys.insert(key, entry)?;
                Ok(())
            }
            None => {
                let mut keys = BTreeMap::new(self.alloc.clone()?);
                keys.insert(key, entry)?;
                self.peers.insert(peer, keys)?;
                Ok(())
            }
        }
    }
}

impl<A: Allocator> KeyTable<A> {
    /// The number of the entry that is kept under a key of a peer; none where nothing is. It takes no
    /// memory.
    pub fn find(&self, peer: u32, key: &[u8]) -> Option<u32>
        ensures { result ≡ entry_of self.now peer key.now }
    {
        let keys = self.peers.get(&peer)?;
        keys.get(key).copied()
    }
}
