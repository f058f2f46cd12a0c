//! Octets in memory.
ghost use Rattle.std.specs.Prelude.{◌≡◌, ◌+◌, ◌<◌, ◌≤◌, [], ◌++◌, length, IsOk, OnOk, OnErr, vec_len, take};
ghost use Rattle.ilp_oer.specs.Octets.{OctetsWithRoom};

use std::alloc::{AllocError, Allocator, Global};
use std::fmt;
use std::marker::Model;

/// A list of octets that tells how many more it takes without memory.
#[derive(Drop)]
pub struct Octets<A: Allocator = Global> {
    // The octets, and behind them the room for more, which is filled with zeros or what stood there
    // before: so octets are appended by writing over places that are there, with one test of room
    // for a whole packet, where std would test its capacity at each append.
    row: Vec<u8, A>,
    // How many octets there are.
    len: usize,
    ghost fits: { len ≤ vec_len row },
}

impl<A: Allocator> Model for Octets<A> {
    ghost use Rattle.std.specs.Prelude.{◌-◌, take, vec_len};
    ghost use Rattle.ilp_oer.specs.Octets.{OctetsWithRoom};

    ghost Value = { OctetsWithRoom };

    ghost view = { λ o. record { octets = take o.len o.row.items; spare = vec_len o.row - o.len } };
}

impl<A: Allocator> Octets<A> {
    /// No octet, and no room for one: it takes no memory.
    pub fn new(alloc: A) -> Self
        ensures octets { result.octets ≡ [] }
        ensures room { result.spare ≡ 0 }
    {
        Octets {
            row: Vec::new(alloc),
            len: 0,
        }
    }

    /// The octets, in order.
    pub fn as_slice(&self) -> &[u8]
        ensures { result.now ≡ self.now.octets }
    {
        &self.row.as_slice()[..self.len]
    }

    /// Takes the octets away. Their room is kept, as spare room.
    pub fn clear(&mut self)
        ensures octets { self.new.octets ≡ [] }
        ensures room { self.new.spare ≡ length self.old.octets + self.old.spare }
    {
        self.len = 0;
    }

    /// How many more octets are taken without memory.
    pub fn spare(&self) -> usize
        ensures { result ≡ self.now.spare }
    {
        self.row.len() - self.len
    }

    /// Makes room for `additional` more octets, if there is less.
    ///
    /// It is refused only where room is missing and memory for it is denied. Then all is as
    /// before.
    pub fn reserve(&mut self, additional: usize) -> Result<(), AllocError>
        ensures octets { self.new.octets ≡ self.old.octets }
        ensures ok { OnOk result (additional ≤ self.new.spare) }
        ensures kept { self.old.spare ≤ self.new.spare }

        // It takes memory only where that room is missing, and a refusal leaves all as it was.
        ensures enough { additional ≤ self.old.spare → IsOk result }
        ensures unmoved { additional ≤ self.old.spare → self.new ≡ self.old }
        ensures refused { OnErr result (self.old.spare < additional) }
        ensures err { OnErr result (self.new ≡ self.old) }
    {
        let spare = self.spare();
        if additional <= spare {
            return Ok(());
        }
        self.grow(additional - spare)
    }

    // Makes room for so many more octets than there is room for.
    fn grow(&mut self, missing: usize) -> Result<(), AllocError>
        ensures octets { self.new.octets ≡ self.old.octets }
        ensures ok { OnOk result (self.old.spare + missing ≤ self.new.spare) }
        ensures kept { self.old.spare ≤ self.new.spare }
        ensures err { OnErr result (self.new ≡ self.old) }
    {
        self.row.reserve(missing)?;
        let capacity = self.row.capacity();
        self.row.resize(capacity, 0)
    }

    /// Appends the octets.
    ///
    /// It is refused only where room is missing and memory for it is denied. Then all is as
    /// before.
    pub fn append(&mut self, octets: &[u8]) -> Result<(), AllocError>
        ensures ok { OnOk result (self.new.octets ≡ self.old.octets ++ octets.now) }

        // Enough room is used up octet by octet; a refusal leaves all as it was.
        ensures enough { length octets.now ≤ self.old.spare → IsOk result }
        ensures used { length octets.now ≤ self.old.spare
            → self.new.spare + length octets.now ≡ self.old.spare }
        ensures refused { OnErr result (self.old.spare < length octets.now) }
        ensures err { OnErr result (self.new ≡ self.old) }
    {
        self.reserve(octets.len())?;
        self.append_reserved(octets);
        Ok(())
    }

    /// Appends the octets into room that is there: it takes no memory and can't fail.
    pub fn append_reserved(&mut self, octets: &[u8])
        requires { length octets.now ≤ self.old.spare }
        ensures octets { self.new.octets ≡ self.old.octets ++ octets.now }
        ensures used { self.new.spare + length octets.now ≡ self.old.spare }
    {
        let end = self.len + octets.len();
        self.row[self.len..end].copy_from_slice(octets);
        self.len = end;
    }
}

// The octets alone, and not what stands in their room.
impl<A: Allocator> fmt::Debug for Octets<A> {
    fn fmt<W: fmt::Write>(&self, f: &mut fmt::Formatter<W>) -> fmt::Result {
        f.debug_list().entries(self.as_slice()).finish()
    }
}
