//! A file in memory.
ghost use Rattle.std.specs.Prelude.{◌≡◌, ◌⊎◌, [], ◌∷◌, ◌++◌, length, drop, OnOk, OnErr};
ghost use Rattle.std.proofs.Common.{inl};
ghost use Rattle.ilp_line_file.specs.Past.{HadBeen, only_octets};

use crate::{Device, DeviceFault};
use std::alloc::{AllocError, Global};

/// A file in memory, for tests. Each call is done at once, or not at all where memory is denied; so a
/// crash leaves what is there.
#[derive(Drop)]
pub struct MemoryDevice {
    alloc: Global,
    octets: Vec<u8>,
    // The new file beside it.
    anew: Vec<u8>,
    // Each content that it had before: without them nothing could say what a crash might have left.
    past: Vec<Vec<u8>>,
}

impl MemoryDevice {
    ghost use Rattle.ilp_line_file.specs.Memory.{memory_octets};

    /// A file with these octets, all of them on the disk.
    pub fn new(alloc: Global, octets: Vec<u8>) -> Self
        ensures { memory_octets result ≡ octets.items }
    {
        MemoryDevice {
            alloc,
            octets,
            anew: Vec::new(alloc),
            past: Vec::new(alloc),
        }
    }

    /// What is there.
    pub fn octets(&self) -> &[u8]
        ensures { result.now ≡ memory_octets self.now }
    {
        &self.octets
    }
}

// Puts other octets in the place of those that are there, which it keeps.
fn replace(
    alloc: Global,
    octets: &mut Vec<u8>,
    past: &mut Vec<Vec<u8>>,
    next: Vec<u8>,
) -> Result<(), AllocError>
    ensures ok { OnOk result (octets.new.items ≡ next.items) }
    ensures err { OnErr result (octets.new.items ≡ octets.old.items) }
    ensures past { OnOk result ((v : _) × (v.items ≡ octets.old.items)
        × (past.new.items ≡ past.old.items ++ v ∷ [])) }
    ensures past_err { OnErr result (past.new.items ≡ past.old.items) }
{
    past.push(octets.to_vec(alloc)?)?;
    *octets = next;
    Ok(())
}

impl Device for MemoryDevice {
    ghost claims = { Unit {0} };

    ghost seen = { λ m. m.octets.items };

    ghost anew = { λ m. m.anew.items };

    ghost may_leave = { λ m c. c ≡ m.octets.items };

    ghost moment = { λ m. length m.past.items };

    ghost left_since = { λ m t c. (c ≡ m.octets.items) ⊎ HadBeen (drop t m.past.items) c };

    ghost faults = { λ _. 0 };

    ghost counts_now = { λ _ m t c le now. inl now };

    ghost only_now = { λ _ m c left. only_octets m.past.items m.octets.items c left };

    fn read(&mut self, alloc: Global) -> Result<Vec<u8>, DeviceFault> {
        Ok(self.octets.to_vec(alloc)?)
    }

    fn write_at(&mut self, at: usize, octets: &[u8]) -> Result<(), DeviceFault> {
        let mut next = self.octets[..at].to_vec(self.alloc)?;
        next.extend_from_slice(octets)?;
        if octets.len() < self.octets.len() - at {
            next.extend_from_slice(&self.octets[at + octets.len()..])?;
        }
        Ok(replace(self.alloc, &mut self.octets, &mut self.past, next)?)
    }

    fn cut(&mut self, len: usize) -> Result<(), DeviceFault> {
        let next = self.octets[..len].to_vec(self.alloc)?;
        Ok(replace(self.alloc, &mut self.octets, &mut self.past, next)?)
    }

    fn sync(&mut self) -> Result<(), DeviceFault> {
        Ok(())
    }

    fn open_anew(&mut self) -> Result<(), DeviceFault> {
        self.anew.clear();
        Ok(())
    }

    fn write_anew(&mut self, octets: &[u8]) -> Result<(), DeviceFault> {
        Ok(self.anew.extend_from_slice(octets)?)
    }

    fn take_place(&mut self) -> Result<(), DeviceFault> {
        let next = self.anew.to_vec(self.alloc)?;
        Ok(replace(self.alloc, &mut self.octets, &mut self.past, next)?)
    }
}
