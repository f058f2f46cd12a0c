//! What changes a file, and what a crash may leave of it.
ghost use Rattle.std.specs.Prelude.{◌≡◌, ◌⊎◌, ℕ, ◌≤◌, length, drop, get_or, IfOk};
ghost use Rattle.ilp_line_file.specs.Device.{IsMixed, Torn};
ghost use Rattle.test_tearing.specs.Tearing.{put, changed, MayChange};

use crate::loss::Loss;
use std::alloc::{AllocError, Global};

/// A call that changes a file.
#[derive(Drop)]
pub(crate) enum Change {
    /// These octets are written at an offset. Behind the end it does nothing.
    Write { at: usize, octets: Vec<u8> },
    /// It is cut to this length.
    Cut { len: usize },
    /// A new file is to take its place, and nothing says that it has.
    Place { octets: Vec<u8> },
}

/// What a read returns behind a change.
pub(crate) fn made(alloc: Global, change: &Change, old: &[u8]) -> Result<Vec<u8>, AllocError>
    ensures { IfOk result (λ new. new.items ≡ changed change.now old.now) }
{
    match change {
        Change::Write { at, octets } => written(alloc, old, *at, octets),
        Change::Cut { len } => old[..old.len().min(*len)].to_vec(alloc),
        Change::Place { octets: _ } => old.to_vec(alloc),
    }
}

impl Change {
    /// What a crash leaves of it, with this loss.
    pub(crate) fn left(&self, alloc: Global, old: &[u8], loss: &Loss) -> Result<Vec<u8>, AllocError>
        ensures { IfOk result (λ new. MayChange self.now old.now new.items) }
    {
        match self {
            Change::Write { at, octets } => torn(alloc, old, *at, octets, loss),
            Change::Cut { len } => {
                let end = len.saturating_add(loss.uncut).min(old.len());
                old[..end].to_vec(alloc)
            }
            Change::Place { octets } => {
                if loss.is_placed {
                    octets.to_vec(alloc)
                } else {
                    old.to_vec(alloc)
                }
            }
        }
    }
}

// What a file has from an offset on.
fn behind(old: &[u8], from: usize) -> &[u8]
    ensures { result.now ≡ drop from old.now }
{
    &old[from.min(old.len())..]
}

// A file with octets at an offset.
fn written(alloc: Global, old: &[u8], at: usize, octets: &[u8]) -> Result<Vec<u8>, AllocError>
    ensures { IfOk result (λ new. new.items ≡ put at octets.now old.now) }
{
    if at > old.len() {
        return old.to_vec(alloc);
    }
    let mut new = old[..at].to_vec(alloc)?;
    new.extend_from_slice(octets)?;
    new.extend_from_slice(behind(old, at + octets.len()))?;
    Ok(new)
}

// The same, of which a crash loses some.
fn torn(
    alloc: Global,
    old: &[u8],
    at: usize,
    octets: &[u8],
    loss: &Loss,
) -> Result<Vec<u8>, AllocError>
    ensures { IfOk result (λ new. Torn at octets.now old.now new.items) }
{
    if at > old.len() {
        return old.to_vec(alloc);
    }
    let mut new = old[..at].to_vec(alloc)?;
    let range = mixed(alloc, &old[at..], octets, loss)?;
    new.extend_from_slice(&range)?;
    Ok(new)
}

// What a crash leaves from where a write began.
fn mixed(alloc: Global, old: &[u8], octets: &[u8], loss: &Loss) -> Result<Vec<u8>, AllocError>
    ensures { IfOk result (λ mixed. IsMixed old.now octets.now mixed.items) }
{
    let mut mixed = Vec::new(alloc);
    for (place, octet) in octets.iter().enumerate() {
        if place >= old.len() && place >= loss.front {
            return Ok(mixed);
        }
        mixed.push(octet_left(old, place, *octet, loss))?;
    }
    mixed.extend_from_slice(behind(old, octets.len()))?;
    Ok(mixed)
}

// What a crash leaves of one octet.
fn octet_left(old: &[u8], place: usize, octet: u8, loss: &Loss) -> u8
    ensures { (result ≡ octet) ⊎ (result ≡ get_or old.now place 0) }
{
    if loss.keeps(place) {
        octet
    } else if place < old.len() {
        old[place]
    } else {
        0
    }
}
