//! Which peer a name means.
ghost use Rattle.std.specs.Prelude.{◌≡◌, ◌<◌, ◌⊎◌, length, Some, None, IfOk, IfErr, IfSome, OnErr};
ghost use Rattle.ilp_lookup.specs.Texts.{IsPlaceOf};
ghost use Rattle.ilp_accounts.specs.Configuration.{peer_names};
ghost use Rattle.ilp_inquiry.specs.declared.fault.InquiryFault.TheVariants as inquiry_fault;
ghost use Rattle.ilp_inquiry.specs.Faults.{LacksMemory};

use crate::fault::InquiryFault;
use ilp_accounts::Config;
use std::alloc::{AllocError, Global};
use std::io::Eprint;
use strsim::levenshtein;

// How many edits lead to a near name at most.
const MAX_EDITS: usize = 2;

/// The peer of a name. Where there is none, a line on standard error says so, and whose name is near.
pub(crate) fn peer_of<R>(rt: &R, config: &Config, name: &str) -> Result<u32, InquiryFault>
where
    R: AllocGlobal + Eprint,
    ensures named { IfOk result (λ peer. IsPlaceOf (peer_names config.now.peers) name.now (Some peer)) }
    ensures known { IfOk result (λ peer. peer < length config.now.peers) }
    ensures err { OnErr result (IsPlaceOf (peer_names config.now.peers) name.now None) }
    ensures fault { IfErr result (λ fault. (fault ≡ inquiry_fault.Misused) ⊎ LacksMemory fault) }
{
    if let Some(peer) = config.peer_by_name(name.as_bytes()) {
        return Ok(peer);
    }
    match nearest(rt.alloc(), config, name) {
        Ok(nearest) => Err(unknown(rt, config, name, nearest)),
        Err(denied) => Err(InquiryFault::from(denied)),
    }
}

// Tells that no peer has this name, and whose is near.
fn unknown<R: Eprint>(rt: &R, config: &Config, name: &str, nearest: Option<u32>) -> InquiryFault
    requires { IfSome nearest (λ peer. peer < length config.now.peers) }
    ensures { result ≡ inquiry_fault.Misused }
{
    let _ = match nearest {
        Some(peer) => {
            let near = config.name(peer);
            rt.eprintln(format_args!("no peer is named {name:?}: {near:?} may be meant"))
        }
        None => rt.eprintln(format_args!("no peer is named {name:?}")),
    };
    InquiryFault::Misused
}

// The peer whose name is nearest to this one, if it is near: a few edits lead to it, and they leave something of the
// name.
fn nearest(alloc: Global, config: &Config, name: &str) -> Result<Option<u32>, AllocError>
    ensures { IfOk result (λ nearest. IfSome nearest (λ peer. peer < length config.now.peers)) }
{
    let mut nearest = None;
    let mut enough = name.len().min(MAX_EDITS + 1);
    for peer in 0..config.peers() {
        let edits = levenshtein(alloc, name, config.name(peer))?;
        if edits < enough {
            enough = edits;
            nearest = Some(peer);
        }
    }
    Ok(nearest)
}
