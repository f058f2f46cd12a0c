//! Whom a request is from and whom it is for, where serving it waits for somebody outside.
ghost use Rattle.std.specs.Prelude.{◌≡◌, ◌<◌, ◌≤◌, length, IfSome};
ghost use Rattle.ilp_http.specs.Limits.{body_limit};
ghost use Rattle.ilp_server.specs.Serving.{inquiry};
ghost use Rattle.ilp_server.specs.Work.{engine_number, IsNumber, IsPacketFor, IsBetween, IsWorkFor, IsWork};

use crate::fields::sender_of;
use crate::target::{Side, Target, target_of};
use ilp_accounts::Config;
use ilp_flow::Passage;
use ilp_http::{Buffer, Request, read_request};
use ilp_packet::Packet;
use ilp_replies::is_for_engine;
use std::alloc::Global;

/// Whether serving a connection waits for somebody outside of the connector.
#[derive(Clone, Copy, Debug, PartialEq, Eq)]
pub enum Work {
    /// It waits for nobody: a settlement that came in, a correction, a report, what is asked of the connector as a
    /// whole, and whatever is refused as it stands.
    Local,
    /// It may wait for a peer or an engine: a packet of a peer (RFC 0035), or a message of a peer's
    /// engine (RFC 0038). Peers have the numbers of their places, and their engines those behind.
    Remote { passage: Passage },
}

/// What the octets of a connection at a side ask for.
///
/// It reads them as `begin_request` does, and serves nothing. They count as local where memory for
/// their fields is denied: they are answered without waiting for anybody, if they are refused then
/// too. The buffer's content is of no use afterwards.
pub fn work_of(
    alloc: Global,
    config: &Config,
    side: Side,
    octets: &[u8],
    buffer: &mut Buffer,
) -> Work
    ensures { IsWork config.now side octets.now result }
{
    let mut source = octets;
    match read_request(alloc, &mut source, buffer) {
        Ok(request) => work_for(config, side, &request),
        Err(_) => Work::Local,
    }
}

// What a request asks for.
fn work_for(config: &Config, side: Side, request: &Request<'_>) -> Work
    requires short { length request.now.body.now ≤ body_limit }
    ensures { IsWorkFor config.now
        (inquiry side request.now.path.now request.now.headers request.now.body.now) result }
{
    match parties(config, side, request) {
        Some((sender, receiver)) => Work::Remote {
            passage: Passage {
                sender,
                receiver,
                octets: request.body.len() as u32,
            },
        },
        None => Work::Local,
    }
}

// The numbers of whom a request is from and of whom it is for, where serving it waits for somebody
// outside.
fn parties(config: &Config, side: Side, request: &Request<'_>) -> Option<(u32, u32)>
    ensures between { IfSome result (λ found. IsBetween config.now
        (inquiry side request.now.path.now request.now.headers request.now.body.now)
        found.0 found.1) }
    ensures numbers { IfSome result
        (λ found. IsNumber config.now found.0 × IsNumber config.now found.1) }
{
    match target_of(config, side, request.path) {
        Some(Target::Packet) => {
            let sender = sender_of(config, &request.headers)?;
            let receiver = receiver_of(config, sender, request.body)?;
            Some((sender, receiver))
        }
        Some(Target::Message { peer }) => Some((engine_number(config, peer), peer)),
        _ => None,
    }
}

// Whom a packet of this peer is for: the peer's engine here, or the peer of its route. What has no
// route, or is no Prepare, is refused as it stands.
fn receiver_of(config: &Config, sender: u32, octets: &[u8]) -> Option<u32>
    requires known { sender < length config.now.peers }
    ensures packet { IfSome result (λ receiver. IsPacketFor config.now sender octets.now receiver) }
    ensures number { IfSome result (λ receiver. IsNumber config.now receiver) }
{
    let Ok(Packet::Prepare(prepare)) = Packet::read(octets) else {
        return None;
    };
    if is_for_engine(&prepare) {
        return Some(engine_number(config, sender));
    }
    let receiver = config.route(prepare.destination)?;
    Some(receiver)
}

// The number of the engine of a peer.
fn engine_number(config: &Config, peer: u32) -> u32
    requires known { peer < length config.now.peers }
    ensures { result ≡ engine_number config.now peer }
{
    config.peers() + peer
}
