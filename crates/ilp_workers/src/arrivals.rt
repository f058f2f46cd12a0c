//! What a peer sent: a Prepare, or not.
ghost use Rattle.std.specs.Prelude.{IfOk, IfErr};
ghost use Rattle.ilp_packet.specs.Packet.{plain_prepare, prepare, Spells};
ghost use Rattle.ilp_workers.specs.Arrivals.{IsBad};

use ilp_packet::{Packet, PacketFault, Prepare};
use thiserror::Error;

/// Why octets are no Prepare.
#[derive(Clone, Copy, Debug, PartialEq, Eq, Error)]
pub enum BadPacket {
    /// They stand for no packet; this is their first fault.
    #[error("{0}")]
    Unread(PacketFault),
    /// They stand for a Fulfill or a Reject.
    #[error("the packet is no Prepare")]
    NotPrepare,
}

// The Prepare that the octets stand for.
pub(crate) fn prepare_in(octets: &[u8]) -> Result<Prepare<'_>, BadPacket>
    ensures ok { IfOk result (λ p. Spells octets.now (prepare (plain_prepare p))) }
    ensures err { IfErr result (λ fault. IsBad octets.now fault) }
{
    match Packet::read(octets) {
        Ok(Packet::Prepare(prepare)) => Ok(prepare),
        Ok(Packet::Fulfill(_)) => Err(BadPacket::NotPrepare),
        Ok(Packet::Reject(_)) => Err(BadPacket::NotPrepare),
        Err(fault) => Err(BadPacket::Unread(fault)),
    }
}
