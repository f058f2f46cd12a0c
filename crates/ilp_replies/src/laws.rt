//! What holds of the definitions. These functions do nothing: their contracts are the laws. A law
//! tells whoever reads the definitions what follows from them; no code needs to call it.
ghost use Rattle.std.specs.Prelude.{◌≡◌, ℕ, ◌≤◌, true, List, length, codes, Some};
ghost use Rattle.ilp_oer.specs.Octets.{AreOctets};
ghost use Rattle.ilp_terms.specs.Condition.{meets};
ghost use Rattle.ilp_packet.specs.Address.{most_address};
ghost use Rattle.ilp_packet.specs.Packet.{fulfill, reject, Spells};
ghost use Rattle.ilp_packet.specs.Writing.{size};
ghost use Rattle.ilp_accounts.specs.Configuration.{Configuration};
ghost use Rattle.ilp_replies.specs.declared.rejects.LocalReject.{LocalReject};
ghost use Rattle.ilp_replies.specs.Rejects.{local_reject, longest_local_reject};
ghost use Rattle.ilp_replies.specs.Rows.{RejectRows};
ghost use Rattle.ilp_replies.specs.Messages.{zero_condition, zero_preimage, zero_fulfill, peer_answer_of};

use crate::rejects::{LONGEST_LOCAL_REJECT, LocalReject};

/// A Reject of the connector's own has at most `LONGEST_LOCAL_REJECT` octets, and one that tells of
/// amounts has as many where the address is as long as one can be.
pub fn local_rejects_are_short()
    ensures constant { LONGEST_LOCAL_REJECT ≡ longest_local_reject }
    ensures within { (C : Configuration) (why : LocalReject)
        → length C.settings.address ≤ most_address
        → size (reject (local_reject C why)) ≤ longest_local_reject }
    ensures reached { (C : Configuration) (received most : ℕ)
        → length C.settings.address ≡ most_address
        → size (reject (local_reject C (LocalReject.AmountTooLarge received most)))
        ≡ longest_local_reject }
{}

/// Worked Rejects of a connector whose address is `test.hub`.
pub fn rows()
    ensures { (C : Configuration) → C.settings.address ≡ codes "test.hub" → RejectRows C }
{}

/// The condition of every message between engines is the SHA-256 digest of 32 zero octets.
pub fn messages_are_met()
    ensures { meets zero_condition zero_preimage ≡ true }
{}

/// What a peer's engine answered is the data of a Fulfill of 32 zero octets, for which the octets
/// that came stand.
pub fn answers_are_fulfills()
    ensures answer { (octets answer : List ℕ) → AreOctets octets
        → peer_answer_of (Some octets) ≡ Some answer → Spells octets (fulfill (zero_fulfill answer)) }
    ensures fulfill { (octets answer : List ℕ) → Spells octets (fulfill (zero_fulfill answer))
        → peer_answer_of (Some octets) ≡ Some answer }
{}
