//! What holds of all packets. These functions do nothing: their contracts are the laws. A law tells
//! whoever reads the definitions what follows from them; no code needs to call it.
ghost use Rattle.std.specs.Prelude.{◌≡◌, ◌↔◌, ℕ, List, [], ◌++◌, length, drop, Contains, IsTrue, Ok, None};
ghost use Rattle.ilp_terms.specs.Expiry.{IsExpiry};
ghost use Rattle.ilp_packet.specs.Address.{IsAddress, schemes, is_scheme, is_address};
ghost use Rattle.ilp_packet.specs.ExpiryTest.{is_expiry};
ghost use Rattle.ilp_packet.specs.Packet.{PlainPacket, Spells};
ghost use Rattle.ilp_packet.specs.Reading.{AreOctets, reading, fault_of};
ghost use Rattle.ilp_packet.specs.Writing.{size, Appends};

/// Reading and spelling are each other's inverse: octets that stand for a packet are read as it
/// and have no fault, and octets that have no fault stand for the packet that they are read as.
pub fn readings_are_spellings()
    ensures spelled { (octets : List ℕ) (packet : PlainPacket) → Spells octets packet
        → reading octets ≡ Ok packet }
    ensures read { (octets : List ℕ) (packet : PlainPacket) → AreOctets octets
        → reading octets ≡ Ok packet → Spells octets packet }
    ensures no_fault { (octets : List ℕ) (packet : PlainPacket) → Spells octets packet
        → fault_of octets ≡ None }
    ensures no_other { (octets : List ℕ) → AreOctets octets → fault_of octets ≡ None
        → (packet : PlainPacket) × Spells octets packet }
{}

/// Octets stand for at most one packet.
pub fn octets_spell_one_packet()
    ensures { (octets : List ℕ) (packet other : PlainPacket) → Spells octets packet
        → Spells octets other → packet ≡ other }
{}

/// A packet has one spelling, of one length, and no packet's spelling is the beginning of another's.
pub fn packets_have_one_spelling()
    ensures one { (octets other : List ℕ) (packet : PlainPacket) → Spells octets packet
        → Spells other packet → octets ≡ other }
    ensures size { (octets : List ℕ) (packet : PlainPacket) → Spells octets packet
        → length octets ≡ size packet }
    ensures ends { (octets more : List ℕ) (packet other : PlainPacket) → Spells octets packet
        → Spells (octets ++ more) other → more ≡ [] }
{}

/// What was written behind other octets is read back as the packet that was written; whatever
/// octets follow it, it is the only packet there, and ends where it was written to.
pub fn written_packets_are_read()
    ensures read { (before after : List ℕ) (packet : PlainPacket) → Appends before packet after
        → reading (drop (length before) after) ≡ Ok packet }
    ensures found { (before after more front rest : List ℕ) (packet other : PlainPacket)
        → Appends before packet after → after ++ more ≡ before ++ (front ++ rest)
        → Spells front other → (other ≡ packet) × (before ++ front ≡ after) × (rest ≡ more) }
{}

/// The test for addresses, from left to right, passes exactly those of the grammar, and the test for
/// schemes exactly those of the list.
pub fn addresses_are_tested()
    ensures addresses { (octets : List ℕ) → IsTrue (is_address octets) ↔ IsAddress octets }
    ensures schemes { (octets : List ℕ) → IsTrue (is_scheme octets) ↔ Contains schemes octets }
{}

/// The test for expiries passes exactly the texts that name a moment.
pub fn expiries_are_tested()
    ensures { (text : List ℕ) → IsTrue (is_expiry text) ↔ IsExpiry text }
{}
