//! What follows from the definition of octet strings alone. Each law is the contract of a function
//! that does nothing. A law tells whoever reads the definitions what follows from them; no code
//! needs to call it.
ghost use Rattle.std.specs.Prelude.{◌≡◌, ◌↔◌, ℕ, List, None};
ghost use Rattle.ilp_oer.specs.OctetString.{Splits, BeginsWithSpelling, fault_of};
ghost use Rattle.ilp_oer.specs.Octets.{AreOctets};

/// What begins with the spelling of a content begins with the spelling of no other: octet strings
/// that stand one after another are told apart, whatever follows them.
pub fn one_spelling()
    ensures { (input content rest other more : List ℕ)
        → Splits input content rest → Splits input other more
        → (content ≡ other) × (rest ≡ more) }
{}

/// Octets have a fault exactly where they begin with the spelling of no content.
pub fn faulty_exactly_where_unspelled()
    ensures { (input : List ℕ) → AreOctets input
        → (fault_of input ≡ None) ↔ BeginsWithSpelling input }
{}
