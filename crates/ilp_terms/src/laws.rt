//! What follows from the definition of an expiry alone. The law is the contract of a function that
//! does nothing. It tells whoever reads the definitions what follows from them; no code needs to
//! call it.
ghost use Rattle.std.specs.Prelude.{◌≡◌, ℕ, List};
ghost use Rattle.ilp_terms.specs.Expiry.{IsExpiry, moment_of};

/// Two expiries that name one moment are one text.
pub fn one_expiry_a_moment()
    ensures { (text other : List ℕ) → IsExpiry text → IsExpiry other
        → moment_of text ≡ moment_of other → text ≡ other }
{}
