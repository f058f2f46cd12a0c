//! Tokens that others may guess.
ghost use Rattle.std.specs.Prelude.{◌↔◌, IsTrue};
ghost use Rattle.ilp_warnings.specs.Meaning.{IsShort, IsExample};

// A token of fewer octets may be guessed.
const LEAST_TOKEN: usize = 16;

/// Whether a token is so short that it may be guessed.
pub(crate) fn is_short(token: &str) -> bool
    ensures { IsTrue result ↔ IsShort token.now }
{
    token.len() < LEAST_TOKEN
}

/// Whether a token is one of the examples', which everybody knows.
pub(crate) fn is_example(token: &str) -> bool
    ensures { IsTrue result ↔ IsExample token.now }
{
    token.as_bytes().starts_with(b"REPLACE")
}
