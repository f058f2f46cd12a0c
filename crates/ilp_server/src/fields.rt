//! What the fields of a request say of who sends it, and of what.
ghost use Rattle.std.specs.Prelude.{◌≡◌, ℕ, List, codes, MatchOption};
ghost use Rattle.http_header.specs.Token.{lowercase};
ghost use Rattle.ilp_order.specs.Found.{Finds};
ghost use Rattle.ilp_server.specs.Fields.{values_in, IsOnly, ShowsToken, IsFrom, IsKeyAmong};

use http_header::HeaderMap;
use ilp_accounts::Config;
use ilp_journal::Key;

/// The peer whose token the one Authorization field shows (RFC 6750, section 2.1): `Bearer` in any
/// case, one space, and the token. None where there is no such field or more than one, and where no
/// peer has that token.
#[tactic(auto, using(crate::proofs::TokenLemmas::from_none, crate::proofs::TokenLemmas::from_peer))]
pub fn sender_of(config: &Config, headers: &HeaderMap) -> Option<u32>
    ensures { Finds (IsFrom config.now (values_in headers.now (codes "authorization"))) result }
{
    let value = only_value(headers, "authorization")?;
    let token = bearer_token(value)?;
    config.peer_by_token(token)
}

/// The octets of the key that the one Idempotency-Key field gives (RFC 0038, "Idempotence"): any 1
/// to 128 that a field's value may have. None where there is no such field or more than one, or the
/// value is empty or longer.
pub fn key_of(headers: &HeaderMap) -> Option<&[u8]>
    ensures { MatchOption result
        ((key : List ℕ) → ¬ (IsKeyAmong (values_in headers.now (codes "idempotency-key")) key))
        (λ key. IsKeyAmong (values_in headers.now (codes "idempotency-key")) key.now) }
{
    let value = only_value(headers, "idempotency-key")?;
    if !Key::is_key(value) {
        return None;
    }
    Some(value)
}

// The value of the one field of a name.
fn only_value<'a>(headers: &'a HeaderMap, name: &str) -> Option<&'a [u8]>
    ensures { MatchOption result
        ((value : List ℕ) → ¬ (IsOnly (values_in headers.now (lowercase name.now)) value))
        (λ value. IsOnly (values_in headers.now (lowercase name.now)) value.now) }
{
    let all = headers.get_all(name);
    let mut values = all.iter();
    let value = values.next()?;
    match values.next() {
        None => Some(value.as_bytes()),
        Some(_) => None,
    }
}

// The token that a value of Authorization shows.
fn bearer_token(value: &[u8]) -> Option<&[u8]>
    ensures { MatchOption result ((token : List ℕ) → ¬ (ShowsToken value.now token))
        (λ token. ShowsToken value.now token.now) }
{
    let scheme = b"bearer ".as_slice();
    let (shown, token) = value.split_at_checked(scheme.len())?;
    if !shown.eq_ignore_ascii_case(scheme) {
        return None;
    }
    Some(token)
}
