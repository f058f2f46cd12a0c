//! What holds of all octets. These functions do nothing: their contracts are the laws. A law tells
//! whoever reads the definitions what follows from them; no code needs to call it.
ghost use Rattle.std.specs.Prelude.{◌≡◌, ◌⊎◌, ℕ, List, ◌++◌};
ghost use Rattle.httparse.specs.Grammar.{RequestHead};
ghost use Rattle.ilp_http.specs.Limits.{head_limit, field_limit, body_limit, message_limit, most_reads};
ghost use Rattle.ilp_http.specs.Request.{BeginsWithRequest, HoldsRequest, EndsEarly, IsRefused};
ghost use Rattle.ilp_http.specs.Response.{IsResponse, EndsShort, IsBad, IsTooLong};
ghost use Rattle.ilp_http.specs.declared.refusal.Refusal.{Refusal};
ghost use Rattle.ilp_http.specs.declared.limits.TheConstants.{HEAD_LIMIT, FIELD_LIMIT, BODY_LIMIT, BUFFER_LENGTH, MOST_READS};

/// The constants of this crate are the limits of the definitions.
pub fn limits_are_those_defined()
    ensures head { HEAD_LIMIT ≡ head_limit }
    ensures fields { FIELD_LIMIT ≡ field_limit }
    ensures body { BODY_LIMIT ≡ body_limit }
    ensures message { BUFFER_LENGTH ≡ message_limit }
    ensures reads { MOST_READS ≡ most_reads }
{}

/// Octets begin with at most one request, which ends at one place; and octets that follow are no
/// part of it.
pub fn octets_hold_one_request()
    ensures one { (octets : List ℕ) (head other : RequestHead) (body text rest more : List ℕ)
        → BeginsWithRequest octets head body rest → BeginsWithRequest octets other text more
        → (head ≡ other) × (body ≡ text) }
    ensures goes_on { (octets more : List ℕ) (head : RequestHead) (body rest : List ℕ)
        → BeginsWithRequest octets head body rest
        → BeginsWithRequest (octets ++ more) head body (rest ++ more) }
{}

/// Octets that begin with a request are not refused, and don't end early. So each of these three
/// that a reader or a look answers is the only one that the octets allow.
pub fn requests_are_not_refused()
    ensures refused { (octets : List ℕ) (refusal : Refusal) → HoldsRequest octets
        → ¬ (IsRefused octets refusal) }
    ensures early { (octets : List ℕ) → HoldsRequest octets → ¬ (EndsEarly octets) }
{}

/// All octets of an input are one response, or bad, or too long, and no two of these.
pub fn responses_have_one_answer()
    ensures one { (octets : List ℕ) (code other : ℕ) (body text : List ℕ)
        → IsResponse octets code body → IsResponse octets other text
        → (code ≡ other) × (body ≡ text) }
    ensures not_bad { (octets : List ℕ) (code : ℕ) (body : List ℕ) → IsResponse octets code body
        → ¬ (EndsShort octets ⊎ IsBad octets) }
    ensures not_long { (octets : List ℕ) (code : ℕ) (body : List ℕ) → IsResponse octets code body
        → ¬ (IsTooLong octets) }
    ensures bad_or_long { (octets : List ℕ) → EndsShort octets ⊎ IsBad octets
        → ¬ (IsTooLong octets) }
{}
