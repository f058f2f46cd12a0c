//! What follows from the definitions alone: an address has one route, and a text one place. Each
//! law is the contract of a function that does nothing. A law tells whoever reads the definitions
//! what follows from them; no code needs to call it.
ghost use Rattle.std.specs.Prelude.{◌≡◌, ℕ, List, Option, length};
ghost use Rattle.ilp_lookup.specs.Route.{Route, AreDistinct, Matches, IsRoute};
ghost use Rattle.ilp_lookup.specs.Answer.{routed_peer};
ghost use Rattle.ilp_lookup.specs.Texts.{IsPlaceOf};

/// Two prefixes that match the same octets and are equally long are the same: the longest prefix
/// that matches is one.
pub fn one_match_of_a_length()
    ensures { (prefix other octets : List ℕ) → Matches prefix octets → Matches other octets
        → length prefix ≡ length other → prefix ≡ other }
{}

/// Where no two routes have the same prefix, octets have one route, or none.
pub fn one_route()
    ensures { (routes : List Route) → AreDistinct routes
        → (octets : List ℕ) (answer other : Option ℕ)
        → IsRoute routes octets answer → IsRoute routes octets other → answer ≡ other }
{}

/// `routed_peer` names a route of the octets, or that there is none.
pub fn routed_peer_has_a_route()
    ensures { (routes : List Route) (octets : List ℕ) → IsRoute routes octets (routed_peer routes octets) }
{}

/// A text has one place among texts, or none.
pub fn one_place()
    ensures { (texts : List (List ℕ)) (text : List ℕ) (answer other : Option ℕ)
        → IsPlaceOf texts text answer → IsPlaceOf texts text other → answer ≡ other }
{}
