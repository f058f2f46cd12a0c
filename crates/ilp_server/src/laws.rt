//! What holds of all requests. These functions do nothing: their contracts are the laws. A law
//! tells whoever reads the definitions what follows from them; no code needs to call it.
ghost use Rattle.std.specs.Prelude.{◌≡◌, ℕ, List};
ghost use Rattle.ilp_accounts.specs.Configuration.{Configuration};
ghost use Rattle.ilp_accounts.specs.Valid.{IsValid};
ghost use Rattle.ilp_server.specs.declared.target.Side.{Side};
ghost use Rattle.ilp_server.specs.declared.target.Target.{Target};
ghost use Rattle.ilp_server.specs.Targets.{AsksFor};
ghost use Rattle.ilp_server.specs.Fields.{IsFrom};

/// In a valid configuration a path asks for at most one thing at a side, and a request is from at
/// most one peer: so what `target_of` and `sender_of` answer is all that there is.
pub fn requests_ask_for_one_thing()
    ensures targets { (C : Configuration) (side : Side) (path : List ℕ) (target other : Target)
        → IsValid C → AsksFor C side path target → AsksFor C side path other → target ≡ other }
    ensures senders { (C : Configuration) (values : List (List ℕ)) (peer other : ℕ)
        → IsValid C → IsFrom C values peer → IsFrom C values other → peer ≡ other }
{}
