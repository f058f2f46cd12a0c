//! What holds of the definitions. This function does nothing: its contract is the law.
ghost use Rattle.std.specs.Prelude.{◌≡◌, ℕ, true, Ok};
ghost use Rattle.std.specs.declared.alloc.AllocError.{AllocError};
ghost use Rattle.ilp_desk.specs.Desk.{PlainDesk};
ghost use Rattle.ilp_link_traits.specs.declared.links.EngineReply.{EngineReply};
ghost use Rattle.ilp_settler.specs.declared.turn.Turn.{Turn};
ghost use Rattle.ilp_settler.specs.Asking.{PlainAsking};
ghost use Rattle.ilp_settler.specs.Settler.{PlainSettler, knows_account, Turns};
ghost use Rattle.ilp_settler.specs.Halves.{StartsAsking, IsEngineAsked, FinishesTurn};

/// Where the engine is known to have the account: a settlement that a settler gave out, that the
/// engine was asked for, and that the settler finished with what the engine said, was a turn.
pub fn halves_make_a_turn()
    ensures { (desk : PlainDesk) (peer : ℕ) (before begun asked after : PlainSettler)
        (p : PlainAsking) (said : EngineReply) (turn : Turn)
        → knows_account before.accounts peer ≡ true → StartsAsking desk peer before begun p
        → IsEngineAsked p said begun asked → FinishesTurn desk p said asked after turn
        → Turns {E = AllocError} desk peer before after (Ok turn) }
{}
