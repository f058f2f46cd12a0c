//! What holds of the definitions. These functions do nothing: their contracts are the laws.
ghost use Rattle.std.specs.Prelude.{ℕ, ◌+◌, ◌^◌, ◌<◌, ◌≤◌, length, List, [], ◌∷◌, ◌++◌};
ghost use Rattle.ilp_flow.specs.declared.passage.Passage.{Passage};
ghost use Rattle.ilp_flow.specs.Flow.{MayBegin, AreWithin, IsNext, MayAnotherBegin, IsOfAnother};
ghost use Rattle.ilp_flow.specs.Rows.{FlowRows, ClosingRows};

/// Worked rows of who may begin, who begins next and who is closed.
pub fn rows()
    ensures flow { FlowRows }
    ensures closing { ClosingRows }
{}

/// The limits hold where none is in flight, and are kept as one begins that may, and as one ends.
pub fn limits_are_kept()
    ensures at_first { (most : ℕ) → AreWithin most [] }
    ensures as_one_begins { (most : ℕ) (flying : List Passage) (p : Passage)
        → AreWithin most flying → MayBegin most flying p → AreWithin most (p ∷ flying) }
    ensures as_one_ends { (most : ℕ) (before after : List Passage) (p : Passage)
        → AreWithin most (before ++ p ∷ after) → AreWithin most (before ++ after) }
{}

/// Where none is in flight one may begin, and be it the largest packet there is.
pub fn one_may_begin()
    ensures { (most : ℕ) (p : Passage) → 1 ≤ most → p.octets ≤ 65536 → MayBegin most [] p }
{}

/// Who had the last turn isn't next while one of another sender waits that may begin.
pub fn turns_go_round()
    ensures { (most : ℕ) (flying begun waiting : List Passage) (last : Passage) (place : ℕ)
        → length begun + 1 < 2 ^ 64
        → MayAnotherBegin most flying waiting last.sender
        → IsNext most flying (begun ++ last ∷ []) waiting place
        → IsOfAnother waiting place last.sender }
{}
