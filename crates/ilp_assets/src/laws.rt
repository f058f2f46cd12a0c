//! What holds of the definitions. The function does nothing: its contract is the law. It tells
//! whoever reads the definitions what follows from them; no code needs to call it.
ghost use Rattle.ilp_assets.specs.Rows.{QuoteRows, ScaleRows, FaultRows};

/// Worked quotes and faults.
pub fn rows()
    ensures quotes { QuoteRows }
    ensures scales { ScaleRows }
    ensures faults { FaultRows }
{}
