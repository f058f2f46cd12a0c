//! What holds of the definitions. These functions do nothing: their contracts are the laws. A law
//! tells whoever reads the definitions what follows from them; no code needs to call it.
ghost use Rattle.std.specs.Prelude.{◌≡◌, ℕ, ◌≤◌, ℤ, List, length};
ghost use Rattle.ilp_report.specs.Report.{line};
ghost use Rattle.ilp_report.specs.Columns.{IsShort, IsNarrow};
ghost use Rattle.ilp_report.specs.Rows.{PaidRow, SettledRow, NextPeriodRow};

/// A line whose label, name and number fit their columns has 60 octets before its LF.
pub fn lines_have_one_length()
    ensures { (label name : List ℕ) (number : ℤ)
        → length label ≤ 10 → IsShort name → IsNarrow number → length (line label name number) ≡ 61 }
{}

/// Worked reports.
pub fn rows()
    ensures paid { PaidRow }
    ensures settled { SettledRow }
    ensures next { NextPeriodRow }
{}
