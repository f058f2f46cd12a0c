//! What holds of the definitions. These functions do nothing: their contracts are the laws. A law
//! tells whoever reads the definitions what follows from them; no code needs to call it.
ghost use Rattle.std.specs.Prelude.{◌≡◌, ℕ, List, ◌++◌, All, length, take};
ghost use Rattle.ilp_accounts.specs.Configuration.{Configuration};
ghost use Rattle.ilp_accounts.specs.Valid.{IsValid};
ghost use Rattle.ilp_journal.specs.Journal.{Entries};
ghost use Rattle.ilp_journal_text.specs.Text.{entry_lines};
ghost use Rattle.ilp_journal_text.specs.Reading.{IsTextOf, IsTyped, IsFirstBadLine, IsLine, joined, AreLinesOf, IsFirstBadEntryLine};
ghost use Rattle.ilp_journal_text.specs.Rows.{PaidRow, CorrectedRow, ReleasedRow, EmptyRow, LaterRow, LinesRow};

/// Worked texts.
pub fn rows()
    ensures paid { PaidRow }
    ensures corrected { CorrectedRow }
    ensures released { ReleasedRow }
    ensures empty { EmptyRow }
    ensures later { LaterRow }
    ensures lines { LinesRow }
{}

/// By a valid configuration no text stands for two journals, nor for two periods.
pub fn one_journal()
    ensures { (C : Configuration) (p q : ℕ) (j k : Entries) (text : List ℕ) → IsValid C
        → IsTextOf C p j text → IsTextOf C q k text → (p ≡ q) × (j ≡ k) }
{}

/// A text that stands for a journal has no bad line, and no text has two first bad lines.
pub fn one_first_bad_line()
    ensures none { (C : Configuration) (period : ℕ) (j : Entries) (text : List ℕ) (line : ℕ)
        → IsValid C → IsTextOf C period j text → ¬ IsFirstBadLine C text line }
    ensures one { (C : Configuration) (text : List ℕ) (line other : ℕ) → IsValid C
        → IsFirstBadLine C text line → IsFirstBadLine C text other → line ≡ other }
{}

/// By a valid configuration no lines stand for two lists of entries.
pub fn one_list()
    ensures { (C : Configuration) (j k : Entries) (text : List ℕ) → IsValid C
        → AreLinesOf C j text → AreLinesOf C k text → j ≡ k }
{}

/// Lines that stand for entries have no bad one, and no lines have two first bad ones.
pub fn one_first_bad_entry_line()
    ensures none { (C : Configuration) (j : Entries) (text : List ℕ) (line : ℕ) → IsValid C
        → AreLinesOf C j text → ¬ IsFirstBadEntryLine C text line }
    ensures one { (C : Configuration) (text : List ℕ) (line other : ℕ) → IsValid C
        → IsFirstBadEntryLine C text line → IsFirstBadEntryLine C text other → line ≡ other }
{}

/// Whole lines that begin the lines of entries are those of the first entries.
pub fn beginnings_of_lines()
    ensures { (C : Configuration) (entries : Entries) (lines : List (List ℕ)) (after : List ℕ)
        → IsValid C → All IsTyped entries → All IsLine lines
        → entry_lines C entries ≡ joined lines ++ after
        → joined lines ≡ entry_lines C (take (length lines) entries) }
{}
