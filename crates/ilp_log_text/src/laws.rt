//! What holds of the definitions. These functions do nothing: their contracts are the laws. A law
//! tells whoever reads the definitions what follows from them; no code needs to call it.
ghost use Rattle.std.specs.Prelude.{◌≡◌, ◌<◌, ◌^◌, ℕ, List, All, length, drop};
ghost use mathlib.Core.List.{IsPrefix};
ghost use Rattle.ilp_accounts.specs.Configuration.{Configuration};
ghost use Rattle.ilp_accounts.specs.Valid.{IsValid};
ghost use Rattle.ilp_journal.specs.Journal.{Entries};
ghost use Rattle.ilp_journal_text.specs.Text.{entry_lines, journal_text};
ghost use Rattle.ilp_journal_text.specs.Reading.{IsTyped};
ghost use Rattle.ilp_line_file.specs.Text.{text_of, AreLines};
ghost use Rattle.ilp_remembered.specs.Remembered.{remembered_text};
ghost use Rattle.ilp_log_text.specs.declared.reading.BadHead.{BadHead as PlainBadHead};
ghost use Rattle.ilp_log_text.specs.Head.{second_line};
ghost use Rattle.ilp_log_text.specs.Text.{PlainLogText, IsLogText, IsBadHead, IsIn};
ghost use Rattle.ilp_log_text.specs.Remembering.{remembered_in};
ghost use Rattle.ilp_log_text.specs.Rows.{NewRow, SavedRow, TornRow, RememberedRow, LaterRow, NextRow, EarlierRow};

/// Worked lines.
pub fn rows()
    ensures new { NewRow }
    ensures saved { SavedRow }
    ensures torn { TornRow }
    ensures remembered { RememberedRow }
    ensures later { LaterRow }
    ensures next { NextRow }
    ensures earlier { EarlierRow }
{}

/// No file of a log has two readings, and none that has one has a bad line.
pub fn one_log_text()
    ensures one { (octets : List ℕ) (log other : PlainLogText) → IsLogText octets log
        → IsLogText octets other → log ≡ other }
    ensures not_bad { (octets : List ℕ) (log : PlainLogText) (bad : PlainBadHead)
        → IsLogText octets log → ¬ IsBadHead octets bad }
{}

/// A later text of a period's journal that has the entries of a log from the number `count` on is found to
/// have them: the log is in it.
pub fn later_text()
    ensures { (C : Configuration) (period : ℕ) (j logged : Entries) (log : PlainLogText)
        → IsValid C → period < 2 ^ 32 → All IsTyped j → All IsTyped logged → length j < 2 ^ 32
        → AreLines log.lines → text_of log.lines ≡ entry_lines C logged
        → IsPrefix logged (drop log.count j) → IsIn log (journal_text C period j) }
{}

/// What the second line of a valid configuration says is what is remembered of it.
pub fn same_text()
    ensures { (C : Configuration) → IsValid C
        → remembered_in (second_line C) ≡ remembered_text C }
{}
