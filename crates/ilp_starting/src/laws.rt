//! What holds of the definitions. These functions do nothing: their contracts are the laws.
ghost use Rattle.std.specs.Prelude.{◌≡◌, ◌++◌, ℕ, List, length};
ghost use Rattle.ilp_accounts.specs.Configuration.{Configuration};
ghost use Rattle.ilp_journal.specs.Journal.{Entries};
ghost use Rattle.ilp_journal_text.specs.Text.{entry_lines, journal_text};
ghost use Rattle.ilp_line_file.specs.Text.{text_of};
ghost use Rattle.ilp_log_text.specs.Text.{PlainLogText};
ghost use Rattle.ilp_starting.specs.Beginning.{line_count};
ghost use Rattle.ilp_starting.specs.Ended.{IsWholeText};

/// Where the journal's text is that of a period's entries, and the log has a line for each further one, the whole
/// text of the two is that of all these entries.
pub fn whole_text()
    ensures { (C : Configuration) (period : ℕ) (j logged : Entries) (log : PlainLogText) (whole : List ℕ)
        → log.count ≡ length j → text_of log.lines ≡ entry_lines C logged
        → line_count (text_of log.lines) ≡ length logged
        → IsWholeText (journal_text C period j) log whole
        → whole ≡ journal_text C period (j ++ logged) }
{}
