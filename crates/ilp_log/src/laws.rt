//! What follows from the definitions. A law does nothing: its contract is what it says.
ghost use Rattle.ilp_journal.specs.Journal.{Entries};
ghost use Rattle.ilp_log.specs.Lines.{HasJournalLines, LogForm};

/// Behind its head a log's text is the lines that the journal's text has of the same entries.
pub fn log_texts_have_the_lines_of_journal_texts()
    ensures { (form : LogForm) (entries : Entries) → HasJournalLines form entries }
{}
