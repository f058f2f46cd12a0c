//! What holds of the definitions. This function does nothing but call laws: its contract is one.
ghost use Rattle.std.specs.Prelude.{◌≡◌, ℕ, ℤ, List, Option, Some};
ghost use Rattle.ilp_journal.specs.Journal.{Entries};
ghost use Rattle.ilp_refusals.specs.declared.refusal.Refusal.{Refusal};
ghost use Rattle.ilp_refusals.specs.declared.refusal.Refusal.TheVariants.{Memory};
ghost use Rattle.ilp_rules.specs.Book.{PlainBook};
ghost use Rattle.ilp_starting.specs.Beginning.{BeginsBy, IsWhyNotBegunBy};
ghost use Rattle.ilp_crash_laws.specs.Crash.{IsLeft, IsOfRun, IsWhole};

use ilp_log::laws::log_texts_have_the_lines_of_journal_texts;
use ilp_log_text::laws::one_log_text;
use ilp_rules::laws::recovered_begins;

/// Of a run that began with the entries `opening`, these were told to be kept when a crash left this text and these
/// octets of a log.
pub fn what_was_told_is_recovered()
    // The book with which a start begins has all of them.
    ensures whole { (opening told : Entries) (book : PlainBook) (text : Option (List ℕ))
        (octets : List ℕ) → IsOfRun opening book → IsLeft opening told book text octets
        → (now : ℤ) (recovered : PlainBook)
        → BeginsBy book.config text (Some octets) now recovered → IsWhole told book recovered }
    // It is refused for nothing but want of memory.
    ensures refused { (opening told : Entries) (book : PlainBook) (text : Option (List ℕ))
        (octets : List ℕ) → IsOfRun opening book → IsLeft opening told book text octets
        → (refusal : Refusal)
        → IsWhyNotBegunBy book.config text (Some octets) refusal → refusal ≡ Memory }
{
    log_texts_have_the_lines_of_journal_texts();
    one_log_text();
    recovered_begins();
}
