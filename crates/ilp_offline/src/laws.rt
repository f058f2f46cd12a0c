//! What holds of every script. These functions do nothing: their contracts are the laws. A law
//! tells whoever reads the definitions what follows from them; no code needs to call it.
ghost use Rattle.std.specs.Prelude.{◌≡◌, ℕ, List};
ghost use Rattle.ilp_accounts.specs.Configuration.{Configuration, peer_names};
ghost use Rattle.ilp_accounts.specs.Valid.{IsValid};
ghost use Rattle.ilp_book.specs.Book.{PlainBook, new_book};
ghost use Rattle.ilp_book.specs.Lawful.{IsLawful};
ghost use Rattle.ilp_book.specs.Run.{AreAllowed, book_after};
ghost use Rattle.ilp_offline.specs.Calls.{calls_of};
ghost use Rattle.ilp_offline.specs.BadLines.{is_bad, is_bad_line};
ghost use Rattle.ilp_offline.specs.Replay.{after_lines, line_step};

/// What the lines of a script book is what a list of the book's calls books, each of them by the
/// actor 0 and within its conditions; so the laws of runs speak of every replay, and the book that
/// a script leaves is lawful.
pub fn scripts_make_calls()
    ensures booked { (book : PlainBook) (lines : List (List ℕ))
        → after_lines book lines ≡ book_after book (calls_of book.config lines) }
    ensures allowed { (C : Configuration) (lines : List (List ℕ)) → AreAllowed C (calls_of C lines) }
    ensures lawful { (C : Configuration) (lines : List (List ℕ))
        → IsValid C → IsLawful (after_lines (new_book C) lines) }
{}

/// A line is bad by the names of the peers alone, and just where it prints `bad line`, whatever the book
/// has.
pub fn bad_lines_are_printed()
    ensures { (book : PlainBook) (line : List ℕ)
        → is_bad (peer_names book.config.peers) line ≡ is_bad_line (line_step book line).reply }
{}
