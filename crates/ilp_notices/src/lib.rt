//! What an operator of a running connector is told on standard error, and how often.
//!
//! A line is `TIME LEVEL TEXT`. It is written at once, so that lines of threads don't mix, and one that
//! can't be written is passed over. No line has a token, of a packet none has more than its
//! amount, four octets of its condition and the code of a Reject, and only those of credits and corrections have keys. What
//! is written, and when, no clause can say: it stands in the comments, and `test_sockets` tests it.
//!
//! # What is proved
//!
//! Lines are proved safe, no more. Else:
//!
//! - the text of a time has the digits of its moment, as RFC 3339 places them;
//! - `Pace::after`: a line is due just where its moment has come, and the next rest is the first
//!   one or twice the last, up to the longest (`specs/Pace.antt`);
//! - a threshold of the journal is told just where it is reached, and once;
//! - `JournalWarning` is made just where a journal's last moment lies a second ahead of the clock, or
//!   where it has 80 percent of its entries, or where what was brought forward is more than half of those
//!   at which a new period begins.
#![tactic(auto)]

mod carried_journal;
mod doubling;
mod gone_log;
mod journal;
mod journal_file;
mod late;
mod line;
mod notices;
mod pace;
mod peers;
mod recovery;
mod rejects;
mod repeated;
mod seconds;
mod sent_hold;
mod settlements;
mod shown_key;
mod shown_reason;
mod starting;
mod time_text;
mod told_payment;
mod unkept;
mod waiting;
mod work;
mod wrong_tokens;

pub use carried_journal::{JournalWarning, journal_warning};
pub use doubling::doubled;
pub use journal_file::{
    Again, journal_absent, journal_carried, journal_gone, journal_in_use, journal_lost,
    journal_not_locked, journal_of_another_asset, journal_of_another_run, journal_older,
    journal_saved, journal_too_long, journal_unfit, journal_unread, keys_left_out, left_next,
    left_unsaved, log_begun, log_grows, log_left, log_unwritten, no_journal, no_next_period,
    no_periods, not_made, not_saved, not_saved_at_start, not_saved_yet, not_synced,
    nothing_to_save, period_begun, period_differs, period_kept, period_unwritten, stopped_unsaved,
};
pub use notices::Notices;
pub use recovery::{RecoveryNote, recovery_note};
pub use sent_hold::SentHold;
pub use shown_key::ShownKey;
pub use shown_reason::ShownReason;
pub use starting::{
    ListensAt, closing, configuration_warning, few_files, listening, no_seat, no_thread,
    not_listening, not_reloaded, reloaded, report_follows,
};
pub use told_payment::{ToldPayment, ToldQuantity};
pub use unkept::log_incomplete;
