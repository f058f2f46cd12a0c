//! With what a connector goes on behind a period.

use ilp_book::Book;
use ilp_journal_file::LogDevice;
use ilp_line_file::Device;
use ilp_running::BegunPeriod;
use std::fs::File;

/// What comes behind a period that has ended.
#[derive(Clone, Copy, Debug, PartialEq, Eq)]
pub(crate) enum Change {
    /// A new one.
    NewPeriod,
    /// The same one goes on, since no new one may begin.
    None,
}

/// With what a connector goes on behind a period.
#[derive(Drop)]
pub(crate) struct Followed<D: Device + Drop> {
    pub(crate) period: BegunPeriod<D>,
    /// The book of the period that ended, where its log was set aside: its text is still to be kept.
    pub(crate) unkept: Option<Book>,
    pub(crate) change: Change,
    /// What whoever asked for another configuration is told; nothing where memory for it is short.
    pub(crate) told: Option<String>,
}

/// A period that begins, and the book of the one before it, where the text of that is still to be kept.
#[derive(Drop)]
pub(crate) struct NextPeriod<D: Device + Drop> {
    pub(crate) period: BegunPeriod<D>,
    pub(crate) unkept: Option<Book>,
}

/// With what a connector goes on whose log, where it has one, is a file.
pub(crate) type FollowedBy<'r, R> = Followed<LogDevice<'r, R, File>>;
