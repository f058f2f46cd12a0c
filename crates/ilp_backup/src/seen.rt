//! What is seen of a journal's files by looks at them, and whether that lay there at one moment.
ghost use Rattle.std.specs.Prelude.{◌≡◌, ◌↔◌, IsTrue};
ghost use Rattle.ilp_backup.specs.Moment.{AreSame, StandsStill};

use ilp_journal_file::FileIdentity;

/// One of the files of a journal that take each other's places: `J`, `J.log`, `J.ended` and `J.next`.
#[derive(Clone, Copy, Debug, PartialEq, Eq)]
pub enum Part {
    Journal,
    Log,
    Ended,
    Next,
}

/// Which file lies at the name of each, if one does.
#[derive(Clone, Copy, PartialEq, Eq)]
pub struct Places {
    pub journal: Option<FileIdentity>,
    pub log: Option<FileIdentity>,
    pub ended: Option<FileIdentity>,
    pub next: Option<FileIdentity>,
}

/// What is seen of a journal's files by one look at each.
#[derive(Drop)]
pub struct Seen {
    pub places: Places,
    /// What `J.lock` has, which is written where it stands.
    pub remembered: Vec<u8>,
    /// The numbers of the periods whose texts are kept, each as `J.P`, in order. A text never becomes another.
    pub kept: Vec<u32>,
}

/// Whether the files that were seen at two times stood still between them: each name had the same one, and the same
/// was remembered and kept.
///
/// `Rattle.ilp_backup.specs.Moment` says why that is what lay there at each moment between the looks, where the journal
/// was looked at first and last.
pub fn stands_still(before: &Seen, behind: &Seen) -> bool
    ensures { IsTrue result ↔ StandsStill before.now.places before.now.remembered.items before.now.kept.items
        behind.now.places behind.now.remembered.items behind.now.kept.items }
{
    are_same_places(before.places, behind.places)
        && is_same_text(&before.remembered, &behind.remembered)
        && are_same_numbers(&before.kept, &behind.kept)
}

// Whether each name has the same file.
fn are_same_places(places: Places, others: Places) -> bool
    ensures { IsTrue result ↔ AreSame places others }
{
    is_same_file(places.journal, others.journal)
        && is_same_file(places.log, others.log)
        && is_same_file(places.ended, others.ended)
        && is_same_file(places.next, others.next)
}

// Whether it is the same file, or none at both times.
fn is_same_file(file: Option<FileIdentity>, other: Option<FileIdentity>) -> bool
    ensures { IsTrue result ↔ file ≡ other }
{
    file == other
}

// Whether two texts are the same.
fn is_same_text(text: &[u8], other: &[u8]) -> bool
    ensures { IsTrue result ↔ text.now ≡ other.now }
{
    text == other
}

// Whether these are the same numbers of periods.
fn are_same_numbers(numbers: &[u32], others: &[u32]) -> bool
    ensures { IsTrue result ↔ numbers.now ≡ others.now }
{
    numbers == others
}
