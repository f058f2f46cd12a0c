//! The files of a journal, opened at about one time.

use crate::seen::{Part, Places, Seen};
use crate::source::{HeldFile, Shape, Source};
use ilp_journal_file::{FileIdentity, PlacesFiles};
use ilp_starting::Refused;
use std::io::{Eprint, Read};
use std::rt::Files;
use std::time::Clock;

// What only its user may read and write.
const OWN: u32 = 0o600;

/// The files of a journal that were opened, the journal before all others. As long as they are open no other file has
/// the number of one of them.
#[derive(Drop)]
pub(crate) struct HeldFiles<F> {
    pub(crate) journal: Option<HeldFile<F>>,
    pub(crate) log: Option<HeldFile<F>>,
    pub(crate) ended: Option<HeldFile<F>>,
    pub(crate) next: Option<HeldFile<F>>,
    /// What was seen of all.
    pub(crate) seen: Seen,
}

impl<F: Read + Drop> HeldFiles<F> {
    /// Opens the files of a journal, and sees what else is there.
    pub(crate) fn open<R>(source: &Source<'_, R>) -> Result<HeldFiles<F>, Refused>
    where
        R: AllocGlobal + Files<File = F> + PlacesFiles<File = F> + Clock + Eprint + Copy,
    {
        let journal = source.open(Part::Journal)?;
        let log = source.open(Part::Log)?;
        let ended = source.open(Part::Ended)?;
        let next = source.open(Part::Next)?;
        let places = Places {
            journal: identity_of(&journal),
            log: identity_of(&log),
            ended: identity_of(&ended),
            next: identity_of(&next),
        };
        let remembered = source.remembered()?;
        let seen = Seen {
            places,
            remembered,
            kept: source.kept()?,
        };
        Ok(HeldFiles {
            journal,
            log,
            ended,
            next,
            seen,
        })
    }

    /// The file of a part, where there is one.
    pub(crate) fn part(&mut self, part: Part) -> Option<&mut HeldFile<F>> {
        match part {
            Part::Journal => self.journal.as_mut(),
            Part::Log => self.log.as_mut(),
            Part::Ended => self.ended.as_mut(),
            Part::Next => self.next.as_mut(),
        }
    }
}

impl<F> HeldFiles<F> {
    /// Whether nothing is there of which a journal could be.
    pub(crate) fn is_nothing(&self) -> bool {
        let places = self.seen.places;
        places.journal.is_none() && places.log.is_none() && places.ended.is_none()
    }

    /// What a copy is to have of what is remembered: the rights of the journal or of its log.
    pub(crate) fn lock_shape(&self) -> Shape {
        let mode = match (&self.journal, &self.log) {
            (Some(held), _) | (None, Some(held)) => held.shape.mode,
            (None, None) => OWN,
        };
        Shape {
            mode,
            len: self.seen.remembered.len() as u64,
        }
    }
}

// Which file it is.
fn identity_of<F>(held: &Option<HeldFile<F>>) -> Option<FileIdentity> {
    match held {
        Some(held) => Some(held.identity),
        None => None,
    }
}
