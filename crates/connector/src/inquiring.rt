//! The command `statement`.

use crate::asking::Asked;
use crate::helping::is_help;
use crate::{Exit, ended};
use ilp_inquiry::{Form, Inquiry, InquiryFault, Sought, print_statement};
use std::fs::File;
use std::rt::{Files, Runtime};

// The words that stand by their places: the paths of a configuration and of a journal, a peer's name, and two times.
const PLACES: usize = 5;

/// What these words ask of a peer's account, or for help; none where they are no such inquiry. Options stand anywhere
/// among them but behind `--`, and one that is given again counts as it was given last.
pub(crate) fn asked_of_account(words: &[String]) -> Option<Asked<'_>> {
    let mut places = [None; PLACES];
    let mut packet = None;
    let mut key = None;
    let mut form = Form::Lines;
    let mut has_options = true;
    let mut words = words.iter();
    while let Some(word) = words.next() {
        match word.as_str() {
            "--" if has_options => has_options = false,
            "--csv" if has_options => form = Form::Records,
            "--packet" if has_options => packet = Some(words.next()?.as_bytes()),
            "--key" if has_options => key = Some(words.next()?.as_bytes()),
            word if has_options && is_help(word) => return Some(Asked::Help),
            word => take(&mut places, word)?,
        }
    }
    let [config, journal, peer, from, to] = places;
    Some(Asked::Statement(Inquiry {
        config: config?,
        journal: journal?,
        peer: peer?,
        from,
        to,
        sought: Sought { packet, key },
        form,
    }))
}

// Takes a word into the first place that is free; none where all are taken.
fn take<'w>(places: &mut [Option<&'w str>; PLACES], word: &'w str) -> Option<()> {
    for place in places {
        if place.is_none() {
            *place = Some(word);
            return Some(());
        }
    }
    None
}

/// Prints the statement of a peer's account.
pub(crate) fn run_statement<R>(rt: &R, inquiry: &Inquiry<'_>) -> Exit
where
    R: Runtime + AllocGlobal + Files<File = File> + Copy,
{
    match print_statement(rt, inquiry) {
        Ok(()) => Exit::Done,
        Err(InquiryFault::Misused) => Exit::Told,
        Err(InquiryFault::Run(fault)) => ended(Err(fault)),
    }
}
