//! What the program is asked for.

use crate::helping::is_help;
use crate::inquiring::asked_of_account;
use ilp_inquiry::Inquiry;

// The words behind `follows` where it is asked of two periods alone.
const PAIR: usize = 4;

/// The words that the program is started with: a command, and what it is about.
#[derive(Drop)]
pub(crate) struct Words {
    pub(crate) command: String,
    pub(crate) about: Vec<String>,
}

/// A command and what it is about.
#[derive(Clone, Copy)]
pub(crate) enum Asked<'w> {
    Help,
    Version,
    /// Of a packet in hexadecimal.
    Packet(&'w str),
    /// Of the paths of a configuration and of a journal.
    Check(&'w str, Option<&'w str>),
    /// Of the path of a configuration.
    Replay(&'w str),
    /// Of the paths of a configuration and of a journal.
    Serve(&'w str, Option<&'w str>),
    /// Of the paths of a configuration, of a journal, and of the next configuration.
    NewPeriod(&'w str, &'w str, Option<&'w str>),
    /// Of the paths of a configuration and of the period that it has ended, and of the next configuration and of
    /// the journal.
    Follows(&'w str, &'w str, &'w str, &'w str),
    /// Of the path of a journal or its folder, and those of configurations.
    FollowsAll(&'w str, &'w [String]),
    /// Of the paths of a journal, and of the folder that gets its copies.
    Backup(&'w str, &'w str),
    /// Of a peer's account.
    Statement(Inquiry<'w>),
}

impl Words {
    /// What these words ask for; none where they are no command.
    pub(crate) fn asked(&self) -> Option<Asked<'_>> {
        let command = self.command.as_str();
        if command == "statement" && self.about.len() > 1 {
            return asked_of_account(&self.about);
        }
        if command == "follows" && self.about.len() != PAIR {
            return asked_of_chain(&self.about);
        }
        match (
            self.about(0),
            self.about(1),
            self.about(2),
            self.about(3),
            self.about(4),
        ) {
            (None, ..) => asked_alone(command),
            (Some(argument), None, ..) => asked_of(command, argument),
            (Some(config), Some(journal), None, ..) => {
                asked_with_journal(command, config, journal)
            }
            (Some(config), Some(journal), Some(next), None, _) if command == "new-period" => {
                Some(Asked::NewPeriod(config, journal, Some(next)))
            }
            (Some(config), Some(ended), Some(next), Some(journal), None) if command == "follows" =>
                { Some(Asked::Follows(config, ended, next, journal)) }
            _ => None,
        }
    }

    // One of the words that it is about.
    fn about(&self, place: usize) -> Option<&str> {
        Some(self.about.get(place)?.as_str())
    }
}

// What these words ask of a chain of periods, or for help; none where they name no journal.
fn asked_of_chain(words: &[String]) -> Option<Asked<'_>> {
    let (journal, configs) = words.split_first()?;
    if words.iter().any(|word| is_help(word.as_str())) {
        return Some(Asked::Help);
    }
    Some(Asked::FollowsAll(journal.as_str(), configs))
}

// What a command asks for that stands alone.
fn asked_alone<'w>(command: &str) -> Option<Asked<'w>> {
    match command {
        "help" | "-h" | "--help" => Some(Asked::Help),
        "--version" => Some(Asked::Version),
        _ => None,
    }
}

// What a command and one word ask for.
fn asked_of<'w>(command: &str, argument: &'w str) -> Option<Asked<'w>> {
    match command {
        "help" => Some(Asked::Help),
        "packet" | "check" | "replay" | "serve" | "new-period" | "statement" | "backup"
            if is_help(argument) => { Some(Asked::Help) }
        "packet" => Some(Asked::Packet(argument)),
        "check" => Some(Asked::Check(argument, None)),
        "replay" => Some(Asked::Replay(argument)),
        "serve" => Some(Asked::Serve(argument, None)),
        _ => None,
    }
}

// What a command and two paths ask for: those of a configuration and a journal, or of a journal and a folder.
fn asked_with_journal<'w>(command: &str, config: &'w str, journal: &'w str) -> Option<Asked<'w>> {
    match command {
        "check" | "serve" | "new-period" | "backup" if is_help(journal) => { Some(Asked::Help) }
        "backup" => Some(Asked::Backup(config, journal)),
        "check" => Some(Asked::Check(config, Some(journal))),
        "serve" => Some(Asked::Serve(config, Some(journal))),
        "new-period" => Some(Asked::NewPeriod(config, journal, None)),
        _ => None,
    }
}
