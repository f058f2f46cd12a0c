//! Reading the configuration again by a thread of its own: what stands at its path may not be read at once, as a file of
//! a network that hangs, and the connector goes on meanwhile.

use crate::config_path::ReadsConfigs;
use crossbeam_channel::{Receiver, Sender, bounded};
use ilp_accounts::Config;
use ilp_starting::Refused;
use std::alloc::{AllocError, Global};
use std::sync::Wait;
use std::time::{Clock, Duration};

// How long is waited for a configuration, in milliseconds.
const PATIENCE_MS: u64 = 1_000;

// Where what is read for one question goes. Each has a channel of its own, so what is read for one that nobody waits
// for any more is never taken for what a later one asks.
#[derive(Drop)]
struct Question {
    answer: Sender<Result<Config, Refused>>,
}

/// By this the configuration is asked for.
#[derive(Drop)]
pub(crate) struct ConfigAsker {
    questions: Sender<Question>,
}

/// By this it is heard that somebody asks.
#[derive(Drop)]
pub(crate) struct ConfigReader {
    questions: Receiver<Question>,
}

/// What asks for the configuration, and what reads it.
pub(crate) fn reading_pair(alloc: Global) -> Result<(ConfigAsker, ConfigReader), AllocError> {
    let (asked, heard) = bounded(alloc, 1)?;
    let asker = ConfigAsker { questions: asked };
    let reader = ConfigReader { questions: heard };
    Ok((asker, reader))
}

impl ConfigAsker {
    /// Another of the same.
    pub(crate) fn try_clone(&self) -> Result<ConfigAsker, AllocError> {
        Ok(ConfigAsker {
            questions: self.questions.clone()?,
        })
    }

    /// What stands at the path now, and nothing where that is not read within a second, or what was asked for before is
    /// read still.
    pub(crate) fn read<R: Wait + Clock>(
        &self,
        rt: &R,
        alloc: Global,
    ) -> Result<Option<Config>, Refused> {
        let (answer, answers) = bounded(alloc, 1)?;
        if self.questions.try_send(rt, Question { answer }).is_err() {
            return Ok(None);
        }
        match answers.recv_timeout(rt, Duration::from_millis(PATIENCE_MS)) {
            Ok(read) => Ok(Some(read?)),
            Err(_) => Ok(None),
        }
    }
}

impl ConfigReader {
    /// Reads what stands at the path as often as somebody asks, until nobody does any more.
    pub(crate) fn run<R: ReadsConfigs + Wait>(self, rt: &R, path: &str) {
        for question in self.questions.iter(rt) {
            // Nobody may wait for it any more.
            let _ = question.answer.try_send(rt, rt.read_config(path));
        }
    }
}
