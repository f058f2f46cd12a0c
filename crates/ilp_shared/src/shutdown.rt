//! How the sweeper, the settler and the watcher learn that the connector ends.

use crossbeam_channel::{Receiver, RecvTimeoutError, Sender, TryRecvError, bounded};
use std::alloc::{AllocError, Global};
use std::sync::Wait;
use std::time::{Clock, Duration};

/// As long as it is kept the sweeper, the settler and the watcher run. Once it is dropped they end: sweeper
/// and watcher are woken where they rest, and the settler by its bell, which is rung then.
#[derive(Drop)]
pub struct KeepRunning {
    _sender: Sender<()>,
}

/// By this they learn that it was dropped.
#[derive(Drop)]
pub struct Shutdown {
    receiver: Receiver<()>,
}

/// What keeps them running, and by what they learn that it was dropped.
pub fn shutdown_pair(alloc: Global) -> Result<(KeepRunning, Shutdown), AllocError> {
    let (_sender, receiver) = bounded(alloc, 1)?;
    Ok((KeepRunning { _sender }, Shutdown { receiver }))
}

impl Shutdown {
    /// Another of the same.
    pub fn try_clone(&self) -> Result<Shutdown, AllocError> {
        Ok(Shutdown {
            receiver: self.receiver.clone()?,
        })
    }

    /// Whether the connector ends.
    pub fn has_begun(&self, rt: &impl Wait) -> bool {
        match self.receiver.try_recv(rt) {
            Err(TryRecvError::Disconnected) => true,
            _ => false,
        }
    }

    /// Rests for so long, or until the connector ends, and answers whether it does.
    pub fn rest<R: Wait + Clock>(&self, rt: &R, time: Duration) -> bool {
        match self.receiver.recv_timeout(rt, time) {
            Err(RecvTimeoutError::Disconnected) => true,
            _ => false,
        }
    }
}
