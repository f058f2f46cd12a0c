//! What a connector runs on.

use std::rt::Runtime;
use std::sync::Wait;
use std::thread::Threads;

/// A runtime with memory, files, standard streams and a clock, whose threads may wait for one another.
/// What runs a connector asks for its files and sockets beside it, since the kit's prover covers no call
/// from `main` where they are a part of it.
pub trait Host: Runtime + AllocGlobal + Threads + Wait + Copy + Send + Sync {}

impl<R: Runtime + AllocGlobal + Threads + Wait + Copy + Send + Sync> Host for R {}
