//! The descriptors of standard streams.

use std::fs;
use std::fs::File;
use std::os::fd::AsRawFd;
use std::rt::Files;

// How many standard streams there are. Their descriptors are the numbers below this.
const STREAMS: usize = 3;

// A folder that is always there. As a stream it can neither be read nor written.
const NEITHER: &str = "/";

/// The places of standard streams that were closed when the program began. Each is held by what can't be
/// read or written for as long as this lives: else a file or a socket would get its number, and be written
/// what is printed.
#[derive(Drop)]
pub(crate) struct HeldStreams {
    held: [Option<File>; STREAMS],
}

impl HeldStreams {
    /// Holds the places that are free, before any other file is opened.
    pub(crate) fn hold<R: Files<File = File>>(rt: &R) -> HeldStreams {
        let mut held = [None, None, None];
        for place in &mut held {
            match fs::open(rt, NEITHER) {
                Ok(file) if is_stream(&file) => *place = Some(file),
                _ => break,
            }
        }
        HeldStreams { held }
    }
}

// Whether it has the number of a standard stream.
fn is_stream(file: &File) -> bool {
    match usize::try_from(file.as_raw_fd()) {
        Ok(number) => number < STREAMS,
        Err(_) => false,
    }
}
