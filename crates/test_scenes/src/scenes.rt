//! The scenes of a file.

use crate::{connections, workers};
use std::rt::Files;
use std::sync::Wait;
use std::thread::Threads;
use std::{fs, io};

/// Of what scenes are.
#[derive(Clone, Copy)]
pub(crate) enum Part {
    /// Of actors that pass packets.
    Workers,
    /// Of workers that answer connections, and settlers.
    Connections,
}

impl Part {
    // The file that has them.
    fn file(self) -> &'static str {
        match self {
            Part::Workers => "workers.txt",
            Part::Connections => "connections.txt",
        }
    }
}

/// Plays the scenes of a part, and prints what comes of each.
pub(crate) fn print_scenes<R: Files + Print + AllocGlobal + Threads + Wait + Sync>(
    rt: &R,
    part: Part,
) -> io::Result<()> {
    let scenes = fs::read_to_string(rt, part.file())?;
    for scene in scenes.split("== ").skip(1) {
        let (name, lines) = scene.split_once('\n').unwrap_or((scene, ""));
        println!(rt; "== {name}")?;
        match part {
            Part::Workers => workers::print_scene(rt, lines)?,
            Part::Connections => connections::print_scene(rt, lines)?,
        }
    }
    Ok(())
}
