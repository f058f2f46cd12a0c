//! Writing a file anew.
ghost use Rattle.std.specs.Prelude.{ℕ, List, OnOk};
ghost use Rattle.std.specs.Io.KnownBytes.{Appends};

use crate::limited::Limited;
use crate::noting::Noting;
use ilp_io::{Sink, WriteFault};
use std::alloc::Global;
use std::fs::{OpenFile, OpenOptions};
use std::io::{BufWriter, ErrorKind, Write};
use std::os::unix::fs::OpenOptionsExt;
use std::rt::Files;
use std::{fs, io};

/// What is written to a journal's file.
pub trait Content {
    // The octets of it.
    ghost text: { Self → List ℕ };

    /// How many entries that is.
    fn entries(&self) -> u32;

    /// Writes all of it. It is refused only where a write fails or takes no octet.
    fn put<W: Sink>(&self, sink: &mut W) -> Result<(), WriteFault>
        ensures { OnOk result (Appends (W.contents sink.old) (W.contents sink.new) (text self.now)) };
}

/// A new file with these rights, in place of one of that name. What stands there is removed first, so that
/// no link is followed and nobody waits for the other end of a pipe.
pub(crate) fn create_anew<R: Files>(rt: &R, path: &str, mode: u32) -> io::Result<R::File> {
    match fs::remove_file(rt, path) {
        Err(error) if error.kind() != ErrorKind::NotFound => return Err(error),
        _ => {}
    }
    OpenOptions::new()
        .read(true)
        .write(true)
        .create_new(true)
        .mode(mode)
        .open(rt, path)
}

/// Writes all that the file is to have, until the device has it.
pub(crate) fn write_synced<F, C>(alloc: Global, file: Limited<F>, content: &C) -> io::Result<()>
where
    F: Write + OpenFile + Drop,
    C: Content,
{
    let mut writer = Noting::new(BufWriter::new(alloc, file)?);
    if let Err(WriteFault) = content.put(&mut writer) {
        let took_none = io::Error::from(ErrorKind::WriteZero);
        return Err(writer.error.unwrap_or(took_none));
    }
    writer.flush()?;
    writer.inner.get_ref().inner.sync_all()
}
