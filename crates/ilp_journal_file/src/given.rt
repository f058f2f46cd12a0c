//! A file, and how much it was given.
ghost use Rattle.std.specs.Prelude.{◌≡◌, ◌≤◌, ◌+◌, [], true, length, max, IfOk, OnOk};
ghost use Rattle.ilp_line_file.specs.Device.{Torn, Holds};
ghost use Rattle.ilp_journal_file.specs.Files.{AddsNone, Lasts, LeavesEither, Steps};

use crate::limited::too_large;
use crate::placing::{FileIdentity, PlacesFiles};
use std::io;
use std::io::ErrorKind;

/// A file that is written by one process alone, and how many octets that has given it.
#[derive(Drop)]
pub(crate) struct GivenFile<F> {
    pub(crate) file: F,
    identity: FileIdentity,
    pub(crate) len: u64,
}

impl<F> GivenFile<F> {
    /// A new file with these rights, in place of one of that name, with nothing in it yet.
    pub(crate) fn create<R: PlacesFiles<File = F>>(
        rt: &R,
        path: &str,
        mode: u32,
    ) -> io::Result<GivenFile<F>>
    where
        F: Drop,
        ensures empty { R.claims → IfOk result (λ given. R.seen given.file ≡ []) }
        ensures sound { R.claims → IfOk result (λ given. R.is_sound given.file ≡ true) }
        ensures len { IfOk result (λ given. given.len ≡ 0) }
    {
        let file = rt.create_anew(path, mode)?;
        let identity = rt.identity(&file)?;
        Ok(GivenFile {
            file,
            identity,
            len: 0,
        })
    }

    /// Which file it is.
    pub(crate) fn identity(&self) -> FileIdentity {
        self.identity
    }

    /// Finds that the file lies at the path, with all that it was given. Past the end of one that was cut a
    /// write would leave NUL octets between.
    pub(crate) fn expect_at<R: PlacesFiles>(&self, rt: &R, path: &str) -> io::Result<()> {
        let there = rt.look(path)?;
        if there.identity != self.identity {
            return Err(io::Error::from(ErrorKind::NotFound));
        }
        if there.len < self.len {
            return Err(io::Error::from(ErrorKind::UnexpectedEof));
        }
        Ok(())
    }

    /// Writes these octets from a place on. None is written where the file would have more than `most`.
    pub(crate) fn put<R: PlacesFiles<File = F>>(
        &mut self,
        rt: &R,
        at: u64,
        octets: &[u8],
        most: u64,
    ) -> io::Result<()>
        requires { R.claims → at ≤ length (R.seen self.old.file) }
        ensures written { R.claims → OnOk result
            (Holds (R.seen self.old.file) at octets.now (R.seen self.new.file)) }
        ensures len { OnOk result (self.new.len ≡ max self.old.len (at + length octets.now)) }
        ensures stop { R.claims → Steps R.may_leave (Torn at octets.now) self.old.file self.new.file }
        ensures time { R.claims → Lasts R.may_leave R.moment R.left_since self.old.file self.new.file }
        ensures sound { R.claims → OnOk result (R.is_sound self.new.file ≡ R.is_sound self.old.file) }
    {
        let end = match at.checked_add(octets.len() as u64) {
            Some(end) if end <= most => end,
            _ => return Err(too_large()),
        };
        rt.write_at(&mut self.file, at, octets)?;
        self.len = self.len.max(end);
        Ok(())
    }

    /// Has this new file take the place of it, which lies at `path`. At `Err` it is the one that was there.
    pub(crate) fn put_in_place<R: PlacesFiles<File = F>>(
        &mut self,
        rt: &R,
        by: GivenFile<F>,
        new: &str,
        path: &str,
        folder: &str,
    ) -> io::Result<()>
        ensures seen { R.claims → OnOk result (R.seen self.new.file ≡ R.seen by.file) }
        ensures whole { R.claims → OnOk result (AddsNone R.may_leave by.file self.new.file) }
        ensures stop { R.claims → LeavesEither R.may_leave self.old.file by.file self.new.file }
        ensures time { R.claims → Lasts R.may_leave R.moment R.left_since self.old.file self.new.file }
        ensures sound { R.claims → OnOk result (R.is_sound self.new.file ≡ R.is_sound by.file) }
    {
        let GivenFile {
            file,
            identity,
            len,
        } = by;
        rt.put_in_place(&mut self.file, file, new, path, folder)?;
        self.identity = identity;
        self.len = len;
        Ok(())
    }
}
