//! What runs over a disk.
ghost use Rattle.std.specs.Prelude.{[], true};

use crate::disk::{Disk, FOLDER, When, absent, unsupported};
use crate::handle::Handle;
use ilp_accounts::LogSync;
use ilp_io::{ReadFault, read_to_limit};
use ilp_journal_file::{FileIdentity, FileThere, PlacesFiles, rename_in};
use std::alloc::{Alloc, Allocator, Global};
use std::fmt::Display;
use std::fs::{Metadata, OpenFile, OpenOptions};
use std::io::{Eprint, ErrorKind, Print, Read, Seek, SeekFrom, Write};
use std::rt::Files;
use std::time::{Clock, Duration};
use std::{fs, io};

/// What runs over a disk. Its clock stands still.
#[derive(Clone, Copy)]
pub struct Machine<'d>(pub &'d Disk);

impl<'d> Files for Machine<'d> {
    type File = Handle<'d>;

    type Dir = Listing;

    fn open_file(&self, how: &OpenOptions, path: &str) -> io::Result<Handle<'d>> {
        let mut state = self.0.state()?;
        state.call()?;
        let content = state.open(how, path)?;
        Ok(Handle {
            disk: self.0,
            content,
            at: 0,
        })
    }

    fn open_dir(&self, _path: &str) -> io::Result<Listing> {
        let mut state = self.0.state()?;
        state.call()?;
        Ok(Listing {
            names: state.names()?,
            at: 0,
        })
    }

    fn metadata(&self, path: &str) -> io::Result<Metadata> {
        self.symlink_metadata(path)
    }

    fn symlink_metadata(&self, path: &str) -> io::Result<Metadata> {
        let mut state = self.0.state()?;
        state.call()?;
        if path == FOLDER {
            return Ok(Metadata::of_dir());
        }
        let text = state.text_of(path, When::Now)?;
        Ok(Metadata::of_file(text.len() as u64))
    }

    fn copy(&self, _from: &str, _to: &str) -> io::Result<u64> {
        Err(unsupported())
    }

    fn rename(&self, from: &str, to: &str) -> io::Result<()> {
        let mut state = self.0.state()?;
        state.call()?;
        let content = state.content_of(from)?;
        state.name(from, None)?;
        state.name(to, Some(content))
    }

    fn remove_file(&self, path: &str) -> io::Result<()> {
        let mut state = self.0.state()?;
        state.call()?;
        state.content_of(path)?;
        state.name(path, None)
    }

    fn create_dir(&self, _path: &str) -> io::Result<()> {
        Err(unsupported())
    }

    fn remove_dir(&self, _path: &str) -> io::Result<()> {
        Err(unsupported())
    }

    fn remove_dir_all<B: Allocator>(&self, _alloc: B, _path: &str) -> io::Result<()> {
        Err(unsupported())
    }
}

/// The names of a folder, which one read has all of.
#[derive(Drop)]
pub struct Listing {
    // Each with a NUL behind it.
    names: Vec<u8>,
    at: usize,
}

impl Read for Listing {
    fn read(&mut self, room: &mut [u8]) -> io::Result<usize> {
        let left = self.names.get(self.at..).unwrap_or(&[]);
        let count = left.len().min(room.len());
        room[..count].copy_from_slice(&left[..count]);
        self.at = self.at.saturating_add(count);
        Ok(count)
    }
}

impl<'d> PlacesFiles for Machine<'d> {
    type File = Handle<'d>;

    ghost claims = { ⊥ };

    ghost seen = { λ _. [] };

    ghost may_leave = { λ _ _ _. ⊥ };

    ghost moment = { λ _. 0 };

    ghost left_since = { λ _ _ _ _. ⊥ };

    ghost is_sound = { λ _. true };

    ghost counts_now = { λ none. absurd none };

    ghost only_now = { λ none. absurd none };

    fn create_anew(&self, path: &str, _mode: u32) -> io::Result<Handle<'d>> {
        match fs::remove_file(self, path) {
            Err(error) if error.kind() != ErrorKind::NotFound => return Err(error),
            _ => {}
        }
        OpenOptions::new()
            .read(true)
            .write(true)
            .create_new(true)
            .open(self, path)
    }

    fn read(
        &self,
        alloc: Global,
        file: &mut Handle<'d>,
        most: usize,
    ) -> Result<Vec<u8>, ReadFault> {
        file.at = 0;
        read_to_limit(alloc, file, most)
    }

    fn write_at(&self, file: &mut Handle<'d>, at: u64, octets: &[u8]) -> io::Result<()> {
        file.seek(SeekFrom::Start(at))?;
        file.write_all(octets)
    }

    fn shorten(&self, file: &mut Handle<'d>, len: u64) -> io::Result<()> {
        file.set_len(len)
    }

    fn keep(&self, file: &mut Handle<'d>, sync: LogSync) -> io::Result<()> {
        match sync {
            LogSync::Group => file.sync_data(),
            LogSync::Off => Ok(()),
        }
    }

    fn keep_all(&self, file: &mut Handle<'d>) -> io::Result<()> {
        file.sync_all()
    }

    fn give_name(
        &self,
        _file: &mut Handle<'d>,
        new: &str,
        path: &str,
        folder: &str,
    ) -> io::Result<()> {
        rename_in(self, new, path, folder)
    }

    fn put_in_place(
        &self,
        file: &mut Handle<'d>,
        by: Handle<'d>,
        new: &str,
        path: &str,
        folder: &str,
    ) -> io::Result<()> {
        rename_in(self, new, path, folder)?;
        *file = by;
        Ok(())
    }

    fn identity(&self, file: &Handle<'d>) -> io::Result<FileIdentity> {
        Ok(identity_of(file.content.ok_or(unsupported())?))
    }

    fn look(&self, path: &str) -> io::Result<FileThere> {
        let mut state = self.0.state()?;
        state.call()?;
        let found = state.content_of(path)?;
        let content = state.contents.get(found).ok_or(absent())?;
        Ok(FileThere {
            identity: identity_of(found),
            len: content.now.len() as u64,
        })
    }

    fn most_octets(&self) -> u64 {
        u64::MAX
    }
}

// All files of a disk lie on one device.
fn identity_of(content: usize) -> FileIdentity {
    FileIdentity {
        device: 0,
        inode: content as u64,
    }
}

impl Clock for Machine<'_> {
    fn monotonic(&self) -> io::Result<Duration> {
        Ok(Duration::ZERO)
    }

    fn since_1970(&self) -> io::Result<Duration> {
        Ok(Duration::ZERO)
    }
}

impl Eprint for Machine<'_> {
    fn eprint<D: Display + Drop>(&self, value: D) -> io::Result<()> {
        let mut state = self.0.state()?;
        let alloc = state.alloc;
        let text = format!(in alloc; "{value}")?;
        state.told.push_str(text.as_str())?;
        Ok(())
    }

    fn eprintln<D: Display + Drop>(&self, value: D) -> io::Result<()> {
        self.eprint(value)
    }
}

impl Alloc for Machine<'_> {
    type A = Global;

    fn alloc(&self) -> Global {
        self.0.alloc
    }
}

impl Print for Machine<'_> {
    fn print<D: Display + Drop>(&self, value: D) -> io::Result<()> {
        let text = format!(in self.0.alloc; "{value}")?;
        self.write_all(text.as_bytes())
    }

    fn println<D: Display + Drop>(&self, value: D) -> io::Result<()> {
        self.print(value)
    }

    fn write_all(&self, octets: &[u8]) -> io::Result<()> {
        if self.0.is_mute {
            return Err(io::Error::from(ErrorKind::BrokenPipe));
        }
        self.0.state()?.printed.extend_from_slice(octets)?;
        Ok(())
    }
}
