//! Open files of a disk.

use crate::disk::{Disk, absent, unsupported};
use ilp_journal_file::LockFile;
use std::fs::{Metadata, OpenFile, TryLockError};
use std::io;
use std::io::{Read, Seek, SeekFrom, Write};

// The most octets that one call writes.
const PIECE: usize = 16;

/// An open file of a disk, or its folder.
#[derive(Drop)]
pub struct Handle<'d> {
    pub(crate) disk: &'d Disk,
    pub(crate) content: Option<usize>,
    pub(crate) at: usize,
}

impl Read for Handle<'_> {
    fn read(&mut self, room: &mut [u8]) -> io::Result<usize> {
        let mut state = self.disk.state()?;
        state.call()?;
        let content = self.content.ok_or(unsupported())?;
        let content = state.contents.get(content).ok_or(absent())?;
        let left = content.now.get(self.at..).unwrap_or(&[]);
        let count = left.len().min(room.len());
        room[..count].copy_from_slice(&left[..count]);
        self.at = self.at.saturating_add(count);
        Ok(count)
    }
}

impl Write for Handle<'_> {
    fn write(&mut self, octets: &[u8]) -> io::Result<usize> {
        let mut state = self.disk.state()?;
        state.call()?;
        let alloc = state.alloc;
        let content = self.content.ok_or(unsupported())?;
        let content = state.contents.get_mut(content).ok_or(absent())?;
        let count = octets.len().min(PIECE);
        content.write(alloc, self.at, &octets[..count])?;
        self.at = self.at.saturating_add(count);
        Ok(count)
    }

    fn flush(&mut self) -> io::Result<()> {
        Ok(())
    }
}

impl Seek for Handle<'_> {
    fn seek(&mut self, to: SeekFrom) -> io::Result<u64> {
        let mut state = self.disk.state()?;
        state.call()?;
        let content = self.content.ok_or(unsupported())?;
        let content = state.contents.get(content).ok_or(absent())?;
        self.at = match to {
            SeekFrom::Start(at) => usize::try_from(at).unwrap_or(usize::MAX),
            SeekFrom::End(0) => content.now.len(),
            _ => return Err(unsupported()),
        };
        Ok(self.at as u64)
    }
}

impl OpenFile for Handle<'_> {
    fn metadata(&self) -> io::Result<Metadata> {
        Err(unsupported())
    }

    fn set_len(&self, size: u64) -> io::Result<()> {
        let mut state = self.disk.state()?;
        state.call()?;
        let content = self.content.ok_or(unsupported())?;
        let content = state.contents.get_mut(content).ok_or(absent())?;
        let size = usize::try_from(size).unwrap_or(usize::MAX);
        content.now.resize(size, 0)?;
        Ok(())
    }

    fn sync_all(&self) -> io::Result<()> {
        self.disk.state()?.sync(self.content)
    }

    fn sync_data(&self) -> io::Result<()> {
        self.sync_all()
    }
}

impl LockFile for Handle<'_> {
    fn try_lock_alone(&self) -> Result<(), TryLockError> {
        match self.disk.is_locked {
            true => Err(TryLockError::WouldBlock),
            false => Ok(()),
        }
    }

    fn try_lock_beside(&self) -> Result<(), TryLockError> {
        self.try_lock_alone()
    }
}
