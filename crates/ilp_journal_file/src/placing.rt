//! Files that take the place of others while a connector runs.
ghost use Rattle.std.specs.Prelude.{◌≡◌, ◌≤◌, [], Bool, true, List, ℕ, length, take, IfOk, OnOk};
ghost use Rattle.ilp_accounts.specs.declared.settings.LogSync.{LogSync};
ghost use Rattle.ilp_line_file.specs.Device.{Only, Torn, Cut, Holds};
ghost use Rattle.ilp_journal_file.specs.Files.{AddsNone, IsKept, Lasts, LeavesEither, Steps};

use crate::limited::most_octets;
use crate::writing::create_anew;
use ilp_accounts::LogSync;
use ilp_io::{ReadFault, read_to_limit};
use std::alloc::Global;
use std::fs::{File, Metadata, OpenFile};
use std::io::{Seek, SeekFrom};
use std::os::unix::fs::{FileExt, MetadataExt};
use std::rt::{Files, HostRuntime};
use std::{fs, io};

/// Which file of a system it is: no two that lie there at once have the same.
#[derive(Clone, Copy, PartialEq, Eq)]
pub struct FileIdentity {
    pub device: u64,
    pub inode: u64,
}

/// What lies at a path: which file it is, and how many octets it has.
#[derive(Clone, Copy)]
pub struct FileThere {
    pub identity: FileIdentity,
    pub len: u64,
}

/// A system in whose folders new files take the place of others, also for a log that threads share.
///
/// Its clauses say what calls do to a file that nobody else changes. Such a file has its octets, and what a stop may
/// leave by its name: of the machine, or with `LogSync::Off` of the process alone. A file of which a change or a sync has
/// failed is sound no more: a later sync may lack what that one was to write.
///
/// It is a trait of its own: the kit's prover covers no call that sends a value to a thread whose trait rests
/// on `Files`.
pub trait PlacesFiles {
    type File;

    /// Whether what its clauses say is claimed. Of the host's system it isn't, of whose calls no contract tells: who
    /// trusts them reads here what for.
    ghost claims: { Type 0 };

    /// The octets that a read returns.
    ghost seen: { Self.File → List ℕ };

    /// What a stop at this moment may leave.
    ghost may_leave: { LogSync → Self.File → List ℕ → Type 0 };

    /// The moment, as a number that doesn't fall.
    ghost moment: { Self.File → ℕ };

    /// What a stop at some moment from that one on might have left.
    ghost left_since: { LogSync → Self.File → ℕ → List ℕ → Type 0 };

    /// Whether no change and no sync of it has failed.
    ghost is_sound: { Self.File → Bool };

    /// A new file with these rights, in place of one of that name.
    fn create_anew(&self, path: &str, mode: u32) -> io::Result<Self::File>
        ensures empty { claims → IfOk result (λ file. seen file ≡ []) }
        ensures sound { claims → IfOk result (λ file. is_sound file ≡ true) };

    /// All the octets. It is refused as too long where they are more than `most`.
    fn read(&self, alloc: Global, file: &mut Self::File, most: usize) -> Result<Vec<u8>, ReadFault>
        ensures octets { claims → IfOk result (λ octets. octets.items ≡ seen file.old) }
        ensures seen { claims → seen file.new ≡ seen file.old }
        ensures stop { claims → AddsNone may_leave file.old file.new }
        ensures time { claims → Lasts may_leave moment left_since file.old file.new }
        ensures sound { claims → is_sound file.new ≡ is_sound file.old };

    /// Writes these octets over what is there, and past the end. Until they are kept a stop may leave each octet
    /// of the range as it was or as it is written.
    fn write_at(&self, file: &mut Self::File, at: u64, octets: &[u8]) -> io::Result<()>
        requires { claims → at ≤ length (seen file.old) }
        ensures written { claims → OnOk result (Holds (seen file.old) at octets.now (seen file.new)) }
        ensures stop { claims → Steps may_leave (Torn at octets.now) file.old file.new }
        ensures time { claims → Lasts may_leave moment left_since file.old file.new }
        ensures sound { claims → OnOk result (is_sound file.new ≡ is_sound file.old) };

    /// Cuts the file to a length, which is at most its own.
    fn shorten(&self, file: &mut Self::File, len: u64) -> io::Result<()>
        requires { claims → len ≤ length (seen file.old) }
        ensures cut { claims → OnOk result (seen file.new ≡ take len (seen file.old)) }
        ensures stop { claims → Steps may_leave (Cut len) file.old file.new }
        ensures time { claims → Lasts may_leave moment left_since file.old file.new }
        ensures sound { claims → OnOk result (is_sound file.new ≡ is_sound file.old) };

    /// Has its octets and its length stand such a stop.
    fn keep(&self, file: &mut Self::File, sync: LogSync) -> io::Result<()>
        ensures durable { claims → is_sound file.old ≡ true
            → OnOk result (Only (seen file.old) (may_leave sync file.new)) }
        ensures seen { claims → seen file.new ≡ seen file.old }
        ensures stop { claims → AddsNone may_leave file.old file.new }
        ensures time { claims → Lasts may_leave moment left_since file.old file.new }
        ensures sound { claims → OnOk result (is_sound file.new ≡ is_sound file.old) };

    /// Has all of it stand each stop.
    fn keep_all(&self, file: &mut Self::File) -> io::Result<()>
        ensures durable { claims → is_sound file.old ≡ true
            → OnOk result (IsKept seen may_leave file.new) }
        ensures seen { claims → seen file.new ≡ seen file.old }
        ensures sound { claims → OnOk result (is_sound file.new ≡ is_sound file.old) };

    /// Has the file that lies at `new` take the name `path`, and has the system keep that, even where the machine
    /// stops. Both are in the folder.
    fn give_name(
        &self,
        file: &mut Self::File,
        new: &str,
        path: &str,
        folder: &str,
    ) -> io::Result<()>
        ensures seen { claims → seen file.new ≡ seen file.old }
        ensures stop { claims → OnOk result (AddsNone may_leave file.old file.new) }
        ensures sound { claims → OnOk result (is_sound file.new ≡ is_sound file.old) };

    /// The same, in the place of this file, which lies at `path`. Until it has returned `Ok` a stop leaves what it might
    /// have left of either. At `Err` the file is the one that was there.
    fn put_in_place(
        &self,
        file: &mut Self::File,
        by: Self::File,
        new: &str,
        path: &str,
        folder: &str,
    ) -> io::Result<()>
        ensures seen { claims → OnOk result (seen file.new ≡ seen by) }
        ensures whole { claims → OnOk result (AddsNone may_leave by file.new) }
        ensures stop { claims → LeavesEither may_leave file.old by file.new }
        ensures time { claims → Lasts may_leave moment left_since file.old file.new }
        ensures sound { claims → OnOk result (is_sound file.new ≡ is_sound by) };

    /// Which file it is.
    fn identity(&self, file: &Self::File) -> io::Result<FileIdentity>;

    /// What lies at the path. A link is not followed.
    fn look(&self, path: &str) -> io::Result<FileThere>;

    /// The most octets that a file of this process may have now. Of more the system would end it by a signal
    /// (SIGXFSZ).
    fn most_octets(&self) -> u64;

    /// This moment is one of those since an earlier one.
    ghost counts_now: { claims → (sync : LogSync) (file : Self.File) (t : ℕ) (left : List ℕ)
        → t ≤ moment file → may_leave sync file left → left_since sync file t left };

    /// Since this moment there is no other.
    ghost only_now: { claims → (sync : LogSync) (file : Self.File) (left : List ℕ)
        → left_since sync file (moment file) left → may_leave sync file left };
}

impl FileIdentity {
    fn of(file: &Metadata) -> FileIdentity {
        FileIdentity {
            device: file.dev(),
            inode: file.ino(),
        }
    }
}

impl PlacesFiles for HostRuntime {
    type File = File;

    ghost claims = { ⊥ };

    ghost seen = { λ _. [] };

    ghost may_leave = { λ _ _ _. ⊥ };

    ghost moment = { λ _. 0 };

    ghost left_since = { λ _ _ _ _. ⊥ };

    ghost is_sound = { λ _. true };

    ghost counts_now = { λ none. absurd none };

    ghost only_now = { λ none. absurd none };

    fn create_anew(&self, path: &str, mode: u32) -> io::Result<File> {
        create_anew(self, path, mode)
    }

    fn read(&self, alloc: Global, file: &mut File, most: usize) -> Result<Vec<u8>, ReadFault> {
        match file.seek(SeekFrom::Start(0)) {
            Ok(_) => read_to_limit(alloc, file, most),
            Err(_) => Err(ReadFault::Failed),
        }
    }

    fn write_at(&self, file: &mut File, at: u64, octets: &[u8]) -> io::Result<()> {
        file.write_all_at(octets, at)
    }

    fn shorten(&self, file: &mut File, len: u64) -> io::Result<()> {
        file.set_len(len)
    }

    fn keep(&self, file: &mut File, sync: LogSync) -> io::Result<()> {
        match sync {
            LogSync::Group => file.sync_data(),
            LogSync::Off => Ok(()),
        }
    }

    fn keep_all(&self, file: &mut File) -> io::Result<()> {
        file.sync_all()
    }

    fn give_name(&self, _file: &mut File, new: &str, path: &str, folder: &str) -> io::Result<()> {
        rename_in(self, new, path, folder)
    }

    fn put_in_place(
        &self,
        file: &mut File,
        by: File,
        new: &str,
        path: &str,
        folder: &str,
    ) -> io::Result<()> {
        rename_in(self, new, path, folder)?;
        *file = by;
        Ok(())
    }

    fn identity(&self, file: &File) -> io::Result<FileIdentity> {
        Ok(FileIdentity::of(&file.metadata()?))
    }

    fn look(&self, path: &str) -> io::Result<FileThere> {
        let there = fs::symlink_metadata(self, path)?;
        Ok(FileThere {
            identity: FileIdentity::of(&there),
            len: there.len(),
        })
    }

    fn most_octets(&self) -> u64 {
        most_octets(self, self.alloc())
    }
}

/// How `PlacesFiles::give_name` names a file, by the calls of the system.
pub fn rename_in<R: Files>(rt: &R, new: &str, path: &str, folder: &str) -> io::Result<()> {
    fs::rename(rt, new, path)?;
    fs::open(rt, folder)?.sync_all()
}
