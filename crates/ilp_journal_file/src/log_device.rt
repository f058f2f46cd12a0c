//! The file of a log as a device.
ghost use Rattle.std.specs.Prelude.{◌≡◌, ◌⊎◌, ◌≤◌, ◌++◌, [], Bool, true, false, List, ℕ, length, take, IfOk, IfSome, OnOk};
ghost use Rattle.ilp_line_file.specs.Device.{Only, Torn, Cut, Holds, Follows, Elapses, HasCause};
ghost use Rattle.ilp_journal_file.specs.Files.{AddsNone, IsKept, Lasts, LeavesEither, Steps};
ghost use Rattle.ilp_journal_file.specs.Anew.{octets_of};
ghost use Rattle.std.proofs.Props.{props};

use crate::given::GivenFile;
use crate::log_place::LogPlace;
use crate::placing::PlacesFiles;
use crate::reading::TEXT_LIMIT;
use crate::telling::Telling;
use ilp_accounts::LogSync;
use ilp_io::ReadFault;
use ilp_line_file::{Device, DeviceFault};
use std::alloc::Global;
use std::fs::File;
use std::io;
use std::io::{Eprint, ErrorKind};
use std::time::Clock;

/// The file of a log, `J.log`. It does as a device does where its system does as that claims.
///
/// The first write, cut or sync that fails is told by a line on standard error, and one more line tells of the
/// first sync once the log was made anew. A log that is removed, moved or cut under a running connector is a
/// failure too: each write and sync finds that the file has all that it was given, and lies at its path; and that the
/// file that is locked lies at its own, since else another connector may have the journal: then none of its files is
/// touched any more, and a line says so. One that is made anew is `J.log.new` until it takes the place of `J.log`.
///
/// Where a change or a sync of the file has failed, it is written and synced no more, until another takes its place.
#[derive(Drop)]
pub struct LogDevice<'r, R: PlacesFiles<File = F>, F = File> {
    rt: &'r R,
    place: LogPlace,
    file: GivenFile<F>,
    // Whether a change or a sync of the file has failed.
    is_failed: bool,
    // The new file beside it, of which no call has failed.
    anew: Option<GivenFile<F>>,
    telling: Telling,
    ghost sound: { is_failed ≡ false → R.claims → R.is_sound file.file ≡ true },
    ghost whole: { R.claims → IfSome anew (λ a. (R.is_sound a.file ≡ true)
        × (length (R.seen a.file) ≡ a.len)) } by { Prim.hlevel props },
}

impl<'r, R, F> LogDevice<'r, R, F>
where
    R: PlacesFiles<File = F>,
    F: Drop,
{
    /// A log with these first lines, in place of one that is there.
    pub(crate) fn create(rt: &'r R, place: LogPlace, head: &[u8]) -> io::Result<Self>
        ensures seen { R.claims → IfOk result (λ d. R.seen d.file.file ≡ head.now) }
        ensures kept { R.claims → IfOk result (λ d. IsKept R.seen R.may_leave d.file.file) }
        ensures sync { IfOk result (λ d. d.place.sync ≡ place.sync) }
    {
        let mut given = GivenFile::create(rt, place.new.as_str(), place.mode)?;
        given.put(rt, 0, head, place.most)?;
        rt.keep_all(&mut given.file)?;
        place.expect_held(rt)?;
        let (new, path, folder) = place.renaming();
        rt.give_name(&mut given.file, new, path, folder)?;
        place.named.set(given.identity());
        Ok(LogDevice {
            rt,
            place,
            file: given,
            is_failed: false,
            anew: None,
            telling: Telling::new(),
        })
    }

    // Makes the new file.
    fn create_anew(&mut self) -> io::Result<()>
        ensures file { self.new.file ≡ self.old.file }
        ensures sync { self.new.place.sync ≡ self.old.place.sync }
        ensures failures { self.new.telling.failures ≡ self.old.telling.failures }
        ensures empty { R.claims → OnOk result (octets_of R.seen self.new.anew ≡ []) }
    {
        self.place.expect_held(self.rt)?;
        let file = GivenFile::create(self.rt, self.place.new.as_str(), self.place.mode)?;
        self.anew = Some(file);
        self.place.most = self.rt.most_octets();
        Ok(())
    }

    // Writes behind what the new file has. Where that fails there is none any more.
    fn add_anew(&mut self, octets: &[u8]) -> io::Result<()>
        ensures file { self.new.file ≡ self.old.file }
        ensures sync { self.new.place.sync ≡ self.old.place.sync }
        ensures failures { self.new.telling.failures ≡ self.old.telling.failures }
        ensures written { R.claims → OnOk result
            (octets_of R.seen self.new.anew ≡ octets_of R.seen self.old.anew ++ octets.now) }
    {
        let Some(mut file) = self.anew.take() else {
            return Err(io::Error::from(ErrorKind::NotFound));
        };
        file.expect_at(self.rt, self.place.new.as_str())?;
        let len = file.len;
        file.put(self.rt, len, octets, self.place.most)?;
        self.anew = Some(file);
        Ok(())
    }

    // Has the new file take the log's name, once the disk has it.
    fn take_name(&mut self) -> io::Result<()>
        ensures sync { self.new.place.sync ≡ self.old.place.sync }
        ensures failures { self.new.telling.failures ≡ self.old.telling.failures }
        ensures seen { R.claims → OnOk result
            (R.seen self.new.file.file ≡ octets_of R.seen self.old.anew) }
        ensures kept { R.claims → OnOk result (IsKept R.seen R.may_leave self.new.file.file) }
        ensures stop { R.claims → (sync : LogSync) (left : List ℕ) → R.may_leave sync self.new.file.file left
            → R.may_leave sync self.old.file.file left ⊎ (left ≡ octets_of R.seen self.old.anew) }
        ensures time { R.claims
            → Lasts R.may_leave R.moment R.left_since self.old.file.file self.new.file.file }
    {
        let Some(mut by) = self.anew.take() else {
            return Err(io::Error::from(ErrorKind::NotFound));
        };
        self.rt.keep_all(&mut by.file)?;
        self.place.expect_held(self.rt)?;
        self.put_in_place(by)
    }

    // Has this file take the log's name.
    fn put_in_place(&mut self, by: GivenFile<F>) -> io::Result<()>
        requires sound { R.claims → R.is_sound by.file ≡ true }
        ensures sync { self.new.place.sync ≡ self.old.place.sync }
        ensures failures { self.new.telling.failures ≡ self.old.telling.failures }
        ensures seen { R.claims → OnOk result (R.seen self.new.file.file ≡ R.seen by.file) }
        ensures whole { R.claims → OnOk result (AddsNone R.may_leave by.file self.new.file.file) }
        ensures stop { R.claims
            → LeavesEither R.may_leave self.old.file.file by.file self.new.file.file }
        ensures time { R.claims
            → Lasts R.may_leave R.moment R.left_since self.old.file.file self.new.file.file }
    {
        let identity = by.identity();
        let (new, path, folder) = self.place.renaming();
        self.is_failed = true;
        self.file.put_in_place(self.rt, by, new, path, folder)?;
        self.is_failed = false;
        self.place.named.set(identity);
        self.telling.is_anew = true;
        Ok(())
    }

    // Writes these octets from a place on.
    fn put(&mut self, at: u64, octets: &[u8]) -> io::Result<()>
        requires { R.claims → at ≤ length (R.seen self.old.file.file) }
        ensures sync { self.new.place.sync ≡ self.old.place.sync }
        ensures failures { self.new.telling.failures ≡ self.old.telling.failures }
        ensures written { R.claims → OnOk result
            (Holds (R.seen self.old.file.file) at octets.now (R.seen self.new.file.file)) }
        ensures stop { R.claims
            → Steps R.may_leave (Torn at octets.now) self.old.file.file self.new.file.file }
        ensures time { R.claims
            → Lasts R.may_leave R.moment R.left_since self.old.file.file self.new.file.file }
    {
        self.expect_sound()?;
        self.expect_whole()?;
        self.is_failed = true;
        self.file.put(self.rt, at, octets, self.place.most)?;
        self.is_failed = false;
        Ok(())
    }

    // Cuts the file to a length.
    fn shorten(&mut self, len: u64) -> io::Result<()>
        requires { R.claims → len ≤ length (R.seen self.old.file.file) }
        ensures sync { self.new.place.sync ≡ self.old.place.sync }
        ensures failures { self.new.telling.failures ≡ self.old.telling.failures }
        ensures cut { R.claims → OnOk result
            (R.seen self.new.file.file ≡ take len (R.seen self.old.file.file)) }
        ensures stop { R.claims
            → Steps R.may_leave (Cut len) self.old.file.file self.new.file.file }
        ensures time { R.claims
            → Lasts R.may_leave R.moment R.left_since self.old.file.file self.new.file.file }
    {
        let was_failed = self.is_failed;
        self.is_failed = true;
        self.rt.shorten(&mut self.file.file, len)?;
        self.file.len = len;
        self.is_failed = was_failed;
        Ok(())
    }

    // Has what was written stand a stop, and finds all of it: a sync takes long enough for somebody to remove or cut the
    // file meanwhile.
    fn keep(&mut self) -> io::Result<()>
        ensures sync { self.new.place.sync ≡ self.old.place.sync }
        ensures failures { self.new.telling.failures ≡ self.old.telling.failures }
        ensures durable { R.claims → OnOk result (Only (R.seen self.old.file.file)
            (R.may_leave self.old.place.sync self.new.file.file)) }
        ensures seen { R.claims → R.seen self.new.file.file ≡ R.seen self.old.file.file }
        ensures stop { R.claims → AddsNone R.may_leave self.old.file.file self.new.file.file }
        ensures time { R.claims
            → Lasts R.may_leave R.moment R.left_since self.old.file.file self.new.file.file }
    {
        self.expect_sound()?;
        self.is_failed = true;
        self.rt.keep(&mut self.file.file, self.place.sync)?;
        self.is_failed = false;
        match self.place.sync {
            LogSync::Group => self.expect_whole(),
            LogSync::Off => Ok(()),
        }
    }

    // Finds that no change and no sync of the file has failed: what that was to write no later sync writes.
    fn expect_sound(&self) -> io::Result<()>
        ensures { OnOk result (self.now.is_failed ≡ false) }
    {
        match self.is_failed {
            true => Err(io::Error::from(ErrorKind::BrokenPipe)),
            false => Ok(()),
        }
    }

    // Finds that the file lies at its path, with all that it was given, and that the journal is still had: who takes it
    // now finds there what was kept before.
    fn expect_whole(&self) -> io::Result<()> {
        self.file.expect_at(self.rt, self.place.path.as_str())?;
        self.place.expect_held(self.rt)
    }
}

impl<R, F> Device for LogDevice<'_, R, F>
where
    R: PlacesFiles<File = F> + Clock + Eprint,
    F: Drop,
{
    ghost claims = { R.claims };

    ghost seen = { λ d. R.seen d.file.file };

    ghost anew = { λ d. octets_of R.seen d.anew };

    ghost may_leave = { λ d. R.may_leave d.place.sync d.file.file };

    ghost moment = { λ d. R.moment d.file.file };

    ghost left_since = { λ d. R.left_since d.place.sync d.file.file };

    ghost faults = { λ d. d.telling.failures };

    ghost counts_now = { λ claimed d t left. R.counts_now claimed d.place.sync d.file.file t left };

    ghost only_now = { λ claimed d left. R.only_now claimed d.place.sync d.file.file left };

    fn read(&mut self, alloc: Global) -> Result<Vec<u8>, DeviceFault> {
        match self.rt.read(alloc, &mut self.file.file, TEXT_LIMIT) {
            Ok(text) => Ok(text),
            Err(ReadFault::Memory) => Err(DeviceFault::Memory),
            Err(_) => Err(self.telling.count()),
        }
    }

    fn write_at(&mut self, at: usize, octets: &[u8]) -> Result<(), DeviceFault> {
        match self.put(at as u64, octets) {
            Ok(()) => Ok(()),
            Err(error) => Err(self.telling.failed(self.rt, &self.place, &error)),
        }
    }

    fn cut(&mut self, len: usize) -> Result<(), DeviceFault> {
        match self.shorten(len as u64) {
            Ok(()) => Ok(()),
            Err(error) => Err(self.telling.failed(self.rt, &self.place, &error)),
        }
    }

    fn sync(&mut self) -> Result<(), DeviceFault> {
        match self.keep() {
            Ok(()) => {
                self.telling.note_kept(self.rt, &self.place);
                Ok(())
            }
            Err(error) => Err(self.telling.failed(self.rt, &self.place, &error)),
        }
    }

    fn open_anew(&mut self) -> Result<(), DeviceFault> {
        match self.create_anew() {
            Ok(()) => Ok(()),
            Err(error) => Err(self.telling.failed(self.rt, &self.place, &error)),
        }
    }

    fn write_anew(&mut self, octets: &[u8]) -> Result<(), DeviceFault> {
        match self.add_anew(octets) {
            Ok(()) => Ok(()),
            Err(error) => Err(self.telling.failed(self.rt, &self.place, &error)),
        }
    }

    fn take_place(&mut self) -> Result<(), DeviceFault> {
        match self.take_name() {
            Ok(()) => Ok(()),
            Err(error) => Err(self.telling.failed(self.rt, &self.place, &error)),
        }
    }
}
