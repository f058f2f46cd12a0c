//! A system whose files are devices.
ghost use Rattle.std.specs.Prelude.{◌≡◌, ◌⊎◌, List, ℕ, OnOk};
ghost use Rattle.ilp_line_file.specs.Device.{Elapses, Only};

use crate::new_device::NewDevice;
use ilp_accounts::LogSync;
use ilp_io::ReadFault;
use ilp_journal_file::{FileIdentity, FileThere, PlacesFiles};
use ilp_line_file::{Device, DeviceFault};
use std::alloc::Global;
use std::io;
use std::io::ErrorKind;
use std::marker::PhantomData;

/// A system whose files are devices. It keeps no names: each file lies at its own.
#[derive(Drop)]
pub struct DeviceFiles<D> {
    pub alloc: Global,
    pub files: PhantomData<D>,
}

/// A file of it.
#[derive(Drop)]
pub struct StoredFile<D> {
    pub device: D,
    /// Whether none of its calls has failed.
    pub is_sound: bool,
}

impl<D: NewDevice> PlacesFiles for DeviceFiles<D> {
    type File = StoredFile<D>;

    ghost claims = { D.Device.claims };

    ghost seen = { λ f. D.Device.seen f.device };

    ghost may_leave = { λ _ f. D.Device.may_leave f.device };

    ghost moment = { λ f. D.Device.moment f.device };

    ghost left_since = { λ _ f. D.Device.left_since f.device };

    ghost is_sound = { λ f. f.is_sound };

    ghost counts_now = { λ claimed _ f t left. D.Device.counts_now claimed f.device t left };

    ghost only_now = { λ claimed _ f left. D.Device.only_now claimed f.device left };

    fn create_anew(&self, _path: &str, _mode: u32) -> io::Result<StoredFile<D>> {
        Ok(StoredFile {
            device: D::new_device(self.alloc),
            is_sound: true,
        })
    }

    fn read(
        &self,
        alloc: Global,
        file: &mut StoredFile<D>,
        most: usize,
    ) -> Result<Vec<u8>, ReadFault> {
        match file.device.read(alloc) {
            Ok(octets) if octets.len() <= most => Ok(octets),
            Ok(_) => Err(ReadFault::TooLong),
            Err(DeviceFault::Memory) => Err(ReadFault::Memory),
            Err(DeviceFault::Failed) => Err(ReadFault::Failed),
        }
    }

    fn write_at(&self, file: &mut StoredFile<D>, at: u64, octets: &[u8]) -> io::Result<()> {
        match file.device.write_at(at as usize, octets) {
            Ok(()) => Ok(()),
            Err(_) => Err(failed(&mut file.is_sound)),
        }
    }

    fn shorten(&self, file: &mut StoredFile<D>, len: u64) -> io::Result<()> {
        match file.device.cut(len as usize) {
            Ok(()) => Ok(()),
            Err(_) => Err(failed(&mut file.is_sound)),
        }
    }

    fn keep(&self, file: &mut StoredFile<D>, _sync: LogSync) -> io::Result<()> {
        match file.device.sync() {
            Ok(()) => Ok(()),
            Err(_) => Err(failed(&mut file.is_sound)),
        }
    }

    fn keep_all(&self, file: &mut StoredFile<D>) -> io::Result<()> {
        match file.device.sync() {
            Ok(()) => Ok(()),
            Err(_) => Err(failed(&mut file.is_sound)),
        }
    }

    fn give_name(
        &self,
        _file: &mut StoredFile<D>,
        _new: &str,
        _path: &str,
        _folder: &str,
    ) -> io::Result<()> {
        Ok(())
    }

    fn put_in_place(
        &self,
        file: &mut StoredFile<D>,
        mut by: StoredFile<D>,
        _new: &str,
        _path: &str,
        _folder: &str,
    ) -> io::Result<()> {
        let is_sound = by.is_sound;
        match copy_over(self.alloc, &mut file.device, &mut by.device) {
            Ok(()) => {
                file.is_sound = is_sound;
                Ok(())
            }
            Err(_) => Err(failed(&mut file.is_sound)),
        }
    }

    fn identity(&self, _file: &StoredFile<D>) -> io::Result<FileIdentity> {
        Ok(ONE)
    }

    fn look(&self, _path: &str) -> io::Result<FileThere> {
        Ok(FileThere {
            identity: ONE,
            len: u64::MAX,
        })
    }

    fn most_octets(&self) -> u64 {
        u64::MAX
    }
}

// What each file is, and lies at each path.
const ONE: FileIdentity = FileIdentity {
    device: 0,
    inode: 0,
};

// A call of a file has failed.
fn failed(is_sound: &mut bool) -> io::Error {
    *is_sound = false;
    io::Error::from(ErrorKind::StorageFull)
}

// Has a device have what another has, in a new file that takes its place.
fn copy_over<D: NewDevice>(alloc: Global, device: &mut D, by: &mut D) -> Result<(), DeviceFault>
    ensures seen { D.Device.claims → OnOk result (D.Device.seen device.new ≡ D.Device.seen by.old) }
    ensures durable { D.Device.claims → OnOk result
        (Only (D.Device.seen by.old) (D.Device.may_leave device.new)) }
    ensures crash { D.Device.claims → (left : List ℕ) → D.Device.may_leave device.new left
        → D.Device.may_leave device.old left ⊎ (left ≡ D.Device.seen by.old) }
    ensures time { D.Device.claims → Elapses (D.Device.moment device.old) (D.Device.moment device.new)
        (D.Device.left_since device.old) (D.Device.left_since device.new) (D.Device.may_leave device.new) }
{
    let octets = by.read(alloc)?;
    write_new(device, &octets)?;
    device.take_place()
}

// Has these octets in a new file beside it.
fn write_new<D: NewDevice>(device: &mut D, octets: &[u8]) -> Result<(), DeviceFault>
    ensures anew { D.Device.claims → OnOk result (D.Device.anew device.new ≡ octets.now) }
    ensures crash { D.Device.claims → (left : List ℕ) → D.Device.may_leave device.new left
        → D.Device.may_leave device.old left }
    ensures time { D.Device.claims → Elapses (D.Device.moment device.old) (D.Device.moment device.new)
        (D.Device.left_since device.old) (D.Device.left_since device.new) (D.Device.may_leave device.new) }
{
    device.open_anew()?;
    device.write_anew(octets)
}
