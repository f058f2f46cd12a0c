//! A file of lines that grows at its end.
ghost use Rattle.std.specs.Prelude.{◌≡◌, ◌≤◌, ◌<◌, ◌+◌, ◌^◌, ◌++◌, ◌⊎◌, List, ℕ, length, take, IfOk, OnOk};
ghost use Rattle.ilp_line_file.specs.Device.{Only, LeavesOnly, HasCause};
ghost use Rattle.ilp_line_file.specs.Text.{recovered, text_of, IsText, IsBlank, IsBetween};
ghost use Rattle.ilp_line_file.specs.File.{IsSettled};

use crate::{Device, DeviceFault};
use std::alloc::Global;

/// A file of lines, and where its text ends.
///
/// Behind each line stands a line feed, and no NUL octet is in one. So a write that a crash cuts short
/// leaves a beginning of its lines, and one sync is enough for many of them.
#[derive(Drop)]
pub struct LineFile<D: Device> {
    /// The file.
    pub device: D,
    /// How many octets its lines have. What stands behind them is zeros.
    pub end: usize,
}

impl<D: Device> LineFile<D> {
    /// Writes whole lines behind those that are there, with one sync. At `Ok` they are on the disk.
    ///
    /// At `Err` nobody knows how many of them are there: the file is to be recovered before it is used
    /// again.
    pub fn append(&mut self, text: &[u8]) -> Result<(), DeviceFault>
        requires settled { D.claims → IsSettled D.seen D.may_leave self.old }
        requires text { IsText text.now }
        requires room { self.old.end + length text.now < 2 ^ 64 }

        ensures settled { D.claims → OnOk result (IsSettled D.seen D.may_leave self.new) }
        ensures lines { D.claims → OnOk result (recovered (D.seen self.new.device)
            ≡ recovered (D.seen self.old.device) ++ recovered text.now) }

        // A crash at any moment of the call leaves the lines from before it, and a beginning of the
        // new ones behind them.
        ensures any_moment { D.claims → LeavesOnly D.moment D.left_since
            self.old.device self.new.device (IsBetween (recovered (D.seen self.old.device))
            (recovered (D.seen self.old.device) ++ recovered text.now)) }
        ensures cause { D.claims
            → HasCause (D.faults self.old.device) (D.faults self.new.device) result }
    {
        self.device.write_at(self.end, text)?;
        self.device.sync()?;
        self.end += text.len();
        Ok(())
    }

    /// Writes zeros behind the text, which later lines then take the place of: a sync takes less time
    /// where the file's length stays.
    ///
    /// At `Err` the file is to be recovered before it is used again.
    pub fn reserve(&mut self, zeros: &[u8]) -> Result<(), DeviceFault>
        requires settled { D.claims → IsSettled D.seen D.may_leave self.old }
        requires blank { IsBlank zeros.now }

        ensures settled { D.claims → OnOk result (IsSettled D.seen D.may_leave self.new) }
        ensures lines { D.claims → OnOk result (recovered (D.seen self.new.device)
            ≡ recovered (D.seen self.old.device)) }
        ensures end { self.new.end ≡ self.old.end }

        // A crash at any moment of the call leaves the same lines.
        ensures any_moment { D.claims → LeavesOnly D.moment D.left_since
            self.old.device self.new.device
            (λ c. recovered c ≡ recovered (D.seen self.old.device)) }
        ensures cause { D.claims
            → HasCause (D.faults self.old.device) (D.faults self.new.device) result }
    {
        self.device.write_at(self.end, zeros)?;
        self.device.sync()
    }

    /// Has the new file beside the device take the place of this one. It has whole lines alone, of so many
    /// octets. This one may be whatever a call that failed has left of it.
    ///
    /// At `Err` the file is to be recovered before it is used again.
    pub fn take_place(&mut self, end: usize) -> Result<(), DeviceFault>
        requires text { D.claims → IsText (D.anew self.old.device) }
        requires end { D.claims → end ≡ length (D.anew self.old.device) }

        ensures settled { D.claims → OnOk result (IsSettled D.seen D.may_leave self.new) }
        ensures lines { D.claims → OnOk result (recovered (D.seen self.new.device)
            ≡ recovered (D.anew self.old.device)) }

        // A crash at any moment of the call leaves what it might have left before, or the new file.
        ensures any_moment { D.claims → LeavesOnly D.moment D.left_since
            self.old.device self.new.device
            (λ c. D.may_leave self.old.device c ⊎ (c ≡ D.anew self.old.device)) }
        ensures crash { D.claims → (c : List ℕ) → D.may_leave self.new.device c
            → D.may_leave self.old.device c ⊎ (c ≡ D.anew self.old.device) }
        ensures cause { D.claims
            → HasCause (D.faults self.old.device) (D.faults self.new.device) result }
    {
        self.device.take_place()?;
        self.end = end;
        Ok(())
    }
}

/// Reads the lines of a file that a crash may have left, and cuts off what stands behind them, so that
/// nothing torn lies behind what is appended next. It may crash too, and be called again.
///
/// At `Ok` the device is ready as a `LineFile` that ends where the text does.
pub fn recover<D: Device>(alloc: Global, device: &mut D) -> Result<Vec<u8>, DeviceFault>
    // After a restart, what is read is what is on the disk.
    requires { D.claims → Only (D.seen device.old) (D.may_leave device.old) }

    ensures text { D.claims → IfOk result
        (λ text. text.items ≡ text_of (recovered (D.seen device.old))) }
    ensures same { D.claims
        → OnOk result (recovered (D.seen device.new) ≡ recovered (D.seen device.old)) }
    ensures settled { D.claims → IfOk result (λ text. IsSettled D.seen D.may_leave
        (record { device = device.new; end = length text.items })) }

    // A crash at any moment leaves the same lines.
    ensures any_moment { D.claims → LeavesOnly D.moment D.left_since device.old device.new
        (λ c. recovered c ≡ recovered (D.seen device.old)) }
    ensures cause { D.claims → HasCause (D.faults device.old) (D.faults device.new) result }
{
    let mut text = device.read(alloc)?;
    let end = end_of(&text);
    device.cut(end)?;
    device.sync()?;
    text.truncate(end);
    Ok(text)
}

/// Where the whole lines of a file's octets end: those before the first NUL.
pub fn end_of(octets: &[u8]) -> usize
    ensures within { result ≤ length octets.now }
    ensures text { take result octets.now ≡ text_of (recovered octets.now) }
{
    let mut end = 0;
    for (at, octet) in octets.iter().enumerate() {
        if *octet == 0 {
            return end;
        }
        if *octet == b'\n' {
            end = at + 1;
        }
    }
    end
}
