//! A file as a log sees it: what a read returns, and what a crash may leave.
ghost use Rattle.std.specs.Prelude.{◌≡◌, ◌≤◌, ◌⊎◌, [], ◌++◌, List, ℕ, length, take, IfOk, OnOk};
ghost use Rattle.ilp_line_file.specs.declared.device.DeviceFault.TheVariants.{Memory};
ghost use Rattle.ilp_line_file.specs.Device.{Only, Follows, Torn, Cut, Holds, Elapses, HasCause};

use std::alloc::{AllocError, Global};
use std::error::Error;
use std::fmt;

/// Why a call of a device failed.
#[derive(Clone, Copy, Debug, PartialEq, Eq)]
pub enum DeviceFault {
    /// Memory was denied.
    Memory,
    /// The disk failed.
    Failed,
}

impl fmt::Display for DeviceFault {
    fn fmt<W: fmt::Write>(&self, f: &mut fmt::Formatter<W>) -> fmt::Result {
        match self {
            DeviceFault::Memory => write!(f, "out of memory"),
            DeviceFault::Failed => write!(f, "the disk failed"),
        }
    }
}

impl Error for DeviceFault {}

/// Memory was denied.
impl From<AllocError> for DeviceFault {
    ghost from_gives = { λ _ e. e ≡ Memory };

    fn from(_denied: AllocError) -> Self {
        DeviceFault::Memory
    }
}

/// A file on a disk that may lose what was not synced. It may be made anew: a new file is written beside it
/// (`open_anew`, `write_anew`), and then takes its place as a whole (`take_place`).
///
/// A crash may come at any moment, during a call too. Each member is of proofs alone: no call tells
/// it. After a call that failed the file may be whatever a crash may leave.
pub trait Device {
    /// Whether what its clauses say is claimed of it. Of a file of the system it isn't, of whose calls
    /// no contract tells: then the clauses say nothing.
    ghost claims: { Type 0 };

    /// The octets that a read returns.
    ghost seen: { Self → List ℕ };

    /// What the new file beside it has.
    ghost anew: { Self → List ℕ };

    /// What a crash at this moment may leave.
    ghost may_leave: { Self → List ℕ → Type 0 };

    /// The moment, as a number that doesn't fall.
    ghost moment: { Self → ℕ };

    /// What a crash at some moment from that one on might have left.
    ghost left_since: { Self → ℕ → List ℕ → Type 0 };

    /// How often the disk has failed.
    ghost faults: { Self → ℕ };

    /// All the octets.
    fn read(&mut self, alloc: Global) -> Result<Vec<u8>, DeviceFault>
        ensures octets { claims → IfOk result (λ octets. octets.items ≡ seen self.old) }
        ensures seen { claims → seen self.new ≡ seen self.old }
        ensures crash { claims → (c : List ℕ) → may_leave self.new c → may_leave self.old c }
        ensures time { claims → Elapses (moment self.old) (moment self.new)
            (left_since self.old) (left_since self.new) (may_leave self.new) }
        ensures cause { claims → HasCause (faults self.old) (faults self.new) result };

    /// Writes over what is there, and past the end. Until a sync, a crash may leave each octet of
    /// the range as it was or as it is written.
    fn write_at(&mut self, at: usize, octets: &[u8]) -> Result<(), DeviceFault>
        requires { claims → at ≤ length (seen self.old) }
        ensures written { claims → OnOk result
            (Holds (seen self.old) at octets.now (seen self.new)) }
        ensures crash { claims
            → Follows (Torn at octets.now) (may_leave self.old) (may_leave self.new) }
        ensures time { claims → Elapses (moment self.old) (moment self.new)
            (left_since self.old) (left_since self.new) (may_leave self.new) }
        ensures cause { claims → HasCause (faults self.old) (faults self.new) result };

    /// Cuts the file to a length, which is at most its own.
    fn cut(&mut self, len: usize) -> Result<(), DeviceFault>
        requires { claims → len ≤ length (seen self.old) }
        ensures cut { claims → OnOk result (seen self.new ≡ take len (seen self.old)) }
        ensures crash { claims → Follows (Cut len) (may_leave self.old) (may_leave self.new) }
        ensures time { claims → Elapses (moment self.old) (moment self.new)
            (left_since self.old) (left_since self.new) (may_leave self.new) }
        ensures cause { claims → HasCause (faults self.old) (faults self.new) result };

    /// Once it has returned `Ok`, a crash leaves what a read returns.
    fn sync(&mut self) -> Result<(), DeviceFault>
        ensures durable { claims → OnOk result (Only (seen self.old) (may_leave self.new)) }
        ensures seen { claims → seen self.new ≡ seen self.old }
        ensures crash { claims → (c : List ℕ) → may_leave self.new c → may_leave self.old c }
        ensures time { claims → Elapses (moment self.old) (moment self.new)
            (left_since self.old) (left_since self.new) (may_leave self.new) }
        ensures cause { claims → HasCause (faults self.old) (faults self.new) result };

    /// Begins a new file beside this one, with nothing in it.
    fn open_anew(&mut self) -> Result<(), DeviceFault>
        ensures empty { claims → OnOk result (anew self.new ≡ []) }
        ensures crash { claims → (c : List ℕ) → may_leave self.new c → may_leave self.old c }
        ensures time { claims → Elapses (moment self.old) (moment self.new)
            (left_since self.old) (left_since self.new) (may_leave self.new) }
        ensures cause { claims → HasCause (faults self.old) (faults self.new) result };

    /// Writes behind what the new file has.
    fn write_anew(&mut self, octets: &[u8]) -> Result<(), DeviceFault>
        ensures written { claims
            → OnOk result (anew self.new ≡ anew self.old ++ octets.now) }
        ensures crash { claims → (c : List ℕ) → may_leave self.new c → may_leave self.old c }
        ensures time { claims → Elapses (moment self.old) (moment self.new)
            (left_since self.old) (left_since self.new) (may_leave self.new) }
        ensures cause { claims → HasCause (faults self.old) (faults self.new) result };

    /// Has the new file take the place of this one, once the disk has all of it. Until it has returned
    /// `Ok`, a crash leaves either what it might have left before, or all of the new file.
    fn take_place(&mut self) -> Result<(), DeviceFault>
        ensures seen { claims → OnOk result (seen self.new ≡ anew self.old) }
        ensures durable { claims → OnOk result (Only (anew self.old) (may_leave self.new)) }
        ensures crash { claims → (c : List ℕ) → may_leave self.new c
            → may_leave self.old c ⊎ (c ≡ anew self.old) }
        ensures time { claims → Elapses (moment self.old) (moment self.new)
            (left_since self.old) (left_since self.new) (may_leave self.new) }
        ensures cause { claims → HasCause (faults self.old) (faults self.new) result };

    /// This moment is one of those since an earlier one.
    ghost counts_now: { claims → (file : Self) (t : ℕ) (c : List ℕ) → t ≤ moment file
        → may_leave file c → left_since file t c };

    /// Since this moment there is no other.
    ghost only_now: { claims → (file : Self) (c : List ℕ) → left_since file (moment file) c
        → may_leave file c };
}
