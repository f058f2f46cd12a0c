//! A file in memory whose disk fails in one of its calls, whose machine stops in another, and what the
//! disk may have then.

ghost use Rattle.std.specs.Prelude.{[]};

use ilp_line_file::{Device, DeviceFault};
use std::alloc::{AllocError, Global};
use test_chance::Chance;

/// In which calls of a device the disk fails, by their numbers from 0.
#[derive(Clone, Copy)]
pub(crate) struct Failures {
    /// In this one, and in none of those behind it.
    pub(crate) once: u32,
    /// In this one the machine stops. From then on each fails.
    pub(crate) stop: u32,
}

impl Failures {
    /// In no call.
    pub(crate) const NONE: Failures = Failures {
        once: u32::MAX,
        stop: u32::MAX,
    };
}

// A call that changes the file.
#[derive(Drop)]
enum Change {
    Write { at: usize, octets: Vec<u8> },
    Cut { len: usize },
}

// Which octets of a write that wasn't synced a crash leaves as they were written. Each other one is as
// it was before, or 0 past the old end.
#[derive(Clone, Copy)]
enum Tear {
    // The first so many.
    Front(usize),
    // The first so many, and the file ends there where its old end isn't behind them.
    Alone(usize),
    // All but the first so many.
    Back(usize),
    // Some, which a generator picks. It begins with this number. The file ends as with the first so many
    // alone where the number is even.
    Mixed(usize),
}

/// A file in memory, for tests. It claims nothing. A new file beside it is on its disk only once it has
/// taken the place of this one.
#[derive(Drop)]
pub(crate) struct TearingDevice {
    alloc: Global,
    // What a read returns.
    octets: Vec<u8>,
    // The new file.
    anew: Vec<u8>,
    // What is on the disk for sure.
    synced: Vec<u8>,
    // The calls since the last sync, and how many octets they write or cut off at most.
    changes: Vec<Change>,
    longest: usize,
    // New files that may have taken the place of this one: the calls for that failed.
    placed: Vec<Vec<u8>>,
    // How many calls there were, and which of them fail.
    calls: u32,
    failures: Failures,
    stopped: bool,
}

impl TearingDevice {
    /// A file with these octets.
    pub(crate) fn new(
        alloc: Global,
        octets: &[u8],
        failures: Failures,
    ) -> Result<TearingDevice, AllocError> {
        Ok(TearingDevice {
            alloc,
            octets: octets.to_vec(alloc)?,
            anew: Vec::new(alloc),
            synced: octets.to_vec(alloc)?,
            changes: Vec::new(alloc),
            longest: 0,
            placed: Vec::new(alloc),
            calls: 0,
            failures,
            stopped: false,
        })
    }

    /// What a read returns.
    pub(crate) fn octets(&self) -> &[u8] {
        &self.octets
    }

    /// How many calls there were.
    pub(crate) fn calls(&self) -> u32 {
        self.calls
    }

    /// Whether its machine has stopped.
    pub(crate) fn has_stopped(&self) -> bool {
        self.stopped
    }

    /// One after the other what a crash may leave now, by its number from 0; none past the last.
    ///
    /// Of each write since the last sync they have each front, each front alone, all but each front, and
    /// as many mixtures. Those that follow one another are much alike. Behind them come the new files
    /// that may have taken the place of this one.
    pub(crate) fn image(&self, number: usize) -> Result<Option<Vec<u8>>, AllocError> {
        let fronts = self.longest.saturating_add(1);
        let count = number % fronts;
        match number / fronts {
            0 => Ok(Some(self.torn(Tear::Front(count))?)),
            1 => Ok(Some(self.torn(Tear::Alone(count))?)),
            2 => Ok(Some(self.torn(Tear::Back(count))?)),
            3 => Ok(Some(self.torn(Tear::Mixed(count))?)),
            _ => self.placed_at(number.saturating_sub(fronts.saturating_mul(4))),
        }
    }

    // What a crash may leave of all changes.
    fn torn(&self, tear: Tear) -> Result<Vec<u8>, AllocError> {
        let mut image = self.synced.to_vec(self.alloc)?;
        for change in &self.changes {
            image = change.torn(self.alloc, &image, tear)?;
        }
        Ok(image)
    }

    // A new file that may have taken the place of this one.
    fn placed_at(&self, number: usize) -> Result<Option<Vec<u8>>, AllocError> {
        match self.placed.get(number) {
            Some(placed) => Ok(Some(placed.to_vec(self.alloc)?)),
            None => Ok(None),
        }
    }

    // A call begins.
    fn begin(&mut self) -> Result<(), DeviceFault> {
        let call = self.calls;
        self.calls = call.saturating_add(1);
        if call >= self.failures.stop {
            self.stopped = true;
        }
        if self.stopped || call == self.failures.once {
            return Err(DeviceFault::Failed);
        }
        Ok(())
    }

    // Makes a change. It is as good as none where the machine stopped before it; where the call fails, a
    // crash may leave a part.
    fn change(&mut self, change: Change) -> Result<(), DeviceFault> {
        if self.stopped {
            return Err(DeviceFault::Failed);
        }
        let octets = change.torn(self.alloc, &self.octets, Tear::Back(0))?;
        if let Err(denied) = self.changes.push(change) {
            return Err(AllocError::from(denied).into());
        }
        self.begin()?;
        self.octets = octets;
        Ok(())
    }

    // From now on the disk has these octets, and nothing else.
    fn settle(&mut self, octets: Vec<u8>) {
        self.synced = octets;
        self.changes.clear();
        self.longest = 0;
        self.placed.clear();
    }
}

impl Device for TearingDevice {
    ghost claims = { ⊥ };

    ghost seen = { λ _. [] };

    ghost anew = { λ _. [] };

    ghost may_leave = { λ _ _. ⊥ };

    ghost moment = { λ _. 0 };

    ghost left_since = { λ _ _ _. ⊥ };

    ghost faults = { λ _. 0 };

    ghost counts_now = { λ none. absurd none };

    ghost only_now = { λ none. absurd none };

    fn read(&mut self, alloc: Global) -> Result<Vec<u8>, DeviceFault> {
        self.begin()?;
        Ok(self.octets.to_vec(alloc)?)
    }

    fn write_at(&mut self, at: usize, octets: &[u8]) -> Result<(), DeviceFault> {
        let octets = octets.to_vec(self.alloc)?;
        self.longest = self.longest.max(octets.len());
        self.change(Change::Write { at, octets })
    }

    fn cut(&mut self, len: usize) -> Result<(), DeviceFault> {
        self.longest = self.longest.max(self.octets.len().saturating_sub(len));
        self.change(Change::Cut { len })
    }

    fn sync(&mut self) -> Result<(), DeviceFault> {
        let octets = self.octets.to_vec(self.alloc)?;
        self.begin()?;
        self.settle(octets);
        Ok(())
    }

    fn open_anew(&mut self) -> Result<(), DeviceFault> {
        self.begin()?;
        self.anew.clear();
        Ok(())
    }

    fn write_anew(&mut self, octets: &[u8]) -> Result<(), DeviceFault> {
        self.begin()?;
        Ok(self.anew.extend_from_slice(octets)?)
    }

    fn take_place(&mut self) -> Result<(), DeviceFault> {
        if self.stopped {
            return Err(DeviceFault::Failed);
        }
        if let Err(denied) = self.placed.push(self.anew.to_vec(self.alloc)?) {
            return Err(AllocError::from(denied).into());
        }
        let octets = self.anew.to_vec(self.alloc)?;
        let synced = self.anew.to_vec(self.alloc)?;
        self.begin()?;
        self.octets = octets;
        self.settle(synced);
        Ok(())
    }
}

impl Change {
    // What a crash may leave of it, which has to do with octets that were there.
    fn torn(&self, alloc: Global, old: &[u8], tear: Tear) -> Result<Vec<u8>, AllocError> {
        match self {
            Change::Write { at, octets } => torn_write(alloc, old, *at, octets, tear),
            Change::Cut { len } => torn_cut(alloc, old, *len, tear),
        }
    }
}

impl Tear {
    // Whether the octet at a place of the write is as it was written.
    fn takes(self, index: usize, chance: &mut Chance) -> bool {
        match self {
            Tear::Front(count) | Tear::Alone(count) => index < count,
            Tear::Back(count) => index >= count,
            Tear::Mixed(_) => chance.below(2) == 0,
        }
    }

    // What picks the octets of a mixture.
    fn chance(self) -> Chance {
        match self {
            Tear::Mixed(number) => Chance::new(number as u64),
            _ => Chance::new(0),
        }
    }

    // How long a file of a length is after a cut to another.
    fn cut(self, len: usize, old: usize) -> usize {
        match self {
            Tear::Front(count) => len.max(old.saturating_sub(count)),
            _ => len,
        }
    }

    // How long the file is at least, with a write of so many octets.
    fn end(self, at: usize, octets: usize) -> usize {
        match self {
            Tear::Alone(count) => at.saturating_add(count),
            Tear::Mixed(number) if number % 2 == 0 => at.saturating_add(number),
            _ => at.saturating_add(octets),
        }
    }
}

// What a crash may leave of a cut.
fn torn_cut(alloc: Global, old: &[u8], len: usize, tear: Tear) -> Result<Vec<u8>, AllocError> {
    let mut torn = old.to_vec(alloc)?;
    torn.truncate(tear.cut(len, old.len()));
    Ok(torn)
}

// What a crash may leave of a write. One behind the end leaves nothing.
fn torn_write(
    alloc: Global,
    old: &[u8],
    at: usize,
    octets: &[u8],
    tear: Tear,
) -> Result<Vec<u8>, AllocError> {
    if at > old.len() {
        return old.to_vec(alloc);
    }
    let (front, behind) = old.split_at(at);
    let mut torn = front.to_vec(alloc)?;
    add_torn(&mut torn, behind, octets, tear)?;
    if octets.len() < behind.len() {
        torn.extend_from_slice(&behind[octets.len()..])?;
    }
    torn.truncate(tear.end(at, octets.len()).max(old.len()));
    Ok(torn)
}

// Adds the octets of a write, as a crash may leave them, over those that were there.
fn add_torn(torn: &mut Vec<u8>, old: &[u8], octets: &[u8], tear: Tear) -> Result<(), AllocError> {
    let mut chance = tear.chance();
    for (index, octet) in octets.iter().enumerate() {
        let was = if index < old.len() { old[index] } else { 0 };
        let is_written = tear.takes(index, &mut chance);
        torn.push(if is_written { *octet } else { was })?;
    }
    Ok(())
}
