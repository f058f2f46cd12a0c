//! What a crash loses of what was not synced.

/// What a crash loses of what was not synced.
#[derive(Clone, Copy)]
pub struct Loss {
    /// How many octets of each write the disk has at most. The file is not longer for the others.
    pub front: usize,
    /// From the first of these places of a write to before the second, its octets are lost too.
    pub hole: (usize, usize),
    /// How many octets are still there of those that a cut took off.
    pub uncut: usize,
    /// Whether a new file took the place of this one in a call that failed.
    pub is_placed: bool,
}

impl Loss {
    /// Nothing is lost.
    pub const NONE: Loss = Loss {
        front: usize::MAX,
        hole: (0, 0),
        uncut: 0,
        is_placed: true,
    };

    // Whether the disk has the octet at this place of a write.
    pub(crate) fn keeps(&self, place: usize) -> bool {
        place < self.front && (place < self.hole.0 || self.hole.1 <= place)
    }
}
