//! From where to where a statement goes.

/// From where to where a statement goes: which entries it is of, and the moments by which they were chosen.
#[derive(Clone, Copy, Debug, PartialEq, Eq)]
pub struct Extent {
    /// The number of its first entry.
    pub first: u32,
    /// The number that follows that of its last one.
    pub behind: u32,
    /// From when on entries were asked for, in milliseconds since 1970, if that was said.
    pub from: Option<i64>,
    /// Until when they were asked for, in milliseconds since 1970, if that was said.
    pub to: Option<i64>,
}
