//! A buffered write.

/// A write that waits in a buffer, with the store that made it.
#[derive(Clone, Copy, Debug, PartialEq, Eq, Default)]
pub struct Entry {
    /// The location, below 16.
    pub loc: u32,
    pub value: u64,
    /// The iteration of the store that made it, from 0.
    pub iteration: u32,
    /// The place of that store in its thread's body, from 0.
    pub place: u32,
}
