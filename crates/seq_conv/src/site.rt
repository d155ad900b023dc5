//! Where stores stand.

/// Where an action stands in a test: its thread and its place in that thread's body, both from 0.
#[derive(Clone, Copy, Debug, PartialEq, Eq)]
pub struct Site {
    pub thread: u32,
    pub place: u32,
}

/// A store or exchange in an iteration, counted from 0.
#[derive(Clone, Copy, Debug, PartialEq, Eq)]
pub struct Origin {
    pub thread: u32,
    pub place: u32,
    pub iteration: u64,
}
