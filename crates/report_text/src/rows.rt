//! What a report says, and what the report of a count says. The calls that write them stand in a module of their own,
//! since names that differ only in case, as `Report` and `report`, may not stand in one.
use perp_base::{Frame, Name};

/// What a report says. A count that was not asked for is `None`.
#[derive(Drop)]
pub struct Report {
    /// The test's name, all ASCII.
    pub name: Name,
    /// The number of the test's threads.
    pub threads: u32,
    /// How often each thread performed its body.
    pub iterations: u32,
    /// Whether the quantifier is `~exists`.
    pub negated: bool,
    /// The number of all atoms of the condition.
    pub atoms: u32,
    /// The number of frames, where the exhaustive count was asked for.
    pub frames: Option<u64>,
    /// The number of frames at which the condition holds, where it was asked for.
    pub exhaustive: Option<u64>,
    /// The frames that the heuristic count found, in the order of their lines, where it was asked for.
    pub hits: Option<Vec<Frame>>,
    /// Whether each hit has a line.
    pub show_hits: bool,
}

/// What the report of a count says.
#[derive(Drop)]
pub struct CountReport {
    /// The test's name, all ASCII.
    pub name: Name,
    /// The number of the test's threads.
    pub threads: u32,
    /// How often each thread performed its body.
    pub iterations: u32,
    /// Whether the quantifier is `~exists`.
    pub negated: bool,
    /// The number of all atoms of the condition.
    pub atoms: u32,
    /// The number of frames.
    pub frames: u64,
    /// The number of frames within which a conjunction of the condition holds.
    pub within: u64,
}
