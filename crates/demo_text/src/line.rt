//! The lines of a demo text that have a cell for each thread.

/// A line with a cell for each thread.
#[derive(Clone, Copy, Debug, PartialEq, Eq)]
pub enum Line {
    /// The names of the threads.
    Columns,
    /// What each thread does first.
    First,
    /// Where fences stand.
    Middle,
    /// What each thread does last.
    Last,
    /// The condition, with an atom for each thread.
    Condition,
}
