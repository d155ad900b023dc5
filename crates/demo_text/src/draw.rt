//! What is drawn for a thread.

/// What a thread's word draws.
#[derive(Clone, Copy, Debug, PartialEq, Eq)]
pub struct Draw {
    /// A fence stands between its store and its load.
    pub fenced: bool,
    /// Its load stands before its store.
    pub loads_first: bool,
    /// Its atom is of value 1, and else of value 0.
    pub wants_one: bool,
}
