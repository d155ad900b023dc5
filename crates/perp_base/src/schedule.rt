//! Whose turn it is when threads take turns.

/// Which thread takes the next turn among those that have turns left.
#[derive(Clone, Copy, Debug, PartialEq, Eq)]
pub enum Schedule {
    /// The threads go round in the order of their numbers.
    Turns,
    /// A generator of this seed picks one of them by each of its words.
    Seeded(u64),
}
