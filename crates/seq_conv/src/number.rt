//! The sequence of one store.

/// The numbers `k` and `a` of a sequence `k*n + a`, at most 128 each. Both are 0 for an action that is no store.
#[derive(Clone, Copy, Debug, PartialEq, Eq)]
pub struct Number {
    pub k: u64,
    pub a: u64,
}
