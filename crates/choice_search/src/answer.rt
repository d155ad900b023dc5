//! What the search answers.
use crate::graph::{Pair, Tree};

/// What was found: a side of each choice, in order, without a cycle; a tree of cases that refutes all sides; or neither
/// within the steps.
#[derive(Debug, Drop)]
pub enum Outcome {
    Sides(Vec<Pair>),
    Refuted(Tree),
    GaveUp,
}

/// What was found, and the steps that it took: a step is an edge of a side that is added to the closure.
#[derive(Debug, Drop)]
pub struct Answer {
    pub outcome: Outcome,
    pub steps: u64,
}
