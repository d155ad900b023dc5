//! What the search finds under the sides that are taken.
use crate::graph::{Pair, Tree};

/// A tree, and the edges of sides above it that it uses.
#[derive(Drop)]
pub struct Refutation {
    pub tree: Tree,
    pub used: Vec<Pair>,
}

/// Sides without a cycle, a refutation, or neither within the steps.
#[derive(Drop)]
pub enum Found {
    Sides(Vec<Pair>),
    Refuted(Refutation),
    GaveUp,
}
