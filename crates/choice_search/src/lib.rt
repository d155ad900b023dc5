//! A graph with choices of edges, searched by closure.
//!
//! A choice is three numbered nodes, and one of two edges: its other node stands before its source, or after its
//! reader. `decide` takes edges and choices. It answers a side of each choice so that these and the edges have no
//! cycle, or a tree of cases that refutes all such sides, or neither where all the steps were taken (its clause,
//! `IsAnswer` in `specs/Answers`). No sides are without a cycle where a tree refutes (`trees_refute`).
//!
//! The search takes what is forced first, and then branches on a choice that was used last in a refutation. It is
//! guided by the closure of the edges (`closure`), of which nothing is proved but that it is safe: each leaf of a tree
//! is tested against the edges, and so are the sides at the end.
//!
//! The crate knows nothing of litmus tests. `row_decision` numbers the stores, loads and exchanges of one, and gives
//! the edges and choices that its reads ask for.
#![tactic(auto)]

mod answer;
mod closure;
mod cycles;
mod found;
mod graph;
mod laws;
mod search;
mod taken;

pub use answer::{Answer, Outcome};
pub use graph::{Choice, Pair, Side, Tree};
pub use laws::trees_refute;
pub use search::decide;
