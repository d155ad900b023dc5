//! What a litmus test can do in one iteration, decided by edges and choices.
//!
//! A reading is a read with the store that it takes its value from, or with none where that is the initial value.
//! Readings ask for edges, and for choices of two edges: a store of a third thread comes before the source or after
//! the read (`specs/Edges`). A tree of cases refutes them where each of its leaves is a cycle of the edges and of the
//! sides that its splits take (`specs/Trees`). The reader's own stores may hide a source from it (`specs/Sources`).
//!
//! `laws` has one public function for each law of `specs/Laws`. A run of one iteration has all sources exactly where
//! none is hidden and no tree refutes the readings (`sources_are_decided`, of `trees_forbid_sources`,
//! `hidden_sources_are_not_read`, `no_cycle_has_sources`, `sources_tree_or_run`, `trees_decide_sources`). It asks
//! nothing of the test, so several threads may store to a location.
//!
//! So it is of a conjunction of a test that can be counted. Where it names a hidden store it is no outcome of the
//! test as it is written (`hidden_is_impossible`). Else a tree refutes it exactly where it is none, or a run shows it
//! (`trees_forbid`, `no_cycle_is_shown_once`, `tree_or_run`, `trees_decide`). What a tree refutes holds within no
//! frame of any run (`trees_forbid_within`), though it may hold at one (`trees_are_needed`). A cycle of `verdict` is
//! a tree of one leaf (`cycles_are_trees`), and the ordered conjunctions of `decision` are those without choices
//! (`ordered_has_no_choice`, `ordered_is_shown`).
//!
//! `runs_are_ordered` is the way back from `run_along` of `run_orders`: the order of the moments in a run, of any
//! number of iterations, has kept order, says where each read takes its value from, and has no cycle
//! (`specs/Moments`).
#![tactic(auto)]

mod laws;

pub use laws::{
    cycles_are_trees, hidden_is_impossible, hidden_sources_are_not_read, no_cycle_has_sources,
    no_cycle_is_shown_once, ordered_has_no_choice, ordered_is_shown, runs_are_ordered,
    sources_are_decided, sources_tree_or_run, tree_or_run, trees_are_needed, trees_decide,
    trees_decide_sources, trees_forbid, trees_forbid_sources, trees_forbid_within,
};
