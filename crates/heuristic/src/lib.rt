//! The heuristic count: for each conjunction of conditions and each iteration of a base thread one picked frame, in
//! place of all frames.
//!
//! `Plan::of` fixes what depends on no log: each conjunction's base thread and the order in which its conditions choose
//! (clause `plan`). `pick` answers the picked frame of a conjunction and an iteration (`value`), and `hits` lists the
//! picked frames at which a conjunction holds, conjunction after conjunction and each frame once (`hits`). These
//! clauses speak of any logs, in the words that `outcome_conv` has for picks by numbers.
//!
//! Over the logs of a run, so say the laws, `pick` answers the frame that the atoms pick in the run, told without
//! values (`picks_are_those_of_runs`), and `hits` lists exactly the listed hits of the run, each of which is a hit
//! (`listed_are_hits_of_runs`).
#![tactic(auto)]

mod found;
mod laws;
mod picking;
mod plan;

pub use found::hits;
pub use laws::{listed_are_hits_of_runs, picks_are_those_of_runs, runs_can_be_picked};
pub use picking::pick;
pub use plan::Plan;
