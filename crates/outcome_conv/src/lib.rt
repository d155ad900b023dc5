//! The condition of a litmus test in numbers: what its atoms ask of the logged values.
//!
//! `Conds::of` gives one `Cond` for each atom of a checked test, with the number of stores of the location that is read
//! and the rank of the named store, cut into the conjunctions of the test: its clauses `conds` and `ends`.
//! `Cond::holds` is the inequality and the residue, or the equality, of its kind (`kind_holds` of `specs/Conds`).
//!
//! What this means in a run of x86-TSO says `specs/Laws`, one law for each public function of `laws`. Over the values
//! that a run logs, a condition holds at a frame exactly where the atom holds in the run (`conditions_agree`), the
//! count is the number of hits (`counts_agree`), and the heuristic picks and lists what it does in the run
//! (`choices_agree`, `picks_agree`, `hits_agree`), each of which is a hit (`listed_are_hits`). When an atom holds,
//! which frames are hits and which are picked stand in `specs/Holds`, `Hits` and `Picks`, told without values.
#![tactic(auto)]

mod cond;
mod conds;
mod convert;
mod laws;

pub use cond::{Cond, CondKind};
pub use conds::Conds;
pub use laws::{
    choices_agree, conditions_agree, conditions_name_the_test, counts_agree, hits_agree,
    listed_are_hits, nothing_follows_the_last, picks_agree, picks_are_whole, plans_pick,
};
