//! Counts of which every frame is an outcome of the litmus test itself.
//!
//! An atom holds within a frame where its read takes the named store of the frame's own iteration, and no later one
//! (`litmus_outcomes`). `conds_within` gives the conditions in numbers of that, value = k*m + a, for `frame_count` to
//! count: the frames within which the condition holds (the law `counts_are_within`). Where there is one, x86-TSO allows
//! the condition, whatever the test is (`within_is_allowed`).
//!
//! `first_loose` finds the first atom that can be met by a later iteration, and where it finds none the test is
//! faithful: each hit of each run is an outcome of the test (`faithful_hits_are_outcomes`), and the hits are the frames
//! within which the condition holds (`faithful_hits_are_within`).
#![tactic(auto)]

mod conditions;
mod laws;
mod loose;

pub use conditions::conds_within;
pub use laws::{
    counts_are_within, faithful_hits_are_outcomes, faithful_hits_are_within,
    logs_meet_the_conditions_within, within_is_allowed,
};
pub use loose::{LooseAtom, first_loose};
