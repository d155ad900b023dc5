//! A counted frame is an outcome of the litmus test itself.
//!
//! PerpLE's loops write k*n + a in place of the values of the text, and a frame puts iterations of several threads
//! together. What a user asks is about the test as it is written: one iteration, its own values, its registers at the
//! end. `specs/Machine` tells x86-TSO for that, and `specs/Outcome` what an execution of the test and its outcome are.
//! Neither knows of sequences, sources or frames.
//!
//! `laws` has one public function for each law of `specs/Laws`. Runs of one iteration and executions have the same
//! outcomes (`once_is_the_test`).
//!
//! `specs/Within` says when an atom holds within a frame: an rf atom then takes no later iteration. A run that is cut
//! down to a frame is an execution of the test, so what holds within it is an outcome, whatever the conjunction
//! (`frames_within_are_outcomes`), and each outcome is had within a frame (`outcomes_are_frames_within`). The logs tell
//! it (`conditions_agree_within`).
//!
//! A conjunction is steady if its rf atoms name stores of their reader's own thread. Where it holds at a frame, it holds
//! within it (`steady_holds_within`), and so it is an outcome of the test (`steady_hits_are_outcomes`). An ordered
//! conjunction is steady (`ordered_is_steady`, `hits_are_outcomes`). Of others this is false (`order_is_needed`).
//!
//! So where each conjunction is steady or never holds, a hit tells that x86-TSO allows the condition
//! (`seen_is_allowed`). Each outcome can be counted (`outcomes_are_countable`), and what never holds is none
//! (`never_is_impossible`).
#![tactic(auto)]

mod laws;

pub use laws::{
    conditions_agree_within, frames_within_are_outcomes, hits_are_outcomes, never_is_impossible,
    once_is_the_test, order_is_needed, ordered_is_steady, outcomes_are_countable,
    outcomes_are_frames_within, seen_is_allowed, steady_hits_are_outcomes, steady_holds_within,
};
