//! What the programs print of a test is so of the litmus test itself.
//!
//! A test of which each conjunction is steady or never holds is reported by `run` and by `replay` as not seen, with
//! counts of 0, or its condition is allowed: some execution of the test, once and with the values of its text, ends
//! with the registers that a conjunction asks for (`litmus_outcomes`). `laws` has one public function for each law of
//! `specs/Laws`: for the text of one run (`runs_report_what_is_allowed`), and for the bytes that a call of `perple`
//! writes (`perple_reports_what_is_allowed`).
//!
//! The laws of `specs/Told` are of the bytes that a call of `perple_tool` writes: a run from `show` says that the
//! condition is allowed, and can be counted with any number of iterations (`shown_is_allowed`); Forbidden, from `show`
//! or `verdict`, says that it is not, and that no run has a hit (`forbidden_is_impossible`). By `specs/Replayed` the run
//! that `perple_tool replay` tells is the one of which `perple replay` of the same words and text writes the report
//! (`replays_are_reported`).
#![tactic(auto)]

mod laws;

pub use laws::{
    forbidden_is_impossible, perple_reports_what_is_allowed, replays_are_reported,
    runs_report_what_is_allowed, shown_is_allowed,
};
