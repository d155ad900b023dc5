//! A forbidden outcome is never reported.
//!
//! A test is forbidden where none of its conjunctions ever holds, in any run of x86-TSO (`specs/Forbidden`): where each
//! has a cycle of edges or an atom that names a hidden store (`reasons_forbid`), as `show` says it, and so where
//! `verdict` answers `Forbidden` (`forbidden_verdicts_forbid`). The other laws of this crate carry that to the bytes
//! that `perple` writes: for such a test `run` and `replay` write `zero_text` (`specs/Texts`), whose counts are 0,
//! which lists no hit and which ends with `Seen no`.
//!
//! `laws` has one public function for each law of `specs/Laws`: beside those two, of one run
//! (`forbidden_runs_report_nothing`), of a text that is right for what the threads did
//! (`forbidden_runs_give_no_other_text`) or for a schedule (`forbidden_replays_give_no_other_text`), and of what the
//! clauses of `perple` say of a whole call (`perple_reports_nothing_forbidden`).
#![tactic(auto)]

mod laws;

pub use laws::{
    forbidden_replays_give_no_other_text, forbidden_runs_give_no_other_text,
    forbidden_runs_report_nothing, forbidden_verdicts_forbid, perple_reports_nothing_forbidden,
    reasons_forbid,
};

#[cfg(test)]
mod tests;
